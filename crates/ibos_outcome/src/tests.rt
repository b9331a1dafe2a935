use super::*;
use ibos_kinds::{Bytes, Endpoint, Handle, Head, Instance, Item, Memory, Outcome, Rule};
use std::alloc::Global;
use std::process::Abort;
use std::test::Fail;

fn bytes(alloc: Global, text: &[u8]) -> Result<Bytes, Memory> {
    let mut bytes = Bytes::new(alloc);
    bytes.push_slice(text)?;
    Ok(bytes)
}

#[test]
fn outcomes_are_printed_line_by_line(rt: HostRuntime) -> Result<(), Fail> {
    let alloc = rt.alloc();
    let mut text = bytes(alloc, b"before\n")?;
    let mut outcome = Outcome::new(alloc);
    write_outcome(alloc, 0, &outcome, &mut text)?;
    outcome.push(Item::Opened {
        who: Instance { tab: 0, ord: 31 },
        url: bytes(alloc, b"http://a.example/")?,
    })?;
    outcome.push(Item::Moved {
        who: Instance { tab: 7, ord: 8 },
        url: bytes(alloc, b"http://b.example/")?,
    })?;
    outcome.push(Item::Ended {
        who: Instance { tab: 9, ord: 9 },
    })?;
    outcome.push(Item::Cookies {
        who: Instance { tab: 63, ord: 0 },
        text: bytes(alloc, b"a=1; b=2")?,
    })?;
    outcome.push(Item::Cookies {
        who: Instance { tab: 10, ord: 2 },
        text: Bytes::new(alloc),
    })?;
    outcome.push(Item::KeyTo {
        who: Instance { tab: 63, ord: 31 },
        byte: 0x0a,
    })?;
    outcome.push(Item::ClickTo {
        who: Instance { tab: 0, ord: 0 },
        row: 21,
        col: 79,
    })?;
    outcome.push(Item::RowIs {
        row: 24,
        text: bytes(alloc, b" x|")?,
    })?;
    outcome.push(Item::FlowIs {
        who: Instance { tab: 1, ord: 0 },
        flow: 15,
        port: 33280,
        remote: Endpoint {
            addr: 0xff00_0a01,
            port: 8080,
        },
    })?;
    outcome.push(Item::Arrived {
        who: Instance { tab: 1, ord: 0 },
        flow: 3,
        bytes: Bytes::new(alloc),
    })?;
    outcome.push(Item::ValueIs { value: 0xc0ffee })?;
    outcome.push(Item::RowIs {
        row: 2,
        text: Bytes::new(alloc),
    })?;
    write_outcome(alloc, 1024, &outcome, &mut text)?;
    outcome.clear();
    outcome.head = Head::Denied(Rule::U8);
    write_outcome(alloc, 18446744073709551615, &outcome, &mut text)?;
    let wanted = b"before\n\
        0 ok\n\
        1024 ok\n\
        1024 0.31 opened http://a.example/\n\
        1024 7.8 at http://b.example/\n\
        1024 9.9 ended\n\
        1024 63.0 cookies a=1; b=2\n\
        1024 10.2 cookies -\n\
        1024 63.31 key 0a\n\
        1024 0.0 click 21 79\n\
        1024 user row 24 | x|\n\
        1024 1.0 flow 15 33280 255.0.10.1 8080\n\
        1024 1.0 frame 3 -\n\
        1024 dev value 00c0ffee\n\
        1024 user row 2 |\n\
        18446744073709551615 denied U8 LongOrigin\n";
    assert_eq!(rt; text.as_slice(), wanted.as_slice());
    Ok(())
}

#[test]
fn sends_and_stored_objects_are_printed(rt: HostRuntime) -> Result<(), Fail> {
    let alloc = rt.alloc();
    let mut text = Bytes::new(alloc);
    let mut outcome = Outcome::new(alloc);
    let who = Instance { tab: 1, ord: 2 };
    outcome.push(Item::Home { who, buffer: 3 })?;
    outcome.push(Item::Idle)?;
    outcome.push(Item::Accepted {
        send: 9,
        who,
        bytes: bytes(alloc, [0xabu8; 130].as_slice())?,
    })?;
    outcome.push(Item::Object {
        who,
        request: 4,
        version: 5,
        bytes: Bytes::new(alloc),
    })?;
    outcome.push(Item::StorePut {
        origin: bytes(alloc, b"http://a.example")?,
        key: bytes(alloc, b"k")?,
        version: 5,
        len: 600,
    })?;
    outcome.push(Item::StoreAsk {
        who,
        request: 4,
        origin: bytes(alloc, b"http://a.example")?,
        key: bytes(alloc, b"k")?,
    })?;
    write_outcome(alloc, 8, &outcome, &mut text)?;
    let mut wanted = bytes(
        alloc,
        b"8 ok\n\
        8 1.2 home 3\n\
        8 wire idle\n\
        8 log frame 9 1.2 ",
    )?;
    for _ in 0..130 {
        wanted.push_slice(b"ab")?;
    }
    wanted.push_slice(
        b"\n\
        8 1.2 object 4 5 -\n\
        8 store put http://a.example k 5 600\n\
        8 store ask 1.2 4 http://a.example k\n",
    )?;
    assert_eq!(rt; text.as_slice(), wanted.as_slice());
    Ok(())
}

const EVERY_ITEM: &[u8] = b"7 denied F10 SegForm\n\
    7 0.31 opened http://a.example/ x \n\
    7 7.8 at \n\
    7 9.9 ended\n\
    7 63.31 key 0a\n\
    7 0.0 click 255 79\n\
    7 63.0 cookies a=1; b=2\n\
    7 63.0 cookies -\n\
    7 63.0 cookies --\n\
    7 user row 24 | x|\n\
    7 user row 2 |\n\
    7 1.0 flow 15 33280 255.0.10.1 8080\n\
    7 1.0 frame 3 -\n\
    7 1.0 frame 3 00ff7e\n\
    7 dev value 00c0ffee\n\
    7 dev lent 255 4294967295\n\
    7 wire filtered\n\
    7 wire missed\n\
    7 wire heard\n\
    7 log drop F14 InboxFull\n\
    7 1.2 home 3\n\
    7 dev send 9\n\
    7 dev returned 9\n\
    7 wire sent 9\n\
    7 wire idle\n\
    7 log frame 9 1.2 abcd\n\
    7 1.2 version 5\n\
    7 1.2 request 4\n\
    7 1.2 object 4 5 00\n\
    7 1.2 none 4\n\
    7 store put http://a.example k 5 600\n\
    7 store ask 1.2 4 http://a.example k\n";

#[test]
fn each_item_is_read_from_its_text(rt: HostRuntime) -> Result<(), Fail> {
    let alloc = rt.alloc();
    let (number, outcome, len) = read_outcome(alloc, EVERY_ITEM)?;
    assert_eq!(rt; number, 7);
    assert_eq!(rt; outcome.head, Head::Denied(Rule::F10));
    assert_eq!(rt; len, EVERY_ITEM.len());
    let items = outcome.items.as_slice();
    assert_eq!(rt; items.len(), 31);
    let flow = Item::FlowIs {
        who: Instance { tab: 1, ord: 0 },
        flow: 15,
        port: 33280,
        remote: Endpoint {
            addr: 0xff00_0a01,
            port: 8080,
        },
    };
    assert!(rt; items[10] == flow);
    let lent = Item::LentIs {
        handle: Handle {
            name: 255,
            turn: 4294967295,
        },
    };
    assert!(rt; items[14] == lent);
    let mut text = Bytes::new(alloc);
    write_outcome(alloc, number, &outcome, &mut text)?;
    assert_eq!(rt; text.as_slice(), EVERY_ITEM);
    Ok(())
}

// How many bytes are read, none where the text is refused.
fn read_len(alloc: Global, text: &[u8]) -> Result<usize, OutcomeFault> {
    match read_outcome(alloc, text) {
        Ok((_, _, len)) => Ok(len),
        Err(OutcomeFault::NotCanonical) => Ok(0),
        Err(fault) => Err(fault),
    }
}

#[test]
fn the_longest_canonical_front_is_read(rt: HostRuntime) -> Result<(), Fail> {
    let alloc = rt.alloc();
    let heads = [
        (b"".as_slice(), 0),
        (b"\n", 0),
        (b"1 ok", 0),
        (b"1 OK\n", 0),
        (b"1  ok\n", 0),
        (b"1 ok \n", 0),
        (b" 1 ok\n", 0),
        (b"01 ok\n", 0),
        (b"+1 ok\n", 0),
        (b"18446744073709551616 ok\n", 0),
        (b"18446744073709551615 ok\n", 24),
        (b"1 denied U1 TabClosed\n", 0),
        (b"1 denied U13 TabInUse\n", 0),
        (b"1 denied U1 TabInUse\n", 21),
        (b"1 ok\n1 ok\n", 5),
        (b"1 ok\n2 ok\n", 5),
        (b"1 ok\n1 0.0 ended\n1 ok\n", 17),
        (b"1 ok\n1 0.0 ended\n2 0.0 ended\n", 17),
        (b"1 ok\n1 0.0 ended\n1 0.0 ended", 17),
    ];
    for (text, len) in heads {
        assert_eq!(rt; read_len(alloc, text)?, len);
    }
    let others = [
        b"1 ok\n2 0.0 ended\n".as_slice(),
        b"1 ok\n01 0.0 ended\n",
        b"1 ok\n1 0.0 ended \n",
        b"1 ok\n1 64.0 ended\n",
        b"1 ok\n1 0.32 ended\n",
        b"1 ok\n1 00.0 ended\n",
        b"1 ok\n1 0.0 opened \x7f\n",
        b"1 ok\n1 0.0 key 0A\n",
        b"1 ok\n1 0.0 click 256 0\n",
        b"1 ok\n1 0.0 cookies \n",
        b"1 ok\n1 0.0 flow 16 1 1.2.3.4 5\n",
        b"1 ok\n1 0.0 flow 1 1 1.2.3.04 5\n",
        b"1 ok\n1 0.0 frame 16 -\n",
        b"1 ok\n1 0.0 frame 1 0\n",
        b"1 ok\n1 user row 3 |a \n",
        b"1 ok\n1 user row 3 a\n",
        b"1 ok\n1 dev value 0\n",
        b"1 ok\n1 wire sent 4294967296\n",
        b"1 ok\n1 log drop F1 Long\n",
        b"1 ok\n1 store put http://a  5 6\n",
    ];
    for text in others {
        assert_eq!(rt; read_len(alloc, text)?, 5);
    }
    let mut row = bytes(alloc, b"1 ok\n1 user row 3 |")?;
    row.push_slice([b'x'; 80].as_slice())?;
    let mut longer = row.copy(alloc)?;
    row.push_slice(b"\n")?;
    longer.push_slice(b"x\n")?;
    assert_eq!(rt; read_len(alloc, row.as_slice())?, row.len());
    assert_eq!(rt; read_len(alloc, longer.as_slice())?, 5);
    Ok(())
}
