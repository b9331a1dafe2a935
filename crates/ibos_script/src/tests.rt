use super::*;
use ibos_kinds::{Act, Bytes, Handle, Instance, Key, Memory, Proto, Side};
use std::alloc::Global;
use std::process::Abort;
use std::test::Fail;

fn bytes(alloc: Global, text: &[u8]) -> Result<Bytes, Memory> {
    let mut bytes = Bytes::new(alloc);
    bytes.push_slice(text)?;
    Ok(bytes)
}

fn says(rt: &impl Abort, alloc: Global, line: &[u8], act: Act) {
    assert!(rt; read_line(alloc, line) == Ok(Some(Line::Act(act))));
}

#[test]
fn each_act_is_read(rt: HostRuntime) -> Result<(), Fail> {
    let alloc = rt.alloc();
    let who = Instance { tab: 63, ord: 31 };
    let url = bytes(alloc, b"a b  ")?;
    says(
        &rt,
        alloc,
        b"  user   open  63  a b  ",
        Act::Start { tab: 63, url },
    );
    says(
        &rt,
        alloc,
        b"user switch 0000000007",
        Act::Switch { tab: 7 },
    );
    says(&rt, alloc, b" user  close  63 ", Act::Close { tab: 63 });
    let keys = [
        (b"user key enter".as_slice(), Key::Enter),
        (b" user  key  back ", Key::Back),
        (b"user key 7E", Key::Byte(0x7e)),
    ];
    for (line, key) in keys {
        says(&rt, alloc, line, Act::Press { key });
    }
    let (row, col) = (4294967295, 0);
    says(
        &rt,
        alloc,
        b"user click 4294967295 00",
        Act::Click { row, col },
    );
    says(&rt, alloc, b" user look ", Act::Look);
    let url = Bytes::new(alloc);
    says(&rt, alloc, b"page 63.31 go", Act::Go { who, url });
    let draw = Act::Draw {
        who,
        row: 20,
        col: 77,
        height: 1,
        width: 2,
        pixels: bytes(alloc, b"JK")?,
    };
    says(&rt, alloc, b"page 63.31 draw 20 77 1 2 4a4B", draw);
    let (side, text) = (Side::Net, bytes(alloc, b"a = 1 ")?);
    says(
        &rt,
        alloc,
        b"net 063.31  cookie  set   a = 1 ",
        Act::CookieSet { side, who, text },
    );
    let side = Side::Page;
    says(
        &rt,
        alloc,
        b"page 63.31 cookie get ",
        Act::CookieGet { side, who },
    );
    Ok(())
}

#[test]
fn each_act_of_the_network_is_read(rt: HostRuntime) -> Result<(), Fail> {
    let alloc = rt.alloc();
    let who = Instance { tab: 63, ord: 31 };
    let (proto, flow) = (Proto::Udp, 15);
    says(
        &rt,
        alloc,
        b"net  63.31 flow udp ",
        Act::Bind { who, proto },
    );
    says(
        &rt,
        alloc,
        b"net 63.31 close 015",
        Act::Unbind { who, flow },
    );
    let (offset, value) = (0xc0, 0xffff_fffe);
    says(&rt, alloc, b"dev read 0xC0", Act::RegRead { offset });
    says(
        &rt,
        alloc,
        b"dev write 0x000000c0 0xFfFfFfFe",
        Act::RegWrite { offset, value },
    );
    let handle = Handle { name: 255, turn: 7 };
    let slot = 4294967295;
    says(
        &rt,
        alloc,
        b"dev rx 4294967295 255 7",
        Act::RxPost { slot, handle },
    );
    let frame = bytes(alloc, b"JK")?;
    says(&rt, alloc, b"wire in 4a4B", Act::WireIn { frame });
    assert!(rt; read_line(alloc, b" wire  next ") == Ok(Some(Line::NextFrame)));
    Ok(())
}

#[test]
fn each_act_of_sends_and_stored_objects_is_read(rt: HostRuntime) -> Result<(), Fail> {
    let alloc = rt.alloc();
    let who = Instance { tab: 63, ord: 31 };
    let fill = Act::Fill {
        who,
        buffer: 3,
        place: 2047,
        bytes: bytes(alloc, b"JK")?,
    };
    says(&rt, alloc, b"net 63.31  fill 3 02047 4a4B ", fill);
    let (buffer, len) = (0, 55);
    says(
        &rt,
        alloc,
        b"net 63.31 submit 00 55",
        Act::Submit { who, buffer, len },
    );
    let (slot, send) = (63, 4294967295);
    says(
        &rt,
        alloc,
        b"dev tx 63 4294967295",
        Act::TxPost { slot, send },
    );
    says(&rt, alloc, b"dev bell tx", Act::TxBell);
    says(&rt, alloc, b"wire  out ", Act::WireOut);
    let put = Act::Put {
        who,
        key: bytes(alloc, b"-")?,
        bytes: Bytes::new(alloc),
    };
    says(&rt, alloc, b"page 63.31 put - -", put);
    let ask = Act::Ask {
        who,
        key: bytes(alloc, b"k%20")?,
    };
    says(&rt, alloc, b"page 63.31 ask  k%20 ", ask);
    let answer = Act::StoreAnswer {
        who,
        request: 7,
        origin: bytes(alloc, b"http://a.example")?,
        key: bytes(alloc, b"k")?,
        version: 2,
    };
    says(
        &rt,
        alloc,
        b"store answer 63.31 7 http://a.example k 2",
        answer,
    );
    let request = 7;
    says(
        &rt,
        alloc,
        b"store none 63.31 7",
        Act::StoreNone { who, request },
    );
    let lose = Act::StoreLose {
        origin: bytes(alloc, b"a")?,
        key: bytes(alloc, b"k")?,
        version: 0,
    };
    says(&rt, alloc, b" store lose a k 0", lose);
    Ok(())
}

#[test]
fn other_lines_are_passed_over_or_refused(rt: HostRuntime) {
    for line in [b"".as_slice(), b"   ", b"# user open 0 a"] {
        assert!(rt; read_line(rt.alloc(), line) == Ok(None));
    }
    let faults = [
        (b"user open 64 a\x7f".as_slice(), LineFault::Byte),
        (b"#\xc3\xa4", LineFault::Byte),
        (b" #", LineFault::Word),
        (b"user", LineFault::Word),
        (b"page 64.0 cookie", LineFault::Word),
        (b"net 0.0 draw 0 0 1 1 78", LineFault::Word),
        (b"user open ", LineFault::Count),
        (b"user switch 64 2", LineFault::Count),
        (b"page 64.0 draw 0 0 1 1", LineFault::Count),
        (b"user open 00000000007 a", LineFault::Number),
        (b"user open -1 a", LineFault::Number),
        (b"page 0.32 go", LineFault::Number),
        (b"net 0 cookie set a=1", LineFault::Number),
        (b"user key 7f", LineFault::Number),
        (b"page 0.0 draw 0 0 1 x 7", LineFault::Number),
        (b"page 0.0 draw 0 0 1 1 7", LineFault::Hex),
        (b"net 99.0 flow icmp", LineFault::Word),
        (b"net 99.0 flow tcp x", LineFault::Count),
        (b"net 0.0 close 16", LineFault::Number),
        (b"page 0.0 done", LineFault::Word),
        (b"dev bell", LineFault::Word),
        (b"dev bell rx 0", LineFault::Count),
        (b"dev read 0X0", LineFault::Number),
        (b"dev read 0x", LineFault::Number),
        (b"dev write 0x0 0x000000001", LineFault::Number),
        (b"dev rx 0 256 0", LineFault::Number),
        (b"wire nex", LineFault::Word),
        (b"wire next 0", LineFault::Count),
        (b"wire in", LineFault::Count),
        (b"wire in 0x", LineFault::Hex),
        (b"wire out 0", LineFault::Count),
        (b"net 0.0 fill 4 0 7", LineFault::Number),
        (b"net 0.0 fill 3 0 7", LineFault::Hex),
        (b"page 64.0 put k 7", LineFault::Number),
        (b"page 0.0 put k", LineFault::Count),
        (b"page 0.0 ask k 0", LineFault::Count),
        (b"store", LineFault::Word),
        (b"store answer 0.0 0 a 0", LineFault::Count),
        (b"store answer 0.32 0 a k x", LineFault::Number),
        (b"store lose a k -1", LineFault::Number),
    ];
    for (line, fault) in faults {
        assert!(rt; read_line(rt.alloc(), line) == Err(fault));
    }
}
