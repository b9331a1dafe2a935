use super::*;
use std::alloc::Global;
use std::process::Abort;
use std::test::Fail;

#[test]
fn bytes_items_and_rules_are_what_they_say(rt: HostRuntime) -> Result<(), Fail> {
    let alloc = rt.alloc();
    let mut text = Bytes::from_slice(alloc, b"a=")?;
    text.reserve(10)?;
    text.push_slice(b"b")?;
    let copy = text.copy(alloc)?;
    assert_eq!(rt; copy.as_slice(), b"a=b".as_slice());
    assert_eq!(rt; copy.len(), 3);
    text.clear();
    assert!(rt; text.is_empty() && copy != text);

    let who = Instance { tab: 1, ord: 2 };
    let mut outcome = Outcome::new(alloc);
    outcome.push(Item::Cookies { who, text: copy })?;
    outcome.head = Head::Denied(Rule::C2);
    assert_eq!(rt; outcome.items.as_slice().len(), 1);
    outcome.clear();
    assert_eq!(rt; outcome.head, Head::Ok);
    assert!(rt; outcome.items.as_slice().is_empty());

    let url = Bytes::new(alloc);
    for (act, party) in [
        (Act::Look, Party::User),
        (Act::Go { who, url }, Party::Page(who)),
    ] {
        assert!(rt; actor(&act) == party);
    }
    let text = Bytes::new(alloc);
    for (item, party) in [
        (Item::KeyTo { who, byte: 0x08 }, Party::Page(who)),
        (Item::RowIs { row: 0, text }, Party::User),
    ] {
        assert!(rt; addressee(&item) == party);
    }

    assert_eq!(rt; Rule::F14.code(), "F14");
    assert_eq!(rt; Rule::F14.name(), "InboxFull");
    assert_eq!(rt; Rule::U12.name(), "OffScreen");
    Ok(())
}

#[test]
fn acts_fit_up_to_their_bounds(rt: HostRuntime) -> Result<(), Fail> {
    for (tab, ord, fits) in [(63u8, 31u8, true), (64, 31, false), (63, 32, false)] {
        let who = Instance { tab, ord };
        let side = Side::Net;
        assert_eq!(rt; Act::CookieGet { side, who }.fits(), fits);
    }
    assert!(rt; Act::Switch { tab: 63 }.fits() && !Act::Close { tab: 64 }.fits());
    for (byte, fits) in [(0x1fu8, false), (0x20, true), (0x7e, true), (0x7f, false)] {
        let key = Key::Byte(byte);
        assert_eq!(rt; Act::Press { key }.fits(), fits);
    }
    assert!(rt; Act::Press { key: Key::Enter }.fits() && Act::Press { key: Key::Back }.fits());
    assert!(rt; Act::Look.fits() && Act::Click { row: 25, col: 80 }.fits());
    Ok(())
}

// Reads a file of four bytes by three calls.
fn read(rt: &impl Abort, cabinet: &mut MemCabinet, name: &Bytes, wanted: &[Result<usize, Failed>]) {
    let mut piece = [0; 3];
    let mut place = 0u64;
    for want in wanted {
        let got = cabinet.read_at(name, place, &mut piece);
        assert_eq!(rt; got, *want);
        place = place.saturating_add(2);
    }
}

#[test]
fn a_cabinet_in_memory_fails_where_it_is_told_to(rt: HostRuntime) -> Result<(), Fail> {
    let alloc = rt.alloc();
    let name = Bytes::from_slice(alloc, b"f")?;
    let mut cabinet = MemCabinet::new(alloc);
    cabinet.put(
        Bytes::from_slice(alloc, b"f")?,
        Bytes::from_slice(alloc, b"old")?,
    )?;
    cabinet.put(
        Bytes::from_slice(alloc, b"f")?,
        Bytes::from_slice(alloc, b"data")?,
    )?;
    cabinet.piece(2);
    cabinet.fail(1)?;
    read(
        &rt,
        &mut cabinet,
        &name,
        &[Ok(2), Err(Failed::Failed), Ok(0)],
    );
    read(
        &rt,
        &mut cabinet,
        &Bytes::from_slice(alloc, b"g")?,
        &[Err(Failed::Failed)],
    );
    Ok(())
}

#[test]
fn a_sink_in_memory_takes_what_it_has_room_for(rt: HostRuntime) -> Result<(), Fail> {
    let mut sink = MemSink::new(rt.alloc(), 5)?;
    sink.piece(3);
    sink.fail(1)?;
    assert_eq!(rt; sink.write(b"abcd"), Ok(3));
    assert_eq!(rt; sink.write(b"d"), Err(Failed::Failed));
    assert_eq!(rt; sink.write(b"def"), Ok(2));
    assert_eq!(rt; sink.write(b"f"), Err(Failed::Failed));
    assert_eq!(rt; sink.write(b""), Ok(0));
    assert_eq!(rt; sink.taken(), b"abcde".as_slice());
    Ok(())
}

#[test]
fn sums_fold_their_carries(rt: HostRuntime) -> Result<(), Fail> {
    assert_eq!(rt; sum_words(0, b"\x00\x01\xf2\x03\xf4\xf5\xf6\xf7"), 0xddf2);
    assert_eq!(rt; sum16(b"\x00\x01\xf2\x03\xf4\xf5\xf6\xf7"), 0x220d);
    assert_eq!(rt; sum_words(0xffff, b"\xff\xff\x01"), 0x0100);
    assert_eq!(rt; sum16(b""), 0xffff);
    Ok(())
}
