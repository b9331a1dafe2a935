// Six frames by every view, frames that are built, and a drill of one round.
use super::*;
use crate::rounds::{drawn, next_number};
use ibos_eth::EthView;
use ibos_ip::IpView;
use ibos_kinds::{Act, Bytes, Dir, Endpoint, Instance, Key, Proto, Rule};
use ibos_tcp::SegView;
use std::alloc::Global;
use std::process::Abort;
use std::test::Fail;

// TCP to this machine, UDP to it without a checksum, and two frames of TCP that go out; then the
// second with options of IPv4, and the second with more fragments. Each is Ethernet, IPv4 and the
// rest.
const G1: &[u8] = b"\x02\x00\x00\x00\x00\x01\x02\x00\x00\x00\x00\xfe\x08\x00\
    \x45\x00\x00\x2b\x00\x01\x40\x00\x40\x06\x4e\x8d\xc6\x33\x64\x01\xc0\x00\x02\x0a\
    \x00\x50\x80\x00\x00\x00\x00\x01\x00\x00\x00\x01\x50\x18\x20\x00\x5e\xd5\x00\x00\x61\x62\x63";

const G2: &[u8] = b"\x02\x00\x00\x00\x00\x01\x02\x00\x00\x00\x00\xfe\x08\x00\
    \x45\x00\x00\x1e\x00\x02\x00\x00\x40\x11\x8e\x8d\xc6\x33\x64\x02\xc0\x00\x02\x0a\
    \x00\x50\x82\x00\x00\x0a\x00\x00\x68\x69";

const G3: &[u8] = b"\x02\x00\x00\x00\x00\xfe\x02\x00\x00\x00\x00\x01\x08\x00\
    \x45\x00\x00\x28\x00\x03\x40\x00\x40\x06\x4e\x8e\xc0\x00\x02\x0a\xc6\x33\x64\x01\
    \x80\x00\x00\x50\x00\x00\x00\x01\x00\x00\x00\x00\x50\x02\x20\x00\x23\x52\x00\x00";

const G4: &[u8] = b"\x02\x00\x00\x00\x00\xfe\x02\x00\x00\x00\x00\x01\x08\x00\
    \x45\x00\x00\x28\x00\x03\x40\x00\x40\x06\x4e\x8d\xc0\x00\x02\x0a\xc6\x33\x64\x02\
    \x80\x00\x00\x50\x00\x00\x00\x01\x00\x00\x00\x00\x50\x02\x20\x00\x23\x51\x00\x00";

const G5: &[u8] = b"\x02\x00\x00\x00\x00\x01\x02\x00\x00\x00\x00\xfe\x08\x00\
    \x46\x00\x00\x22\x00\x02\x00\x00\x40\x11\x8b\x88\xc6\x33\x64\x02\xc0\x00\x02\x0a\
    \x01\x01\x01\x00\x00\x50\x82\x00\x00\x0a\x00\x00\x68\x69";

const G6: &[u8] = b"\x02\x00\x00\x00\x00\x01\x02\x00\x00\x00\x00\xfe\x08\x00\
    \x45\x00\x00\x1e\x00\x02\x20\x00\x40\x11\x6e\x8d\xc6\x33\x64\x02\xc0\x00\x02\x0a\
    \x00\x50\x82\x00\x00\x0a\x00\x00\x68\x69";

const BUILT_TCP: &[u8] = b"\x02\x00\x00\x00\x00\x01\x02\x00\x00\x00\x00\xfe\x08\x00\
    \x45\x00\x00\x2b\x00\x00\x40\x00\x40\x06\x4e\x8e\xc6\x33\x64\x01\xc0\x00\x02\x0a\
    \x00\x50\x80\x00\x00\x00\x00\x01\x00\x00\x00\x01\x50\x18\x20\x00\x5e\xd5\x00\x00\x61\x62\x63";

const BUILT_UDP: &[u8] = b"\x02\x00\x00\x00\x00\x01\x02\x00\x00\x00\x00\xfe\x08\x00\
    \x45\x00\x00\x1f\x00\x00\x40\x00\x40\x11\x4e\x8e\xc6\x33\x64\x02\xc0\x00\x02\x0a\
    \x00\x35\x82\x00\x00\x0b\x07\xf9\x68\x69\x21";
// The checksum of UDP is computed as 0 here, and written as all ones.
const BUILT_ONES: &[u8] = b"\x02\x00\x00\x00\x00\x01\x02\x00\x00\x00\x00\xfe\x08\x00\
    \x45\x00\x00\x1e\x00\x00\x40\x00\x40\x11\x4e\x8f\xc6\x33\x64\x02\xc0\x00\x02\x0a\
    \x00\x50\x82\x00\x00\x0a\xff\xff\x91\x49";

const HERE: u32 = 0xC000_020A;

const A: u32 = 0xC633_6401;

const B: u32 = 0xC633_6402;

// The first rule that one of the views refuses the frame by.
fn first_rule(frame: &[u8], dir: Dir) -> Result<(), Rule> {
    let eth = EthView::new(frame)?;
    let ip = IpView::new(eth.payload(), dir)?;
    let _ = SegView::new(ip.protocol(), ip.src(), ip.dst(), ip.payload(), dir)?;
    Ok(())
}

#[test]
fn views_refuse_by_direction(rt: HostRuntime) {
    let table: [(&[u8], Dir, Result<(), Rule>); 12] = [
        (G1, Dir::In, Ok(())),
        (G2, Dir::In, Ok(())),
        (G3, Dir::In, Ok(())),
        (G4, Dir::In, Ok(())),
        (G5, Dir::In, Ok(())),
        (G6, Dir::In, Err(Rule::F7)),
        (G1, Dir::Out, Ok(())),
        (G2, Dir::Out, Ok(())),
        (G3, Dir::Out, Ok(())),
        (G4, Dir::Out, Ok(())),
        (G5, Dir::Out, Err(Rule::F5)),
        (G6, Dir::Out, Err(Rule::F7)),
    ];
    for (frame, dir, rule) in table {
        assert_eq!(rt; first_rule(frame, dir), rule, "{frame:?}");
    }
}

#[test]
fn views_give_the_parts(rt: HostRuntime) -> Result<(), Fail> {
    let table: [(&[u8], u32, u32, Proto, u16, u16, &[u8]); 5] = [
        (G1, A, HERE, Proto::Tcp, 80, 32768, b"abc"),
        (G2, B, HERE, Proto::Udp, 80, 33280, b"hi"),
        (G3, HERE, A, Proto::Tcp, 32768, 80, b""),
        (G4, HERE, B, Proto::Tcp, 32768, 80, b""),
        (G5, B, HERE, Proto::Udp, 80, 33280, b"hi"),
    ];
    for (frame, src, dst, proto, src_port, dst_port, payload) in table {
        let eth = EthView::new(frame)?;
        let ip = IpView::new(eth.payload(), Dir::In)?;
        let seg = SegView::new(ip.protocol(), ip.src(), ip.dst(), ip.payload(), Dir::In)?;
        assert_eq!(rt; (ip.src(), ip.dst()), (src, dst), "{frame:?}");
        assert_eq!(rt; seg.proto(), proto, "{frame:?}");
        assert_eq!(rt;
            (seg.src_port(), seg.dst_port()),
            (src_port, dst_port),
            "{frame:?}"
        );
        assert_eq!(rt; seg.payload(), payload, "{frame:?}");
        assert!(rt; ip.tail().is_empty());
    }
    Ok(())
}

// Builds a frame from that end to this machine, and compares it.
fn check(
    rt: &impl Abort,
    alloc: Global,
    src: Endpoint,
    port: u16,
    proto: Proto,
    payload: &[u8],
    wanted: &[u8],
) -> Result<(), Fail> {
    let mut bytes = Bytes::new(alloc);
    bytes.push_slice(payload)?;
    assert!(rt; bytes.len() <= 1460);
    let spec = FrameSpec {
        to: 0x0200_0000_0001,
        from: 0x0200_0000_00fe,
        src,
        dst: Endpoint { addr: HERE, port },
        proto,
        payload: bytes,
    };
    let frame = build(alloc, &spec)?;
    assert_eq!(rt; frame.as_slice(), wanted);
    Ok(())
}

#[test]
fn frames_are_built(rt: HostRuntime) -> Result<(), Fail> {
    let alloc = rt.alloc();
    check(
        &rt,
        alloc,
        Endpoint { addr: A, port: 80 },
        32768,
        Proto::Tcp,
        b"abc",
        BUILT_TCP,
    )?;
    check(
        &rt,
        alloc,
        Endpoint { addr: B, port: 53 },
        33280,
        Proto::Udp,
        b"hi!",
        BUILT_UDP,
    )?;
    check(
        &rt,
        alloc,
        Endpoint { addr: B, port: 80 },
        33280,
        Proto::Udp,
        b"\x91\x49",
        BUILT_ONES,
    )?;
    frames_law();
    Ok(())
}

#[test]
fn a_drill_of_one_round_has_89_acts(rt: HostRuntime) -> Result<(), Fail> {
    let alloc = rt.alloc();
    let number = next_number(1);
    assert_eq!(rt; number, 7_806_831_264_735_756_412);
    assert_eq!(rt; drawn(number), 908_834_774);
    let mut drill = Drill::new(1, 1);
    for _ in 0..86 {
        assert!(rt; drill.next(alloc)?.is_some());
    }
    let mut pixels = Bytes::new(alloc);
    pixels.push_slice(b"&")?;
    let who = Instance { tab: 2, ord: 0 };
    let acts = [
        Act::Switch { tab: 2 },
        Act::Press {
            key: Key::Byte(b'&'),
        },
        Act::Draw {
            who,
            row: 13,
            col: 21,
            height: 1,
            width: 1,
            pixels,
        },
    ];
    for act in &acts {
        let Some(next) = drill.next(alloc)? else {
            panic!(rt; "the drill ended before {act:?}")
        };
        assert_eq!(rt; &next, act);
    }
    assert!(rt; drill.next(alloc)?.is_none());
    let hosts = drill_hosts(alloc)?;
    assert_eq!(rt; hosts.address(b"h7.example"), Some(0xc633_6407));
    Ok(())
}
