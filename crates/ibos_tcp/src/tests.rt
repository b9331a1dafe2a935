// Segments at the edges of the rules, and the parts of two.
use super::*;
use ibos_kinds::{Dir, Proto, Rule};
use std::test::Fail;

const DST: u32 = 0xC000_020A;

const A: u32 = 0xC633_6401;

const B: u32 = 0xC633_6402;

#[test]
fn form_and_checksum_are_wanted(rt: HostRuntime) {
    let table: [(&str, u8, u32, &[u8], Dir, Option<Rule>); 27] = [
        (
            "ICMP",
            1,
            A,
            b"\x00\x50\x80\x00\x00\x00\x00\x01\x00\x00\x00\x01\x50\x18\x20\x00\x5e\xd5\x00\x00\
              \x61\x62\x63",
            Dir::In,
            Some(Rule::F9),
        ),
        ("protocol 0", 0, A, b"", Dir::In, Some(Rule::F9)),
        (
            "TCP, 19 bytes",
            6,
            A,
            b"\x00\x50\x80\x00\x00\x00\x00\x01\x00\x00\x00\x01\x50\x18\x20\x00\x23\x3b\x00",
            Dir::In,
            Some(Rule::F10),
        ),
        (
            "TCP, 20 bytes",
            6,
            A,
            b"\x00\x50\x80\x00\x00\x00\x00\x01\x00\x00\x00\x01\x50\x18\x20\x00\x23\x3b\x00\x00",
            Dir::In,
            None,
        ),
        (
            "TCP, an odd payload",
            6,
            A,
            b"\x00\x50\x80\x00\x00\x00\x00\x01\x00\x00\x00\x01\x50\x18\x20\x00\x5e\xd5\x00\x00\
              \x61\x62\x63",
            Dir::In,
            None,
        ),
        (
            "TCP, an even payload",
            6,
            A,
            b"\x00\x50\x80\x00\x00\x00\x00\x01\x00\x00\x00\x01\x50\x18\x20\x00\x5e\x70\x00\x00\
              \x61\x62\x63\x64",
            Dir::Out,
            None,
        ),
        (
            "TCP, data offset 4",
            6,
            A,
            b"\x00\x50\x80\x00\x00\x00\x00\x01\x00\x00\x00\x01\x40\x18\x20\x00\x6e\xd5\x00\x00\
              \x61\x62\x63",
            Dir::In,
            Some(Rule::F10),
        ),
        (
            "TCP, data offset at the end",
            6,
            A,
            b"\x00\x50\x80\x00\x00\x00\x00\x01\x00\x00\x00\x01\x60\x18\x20\x00\x11\x36\x00\x00\
              \x01\x01\x01\x00",
            Dir::Out,
            None,
        ),
        (
            "TCP, data offset past the end",
            6,
            A,
            b"\x00\x50\x80\x00\x00\x00\x00\x01\x00\x00\x00\x01\x60\x18\x20\x00\x11\x37\x00\x00\
              \x01\x01\x01",
            Dir::In,
            Some(Rule::F10),
        ),
        (
            "TCP, data offset 15",
            6,
            A,
            b"\x00\x50\x80\x00\x00\x00\x00\x01\x00\x00\x00\x01\xf0\x18\x20\x00\x0d\xfd\x00\x00\
              \x01\x01\x01\x01\x01\x01\x01\x01\x01\x01\x01\x01\x01\x01\x01\x01\x01\x01\x01\x01\
              \x01\x01\x01\x01\x01\x01\x01\x01\x01\x01\x01\x01\x01\x01\x01\x01\x01\x01\x01\x01\
              \x61",
            Dir::In,
            None,
        ),
        (
            "TCP, a checksum one too high",
            6,
            A,
            b"\x00\x50\x80\x00\x00\x00\x00\x01\x00\x00\x00\x01\x50\x18\x20\x00\x5e\xd6\x00\x00\
              \x61\x62\x63",
            Dir::In,
            Some(Rule::F11),
        ),
        (
            "TCP, a checksum one too low",
            6,
            A,
            b"\x00\x50\x80\x00\x00\x00\x00\x01\x00\x00\x00\x01\x50\x18\x20\x00\x5e\xd4\x00\x00\
              \x61\x62\x63",
            Dir::In,
            Some(Rule::F11),
        ),
        (
            "TCP, a changed last byte",
            6,
            A,
            b"\x00\x50\x80\x00\x00\x00\x00\x01\x00\x00\x00\x01\x50\x18\x20\x00\x5e\xd5\x00\x00\
              \x61\x62\x64",
            Dir::In,
            Some(Rule::F11),
        ),
        (
            "TCP, another address",
            6,
            B,
            b"\x00\x50\x80\x00\x00\x00\x00\x01\x00\x00\x00\x01\x50\x18\x20\x00\x5e\xd5\x00\x00\
              \x61\x62\x63",
            Dir::In,
            Some(Rule::F11),
        ),
        (
            "TCP, checksum 0",
            6,
            A,
            b"\x00\x50\x80\x00\x00\x00\x00\x01\x00\x00\x00\x01\x50\x18\x20\x00\x00\x00\x00\x00\
              \x61\x62\x63",
            Dir::In,
            Some(Rule::F11),
        ),
        (
            "UDP, 7 bytes",
            17,
            B,
            b"\x00\x50\x82\x00\x00\x08\x91",
            Dir::In,
            Some(Rule::F10),
        ),
        (
            "UDP, 8 bytes",
            17,
            B,
            b"\x00\x50\x82\x00\x00\x08\x91\x4d",
            Dir::In,
            None,
        ),
        (
            "UDP, length 7",
            17,
            B,
            b"\x00\x50\x82\x00\x00\x07\x00\x00\x68\x69",
            Dir::In,
            Some(Rule::F10),
        ),
        (
            "UDP, length 8 of 10",
            17,
            B,
            b"\x00\x50\x82\x00\x00\x08\x00\x00\x68\x69",
            Dir::In,
            None,
        ),
        (
            "UDP, length 8 of 10, going out",
            17,
            B,
            b"\x00\x50\x82\x00\x00\x08\x00\x00\x68\x69",
            Dir::Out,
            Some(Rule::F10),
        ),
        (
            "UDP, length at the end, no checksum",
            17,
            B,
            b"\x00\x50\x82\x00\x00\x0a\x00\x00\x68\x69",
            Dir::Out,
            None,
        ),
        (
            "UDP, length past the end",
            17,
            B,
            b"\x00\x50\x82\x00\x00\x0b\x00\x00\x68\x69",
            Dir::In,
            Some(Rule::F10),
        ),
        (
            "UDP, an odd payload",
            17,
            B,
            b"\x00\x50\x82\x00\x00\x0b\x07\xde\x68\x69\x21",
            Dir::Out,
            None,
        ),
        (
            "UDP, a byte after the length",
            17,
            B,
            b"\x00\x50\x82\x00\x00\x0b\x07\xde\x68\x69\x21\x3f",
            Dir::In,
            None,
        ),
        (
            "UDP, a checksum one too high",
            17,
            B,
            b"\x00\x50\x82\x00\x00\x0b\x07\xdf\x68\x69\x21",
            Dir::In,
            Some(Rule::F11),
        ),
        (
            "UDP, a checksum one too low",
            17,
            B,
            b"\x00\x50\x82\x00\x00\x0b\x07\xdd\x68\x69\x21",
            Dir::In,
            Some(Rule::F11),
        ),
        (
            "UDP, a checksum of all ones",
            17,
            B,
            b"\x00\x50\x82\x00\x00\x0a\xff\xff\x91\x49",
            Dir::In,
            None,
        ),
    ];
    for (name, protocol, src, bytes, dir, rule) in table {
        assert_eq!(rt;
            SegView::new(protocol, src, DST, bytes, dir).err(),
            rule,
            "{name}"
        );
    }
}

#[test]
fn parts_are_read(rt: HostRuntime) -> Result<(), Fail> {
    // TCP with options, and UDP with a byte after its length.
    let tcp = SegView::new(
        6,
        A,
        DST,
        b"\x00\x50\x80\x00\x00\x00\x00\x01\x00\x00\x00\x01\x60\x18\x20\x00\x4c\xd0\x00\x00\x01\
          \x01\x01\x00\x61\x62\x63",
        Dir::In,
    )?;
    assert_eq!(rt; tcp.proto(), Proto::Tcp);
    assert_eq!(rt; tcp.src_port(), 80);
    assert_eq!(rt; tcp.dst_port(), 32768);
    assert_eq!(rt; tcp.payload(), b"abc".as_slice());
    let udp = SegView::new(
        17,
        B,
        DST,
        b"\x00\x50\x82\x00\x00\x0b\x07\xde\x68\x69\x21\x3f",
        Dir::In,
    )?;
    assert_eq!(rt; udp.proto(), Proto::Udp);
    assert_eq!(rt; udp.src_port(), 80);
    assert_eq!(rt; udp.dst_port(), 33280);
    assert_eq!(rt; udp.payload(), b"hi!".as_slice());
    Ok(())
}

#[test]
fn a_pseudo_header_is_summed(rt: HostRuntime) {
    // C633 + 6401 + C000 + 020A + 0006 + 0017, with the carry.
    assert_eq!(rt; pseudo_sum(A, DST, 6, 23), 0xEC5C);
    assert_eq!(rt; pseudo_sum(A, DST, 6, 0x1_0017), 0xEC5C);
    assert_eq!(rt; pseudo_sum(0, 0, 0, 0), 0);
}
