// Frames at the edges of the rules, and the fields of one.
use super::*;
use ibos_kinds::Rule;
use std::test::Fail;

const FRAME: &[u8] = b"\x02\x00\x00\x00\x00\x01\x02\x00\x00\x00\x00\xfe\x08\x00\x45\x00";

#[test]
fn a_header_of_ipv4_is_wanted(rt: HostRuntime) {
    let table = [
        (&FRAME[..0], Some(Rule::F1)),
        (&FRAME[..13], Some(Rule::F1)),
        (&FRAME[..14], None),
        (FRAME, None),
        // 802.1Q, ARP, IPv6, and a length in place of a type.
        (
            b"\x02\x00\x00\x00\x00\x01\x02\x00\x00\x00\x00\xfe\x81\x00\x00\x05\x08\x00".as_slice(),
            Some(Rule::F2),
        ),
        (
            b"\x02\x00\x00\x00\x00\x01\x02\x00\x00\x00\x00\xfe\x08\x06".as_slice(),
            Some(Rule::F2),
        ),
        (
            b"\x02\x00\x00\x00\x00\x01\x02\x00\x00\x00\x00\xfe\x86\xdd".as_slice(),
            Some(Rule::F2),
        ),
        (
            b"\x02\x00\x00\x00\x00\x01\x02\x00\x00\x00\x00\xfe\x00\x08".as_slice(),
            Some(Rule::F2),
        ),
    ];
    for (frame, rule) in table {
        assert_eq!(rt; EthView::new(frame).err(), rule, "{frame:?}");
    }
}

#[test]
fn fields_are_read(rt: HostRuntime) -> Result<(), Fail> {
    let view = EthView::new(FRAME)?;
    assert_eq!(rt; view.dest(), 0x0200_0000_0001);
    assert_eq!(rt; view.source(), 0x0200_0000_00fe);
    assert_eq!(rt; view.payload(), b"\x45\x00".as_slice());
    Ok(())
}
