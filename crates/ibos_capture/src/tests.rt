// Captures of two entries, in each byte order.
use crate::{CapFault, CaptureFault, Index, IndexReader, captures_law};
use std::alloc::Global;
use std::test::Fail;

const BIG: &[u8] = b"\xa1\xb2\x3c\x4d\x00\x02\x00\x04\x00\x00\x00\x00\x00\x00\x00\x00\
    \x00\x00\xff\xff\x00\x00\x00\x01\
    \x00\x00\x00\x00\x00\x00\x00\x00\x00\x00\x00\x03\x00\x00\x00\x2c\x61\x62\x63\
    \x00\x00\x00\x00\x00\x00\x00\x00\x00\x00\x00\x02\x00\x00\x00\x02\x68\x69";

const LITTLE: &[u8] = b"\xd4\xc3\xb2\xa1\x02\x00\x04\x00\x00\x00\x00\x00\x00\x00\x00\x00\
    \xff\xff\x00\x00\x01\x00\x00\x00\
    \x00\x00\x00\x00\x00\x00\x00\x00\x03\x00\x00\x00\x2c\x00\x00\x00\x61\x62\x63\
    \x00\x00\x00\x00\x00\x00\x00\x00\x02\x00\x00\x00\x02\x00\x00\x00\x68\x69";

fn fault_of(alloc: Global, bytes: &[u8]) -> Option<CaptureFault> {
    match Index::read(alloc, bytes) {
        Ok(_) => None,
        Err(fault) => Some(fault),
    }
}

#[test]
fn captures_are_read_in_either_byte_order(rt: HostRuntime) -> Result<(), Fail> {
    for bytes in [BIG, LITTLE] {
        let index = Index::read(rt.alloc(), bytes)?;
        assert_eq!(rt; index.len(), 2);
        assert_eq!(rt; index.frame(0), (40, 3));
        assert_eq!(rt; index.frame(1), (59, 2));
    }
    for (len, entry, fault) in [
        (3, 0, CapFault::Magic),
        (23, 0, CapFault::Cut),
        (39, 1, CapFault::Cut),
        (60, 2, CapFault::Cut),
    ] {
        let at = CaptureFault::At { entry, fault };
        assert_eq!(rt; fault_of(rt.alloc(), &BIG[..len]), Some(at));
    }
    assert_eq!(rt; fault_of(rt.alloc(), &BIG[..24]), None);
    captures_law();
    Ok(())
}

#[test]
fn headers_alone_give_the_index(rt: HostRuntime) -> Result<(), Fail> {
    for bytes in [BIG, LITTLE] {
        let mut reader = IndexReader::begin(rt.alloc(), &bytes[..24])?;
        assert_eq!(rt; reader.next_len(&bytes[24..40]), Ok(3));
        reader.push(3)?;
        assert_eq!(rt; reader.place(), 43);
        let cut = CaptureFault::At {
            entry: 2,
            fault: CapFault::Cut,
        };
        assert_eq!(rt; reader.next_len(&bytes[43..50]), Err(cut));
        assert_eq!(rt; reader.cut(), cut);
        assert_eq!(rt; reader.next_len(&bytes[43..59]), Ok(2));
        reader.push(2)?;
        let index = reader.finish();
        assert_eq!(rt; index.len(), 2);
        assert_eq!(rt; index.frame(1), (59, 2));
    }
    Ok(())
}
