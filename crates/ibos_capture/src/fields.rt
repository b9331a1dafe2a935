// Numbers in the byte order of a capture.
ghost use Rattle.std.specs.Prelude.{◌≡◌, ◌+◌, ◌≤◌, length, drop};
ghost use Rattle.ibos_capture.specs.Fields.{number};

use byteorder::{BigEndian, ByteOrder, LittleEndian};
use std::ops::Range;

// The order of the bytes of each number in a capture.
#[derive(Clone, Copy, Debug, PartialEq, Eq)]
pub enum Endian {
    Big,
    Little,
}

impl Endian {
    // The number in a field of two bytes.
    #[tactic(auto, unfolding(crate::specs::Fields::number))]
    pub fn u16_at(self, bytes: &[u8], field: Range<usize>) -> u16
        requires width { field.end ≡ field.start + 2 }
        requires within { field.end ≤ length bytes.now }
        ensures { result ≡ number self 2 (drop field.start bytes.now) }
    {
        match self {
            Endian::Big => BigEndian::read_u16(&bytes[field.start..]),
            Endian::Little => LittleEndian::read_u16(&bytes[field.start..]),
        }
    }

    // The number in a field of four bytes.
    #[tactic(auto, unfolding(crate::specs::Fields::number))]
    pub fn u32_at(self, bytes: &[u8], field: Range<usize>) -> u32
        requires width { field.end ≡ field.start + 4 }
        requires within { field.end ≤ length bytes.now }
        ensures { result ≡ number self 4 (drop field.start bytes.now) }
    {
        match self {
            Endian::Big => BigEndian::read_u32(&bytes[field.start..]),
            Endian::Little => LittleEndian::read_u32(&bytes[field.start..]),
        }
    }
}
