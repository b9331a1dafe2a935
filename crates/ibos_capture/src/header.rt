// The header of a capture, and that of an entry.
ghost use Rattle.std.specs.Prelude.{◌≡◌, ◌≤◌, length, IfOk};
ghost use Rattle.ibos_capture.specs.Captures.{is_magic, endian_of, header_in};
ghost use Rattle.ibos_capture.specs.Captures.{is_version, is_ethernet};
ghost use Rattle.ibos_capture.specs.Progress.{said_len};

use crate::fault::CapFault;
use crate::fields::Endian;

// The fields of a capture's header that are looked at (pcap 2.4, the file header).
mod field {
    use std::ops::Range;

    pub const MAGIC_NUMBER: Range<usize> = 0..4;

    pub const MAJOR_VERSION: Range<usize> = 4..6;

    pub const MINOR_VERSION: Range<usize> = 6..8;

    pub const LINK_TYPE: Range<usize> = 20..24;
}

// And of an entry's header (pcap 2.4, a packet record).
mod entry_field {
    use std::ops::Range;

    pub const CAPTURED_LENGTH: Range<usize> = 8..12;
}

// In bytes.
pub const HEADER_LEN: usize = 24;

pub const ENTRY_HEADER_LEN: usize = 16;

const MAGIC_NUMBER_LEN: usize = 4;

/// The most that a capture may have, in bytes.
pub const MAX_CAPTURE: usize = 67_108_864;

const MAX_CAPTURED: u32 = 262_144;

const MAJOR_VERSION: u16 = 2;

const MINOR_VERSION: u16 = 4;

// Times in microseconds, and in nanoseconds.
const MICROSECONDS: u32 = 0xA1B2_C3D4;

const NANOSECONDS: u32 = 0xA1B2_3C4D;

const ETHERNET: u32 = 1;

// The byte order of all fields, where the header has no fault.
#[tactic(auto, unfolding(crate::specs::Captures::header_in))]
pub fn read_header(bytes: &[u8]) -> Result<Endian, CapFault>
    requires { length bytes.now ≤ MAX_CAPTURE }
    ensures exact { result ≡ header_in bytes.now }
    ensures header { IfOk result (λ _. 24 ≤ length bytes.now) }
{
    let Some(endian) = endian_of(bytes) else {
        return Err(CapFault::Magic);
    };
    if bytes.len() < HEADER_LEN {
        return Err(CapFault::Cut);
    }
    if !is_version(endian, bytes) {
        return Err(CapFault::Version);
    }
    if !is_ethernet(endian, bytes) {
        return Err(CapFault::Link);
    }
    Ok(endian)
}

// The byte order in which the first four bytes are a magic number.
#[tactic(auto, unfolding(crate::specs::Captures::endian_of))]
fn endian_of(bytes: &[u8]) -> Option<Endian>
    ensures { result ≡ endian_of bytes.now }
{
    if bytes.len() < MAGIC_NUMBER_LEN {
        None
    } else if is_magic(Endian::Big.u32_at(bytes, field::MAGIC_NUMBER)) {
        Some(Endian::Big)
    } else if is_magic(Endian::Little.u32_at(bytes, field::MAGIC_NUMBER)) {
        Some(Endian::Little)
    } else {
        None
    }
}

fn is_magic(number: u32) -> bool
    ensures { result ≡ is_magic number }
{
    number == MICROSECONDS || number == NANOSECONDS
}

// The version is 2.4.
fn is_version(endian: Endian, bytes: &[u8]) -> bool
    requires { 24 ≤ length bytes.now }
    ensures { result ≡ is_version endian bytes.now }
{
    endian.u16_at(bytes, field::MAJOR_VERSION) == MAJOR_VERSION
        && endian.u16_at(bytes, field::MINOR_VERSION) == MINOR_VERSION
}

fn is_ethernet(endian: Endian, bytes: &[u8]) -> bool
    requires { 24 ≤ length bytes.now }
    ensures { result ≡ is_ethernet endian bytes.now }
{
    endian.u32_at(bytes, field::LINK_TYPE) == ETHERNET
}

// The number of captured bytes that an entry's header says, where it has no fault.
#[tactic(auto, unfolding(crate::specs::Progress::said_len))]
pub fn said_len(endian: Endian, header: &[u8]) -> Result<u32, CapFault>
    ensures exact { result ≡ said_len endian header.now }
    ensures fits { IfOk result (λ len. len ≤ 262144) }
{
    if header.len() < ENTRY_HEADER_LEN {
        return Err(CapFault::Cut);
    }
    let len = endian.u32_at(header, entry_field::CAPTURED_LENGTH);
    if len > MAX_CAPTURED {
        return Err(CapFault::Long);
    }
    Ok(len)
}
