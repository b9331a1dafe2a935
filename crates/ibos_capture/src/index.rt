// Where the frames of a capture lie.
ghost use Rattle.std.specs.Prelude.{◌≡◌, ◌<◌, ◌≤◌, length, slice_get, take, drop};
ghost use Rattle.std.specs.Prelude.{ℕ, ◌+◌, List, slice_range};
ghost use Rattle.std.specs.Prelude.{Some, Ok, IfOk};
ghost use Rattle.std.specs.List.{All};
ghost use Rattle.ibos_capture.specs.Captures.{entry, index_in, capture_in, frames_at};
ghost use Rattle.ibos_capture.specs.Captures.{IsWithin};
ghost use Rattle.ibos_capture.specs.Progress.{IsIndex};
ghost use Rattle.ibos_capture.specs.Reads.{Reads};

use crate::fault::{CapFault, CaptureFault};
use crate::header::{ENTRY_HEADER_LEN, HEADER_LEN, MAX_CAPTURE};
use crate::reader::IndexReader;
use std::alloc::Global;
use std::marker::Model;

/// Where an entry's captured bytes lie: their place in the file, and how many there are.
#[derive(Clone, Copy, Debug)]
pub struct Entry {
    place: u32,
    len: u32,
}

impl Entry {
    pub fn new(place: usize, len: u32) -> Entry
        requires { place ≤ MAX_CAPTURE }
        ensures { result ≡ entry place len }
    {
        Entry {
            place: place as u32,
            len,
        }
    }
}

/// The places of a capture's frames, in the order of the entries. It holds none of their bytes.
///
/// # Examples
///
/// ```
/// use ibos_capture::{CaptureFault, Index};
/// use std::alloc::Global;
///
/// fn first_frame(alloc: Global, capture: &[u8]) -> Result<Option<(u64, u32)>, CaptureFault> {
///     let index = Index::read(alloc, capture)?;
///     if index.len() == 0 {
///         return Ok(None);
///     }
///     Ok(Some(index.frame(0)))
/// }
/// ```
#[derive(Debug, Drop)]
pub struct Index {
    entries: Vec<Entry>,
}

impl Model for Index {
    ghost use Rattle.std.specs.Prelude.{List};
    ghost use Rattle.ibos_capture.specs.declared.index.Entry.{Entry};
    ghost use Rattle.ibos_capture.specs.Progress.{IsIndex};

    ghost Value = { List Entry };

    ghost view = { λ i. i.entries.items };

    ghost invariant = { λ i. IsIndex i.entries.items };
}

impl Index {
    // Of entries that were all read.
    pub(crate) fn new(entries: Vec<Entry>) -> Index
        requires { IsIndex entries.items }
        ensures { result ≡ entries.items }
    {
        Index { entries }
    }

    /// Reads a whole capture (pcap 2.4), or tells its first fault. The file has at most 67,108,864
    /// bytes: a header of 24, then entries, each with a header of 16 and up to 262,144 captured
    /// bytes, which are the frame. Either byte order may be used, and seconds may be parted into
    /// micro- or nanoseconds. The link type is 1, Ethernet. What else the headers say is passed
    /// over: zone, accuracy, snapshot length, times and the original length. A file that isn't in
    /// memory is read by an `IndexReader`.
    pub fn read(alloc: Global, bytes: &[u8]) -> Result<Index, CaptureFault>
        ensures reads { Reads result (index_in bytes.now) }
        ensures frames { IfOk result (λ index.
            capture_in bytes.now ≡ Ok (frames_at bytes.now index)) }
        ensures within { IfOk result (λ index. All (IsWithin bytes.now) index) }
    {
        if bytes.len() > MAX_CAPTURE {
            let fault = CapFault::TooLong;
            return Err(CaptureFault::At { entry: 0, fault });
        }
        let mut reader = IndexReader::begin(alloc, front_of(bytes, 0, HEADER_LEN))?;
        'entries: while reader.place() < bytes.len() {
            let place = reader.place();
            let len = reader.next_len(front_of(bytes, place, ENTRY_HEADER_LEN))?;
            if bytes.len() - place < ENTRY_HEADER_LEN + len as usize {
                return Err(reader.cut());
            }
            reader.push(len)?;
        }
        Ok(reader.finish())
    }

    /// How many entries the capture has.
    pub fn len(&self) -> u32
        ensures { result ≡ length self.now }
    {
        self.entries.len() as u32
    }

    /// Where the captured bytes of entry `k` lie: the place of the first, and how many there are.
    /// Entries are counted from 0 here.
    pub fn frame(&self, k: u32) -> (u64, u32)
        requires { k < length self.now }
        ensures entry { slice_get self.now k ≡ Some (entry result.0 result.1) }
        ensures frame { (bytes : List ℕ) → slice_get (frames_at bytes self.now) k
            ≡ Some (slice_range bytes result.0 (result.0 + result.1)) }
        ensures limit { result.0 + result.1 ≤ MAX_CAPTURE }
    {
        let entry = self.entries[k as usize];
        (u64::from(entry.place), entry.len)
    }
}

// So many bytes from a place on, or all of them where there are fewer.
fn front_of(bytes: &[u8], place: usize, len: usize) -> &[u8]
    requires { place ≤ length bytes.now }
    ensures { result.now ≡ take len (drop place bytes.now) }
{
    let rest = &bytes[place..];
    &rest[..len.min(rest.len())]
}
