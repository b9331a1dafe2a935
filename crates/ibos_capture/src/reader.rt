// Captures that are read header by header.
ghost use Rattle.std.specs.Prelude.{◌≡◌, ◌≢◌, ◌<◌, ◌≤◌, ◌++◌, [], ◌∷◌, length, ℕ, ◌+◌, List, Ok};
ghost use Rattle.std.specs.Prelude.{Err, IfErr, IfOk, OnErr, OnOk};
ghost use Rattle.std.specs.List.{All};
ghost use Rattle.ibos_capture.specs.declared.index.Entry.{Entry as TheEntry};
ghost use Rattle.ibos_capture.specs.Captures.{IsWithin, capture_in, frames_at, index_in};
ghost use Rattle.ibos_capture.specs.Progress.{HasNext, IsFront, IsReadTo, behind};
ghost use Rattle.ibos_capture.specs.Reads.{Reads};

use crate::fault::{CapFault, CaptureFault};
use crate::fields::Endian;
use crate::header::{ENTRY_HEADER_LEN, HEADER_LEN, MAX_CAPTURE, read_header, said_len};
use crate::index::{Entry, Index};
use ibos_kinds::Memory;
use std::alloc::Global;
use std::marker::Model;

/// Reads the headers of a capture, one after another, and makes its index. Whoever has the file
/// hands over the bytes of each header, and passes over those of the frames. The file has to have
/// no more bytes than a capture may; its clauses are those of each such file.
///
/// # Examples
///
/// ```
/// use ibos_capture::{CaptureFault, Index, IndexReader};
/// use std::alloc::Global;
///
/// fn begins_as_a_capture(alloc: Global, front: &[u8; 24]) -> bool {
///     match IndexReader::begin(alloc, front.as_slice()) {
///         Ok(reader) => reader.place() == 24,
///         Err(_) => false,
///     }
/// }
/// ```
#[derive(Debug, Drop)]
pub struct IndexReader {
    endian: Endian,
    place: usize,
    entries: Vec<Entry>,
}

impl Model for IndexReader {
    ghost use Rattle.ibos_capture.specs.Progress.{IsProgress, Progress};

    ghost Value = { Progress };

    ghost view = { λ r. record {
      endian = r.endian;
      place = r.place;
      entries = r.entries.items;
    } };

    ghost invariant = { λ r. IsProgress r.place r.entries.items };
}

impl IndexReader {
    /// Begins behind the header of a file, or tells the header's fault. `front` is the file's first
    /// 24 bytes, or all of them where it has fewer.
    pub fn begin(alloc: Global, front: &[u8]) -> Result<IndexReader, CaptureFault>
        requires { length front.now ≤ 24 }
        ensures begun { IfOk result (λ reader. (file : List ℕ) → length file ≤ MAX_CAPTURE
            → IsFront file 0 24 front.now → IsReadTo file reader) }
        ensures place { IfOk result (λ reader. reader.place ≡ 24) }
        ensures refused { IfErr result (λ fault. (file : List ℕ) → length file ≤ MAX_CAPTURE
            → IsFront file 0 24 front.now → Reads {T = List TheEntry} (Err fault) (index_in file)) }
        ensures memory { IfErr result (λ fault. fault ≢ CaptureFault.Memory) }
    {
        match read_header(front) {
            Ok(endian) => Ok(IndexReader {
                endian,
                place: HEADER_LEN,
                entries: Vec::new(alloc),
            }),
            Err(fault) => Err(CaptureFault::At { entry: 0, fault }),
        }
    }

    /// Where the next entry begins, in bytes, if the file goes on so far.
    pub fn place(&self) -> usize
        ensures place { result ≡ self.now.place }
        ensures limit { result ≤ MAX_CAPTURE }
    {
        self.place
    }

    /// How many captured bytes the next entry says that it has, or the fault of its header.
    /// `header` is the 16 bytes from its place on, or all that are left where there are fewer.
    pub fn next_len(&self, header: &[u8]) -> Result<u32, CaptureFault>
        requires { 0 < length header.now }
        ensures len { IfOk result (λ len. (file : List ℕ)
            → IsFront file self.now.place 16 header.now → HasNext file self.now len) }
        ensures fits { IfOk result (λ len. len ≤ 262144) }
        ensures refused { IfErr result (λ fault. (file : List ℕ) → IsReadTo file self.now
            → IsFront file self.now.place 16 header.now
            → Reads {T = List TheEntry} (Err fault) (index_in file)) }
        ensures memory { IfErr result (λ fault. fault ≢ CaptureFault.Memory) }
    {
        match said_len(self.endian, header) {
            Ok(len) => Ok(len),
            Err(fault) => Err(self.at_next(fault)),
        }
    }

    /// Goes on behind the next entry, whose captured bytes are so many and all in the file.
    pub fn push(&mut self, len: u32) -> Result<(), Memory>
        requires { self.old.place + 16 + len ≤ MAX_CAPTURE }
        ensures place { OnOk result (self.new.place ≡ self.old.place + 16 + len) }
        ensures pushed { OnOk result ((file : List ℕ) → IsReadTo file self.old
            → HasNext file self.old len → self.old.place + 16 + len ≤ length file
            → IsReadTo file self.new) }
        ensures err { OnErr result (self.new ≡ self.old) }
    {
        let place = self.place + ENTRY_HEADER_LEN;
        let next = Entry::new(place, len);
        self.entries.push(next)?;
        self.place = place + len as usize;
        Ok(())
    }

    /// The fault of the next entry, where the file ends within its captured bytes.
    pub fn cut(&self) -> CaptureFault
        ensures at { result ≡ CaptureFault.At (length self.now.entries + 1) CapFault.Cut }
        ensures refused { (file : List ℕ) (len : ℕ) → IsReadTo file self.now
            → HasNext file self.now len → length file < self.now.place + 16 + len
            → Reads {T = List TheEntry} (Err result) (index_in file) }
    {
        self.at_next(CapFault::Cut)
    }

    /// The index, where the file ends at the place of the next entry.
    pub fn finish(self) -> Index
        ensures reads { (file : List ℕ) → IsReadTo file self → length file ≤ self.place
            → index_in file ≡ Ok result }
        ensures frames { (file : List ℕ) → IsReadTo file self
            → length file ≤ self.place → capture_in file ≡ Ok (frames_at file result) }
        ensures within { (file : List ℕ) → IsReadTo file self
            → All (IsWithin file) result }
    {
        Index::new(self.entries)
    }

    // A fault of the next entry.
    fn at_next(&self, fault: CapFault) -> CaptureFault
        ensures { result ≡ CaptureFault.At (length self.now.entries + 1) fault }
    {
        let entry = self.entries.len() as u32 + 1;
        CaptureFault::At { entry, fault }
    }
}
