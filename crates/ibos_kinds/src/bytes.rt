// Bytes that contracts see as a list, and the answer of a call that is out of memory.
ghost use Rattle.std.specs.Prelude.{◌≡◌, ◌≤◌, ◌++◌, ◌==◌, [], length, IfOk, OnOk, OnErr};

use arrayvec::ArrayVec;
use std::alloc::{AllocError, AllocFailed, Global};
use std::marker::Model;

/// Out of memory. Whatever else may go wrong has an answer of its own.
#[derive(Clone, Copy, Debug, PartialEq, Eq)]
pub struct Memory;

impl From<AllocError> for Memory {
    fn from(_: AllocError) -> Self {
        Memory
    }
}

impl<T: Drop> From<AllocFailed<T>> for Memory {
    fn from(_: AllocFailed<T>) -> Self {
        Memory
    }
}

/// A vector of bytes, which contracts see as the list of them.
///
/// # Examples
///
/// ```
/// use ibos_kinds::{Bytes, Memory};
/// use std::alloc::Global;
///
/// fn greeting(alloc: Global, name: &[u8]) -> Result<Bytes, Memory> {
///     let mut text = Bytes::from_slice(alloc, b"hello ")?;
///     text.push_slice(name)?;
///     Ok(text)
/// }
/// ```
#[derive(Debug, Drop)]
pub struct Bytes {
    kept: Kept,
}

// So many bytes lie in the value itself, since most texts of an act are no longer.
const SHORT: usize = 24;

#[derive(Debug, Drop)]
enum Kept {
    Short(Global, ArrayVec<u8, SHORT>),
    Long(Vec<u8>),
}

impl Model for Bytes {
    ghost use Rattle.std.specs.Prelude.{List, ℕ};
    ghost use Rattle.ibos_kinds.specs.Kept.{kept_bytes};

    ghost Value = { List ℕ };

    ghost view = { λ b. kept_bytes b.kept };
}

impl From<Vec<u8>> for Bytes {
    ghost from_gives = { λ vec bytes. bytes ≡ vec.items };

    fn from(inner: Vec<u8>) -> Self {
        Bytes {
            kept: Kept::Long(inner),
        }
    }
}

impl PartialEq for Bytes {
    ghost use Rattle.std.specs.Prelude.{bytes_eq};
    ghost use Rattle.std.proofs.Common.{rules};

    ghost eq = { bytes_eq };

    ghost laws = { Prim.search rules };

    fn eq(&self, other: &Bytes) -> bool {
        self.as_slice() == other.as_slice()
    }
}

impl Eq for Bytes {
    ghost use Rattle.std.proofs.Common.{rules};

    ghost laws = { Prim.search rules };
}

impl Bytes {
    /// No bytes. Takes no memory.
    pub fn new(alloc: Global) -> Bytes
        ensures { result ≡ [] }
    {
        Bytes {
            kept: Kept::Short(alloc, ArrayVec::new()),
        }
    }

    /// A vector of its own with these bytes.
    pub fn from_slice(alloc: Global, bytes: &[u8]) -> Result<Bytes, Memory>
        ensures { IfOk result (λ made. made ≡ bytes.now) }
    {
        if bytes.len() > SHORT {
            let long = Vec::from_slice(alloc, bytes)?;
            return Ok(Bytes::from(long));
        }
        let mut short = ArrayVec::new();
        if short.try_extend_from_slice(bytes).is_err() {
            unreachable!()
        }
        Ok(Bytes {
            kept: Kept::Short(alloc, short),
        })
    }

    /// A vector of its own with the bytes of two pieces, which takes its memory once.
    #[inline(always)]
    pub fn from_two(alloc: Global, first: &[u8], second: &[u8]) -> Result<Bytes, Memory>
        ensures { IfOk result (λ made. made ≡ first.now ++ second.now) }
    {
        let mut long = Vec::new(alloc);
        long.reserve(first.len().saturating_add(second.len()))?;
        long.extend_from_slice(first)?;
        long.extend_from_slice(second)?;
        Ok(Bytes::from(long))
    }

    /// The bytes, lent.
    pub fn as_slice(&self) -> &[u8]
        ensures { result.now ≡ self.now }
    {
        match &self.kept {
            Kept::Short(_, short) => short.as_slice(),
            Kept::Long(long) => long.as_slice(),
        }
    }

    /// How many bytes there are.
    pub fn len(&self) -> usize
        ensures { result ≡ length self.now }
    {
        self.as_slice().len()
    }

    /// Whether there are none.
    pub fn is_empty(&self) -> bool
        ensures { result ≡ (length self.now == 0) }
    {
        self.as_slice().is_empty()
    }

    /// Drops all bytes, and keeps the room that they had.
    pub fn clear(&mut self)
        ensures { self.new ≡ [] }
    {
        match &mut self.kept {
            Kept::Short(_, short) => short.clear(),
            Kept::Long(long) => long.clear(),
        }
    }

    /// Makes room for that many more bytes, so that appending them takes no memory.
    pub fn reserve(&mut self, more: usize) -> Result<(), Memory>
        ensures { self.new ≡ self.old }
    {
        match &mut self.kept {
            Kept::Long(long) => {
                long.reserve(more)?;
                Ok(())
            }
            Kept::Short(alloc, short) => {
                if short.remaining_capacity() >= more {
                    return Ok(());
                }
                let long = moved_out(*alloc, short.as_slice(), more)?;
                self.kept = Kept::Long(long);
                Ok(())
            }
        }
    }

    /// Appends bytes.
    #[inline(always)]
    pub fn push_slice(&mut self, bytes: &[u8]) -> Result<(), Memory>
        ensures ok { OnOk result (self.new ≡ self.old ++ bytes.now) }
        ensures err { OnErr result (self.new ≡ self.old) }
    {
        if let Kept::Long(long) = &mut self.kept {
            long.extend_from_slice(bytes)?;
            return Ok(());
        }
        self.push_outside(bytes)
    }

    // Most pieces are written to long texts, so the other way is no part of their loop.
    #[inline(never)]
    fn push_outside(&mut self, bytes: &[u8]) -> Result<(), Memory>
        ensures ok { OnOk result (self.new ≡ self.old ++ bytes.now) }
        ensures err { OnErr result (self.new ≡ self.old) }
    {
        match &mut self.kept {
            Kept::Short(alloc, short) => {
                if short.try_extend_from_slice(bytes).is_ok() {
                    return Ok(());
                }
                let mut long = moved_out(*alloc, short.as_slice(), bytes.len())?;
                long.extend_from_slice(bytes)?;
                self.kept = Kept::Long(long);
                Ok(())
            }
            Kept::Long(long) => {
                long.extend_from_slice(bytes)?;
                Ok(())
            }
        }
    }

    /// A vector of its own with the same bytes.
    pub fn copy(&self, alloc: Global) -> Result<Bytes, Memory>
        ensures { IfOk result (λ copy. copy ≡ self.now) }
    {
        let copy = Bytes::from_slice(alloc, self.as_slice())?;
        Ok(copy)
    }
}

// A vector with what lay in the value, and room for so many more bytes: taken at once.
fn moved_out(alloc: Global, short: &[u8], more: usize) -> Result<Vec<u8>, Memory>
    requires { length short.now ≤ SHORT }
    ensures { IfOk result (λ long. long.items ≡ short.now) }
{
    let mut long = Vec::new(alloc);
    long.reserve(SHORT.saturating_add(more))?;
    long.extend_from_slice(short)?;
    Ok(long)
}
