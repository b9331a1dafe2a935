// Files of the system.
ghost use Rattle.std.specs.Prelude.{◌≡◌, ◌≤◌, List, ℕ, length, IfOk};

use crate::faults::Faults;
use ibos_kinds::{Bytes, Cabinet, Failed};
use std::io::{self, Read, Seek, SeekFrom};
use std::rt::Files;

/// The files of the system, by their paths. It tells nothing of their bytes, and counts the reads
/// that fail, of all names together.
#[derive(Drop)]
pub struct FileCabinet<'a, R: Files> {
    rt: &'a R,
    faults: Faults,
}

impl<'a, R: Files> FileCabinet<'a, R> {
    pub fn new(rt: &'a R) -> Self
        ensures { result.faults ≡ 0 }
    {
        FileCabinet {
            rt,
            faults: Faults::new(),
        }
    }
}

// Opens the file, and reads from a place on. A name that is no text is that of no file.
fn read_file<R: Files>(rt: &R, name: &[u8], place: u64, into: &mut [u8]) -> io::Result<usize>
    ensures { IfOk result (λ got. got ≤ length into.new) }
{
    let Ok(path) = std::str::from_utf8(name) else {
        return Err(io::ErrorKind::InvalidInput.into());
    };
    let mut file = std::fs::open(rt, path)?;
    file.seek(SeekFrom::Start(place))?;
    file.read(into)
}

impl<R: Files> Cabinet for FileCabinet<'_, R> {
    ghost use Rattle.std.specs.Prelude.{None};

    ghost holds = { λ c name. None };

    ghost faults = { λ c name. c.faults };

    fn read_at(&mut self, name: &Bytes, place: u64, into: &mut [u8]) -> Result<usize, Failed> {
        let got = read_file(self.rt, name.as_slice(), place, into);
        self.faults.note(got)
    }
}
