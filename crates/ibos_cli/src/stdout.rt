// Standard output.
ghost use Rattle.std.specs.Prelude.{◌≡◌, length, IfOk};
ghost use Rattle.ibos_kinds.specs.Outside.{TakesFront};

use crate::faults::Faults;
use ibos_kinds::{Failed, Sink};
use std::io::{self, Write};

/// Standard output. It tells nothing of the bytes that it took, and counts the writes that fail;
/// one that takes nothing of a piece that isn't empty is one of them.
#[derive(Drop)]
pub struct StdoutSink<'a, R: Print> {
    rt: &'a R,
    faults: Faults,
}

impl<'a, R: Print> StdoutSink<'a, R> {
    pub fn new(rt: &'a R) -> Self
        ensures { result.faults ≡ 0 }
    {
        StdoutSink {
            rt,
            faults: Faults::new(),
        }
    }
}

// Writes of the front, and hands on what was written.
fn write_front<R: Print>(rt: &R, bytes: &[u8]) -> io::Result<usize>
    ensures { IfOk result (TakesFront (length bytes.now)) }
{
    let mut out = io::writer(rt);
    let took = out.write(bytes)?;
    if took == 0 && !bytes.is_empty() {
        return Err(io::ErrorKind::WriteZero.into());
    }
    out.flush()?;
    Ok(took)
}

impl<R: Print> Sink for StdoutSink<'_, R> {
    ghost use Rattle.std.specs.Prelude.{None};

    ghost taken = { λ s. None };

    ghost faults = { λ s. s.faults };

    fn write(&mut self, bytes: &[u8]) -> Result<usize, Failed> {
        let took = write_front(self.rt, bytes);
        self.faults.note(took)
    }
}
