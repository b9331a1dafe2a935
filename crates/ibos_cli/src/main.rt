//! The program `ibos`: hands the words of its command line, files, a model of the network card and
//! standard output to the top call, and ends with its status.
#![tactic(auto)]

mod faults;
mod files;
mod stdout;

use files::FileCabinet;
use ibos_device::Model8254x;
use ibos_kinds::{Bytes, Memory};
use ibos_run::{Status, run};
use std::alloc::Global;
use std::process::ExitCode;
use std::rt::Env;
use std::{env, io};
use stdout::StdoutSink;

#[cfg(test)]
mod mediator_tests;
#[cfg(test)]
mod run_tests;
#[cfg(test)]
mod tests;

// Why the words could not be kept.
#[derive(Clone, Copy, Debug, PartialEq, Eq)]
enum WordsFault {
    Memory,
    Other,
}

impl From<Memory> for WordsFault {
    fn from(_: Memory) -> Self {
        WordsFault::Memory
    }
}

impl From<io::Error> for WordsFault {
    fn from(error: io::Error) -> Self {
        if error.kind() == io::ErrorKind::OutOfMemory {
            WordsFault::Memory
        } else {
            WordsFault::Other
        }
    }
}

fn keep(alloc: Global, words: &mut Vec<Bytes>, word: &str) -> Result<(), Memory> {
    let mut bytes = Bytes::new(alloc);
    bytes.push_slice(word.as_bytes())?;
    words.push(bytes)?;
    Ok(())
}

// The words behind the program's name.
fn words_of(rt: &(impl Env + AllocGlobal)) -> Result<Vec<Bytes>, WordsFault> {
    let mut words = Vec::new(rt.alloc());
    for word in env::args(rt)?.skip(1) {
        keep(rt.alloc(), &mut words, word.as_str())?;
    }
    Ok(words)
}

// The exit number where the runtime refuses the words for another cause than that it is out of
// memory.
const WORDS_REFUSED: u8 = 7;

fn main(rt: HostRuntime) -> ExitCode {
    let words = match words_of(&rt) {
        Ok(words) => words,
        Err(WordsFault::Memory) => return ExitCode::from(Status::Memory.exit_number()),
        Err(WordsFault::Other) => return ExitCode::from(WORDS_REFUSED),
    };
    let mut cabinet = FileCabinet::new(&rt);
    let mut nic = Model8254x::new();
    let mut sink = StdoutSink::new(&rt);
    let status = run(
        rt.alloc(),
        words.as_slice(),
        &mut cabinet,
        &mut nic,
        &mut sink,
    );
    ExitCode::from(status.exit_number())
}
