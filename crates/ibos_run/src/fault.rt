// How a run ends.
ghost use Rattle.std.specs.Prelude.{◌≡◌};
ghost use Rattle.ibos_run.specs.Faults.{exit_number_of, status_of};

use ibos_kinds::{Failed, Memory};
use std::alloc::AllocError;

/// How a run ended.
#[derive(Clone, Copy, Debug, PartialEq, Eq)]
pub enum Status {
    /// The inputs were read to their end, and the sink took the text of all acts and the last line.
    Done,
    /// The words are no form. The sink took the usage line.
    Usage,
    /// An input has a fault. The sink took the text of the acts before it, and the refusal line.
    Refused,
    /// A read of a named file failed. The sink took a front of the text that is wanted.
    ReadFault,
    /// A write failed. The sink took a front of the text that is wanted.
    WriteFault,
    /// The run was out of memory. The sink took a front of the text that is wanted.
    Memory,
}

impl Status {
    /// The number that the program exits with.
    pub fn exit_number(self) -> u8
        ensures { result ≡ exit_number_of self }
    {
        match self {
            Status::Done => 0,
            Status::Usage => 2,
            Status::Refused => 3,
            Status::ReadFault => 4,
            Status::WriteFault => 5,
            Status::Memory => 6,
        }
    }
}

/// What cut a run off.
#[derive(Clone, Copy, Debug, PartialEq, Eq)]
pub enum Fault {
    Read,
    Write,
    Memory,
}

impl Fault {
    pub fn status(self) -> Status
        ensures { result ≡ status_of self }
    {
        match self {
            Fault::Read => Status::ReadFault,
            Fault::Write => Status::WriteFault,
            Fault::Memory => Status::Memory,
        }
    }
}

impl From<AllocError> for Fault {
    ghost use Rattle.ibos_run.specs.declared.fault.Fault.TheVariants.{Memory};

    ghost from_gives = { λ _ e. e ≡ Memory };

    fn from(_: AllocError) -> Self {
        Fault::Memory
    }
}

impl From<Memory> for Fault {
    ghost use Rattle.ibos_run.specs.declared.fault.Fault.TheVariants.{Memory};

    ghost from_gives = { λ _ e. e ≡ Memory };

    fn from(_: Memory) -> Self {
        Fault::Memory
    }
}

// What fails at a `?` is a write.
impl From<Failed> for Fault {
    ghost use Rattle.ibos_run.specs.declared.fault.Fault.TheVariants.{Write};

    ghost from_gives = { λ _ e. e ≡ Write };

    fn from(_: Failed) -> Self {
        Fault::Write
    }
}
