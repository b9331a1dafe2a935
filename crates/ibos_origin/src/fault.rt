// Why a host table is refused.
ghost use Rattle.std.specs.Prelude.{◌≡◌};

use ibos_kinds::Memory;
use thiserror::Error;

/// A fault of a host table.
#[derive(Clone, Copy, Debug, PartialEq, Eq, Error)]
pub enum HostFault {
    #[error("the line is none of `self ADDR MAC`, `gateway MAC` and `host NAME ADDR`")]
    Form,
    #[error("an earlier line says this")]
    Twice,
    #[error("there are more than 4096 host lines")]
    Many,
    #[error("there is no `self` or no `gateway` line")]
    NoSelf,
    #[error("the table has more than 4194304 bytes")]
    TooLong,
}

impl HostFault {
    ghost use Rattle.ibos_origin.specs.HostFaults.{number_of, name_of};

    /// The fault's number, as a refused run prints it.
    pub fn number(self) -> u8
        ensures { result ≡ number_of self }
    {
        match self {
            HostFault::Form => 1,
            HostFault::Twice => 2,
            HostFault::Many => 3,
            HostFault::NoSelf => 4,
            HostFault::TooLong => 5,
        }
    }

    /// The fault's name, one word.
    pub fn name(self) -> &'static str
        ensures { result.now ≡ name_of self }
    {
        match self {
            HostFault::Form => "Form",
            HostFault::Twice => "Twice",
            HostFault::Many => "Many",
            HostFault::NoSelf => "NoSelf",
            HostFault::TooLong => "TooLong",
        }
    }
}

/// Why no host table was read: its first fault and where that is, or out of memory. All lines
/// count, and the first is line 1. A fault of the whole table stands outside of them: `TooLong` at
/// 0, `NoSelf` one past the last line.
#[derive(Clone, Copy, Debug, PartialEq, Eq, Error)]
pub enum HostsFault {
    #[error("line {line}: {fault}")]
    At { line: u32, fault: HostFault },
    #[error("out of memory")]
    Memory,
}

impl From<Memory> for HostsFault {
    ghost use Rattle.ibos_origin.specs.declared.fault.HostsFault.TheVariants.{Memory};

    ghost from_gives = { λ _ e. e ≡ Memory };

    fn from(_: Memory) -> Self {
        HostsFault::Memory
    }
}
