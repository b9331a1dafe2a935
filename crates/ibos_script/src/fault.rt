// Why a line is refused.
ghost use Rattle.std.specs.Prelude.{◌≡◌, ◌≢◌};
ghost use Rattle.ibos_script.specs.Faults.{number_of, name_of};

use thiserror::Error;

/// The first fault of a line, or out of memory.
#[derive(Clone, Copy, Debug, PartialEq, Eq, Error)]
pub enum LineFault {
    /// The line has more than 8,192 bytes.
    #[error("the line has more than 8,192 bytes")]
    Long,
    /// A byte isn't printable ASCII.
    #[error("a byte of the line is outside 0x20 to 0x7E")]
    Byte,
    /// The first words name no actor with a command that it has.
    #[error("the line names no actor with such a command")]
    Word,
    /// Words are missing, or too many.
    #[error("the line has too few words or too many")]
    Count,
    /// A number, a key or an instance's name is malformed or out of range.
    #[error("a number is malformed or out of range")]
    Number,
    /// Hexadecimal bytes are malformed.
    #[error("hexadecimal bytes are malformed")]
    Hex,
    /// Out of memory: the one answer that does not follow from the line.
    #[error("out of memory")]
    Memory,
}

impl From<ibos_kinds::Memory> for LineFault {
    ghost use Rattle.std.specs.Prelude.{◌≡◌};
    ghost use Rattle.ibos_script.specs.declared.fault.LineFault.TheVariants.{Memory};

    ghost from_gives = { λ _ e. e ≡ Memory };

    fn from(_: ibos_kinds::Memory) -> Self {
        LineFault::Memory
    }
}

impl LineFault {
    /// The fault's number, as a refusal prints it. Out of memory is never printed.
    pub fn number(self) -> u8
        requires { self ≢ LineFault.Memory }
        ensures { result ≡ number_of self }
    {
        match self {
            LineFault::Long => 1,
            LineFault::Word => 2,
            LineFault::Number => 3,
            LineFault::Hex => 4,
            LineFault::Count => 5,
            LineFault::Byte => 6,
            LineFault::Memory => unreachable!(),
        }
    }

    /// The fault's name, as a refusal prints it. Out of memory is never printed.
    pub fn name(self) -> &'static str
        requires { self ≢ LineFault.Memory }
        ensures { result.now ≡ name_of self }
    {
        match self {
            LineFault::Long => "Long",
            LineFault::Word => "Word",
            LineFault::Number => "Number",
            LineFault::Hex => "Hex",
            LineFault::Count => "Count",
            LineFault::Byte => "Byte",
            LineFault::Memory => unreachable!(),
        }
    }
}
