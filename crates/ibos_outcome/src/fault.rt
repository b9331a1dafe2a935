// Why no outcome was read.
ghost use Rattle.std.specs.Prelude.{◌≡◌, ◌≢◌};

use thiserror::Error;

/// Why no outcome was read.
#[derive(Clone, Copy, Debug, PartialEq, Eq, Error)]
pub enum OutcomeFault {
    /// The text does not begin with that of a canonical outcome.
    #[error("the text does not begin with that of a canonical outcome")]
    NotCanonical,
    /// Out of memory: the one answer that does not follow from the text.
    #[error("out of memory")]
    Memory,
}

impl From<ibos_kinds::Memory> for OutcomeFault {
    ghost use Rattle.std.specs.Prelude.{◌≡◌};
    ghost use Rattle.ibos_outcome.specs.declared.fault.OutcomeFault.TheVariants.{Memory};

    ghost from_gives = { λ _ e. e ≡ Memory };

    fn from(_: ibos_kinds::Memory) -> Self {
        OutcomeFault::Memory
    }
}

impl OutcomeFault {
    /// The fault's number. Out of memory has none.
    pub fn number(self) -> u8
        requires { self ≢ OutcomeFault.Memory }
        ensures { result ≡ 1 }
    {
        match self {
            OutcomeFault::NotCanonical => 1,
            OutcomeFault::Memory => unreachable!(),
        }
    }
}
