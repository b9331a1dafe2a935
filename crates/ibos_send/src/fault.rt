//! Why a send isn't accepted.
ghost use Rattle.std.specs.Prelude.{◌≡◌};

use ibos_kinds::{Memory, Rule};
use thiserror::Error;

/// Why a send isn't accepted: the first rule that it breaks, or out of memory.
#[derive(Clone, Copy, Debug, PartialEq, Eq, Error)]
pub enum SendFault {
    #[error("denied {} {}", .0.code(), .0.name())]
    Denied(Rule),
    #[error("out of memory")]
    Memory,
}

impl From<Memory> for SendFault {
    ghost use Rattle.ibos_send.specs.declared.fault.SendFault.TheVariants.{Memory};

    ghost from_gives = { λ _ e. e ≡ Memory };

    fn from(_: Memory) -> Self {
        SendFault::Memory
    }
}
