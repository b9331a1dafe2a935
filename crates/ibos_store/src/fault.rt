// Why a call of storage is refused.
ghost use Rattle.std.specs.Prelude.{◌≡◌};

use ibos_kinds::{Memory, Rule};
use std::alloc::{AllocError, AllocFailed};

/// Why a call of storage is refused.
#[derive(Clone, Copy, Debug, PartialEq, Eq)]
pub enum StoreFault {
    Denied(Rule),
    Memory,
}

impl From<Rule> for StoreFault {
    ghost use Rattle.ibos_store.specs.declared.fault.StoreFault.TheVariants.{Denied};

    ghost from_gives = { λ rule e. e ≡ Denied rule };

    fn from(rule: Rule) -> Self {
        StoreFault::Denied(rule)
    }
}

impl From<AllocError> for StoreFault {
    ghost use Rattle.ibos_store.specs.declared.fault.StoreFault.TheVariants.{Memory};

    ghost from_gives = { λ _ e. e ≡ Memory };

    fn from(_: AllocError) -> Self {
        StoreFault::Memory
    }
}

impl<T: Drop> From<AllocFailed<T>> for StoreFault {
    ghost use Rattle.ibos_store.specs.declared.fault.StoreFault.TheVariants.{Memory};

    ghost from_gives = { λ _ e. e ≡ Memory };

    fn from(_: AllocFailed<T>) -> Self {
        StoreFault::Memory
    }
}

impl From<Memory> for StoreFault {
    ghost use Rattle.ibos_store.specs.declared.fault.StoreFault.TheVariants.{Memory};

    ghost from_gives = { λ _ e. e ≡ Memory };

    fn from(_: Memory) -> Self {
        StoreFault::Memory
    }
}
