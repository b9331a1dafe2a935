// Which instance an act ended, and which it started.
ghost use Rattle.std.specs.Prelude.{◌≡◌};
ghost use Rattle.ibos_kernel.specs.Halves as spec;

use ibos_kinds::{Instance, Item, Outcome};

/// The instance that an act ended, by its items.
pub fn ended_in(out: &Outcome) -> Option<Instance>
    ensures { result ≡ spec.ended_in out.now.items }
{
    match out.items.as_slice() {
        [Item::Ended { who }, ..] => Some(*who),
        _ => None,
    }
}

/// The instance that an act started, by its items.
pub fn opened_in(out: &Outcome) -> Option<Instance>
    ensures { result ≡ spec.opened_in out.now.items }
{
    match out.items.as_slice() {
        [Item::Opened { who, .. }, ..] => Some(*who),
        [Item::Ended { .. }, Item::Opened { who, .. }, ..] => Some(*who),
        _ => None,
    }
}
