//! What came in and what went out, for the contracts alone. It takes no memory, and its methods do
//! nothing when they run.
ghost use Rattle.std.specs.Prelude.{◌≡◌, List, [], ◌∷◌};
ghost use Rattle.std.specs.Borrow.{ftrue};
ghost use Rattle.ibos_nic.specs.declared.log.LogEntry.{LogEntry};
ghost use Rattle.ibos_nic.specs.declared.log.LogEntry.TheVariants.{In, Out};

use std::marker::Model;

/// What came in and what went out, the newest first. A clause reads it as `entries`.
#[derive(Drop)]
pub(crate) struct History {
    pub ghost entries: { List LogEntry },
}

impl Model for History {
    ghost also_owns = { λ _. ftrue };
}

impl History {
    /// Nothing came in and nothing went out.
    pub(crate) fn new() -> History
        ensures { result.entries ≡ [] }
    {
        History {}
    }

    /// A frame came in, and those bytes were written for it.
    pub(crate) fn heard(&mut self, _frame: &[u8], _written: &[u8])
        ensures { self.new.entries ≡ In _frame.now _written.now ∷ self.old.entries }
    {}

    /// A frame went out.
    pub(crate) fn sent(&mut self, _frame: &[u8])
        ensures { self.new.entries ≡ Out _frame.now ∷ self.old.entries }
    {}
}
