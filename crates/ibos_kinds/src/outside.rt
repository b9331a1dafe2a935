// What lies outside: files to read, and a sink for text.
ghost use Rattle.std.specs.Prelude.{◌≡◌, ◌≤◌, List, ℕ, Option, length, IfOk, IfSome};
ghost use Rattle.ibos_kinds.specs.Outside.{HasCause, ReadsFrom, TakesFront, front_taken};
ghost use Rattle.ibos_kinds.specs.Outside.{taken_after};

use crate::Bytes;

/// A read or a write failed. What failed is not told.
#[derive(Clone, Copy, Debug, PartialEq, Eq)]
pub enum Failed {
    Failed,
}

/// Files under names.
pub trait Cabinet {
    /// The bytes under a name, where the cabinet tells them.
    ghost holds: { Self → List ℕ → Option (List ℕ) };

    /// How often reads of a name have failed.
    ghost faults: { Self → List ℕ → ℕ };

    /// Reads bytes of a file from a place (in bytes, from 0) into the front of `into`, and answers
    /// how many. No byte for a slice that isn't empty is the end of the file.
    fn read_at(&mut self, name: &Bytes, place: u64, into: &mut [u8]) -> Result<usize, Failed>
        ensures within { IfOk result (λ got. got ≤ length into.new) }
        ensures bytes { IfOk result (λ got. IfSome (holds self.old name.now)
            (λ file. ReadsFrom file place got into.new)) }
        ensures holds { (name : List ℕ) → holds self.new name ≡ holds self.old name }
        ensures later { (name : List ℕ) → faults self.old name ≤ faults self.new name }
        ensures cause { HasCause (faults self.old name.now) (faults self.new name.now) result };
}

/// Where text goes.
pub trait Sink {
    /// The bytes taken so far, where the sink tells them.
    ghost taken: { Self → Option (List ℕ) };

    /// How often a write has failed.
    ghost faults: { Self → ℕ };

    /// Takes bytes of the front, and answers how many: at least one if there is one. A failed write
    /// takes none.
    fn write(&mut self, bytes: &[u8]) -> Result<usize, Failed>
        ensures front { IfOk result (TakesFront (length bytes.now)) }
        ensures taken { taken self.new
            ≡ taken_after (taken self.old) (front_taken result bytes.now) }
        ensures cause { HasCause (faults self.old) (faults self.new) result };
}
