// How often calls have failed.
ghost use Rattle.std.specs.Prelude.{◌≡◌, Err, IfOk, Ok, OnErr};
ghost use Rattle.ibos_kinds.specs.Fakes.{risen};
ghost use Rattle.ibos_kinds.specs.Outside.{HasCause};

use ibos_kinds::Failed;
use std::io;
use std::marker::Model;

/// A count of failed calls. It stands still at its type's end.
#[derive(Drop)]
pub struct Faults {
    count: u64,
}

impl Model for Faults {
    ghost use Rattle.std.specs.Prelude.{ℕ};

    ghost Value = { ℕ };

    ghost view = { λ f. f.count };
}

impl Faults {
    pub fn new() -> Faults
        ensures { result ≡ 0 }
    {
        Faults { count: 0 }
    }

    /// Hands on how many bytes a call moved. One that failed is counted.
    pub fn note(&mut self, moved: io::Result<usize>) -> Result<usize, Failed>
        ensures ok { IfOk moved (λ bytes. (result ≡ Ok bytes) × (self.new ≡ self.old)) }
        ensures err { OnErr moved (
            (result ≡ Err Failed.Failed) × (self.new ≡ risen self.old)) }
        ensures cause { HasCause self.old self.new result }
    {
        match moved {
            Ok(bytes) => Ok(bytes),
            Err(_) => {
                self.count = self.count.saturating_add(1);
                Err(Failed::Failed)
            }
        }
    }
}
