// What holds of the texts of outcomes, whoever reads them.
ghost use Rattle.std.specs.Prelude.{◌≡◌, ◌<◌, ◌^◌, ℕ};
ghost use Rattle.ibos_kinds.specs.declared.outcome.Outcome.{Outcome as OutcomeSpec};
ghost use Rattle.ibos_outcome.specs.Printed.{outcome_text};
ghost use Rattle.ibos_outcome.specs.Canonical.{IsCanonical};

/// Two canonical outcomes that have one text are the same, and so are their numbers.
pub fn texts_tell_one_outcome()
    ensures { (n m : ℕ) (outcome other : OutcomeSpec) → n < 2 ^ 64 → m < 2 ^ 64 →
        IsCanonical outcome → IsCanonical other →
        outcome_text n outcome ≡ outcome_text m other → (n ≡ m) × (outcome ≡ other) }
{}
