//! Laws of lines.
ghost use Rattle.std.specs.Prelude.{◌≡◌, ◌≤◌, List, ℕ, length, Ok, Some};
ghost use Rattle.ibos_kinds.specs.Limits.{Fits};
ghost use Rattle.ibos_kinds.specs.declared.act.Act.{Act};
ghost use Rattle.ibos_kinds.specs.Parties.{actor};
ghost use Rattle.ibos_script.specs.declared.lines.Line.TheVariants.{Act as ActLine};
ghost use Rattle.ibos_kinds.specs.declared.party.Party.TheVariants.{Wire};
ghost use Rattle.ibos_script.specs.declared.lines.Line.TheVariants.{NextFrame};
ghost use Rattle.ibos_script.specs.Lines.{line_in, party_in};
ghost use Rattle.ibos_script.specs.Spelled.{IsSpellable, spelled};

/// A line that says an act begins with the words that name the act's actor, and one that wants the
/// next frame with the wire's.
pub fn lines_name_their_actor()
    ensures acts { (line : List ℕ) (act : Act) → line_in line ≡ Ok (Some (ActLine act)) →
        party_in line ≡ Some (actor act) }
    ensures next { (line : List ℕ) → line_in line ≡ Ok (Some NextFrame) →
        party_in line ≡ Some Wire }
{}

/// An act that is written as a line is read as that act, if the line isn't too long.
pub fn spelled_acts_are_read()
    ensures { (act : Act) → Fits act → IsSpellable act → length (spelled act) ≤ 8192 →
        line_in (spelled act) ≡ Ok (Some (ActLine act)) }
{}
