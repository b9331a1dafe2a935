// The lines that are no outcome's.
ghost use Rattle.std.specs.Prelude.{◌≡◌, ◌++◌, IfOk, codes, string_bytes};
ghost use Rattle.ibos_outcome.specs.Printed.{pieces_text};
ghost use Rattle.ibos_model.specs.Text as spec;
ghost use Rattle.ibos_run.specs.Refusals.{Refusal, file_word, refusal_line};
ghost use Rattle.ibos_run.specs.Words.{usage_line};
ghost use Rattle.ibos_run.specs.Forms.{file_of};
ghost use Rattle.ibos_run.specs.Summaries.{acts_text, frames_text, numbers_text, summary_line};

use crate::tally::Tally;
use ibos_kinds::{Bytes, Memory};
use std::alloc::{AllocError, Global};

/// The files that a refusal names.
#[derive(Clone, Copy)]
pub enum File {
    Hosts,
    Capture,
    Script,
}

impl File {
    pub fn word(self) -> &'static [u8]
        ensures { result.now ≡ file_word (file_of self) }
    {
        match self {
            File::Hosts => b"hosts",
            File::Capture => b"capture",
            File::Script => b"script",
        }
    }
}

/// The line that words are answered with that are no form.
#[tactic(auto, unfolding(crate::specs::Words::usage_line))]
pub fn usage() -> &'static [u8]
    ensures { result.now ≡ usage_line }
{
    b"usage: ibos run HOSTS SCRIPT [CAPTURE] | ibos drill SEED ROUNDS\n"
}

/// The last line of a run whose inputs were read to their end.
#[tactic(auto, unfolding(ibos_model::specs::Text::end_line))]
pub fn end_line(alloc: Global, acts: u32) -> Result<String, AllocError>
    ensures { IfOk result (λ line. string_bytes line ≡ spec.end_line acts) }
{
    format!(in alloc; "end {acts}\n")
}

/// The line of a drill.
#[tactic(auto, unfolding(crate::specs::Summaries::summary_line))]
pub fn summary(alloc: Global, seed: u64, rounds: u32, tally: &Tally) -> Result<Bytes, Memory>
    ensures { IfOk result (λ line. line ≡ summary_line seed rounds tally.now) }
{
    let numbers = numbers(alloc, seed, rounds)?;
    let acts = act_counts(alloc, *tally)?;
    let frames = frame_counts(alloc, *tally)?;
    joined_three(
        alloc,
        numbers.as_bytes(),
        acts.as_bytes(),
        frames.as_bytes(),
    )
}

// A format of all these pieces would be too long to be proved at once.
#[tactic(auto, unfolding(crate::specs::Summaries::numbers_text))]
fn numbers(alloc: Global, seed: u64, rounds: u32) -> Result<String, AllocError>
    ensures { IfOk result (λ text. string_bytes text ≡ numbers_text seed rounds) }
{
    format!(in alloc; "drill {seed} {rounds}")
}

#[tactic(auto, unfolding(crate::specs::Summaries::acts_text))]
fn act_counts(alloc: Global, tally: Tally) -> Result<String, AllocError>
    ensures { IfOk result (λ text. string_bytes text ≡ acts_text tally) }
{
    let (acts, done, denied) = (tally.acts, tally.done, tally.denied);
    format!(in alloc; " acts {acts} ok {done} denied {denied}")
}

#[tactic(auto, unfolding(crate::specs::Summaries::frames_text))]
fn frame_counts(alloc: Global, tally: Tally) -> Result<String, AllocError>
    ensures { IfOk result (λ text. string_bytes text ≡ frames_text tally) }
{
    let (heard, missed, sent) = (tally.heard, tally.missed, tally.sent);
    format!(in alloc; " heard {heard} missed {missed} sent {sent}\n")
}

fn joined_three<'a>(
    alloc: Global,
    first: &'a [u8],
    second: &'a [u8],
    third: &'a [u8],
) -> Result<Bytes, Memory>
    ensures { IfOk result (λ text. text ≡ first.now ++ second.now ++ third.now) }
{
    joined(alloc, &[first, second, third])
}

/// The last line of a run that a fault of a file ended; `place` is the fault's line or entry.
#[tactic(auto, unfolding(crate::specs::Refusals::refusal_line))]
pub fn refusal(
    alloc: Global,
    file: File,
    place: u32,
    number: u8,
    name: &[u8],
) -> Result<Bytes, Memory>
    ensures { IfOk result (λ text. text ≡ refusal_line (record {
      file = file_of file;
      place = place;
      number = number;
      name = name.now;
    })) }
{
    let place = place.to_string(alloc)?;
    let number = number.to_string(alloc)?;
    refusal_of(
        alloc,
        file.word(),
        place.as_bytes(),
        number.as_bytes(),
        name,
    )
}

fn refusal_of<'a>(
    alloc: Global,
    file: &'a [u8],
    place: &'a [u8],
    number: &'a [u8],
    name: &'a [u8],
) -> Result<Bytes, Memory>
    ensures { IfOk result (λ text. text ≡ codes "refused " ++ file.now ++ codes " " ++ place.now
        ++ codes " " ++ number.now ++ codes " " ++ name.now ++ codes "\n") }
{
    joined(
        alloc,
        &[
            b"refused ",
            file,
            b" ",
            place,
            b" ",
            number,
            b" ",
            name,
            b"\n",
        ],
    )
}

// Pieces, one after another.
fn joined(alloc: Global, pieces: &[&[u8]]) -> Result<Bytes, Memory>
    ensures { IfOk result (λ text. text ≡ pieces_text pieces.now) }
{
    let mut text = Bytes::new(alloc);
    for piece in pieces {
        text.push_slice(piece)?;
    }
    Ok(text)
}
