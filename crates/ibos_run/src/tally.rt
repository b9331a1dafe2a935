// How many acts of a drill had which outcome.
ghost use Rattle.std.specs.Prelude.{◌≡◌, ◌<◌, ◌^◌, []};
ghost use Rattle.ibos_run.specs.Summaries.{IsTally, tally_after, tally_of};

use ibos_kinds::{Head, Item, Outcome, Verdict};

/// How many acts were made, and how many of them were accepted, were denied, had their frame heard,
/// had it missed, and sent a frame.
#[derive(Clone, Copy, Debug, PartialEq, Eq)]
pub struct Tally {
    pub acts: u32,
    pub done: u32,
    pub denied: u32,
    pub heard: u32,
    pub missed: u32,
    pub sent: u32,
}

impl Tally {
    /// No act was made.
    pub fn new() -> Tally
        ensures { result ≡ tally_of [] }
    {
        Tally {
            acts: 0,
            done: 0,
            denied: 0,
            heard: 0,
            missed: 0,
            sent: 0,
        }
    }

    /// Counts one more act.
    pub fn count(&mut self, outcome: &Outcome)
        requires tally { IsTally self.old }
        requires acts { self.old.acts < 2 ^ 31 }
        ensures { self.new ≡ tally_after self.old outcome.now }
    {
        self.acts += 1;
        match outcome.head {
            Head::Ok => self.done += 1,
            Head::Denied(_) => self.denied += 1,
        }
        match outcome.items.as_slice() {
            [
                Item::VerdictIs {
                    verdict: Verdict::Heard,
                },
                ..
            ] => self.heard += 1,
            [
                Item::VerdictIs {
                    verdict: Verdict::Missed,
                },
                ..
            ] => self.missed += 1,
            [Item::SentIs { .. }, ..] => self.sent += 1,
            _ => {}
        }
    }
}
