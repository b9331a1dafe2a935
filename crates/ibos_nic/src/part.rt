//! Which register is which part of which ring.
ghost use Rattle.std.specs.Prelude.{◌≡◌};
ghost use Rattle.ibos_nic.specs.Parts.{part_of};

use crate::reg::Reg;
use ibos_pool::Ring;

/// A part of a ring's registers.
#[derive(Clone, Copy, Debug, PartialEq, Eq)]
pub enum Part {
    Base,
    High,
    Length,
    Head,
    Tail,
    Control,
}

/// A part of one of the two rings.
#[derive(Clone, Copy, Debug, PartialEq, Eq)]
pub struct RingPart {
    pub ring: Ring,
    pub part: Part,
}

impl Reg {
    /// The part of a ring that a register is, where it is one.
    pub fn part(self) -> Option<RingPart>
        ensures { result ≡ part_of self }
    {
        let (ring, part) = match self {
            Reg::Rctl => (Ring::Receive, Part::Control),
            Reg::Rdbal => (Ring::Receive, Part::Base),
            Reg::Rdbah => (Ring::Receive, Part::High),
            Reg::Rdlen => (Ring::Receive, Part::Length),
            Reg::Rdh => (Ring::Receive, Part::Head),
            Reg::Rdt => (Ring::Receive, Part::Tail),
            Reg::Tctl => (Ring::Transmit, Part::Control),
            Reg::Tdbal => (Ring::Transmit, Part::Base),
            Reg::Tdbah => (Ring::Transmit, Part::High),
            Reg::Tdlen => (Ring::Transmit, Part::Length),
            Reg::Tdh => (Ring::Transmit, Part::Head),
            Reg::Tdt => (Ring::Transmit, Part::Tail),
            _ => return None,
        };
        Some(RingPart { ring, part })
    }
}
