// A drill: as many acts of all parties as are wanted, made from a number.
ghost use Rattle.std.specs.Prelude.{◌≡◌, ◌↔◌, ◌∷◌, ◌<◌, ◌≤◌, ◌+◌, ◌*◌, [], None, length, IfOk};
ghost use Rattle.std.specs.Prelude.{IfSome, OnErr, OnOk, Some, slice_get, true, false};
ghost use Rattle.ibos_kinds.specs.Limits.{Fits};
ghost use Rattle.ibos_make.specs.Drill.{drill_acts, drill_table, left, round_acts};
ghost use Rattle.ibos_make.specs.Drilling.{next_in};

use crate::opening::{OPENING, opening_act};
use crate::rounds::{
    Counts, Kind, Round, cookie_act, object_act, receive_act, round_len, screen_act, send_act,
    version_place,
};
use ibos_kinds::{Act, Memory};
use ibos_origin::{Hosts, HostsFault};
use std::alloc::Global;
use std::marker::Model;

// `self` and `gateway`, and a host for each tab.
const HOSTS: &[u8] = b"self 192.0.2.10 02:00:00:00:00:01
gateway 02:00:00:00:00:fe
host h0.example 198.51.100.0
host h1.example 198.51.100.1
host h2.example 198.51.100.2
host h3.example 198.51.100.3
host h4.example 198.51.100.4
host h5.example 198.51.100.5
host h6.example 198.51.100.6
host h7.example 198.51.100.7
";

/// The host table of every drill.
pub fn drill_hosts(alloc: Global) -> Result<Hosts, Memory>
    ensures { IfOk result (λ hosts. hosts ≡ drill_table) }
{
    match Hosts::read(alloc, HOSTS) {
        Ok(hosts) => Ok(hosts),
        Err(HostsFault::Memory) => Err(Memory),
        Err(HostsFault::At { .. }) => unreachable!(),
    }
}

/// A drill, act by act. Both rings are set up and eight tabs opened; then comes a round after the
/// other, each in one tab: a frame comes in or goes out, a cookie is set and read, an object is
/// stored and asked for, or a key is pressed and the page draws.
#[derive(Debug, Drop)]
pub struct Drill {
    // How many of the acts before the rounds came.
    opening: u8,
    // How many rounds are not over, what the first of these is about, and how many of its acts
    // came.
    rounds: u32,
    round: Round,
    place: u8,
    counts: Counts,
}

impl Model for Drill {
    ghost use Rattle.ibos_make.specs.Drill.{Drilling};

    ghost Value = { Drilling };

    ghost view = { λ d.
        record { opening = d.opening; rounds = d.rounds; place = d.place; counts = d.counts } };

    ghost use Rattle.ibos_make.specs.Drilling.{IsDrawn, IsWithin};

    ghost invariant = { λ d. IsDrawn d.round d.counts × IsWithin
        (record { opening = d.opening; rounds = d.rounds; place = d.place; counts = d.counts }) };
}

impl Drill {
    /// The drill of a seed, with so many rounds: the acts before them, and at most six in each.
    pub fn new(seed: u64, rounds: u32) -> Drill
        ensures acts { left result ≡ drill_acts seed rounds }
        ensures few { length (left result) ≤ 86 + 6 * rounds }
    {
        let counts = Counts::new(seed);
        Drill {
            opening: 0,
            rounds,
            round: counts.round(),
            place: 0,
            counts,
        }
    }

    /// The next act, which fits; None after the last.
    pub fn next(&mut self, alloc: Global) -> Result<Option<Act>, Memory>
        ensures none { IfOk result (λ next. next ≡ None ↔ left self.old ≡ []) }
        ensures some { IfOk result (λ next.
            IfSome next (λ act. left self.old ≡ act ∷ left self.new)) }
        ensures fits { IfOk result (λ next. IfSome next Fits) }
        ensures over { IfOk result (λ next. next ≡ None → self.new ≡ self.old) }
        ensures same { OnErr result (self.new ≡ self.old) }
    {
        let mut act = Act::Look;
        if self.next_into(alloc, &mut act)? {
            Ok(Some(act))
        } else {
            Ok(None)
        }
    }

    /// The same, but the act takes the place of one that the caller has, and the answer is whether
    /// there was one: an act is large, and a call that answers it copies it.
    #[inline(always)]
    pub fn next_into(&mut self, alloc: Global, act: &mut Act) -> Result<bool, Memory>
        ensures none { IfOk result (λ more. more ≡ false ↔ left self.old ≡ []) }
        ensures some { IfOk result (λ more.
            more ≡ true → left self.old ≡ act.new ∷ left self.new) }
        ensures fits { IfOk result (λ more. more ≡ true → Fits act.new) }
        ensures over { IfOk result (λ more. more ≡ false → self.new ≡ self.old) }
        ensures same { OnErr result (self.new ≡ self.old) }
    {
        if self.opening < OPENING {
            *act = opening_act(alloc, self.opening)?;
            self.opening += 1;
            return Ok(true);
        }
        if self.rounds == 0 {
            return Ok(false);
        }
        self.round_act(alloc, act)?;
        Ok(true)
    }

    // The next act of a round.
    #[inline(always)]
    fn round_act(&mut self, alloc: Global, act: &mut Act) -> Result<(), Memory>
        requires { 0 < self.old.rounds }
        ensures act { OnOk result
            (slice_get (round_acts self.old.counts) self.old.place ≡ Some act.new) }
        ensures fits { OnOk result (Fits act.new) }
        ensures ok { OnOk result (self.new ≡ next_in self.old) }
        ensures err { OnErr result (self.new ≡ self.old) }
    {
        let Round { kind, tab, byte } = self.round;
        let place = self.place;
        match kind {
            Kind::Receive => {
                let received = self.counts.received;
                receive_act(alloc, tab, byte, received, place, self, act)
            }
            Kind::Send => {
                let sent = self.counts.sent;
                send_act(alloc, tab, byte, sent, place, self, act)
            }
            Kind::Cookies => cookie_act(alloc, tab, byte, place, self, act),
            Kind::Objects => {
                let request = self.counts.asked[usize::from(tab)];
                let version = self.counts.versions[version_place(tab, byte)] + 1;
                object_act(alloc, tab, byte, request, version, place, self, act)
            }
            Kind::Screen => screen_act(alloc, tab, byte, place, self, act),
        }
    }

    /// One more act of a round came.
    #[inline(always)]
    pub(crate) fn go_on(&mut self)
        requires { 0 < self.old.rounds }
        ensures { self.new ≡ next_in self.old }
    {
        let place = self.place + 1;
        if place == round_len(self.round.kind) {
            self.begin_round();
        } else {
            self.place = place;
        }
    }

    // The last act of a round came.
    #[inline(never)]
    fn begin_round(&mut self)
        requires some { 0 < self.old.rounds }
        requires last { self.old.place + 1 ≡ length (round_acts self.old.counts) }
        ensures { self.new ≡ next_in self.old }
    {
        self.rounds -= 1;
        self.place = 0;
        self.counts.count(self.round);
        self.round = self.counts.round();
    }
}
