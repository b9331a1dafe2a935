// The rounds of a drill.
ghost use Rattle.std.specs.Prelude.{◌≡◌, ◌+◌, ◌^◌, ◌<◌, ◌∷◌, [], Some, IfOk, IfSome, IsSome};
ghost use Rattle.std.specs.Prelude.{OnErr, OnOk, slice_get, slice_index};
ghost use Rattle.hex.specs.Hex.{encode_lower};
ghost use Rattle.ibos_kinds.specs.Limits.{Fits};
ghost use Rattle.ibos_make.specs.Drill.{first_counts};
ghost use Rattle.ibos_make.specs.Drill.{receive_acts, send_acts, cookie_acts, object_acts};
ghost use Rattle.ibos_make.specs.Drill.{screen_acts, counts_after, with_next};
ghost use Rattle.ibos_make.specs.Drilling.{next_in};
ghost use Rattle.ibos_make.specs.Drill as spec;

use crate::building::{FrameSpec, build};
use crate::drilling::Drill;
use crate::opening::{RDT, TDT, first_of, origin};
use ibos_kinds::{Act, Bytes, Endpoint, Handle, Key, Memory, Proto, Side};
use itoa::Buffer;
use std::alloc::Global;

// This machine's addresses, the gateway's, and the first host's.
const OWN_MAC: u64 = 0x0200_0000_0001;

const GATEWAY_MAC: u64 = 0x0200_0000_00fe;

const OWN_ADDR: u32 = 0xc000_020a;

const HOST_ADDR: u32 = 0xc633_6400;

/// What happens in a round.
#[derive(Clone, Copy, Debug)]
pub enum Kind {
    /// A frame comes in.
    Receive,
    /// A frame goes out.
    Send,
    /// A cookie is set and read.
    Cookies,
    /// An object is stored and asked for.
    Objects,
    /// A key is pressed, and the page draws.
    Screen,
}

/// What a round is about.
#[derive(Clone, Copy, Debug)]
pub struct Round {
    pub kind: Kind,
    pub tab: u8,
    pub byte: u8,
}

/// What is counted over the rounds.
#[derive(Debug, Drop)]
pub struct Counts {
    /// The number that the next round begins with.
    pub number: u64,
    /// Frames that came in.
    pub received: u32,
    /// Frames that went out.
    pub sent: u32,
    /// What each tab asked for.
    pub asked: [u32; 8],
    /// The versions under each of a tab's four keys.
    pub versions: [u32; 32],
}

impl Counts {
    /// Nothing counted.
    pub fn new(seed: u64) -> Counts
        ensures { result ≡ first_counts seed }
    {
        Counts {
            number: seed,
            received: 0,
            sent: 0,
            asked: [0; 8],
            versions: [0; 32],
        }
    }

    /// The round that is next.
    pub fn round(&self) -> Round
        ensures kind { result.kind ≡ spec.kind_of (spec.drawn (spec.next_number self.now.number)) }
        ensures tab { result.tab ≡ spec.tab_of (spec.drawn (spec.next_number self.now.number)) }
        ensures byte { result.byte ≡ spec.byte_of (spec.drawn (spec.next_number self.now.number)) }
        ensures below { result.tab < 8 }
    {
        let drawn = drawn(next_number(self.number));
        Round {
            kind: kind_of(drawn),
            tab: tab_of(drawn),
            byte: byte_of(drawn),
        }
    }

    /// Counts a round.
    pub fn count(&mut self, round: Round)
        requires tab { round.tab < 8 }
        requires received { self.old.received + 1 < 2 ^ 32 }
        requires sent { self.old.sent + 1 < 2 ^ 32 }
        requires asked { slice_index self.old.asked round.tab + 1 < 2 ^ 32 }
        requires versions { slice_index self.old.versions
            (spec.version_place round.tab round.byte) + 1 < 2 ^ 32 }
        ensures { self.new ≡ with_next (counts_after round.kind round.tab round.byte self.old) }
    {
        match round.kind {
            Kind::Receive => self.received += 1,
            Kind::Send => self.sent += 1,
            Kind::Cookies | Kind::Screen => {}
            Kind::Objects => {
                self.asked[usize::from(round.tab)] += 1;
                self.versions[version_place(round.tab, round.byte)] += 1;
            }
        }
        self.number = next_number(self.number);
    }
}

/// The number of the next round (Knuth, The Art of Computer Programming, 3.3.4).
#[tactic(auto, unfolding(crate::specs::Drill::next_number))]
pub fn next_number(number: u64) -> u64
    ensures { result ≡ spec.next_number number }
{
    number
        .wrapping_mul(6_364_136_223_846_793_005)
        .wrapping_add(1_442_695_040_888_963_407)
}

/// What a round is drawn from: the upper bits of its number.
#[tactic(auto, unfolding(crate::specs::Drill::drawn))]
pub fn drawn(number: u64) -> u64
    ensures { result ≡ spec.drawn number }
{
    number >> 33
}

#[tactic(auto, unfolding(crate::specs::Drill::kind_of))]
fn kind_of(drawn: u64) -> Kind
    ensures { result ≡ spec.kind_of drawn }
{
    match drawn % 5 {
        0 => Kind::Receive,
        1 => Kind::Send,
        2 => Kind::Cookies,
        3 => Kind::Objects,
        _ => Kind::Screen,
    }
}

#[tactic(auto, unfolding(crate::specs::Drill::tab_of))]
fn tab_of(drawn: u64) -> u8
    ensures tab { result ≡ spec.tab_of drawn }
    ensures below { result < 8 }
{
    (drawn / 5 % 8) as u8
}

#[tactic(auto, unfolding(crate::specs::Drill::byte_of))]
fn byte_of(drawn: u64) -> u8
    ensures { result ≡ spec.byte_of drawn }
{
    (drawn / 40 % 256) as u8
}

/// Where the versions under a key are counted.
pub fn version_place(tab: u8, byte: u8) -> usize
    requires { tab < 8 }
    ensures place { result ≡ spec.version_place tab byte }
    ensures below { result < 32 }
{
    4 * usize::from(tab) + usize::from(byte % 4)
}

/// How many acts a round of that kind has.
pub fn round_len(kind: Kind) -> u8
    ensures { result ≡ spec.round_len kind }
{
    match kind {
        Kind::Receive => 5,
        Kind::Send => 6,
        Kind::Cookies => 2,
        Kind::Objects => 4,
        Kind::Screen => 3,
    }
}

/// A frame comes and is told; its buffer is posted and rung again, and the page is done with it.
/// The drill goes on, as in each of these functions, unless there is no memory for the act.
pub fn receive_act(
    alloc: Global,
    tab: u8,
    byte: u8,
    received: u32,
    place: u8,
    drill: &mut Drill,
    act: &mut Act,
) -> Result<(), Memory>
    requires tab { tab < 8 }
    requires place { place < 5 }
    requires rounds { 0 < drill.old.rounds }
    ensures act { OnOk result (slice_get (receive_acts tab byte received) place ≡ Some act.new) }
    ensures fits { OnOk result (Fits act.new) }
    ensures ok { OnOk result (drill.new ≡ next_in drill.old) }
    ensures err { OnErr result (drill.new ≡ drill.old) }
{
    if place == 0 {
        let frame = frame_in(alloc, tab, byte)?;
        drill.go_on();
        *act = Act::WireIn { frame };
        return Ok(());
    }
    drill.go_on();
    match place {
        1 => *act = Act::RxBell,
        // The buffer is posted where the ring goes on. Each round trip of a buffer is one more
        // turn.
        2 => {
            *act = Act::RxPost {
                slot: (received % 64 + 63) % 64,
                handle: Handle {
                    name: (received % 63) as u8,
                    turn: received / 63 + 1,
                },
            }
        }
        3 => {
            *act = Act::RegWrite {
                offset: RDT,
                value: received % 64,
            }
        }
        4 => *act = Act::Done { who: first_of(tab) },
        _ => unreachable!(),
    }
    Ok(())
}

/// A frame is written, accepted, posted, rung and sent, and its buffer comes back.
pub fn send_act(
    alloc: Global,
    tab: u8,
    byte: u8,
    sent: u32,
    place: u8,
    drill: &mut Drill,
    act: &mut Act,
) -> Result<(), Memory>
    requires tab { tab < 8 }
    requires place { place < 6 }
    requires rounds { 0 < drill.old.rounds }
    ensures act { OnOk result (slice_get (send_acts tab byte sent) place ≡ Some act.new) }
    ensures fits { OnOk result (Fits act.new) }
    ensures ok { OnOk result (drill.new ≡ next_in drill.old) }
    ensures err { OnErr result (drill.new ≡ drill.old) }
{
    let who = first_of(tab);
    if place == 0 {
        let bytes = frame_out(alloc, tab, byte)?;
        drill.go_on();
        *act = Act::Fill {
            who,
            buffer: 0,
            place: 0,
            bytes,
        };
        return Ok(());
    }
    drill.go_on();
    match place {
        1 => {
            *act = Act::Submit {
                who,
                buffer: 0,
                len: 55,
            }
        }
        2 => {
            *act = Act::TxPost {
                slot: sent % 64,
                send: sent,
            }
        }
        3 => {
            *act = Act::RegWrite {
                offset: TDT,
                value: (sent % 64 + 1) % 64,
            }
        }
        4 => *act = Act::WireOut,
        5 => *act = Act::TxBell,
        _ => unreachable!(),
    }
    Ok(())
}

/// A cookie is set and read.
pub fn cookie_act(
    alloc: Global,
    tab: u8,
    byte: u8,
    place: u8,
    drill: &mut Drill,
    act: &mut Act,
) -> Result<(), Memory>
    requires tab { tab < 8 }
    requires place { place < 2 }
    requires rounds { 0 < drill.old.rounds }
    ensures act { OnOk result (slice_get (cookie_acts tab byte) place ≡ Some act.new) }
    ensures fits { OnOk result (Fits act.new) }
    ensures ok { OnOk result (drill.new ≡ next_in drill.old) }
    ensures err { OnErr result (drill.new ≡ drill.old) }
{
    let who = first_of(tab);
    if place == 0 {
        let text = set_text(alloc, byte)?;
        drill.go_on();
        *act = Act::CookieSet {
            side: Side::Page,
            who,
            text,
        };
        return Ok(());
    }
    drill.go_on();
    *act = Act::CookieGet {
        side: Side::Net,
        who,
    };
    Ok(())
}

/// An object is stored and asked for. An answer in the name of another origin is refused, and one
/// in the right name is taken.
pub fn object_act(
    alloc: Global,
    tab: u8,
    byte: u8,
    request: u32,
    version: u32,
    place: u8,
    drill: &mut Drill,
    act: &mut Act,
) -> Result<(), Memory>
    requires tab { tab < 8 }
    requires place { place < 4 }
    requires rounds { 0 < drill.old.rounds }
    ensures act { OnOk result
        (slice_get (object_acts tab byte request version) place ≡ Some act.new) }
    ensures fits { OnOk result (Fits act.new) }
    ensures ok { OnOk result (drill.new ≡ next_in drill.old) }
    ensures err { OnErr result (drill.new ≡ drill.old) }
{
    let who = first_of(tab);
    let key = key_name(alloc, byte)?;
    match place {
        0 => {
            let bytes = Bytes::from_slice(alloc, &[byte])?;
            drill.go_on();
            *act = Act::Put { who, key, bytes };
        }
        1 => {
            drill.go_on();
            *act = Act::Ask { who, key };
        }
        2 => {
            let origin = origin(alloc, (tab + 1) % 8)?;
            drill.go_on();
            *act = Act::StoreAnswer {
                who,
                request,
                origin,
                key,
                version,
            };
        }
        3 => {
            let origin = origin(alloc, tab)?;
            drill.go_on();
            *act = Act::StoreAnswer {
                who,
                request,
                origin,
                key,
                version,
            };
        }
        _ => unreachable!(),
    }
    Ok(())
}

/// A tab is switched to, and a key pressed there; the page draws the key's byte.
pub fn screen_act(
    alloc: Global,
    tab: u8,
    byte: u8,
    place: u8,
    drill: &mut Drill,
    act: &mut Act,
) -> Result<(), Memory>
    requires tab { tab < 8 }
    requires place { place < 3 }
    requires rounds { 0 < drill.old.rounds }
    ensures act { OnOk result (slice_get (screen_acts tab byte) place ≡ Some act.new) }
    ensures fits { OnOk result (Fits act.new) }
    ensures ok { OnOk result (drill.new ≡ next_in drill.old) }
    ensures err { OnErr result (drill.new ≡ drill.old) }
{
    let drawn = b' ' + byte % 95;
    if place == 2 {
        let pixels = Bytes::from_slice(alloc, &[drawn])?;
        drill.go_on();
        *act = Act::Draw {
            who: first_of(tab),
            row: u32::from(byte % 22),
            col: u32::from(byte % 80),
            height: 1,
            width: 1,
            pixels,
        };
        return Ok(());
    }
    drill.go_on();
    match place {
        0 => *act = Act::Switch { tab },
        1 => {
            *act = Act::Press {
                key: Key::Byte(drawn),
            }
        }
        _ => unreachable!(),
    }
    Ok(())
}

// A frame from the tab's host to its page.
#[tactic(auto, unfolding(crate::specs::Drill::frame_in))]
fn frame_in(alloc: Global, tab: u8, byte: u8) -> Result<Bytes, Memory>
    requires { tab < 8 }
    ensures { IfOk result (λ frame. frame ≡ spec.frame_in tab byte) }
{
    let frame = FrameSpec {
        to: OWN_MAC,
        from: GATEWAY_MAC,
        src: host_end(tab),
        dst: own_end(tab),
        proto: Proto::Tcp,
        payload: Bytes::from_slice(alloc, &[byte])?,
    };
    let bytes = build(alloc, &frame)?;
    Ok(bytes)
}

// And one back.
#[tactic(auto, unfolding(crate::specs::Drill::frame_out))]
fn frame_out(alloc: Global, tab: u8, byte: u8) -> Result<Bytes, Memory>
    requires { tab < 8 }
    ensures { IfOk result (λ frame. frame ≡ spec.frame_out tab byte) }
{
    let frame = FrameSpec {
        to: GATEWAY_MAC,
        from: OWN_MAC,
        src: own_end(tab),
        dst: host_end(tab),
        proto: Proto::Tcp,
        payload: Bytes::from_slice(alloc, &[byte])?,
    };
    let bytes = build(alloc, &frame)?;
    Ok(bytes)
}

fn host_end(tab: u8) -> Endpoint
    requires { tab < 8 }
    ensures { result ≡ spec.host_end tab }
{
    Endpoint {
        addr: HOST_ADDR + u32::from(tab),
        port: 80,
    }
}

fn own_end(tab: u8) -> Endpoint
    requires { tab < 8 }
    ensures { result ≡ spec.own_end tab }
{
    Endpoint {
        addr: OWN_ADDR,
        port: 32768 + 512 * u16::from(tab),
    }
}

// The text that sets a cookie.
#[tactic(auto, unfolding(crate::specs::Drill::set_text))]
fn set_text(alloc: Global, byte: u8) -> Result<Bytes, Memory>
    ensures { IfOk result (λ text. text ≡ spec.set_text byte) }
{
    let mut digits = Buffer::new();
    let mut text = Bytes::from_slice(alloc, b"c")?;
    text.push_slice(digits.format(byte % 16).as_bytes())?;
    text.push_slice(b"=")?;
    text.push_slice(&hex_pair(byte))?;
    Ok(text)
}

// A byte as two hexadecimal digits.
fn hex_pair(byte: u8) -> [u8; 2]
    ensures { result ≡ encode_lower (byte ∷ []) }
{
    let mut digits = [0u8; 2];
    let Ok(()) = hex::encode_to_slice([byte].as_slice(), &mut digits) else {
        unreachable!()
    };
    digits
}

fn key_name(alloc: Global, byte: u8) -> Result<Bytes, Memory>
    ensures { IfOk result (λ name. name ≡ spec.key_name byte) }
{
    let name = Bytes::from_slice(alloc, &[b'k', b'0' + byte % 4])?;
    Ok(name)
}
