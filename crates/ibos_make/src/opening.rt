// The acts of a drill before its rounds.
ghost use Rattle.std.specs.Prelude.{◌≡◌, ◌<◌, Some, IfOk, slice_get};
ghost use Rattle.ibos_kinds.specs.Limits.{Fits};
ghost use Rattle.ibos_make.specs.Drill.{opening_acts, ring_acts, post_acts, open_acts};
ghost use Rattle.ibos_make.specs.Drill.{drill_origin, drill_url};
ghost use Rattle.ibos_make.specs.Drill as spec;

use ibos_kinds::{Act, Bytes, Handle, Instance, Memory, Proto};
use std::alloc::Global;

/// How many acts there are before the rounds.
pub const OPENING: u8 = 86;

// Of these, the first ones set the rings up, and the next ones post receive buffers.
const RINGS: u8 = 6;

const POSTS: u8 = 64;

const TABS: u8 = 8;

// Where the tab's digit stands in the origin of its page.
const HOST_DIGIT: usize = 8;

// The offsets of the driver's registers.
const RCTL: u32 = 0x0100;

const TCTL: u32 = 0x0400;

const RDBAL: u32 = 0x2800;

const RDLEN: u32 = 0x2808;

/// The tail of the receive ring.
pub const RDT: u32 = 0x2818;

const TDBAL: u32 = 0x3800;

const TDLEN: u32 = 0x3808;

/// The tail of the transmit ring.
pub const TDT: u32 = 0x3818;

/// One of the acts before the rounds.
pub fn opening_act(alloc: Global, place: u8) -> Result<Act, Memory>
    requires { place < 86 }
    ensures act { IfOk result (λ act. slice_get opening_acts place ≡ Some act) }
    ensures fits { IfOk result Fits }
{
    if place < RINGS {
        return Ok(ring_act(place));
    }
    if place < RINGS + POSTS {
        return Ok(post_act(place - RINGS));
    }
    let act = open_act(alloc, place - RINGS - POSTS)?;
    Ok(act)
}

// Both rings get their base and their length, and are enabled.
fn ring_act(place: u8) -> Act
    requires { place < 6 }
    ensures act { slice_get ring_acts place ≡ Some result }
    ensures fits { Fits result }
{
    let (offset, value) = match place {
        0 => (RDBAL, 0x0010_0000),
        1 => (RDLEN, 1024),
        2 => (TDBAL, 0x0010_1000),
        3 => (TDLEN, 1024),
        4 => (RCTL, 0x0400_8002),
        5 => (TCTL, 0x2),
        _ => unreachable!(),
    };
    Act::RegWrite { offset, value }
}

// All receive buffers but one are posted, and rung.
fn post_act(place: u8) -> Act
    requires { place < 64 }
    ensures act { slice_get post_acts place ≡ Some result }
    ensures fits { Fits result }
{
    if place < POSTS - 1 {
        Act::RxPost {
            slot: u32::from(place),
            handle: Handle {
                name: place,
                turn: 0,
            },
        }
    } else {
        Act::RegWrite {
            offset: RDT,
            value: 0x3f,
        }
    }
}

// A tab is opened, or binds a flow.
fn open_act(alloc: Global, place: u8) -> Result<Act, Memory>
    requires { place < 16 }
    ensures act { IfOk result (λ act. slice_get open_acts place ≡ Some act) }
    ensures fits { IfOk result Fits }
{
    if place < TABS {
        let url = url(alloc, place)?;
        return Ok(Act::Start { tab: place, url });
    }
    Ok(Act::Bind {
        who: first_of(place - TABS),
        proto: Proto::Tcp,
    })
}

/// The first instance of a tab.
pub fn first_of(tab: u8) -> Instance
    ensures { result ≡ spec.first_of tab }
{
    Instance { tab, ord: 0 }
}

#[tactic(auto, unfolding(crate::specs::Drill::drill_url))]
fn url(alloc: Global, tab: u8) -> Result<Bytes, Memory>
    requires { tab < 8 }
    ensures { IfOk result (λ text. text ≡ drill_url tab) }
{
    let mut text = origin(alloc, tab)?;
    text.push_slice(b"/")?;
    Ok(text)
}

/// The origin of a tab's page.
pub fn origin(alloc: Global, tab: u8) -> Result<Bytes, Memory>
    requires { tab < 8 }
    ensures { IfOk result (λ text. text ≡ drill_origin tab) }
{
    let mut text = *b"http://h0.example";
    text[HOST_DIGIT] += tab;
    let text = Bytes::from_slice(alloc, &text)?;
    Ok(text)
}
