// The lines of a script.
ghost use Rattle.std.specs.Prelude.{◌≡◌, true, IfOk, IfSome, OnOk};
ghost use Rattle.ibos_text.specs.Words.{first_word, after_word};
ghost use Rattle.ibos_script.specs.Faults.{Gives, GivesInto, Makes};
ghost use Rattle.ibos_script.specs.Lines.{LineFits, line_in, act_in, user_in, page_in, net_in};
ghost use Rattle.ibos_script.specs.Lines.{cookie_in, flow_in, dev_in, bell_in, wire_in, store_in};
ghost use Rattle.ibos_script.specs.Lines as spec;

use crate::fault::LineFault;
use crate::forms::{
    read_ask, read_bind, read_click, read_close, read_cookie_get, read_cookie_set, read_done,
    read_draw, read_fill, read_go, read_look, read_next_frame, read_open, read_press, read_put,
    read_receive_bell, read_receive_post, read_register_read, read_register_write,
    read_store_answer, read_store_lose, read_store_none, read_submit, read_switch,
    read_transmit_bell, read_transmit_post, read_unbind, read_wire_frame, read_wire_room,
};
use ibos_fields::are_printable;
use ibos_kinds::{Act, Proto, Side};
use ibos_text::next_word;
use std::alloc::Global;

// In bytes, without the line's end.
const MAX_LINE: usize = 8192;

/// What a line of a script asks for.
#[derive(Debug, PartialEq, Eq, Drop)]
pub enum Line {
    /// One event of one actor.
    Act(Act),
    /// The next frame of the capture comes from the wire.
    NextFrame,
}

/// Reads a line of a script, given without its end: an act, that the next frame of the capture
/// comes, or None for a comment or a blank line.
///
/// | Line | Act |
/// |---|---|
/// | `user open T URL` | `Start` |
/// | `user switch T`, `user close T` | `Switch`, `Close` |
/// | `user key K`, `user click ROW COL`, `user look` | `Press`, `Click`, `Look` |
/// | `page T.N go URL` | `Go` |
/// | `page T.N draw ROW COL HEIGHT WIDTH HEX` | `Draw` |
/// | `page T.N put KEY HEX`, `page T.N ask KEY` | `Put`, `Ask` |
/// | `page T.N cookie set TEXT`, `net T.N cookie set TEXT` | `CookieSet` |
/// | `page T.N cookie get`, `net T.N cookie get` | `CookieGet` |
/// | `net T.N flow tcp`, `net T.N flow udp` | `Bind` |
/// | `net T.N close I`, `net T.N done` | `Unbind`, `Done` |
/// | `net T.N fill B PLACE HEX`, `net T.N submit B LEN` | `Fill`, `Submit` |
/// | `store answer T.N R ORIGIN KEY V` | `StoreAnswer` |
/// | `store none T.N R`, `store lose ORIGIN KEY V` | `StoreNone`, `StoreLose` |
/// | `dev read REG`, `dev write REG VALUE` | `RegRead`, `RegWrite` |
/// | `dev rx SLOT NAME TURN`, `dev bell rx` | `RxPost`, `RxBell` |
/// | `dev tx SLOT SEND`, `dev bell tx` | `TxPost`, `TxBell` |
/// | `wire in HEX`, `wire out` | `WireIn`, `WireOut` |
/// | `wire next` | no act, but `NextFrame` |
///
/// T (below 64), N (below 32), I (below 16), B (below 4), NAME (below 256), and ROW, COL, HEIGHT,
/// WIDTH, PLACE, LEN, R, V, SLOT, TURN and SEND (below 2^32) are decimal, in at most ten digits.
/// REG and VALUE are `0x` and one to eight hexadecimal digits. K is `enter`, `back` or a printable
/// byte in hexadecimal, HEX any number of bytes in hexadecimal, `-` for none. KEY and ORIGIN are
/// one word; URL and TEXT take what is left of the line.
pub fn read_line(alloc: Global, line: &[u8]) -> Result<Option<Line>, LineFault>
    ensures line { Gives result (line_in line.now) }
    ensures fits { IfOk result (λ line. IfSome line LineFits) }
{
    let mut made = Line::NextFrame;
    if read_line_into(alloc, line, &mut made)? {
        Ok(Some(made))
    } else {
        Ok(None)
    }
}

/// The same, but what the line gives takes the place of what the caller has in `made`, and the
/// answer is whether it gives something: an act is large, and a call that answers it copies it.
#[tactic(auto, unfolding(crate::specs::Lines::line_in))]
pub fn read_line_into(alloc: Global, line: &[u8], made: &mut Line) -> Result<bool, LineFault>
    ensures line { GivesInto result made.new (line_in line.now) }
    ensures fits { IfOk result (λ gives. gives ≡ true → LineFits made.new) }
{
    if line.len() > MAX_LINE {
        return Err(LineFault::Long);
    }
    if !are_printable(line) {
        return Err(LineFault::Byte);
    }
    if is_comment(line) {
        return Ok(false);
    }
    let Some((actor, rest)) = next_word(line) else {
        return Ok(false);
    };
    read_act(alloc, actor, rest, made)?;
    Ok(true)
}

fn is_comment(line: &[u8]) -> bool
    ensures { result ≡ spec.is_comment line.now }
{
    matches!(line, [b'#', ..])
}

#[tactic(auto, unfolding(crate::specs::Lines::act_in))]
fn read_act(alloc: Global, actor: &[u8], line: &[u8], made: &mut Line) -> Result<(), LineFault>
    ensures line { Makes result made.new (act_in actor.now line.now) }
    ensures fits { OnOk result (LineFits made.new) }
{
    let (second, line) = split_word(line);
    if actor == b"user".as_slice() {
        return read_user(alloc, second, line, made);
    }
    if actor == b"dev".as_slice() {
        return read_dev(second, line, made);
    }
    if actor == b"wire".as_slice() {
        return read_wire(alloc, second, line, made);
    }
    if actor == b"store".as_slice() {
        return read_store(alloc, second, line, made);
    }
    let (third, line) = split_word(line);
    if actor == b"page".as_slice() {
        return read_page(alloc, second, third, line, made);
    }
    if actor == b"net".as_slice() {
        return read_net(alloc, second, third, line, made);
    }
    Err(LineFault::Word)
}

#[tactic(auto, unfolding(crate::specs::Lines::user_in))]
fn read_user(alloc: Global, command: &[u8], line: &[u8], made: &mut Line) -> Result<(), LineFault>
    ensures line { Makes result made.new (user_in command.now line.now) }
    ensures fits { OnOk result (LineFits made.new) }
{
    if command == b"open".as_slice() {
        return read_open(alloc, line, made);
    }
    if command == b"switch".as_slice() {
        return read_switch(line, made);
    }
    if command == b"close".as_slice() {
        return read_close(line, made);
    }
    if command == b"key".as_slice() {
        return read_press(line, made);
    }
    if command == b"click".as_slice() {
        return read_click(line, made);
    }
    if command == b"look".as_slice() {
        return read_look(line, made);
    }
    Err(LineFault::Word)
}

#[tactic(auto, unfolding(crate::specs::Lines::dev_in))]
fn read_dev(command: &[u8], line: &[u8], made: &mut Line) -> Result<(), LineFault>
    ensures line { Makes result made.new (dev_in command.now line.now) }
    ensures fits { OnOk result (LineFits made.new) }
{
    if command == b"read".as_slice() {
        return read_register_read(line, made);
    }
    if command == b"write".as_slice() {
        return read_register_write(line, made);
    }
    if command == b"rx".as_slice() {
        return read_receive_post(line, made);
    }
    if command == b"tx".as_slice() {
        return read_transmit_post(line, made);
    }
    if command == b"bell".as_slice() {
        let (ring, line) = split_word(line);
        return read_bell(ring, line, made);
    }
    Err(LineFault::Word)
}

#[tactic(auto, unfolding(crate::specs::Lines::bell_in))]
fn read_bell(ring: &[u8], line: &[u8], made: &mut Line) -> Result<(), LineFault>
    ensures line { Makes result made.new (bell_in ring.now line.now) }
    ensures fits { OnOk result (LineFits made.new) }
{
    if ring == b"rx".as_slice() {
        return read_receive_bell(line, made);
    }
    if ring == b"tx".as_slice() {
        return read_transmit_bell(line, made);
    }
    Err(LineFault::Word)
}

#[tactic(auto, unfolding(crate::specs::Lines::wire_in))]
fn read_wire(alloc: Global, command: &[u8], line: &[u8], made: &mut Line) -> Result<(), LineFault>
    ensures line { Makes result made.new (wire_in command.now line.now) }
    ensures fits { OnOk result (LineFits made.new) }
{
    if command == b"in".as_slice() {
        return read_wire_frame(alloc, line, made);
    }
    if command == b"next".as_slice() {
        return read_next_frame(line, made);
    }
    if command == b"out".as_slice() {
        return read_wire_room(line, made);
    }
    Err(LineFault::Word)
}

#[tactic(auto, unfolding(crate::specs::Lines::store_in))]
fn read_store(alloc: Global, command: &[u8], line: &[u8], made: &mut Line) -> Result<(), LineFault>
    ensures line { Makes result made.new (store_in command.now line.now) }
    ensures fits { OnOk result (LineFits made.new) }
{
    if command == b"answer".as_slice() {
        return read_store_answer(alloc, line, made);
    }
    if command == b"none".as_slice() {
        return read_store_none(line, made);
    }
    if command == b"lose".as_slice() {
        return read_store_lose(alloc, line, made);
    }
    Err(LineFault::Word)
}

#[tactic(auto, unfolding(crate::specs::Lines::page_in))]
fn read_page(
    alloc: Global,
    who: &[u8],
    command: &[u8],
    line: &[u8],
    made: &mut Line,
) -> Result<(), LineFault>
    ensures line { Makes result made.new (page_in who.now command.now line.now) }
    ensures fits { OnOk result (LineFits made.new) }
{
    if command == b"go".as_slice() {
        return read_go(alloc, who, line, made);
    }
    if command == b"draw".as_slice() {
        return read_draw(alloc, who, line, made);
    }
    if command == b"cookie".as_slice() {
        let (command, line) = split_word(line);
        return read_cookie(alloc, Side::Page, who, command, line, made);
    }
    if command == b"put".as_slice() {
        return read_put(alloc, who, line, made);
    }
    if command == b"ask".as_slice() {
        return read_ask(alloc, who, line, made);
    }
    Err(LineFault::Word)
}

#[tactic(auto, unfolding(crate::specs::Lines::net_in))]
fn read_net(
    alloc: Global,
    who: &[u8],
    command: &[u8],
    line: &[u8],
    made: &mut Line,
) -> Result<(), LineFault>
    ensures line { Makes result made.new (net_in who.now command.now line.now) }
    ensures fits { OnOk result (LineFits made.new) }
{
    if command == b"flow".as_slice() {
        let (proto, line) = split_word(line);
        return read_flow(who, proto, line, made);
    }
    if command == b"close".as_slice() {
        return read_unbind(who, line, made);
    }
    if command == b"done".as_slice() {
        return read_done(who, line, made);
    }
    if command == b"cookie".as_slice() {
        let (command, line) = split_word(line);
        return read_cookie(alloc, Side::Net, who, command, line, made);
    }
    if command == b"fill".as_slice() {
        return read_fill(alloc, who, line, made);
    }
    if command == b"submit".as_slice() {
        return read_submit(who, line, made);
    }
    Err(LineFault::Word)
}

#[tactic(auto, unfolding(crate::specs::Lines::flow_in))]
fn read_flow(who: &[u8], proto: &[u8], line: &[u8], made: &mut Line) -> Result<(), LineFault>
    ensures line { Makes result made.new (flow_in who.now proto.now line.now) }
    ensures fits { OnOk result (LineFits made.new) }
{
    if proto == b"tcp".as_slice() {
        return read_bind(Proto::Tcp, who, line, made);
    }
    if proto == b"udp".as_slice() {
        return read_bind(Proto::Udp, who, line, made);
    }
    Err(LineFault::Word)
}

#[tactic(auto, unfolding(crate::specs::Lines::cookie_in))]
fn read_cookie(
    alloc: Global,
    side: Side,
    who: &[u8],
    command: &[u8],
    line: &[u8],
    made: &mut Line,
) -> Result<(), LineFault>
    ensures line { Makes result made.new (cookie_in side who.now command.now line.now) }
    ensures fits { OnOk result (LineFits made.new) }
{
    if command == b"set".as_slice() {
        return read_cookie_set(alloc, side, who, line, made);
    }
    if command == b"get".as_slice() {
        return read_cookie_get(side, who, line, made);
    }
    Err(LineFault::Word)
}

// The first word of a line, empty where there is none, and the rest after it.
fn split_word(line: &[u8]) -> (&[u8], &[u8])
    ensures word { result.0.now ≡ first_word line.now }
    ensures rest { result.1.now ≡ after_word line.now }
{
    match next_word(line) {
        Some(found) => found,
        None => (&[], &[]),
    }
}
