// What stands behind the words of an actor and its command, and the act that it makes.
ghost use Rattle.std.specs.Prelude.{◌≡◌, true, false, IfOk, MatchResult, OnOk};
ghost use Rattle.ibos_kinds.specs.declared.act.Act.TheVariants.{Start, Switch, Close, Press, Click};
ghost use Rattle.ibos_kinds.specs.declared.act.Act.TheVariants.{Look, Go, Draw, CookieSet};
ghost use Rattle.ibos_kinds.specs.declared.act.Act.TheVariants.{CookieGet, Bind, Unbind};
ghost use Rattle.ibos_kinds.specs.declared.act.Act.TheVariants.{Done, RegRead, RegWrite, RxBell};
ghost use Rattle.ibos_kinds.specs.declared.act.Act.TheVariants.{WireIn, Fill, Submit, TxPost};
ghost use Rattle.ibos_kinds.specs.declared.act.Act.TheVariants.{TxBell, WireOut, Put, Ask};
ghost use Rattle.ibos_kinds.specs.declared.act.Act.TheVariants.{StoreAnswer, StoreNone, StoreLose};
ghost use Rattle.ibos_text.specs.Words.{after_spaces, first_word, after_word, has_word};
ghost use Rattle.ibos_script.specs.Faults.{Makes};
ghost use Rattle.ibos_script.specs.Forms.{nothing, rest, tab, number, flow, buffer, name};
ghost use Rattle.ibos_script.specs.Forms.{hex_number, key, instance, word, hex, form, form_of};
ghost use Rattle.ibos_script.specs.Lines.{LineFits, next_frame, posted};

use crate::fault::LineFault;
use crate::lines::Line;
use ibos_fields::{read_hex, read_hex_number, read_instance, read_key, read_number};
use ibos_kinds::{Act, Bytes, Handle, Memory, Proto, Side};
use ibos_text::{next_word, skip_spaces};
use std::alloc::Global;

// Numbers but for those of tabs, instances, flows and buffers are below this.
const BOUND: u64 = 1 << 32;

/// `T URL` behind `user open`.
pub fn read_open(alloc: Global, line: &[u8], made: &mut Line) -> Result<(), LineFault>
    ensures line { Makes result made.new (form (tab rest) Start line.now) }
    ensures fits { OnOk result (LineFits made.new) }
{
    let (tab, rest) = take_word(line)?;
    let Some(tab) = read_number(64, tab) else {
        return Err(LineFault::Number);
    };
    let url = read_rest(alloc, rest)?;
    *made = Line::Act(Act::Start {
        tab: tab as u8,
        url,
    });
    Ok(())
}

/// `T` behind `user switch`.
pub fn read_switch(line: &[u8], made: &mut Line) -> Result<(), LineFault>
    ensures line { Makes result made.new (form (tab nothing) Switch line.now) }
    ensures fits { OnOk result (LineFits made.new) }
{
    let (tab, rest) = take_word(line)?;
    end_line(rest)?;
    let Some(tab) = read_number(64, tab) else {
        return Err(LineFault::Number);
    };
    *made = Line::Act(Act::Switch { tab: tab as u8 });
    Ok(())
}

/// `T` behind `user close`.
pub fn read_close(line: &[u8], made: &mut Line) -> Result<(), LineFault>
    ensures line { Makes result made.new (form (tab nothing) Close line.now) }
    ensures fits { OnOk result (LineFits made.new) }
{
    let (tab, rest) = take_word(line)?;
    end_line(rest)?;
    let Some(tab) = read_number(64, tab) else {
        return Err(LineFault::Number);
    };
    *made = Line::Act(Act::Close { tab: tab as u8 });
    Ok(())
}

/// `K` behind `user key`.
pub fn read_press(line: &[u8], made: &mut Line) -> Result<(), LineFault>
    ensures line { Makes result made.new (form (key nothing) Press line.now) }
    ensures fits { OnOk result (LineFits made.new) }
{
    let (key, rest) = take_word(line)?;
    end_line(rest)?;
    let Some(key) = read_key(key) else {
        return Err(LineFault::Number);
    };
    *made = Line::Act(Act::Press { key });
    Ok(())
}

/// `ROW COL` behind `user click`.
pub fn read_click(line: &[u8], made: &mut Line) -> Result<(), LineFault>
    ensures line { Makes result made.new (form (number (number nothing)) Click line.now) }
    ensures fits { OnOk result (LineFits made.new) }
{
    let (row, rest) = take_word(line)?;
    let (col, rest) = take_word(rest)?;
    end_line(rest)?;
    let Some(row) = read_number(BOUND, row) else {
        return Err(LineFault::Number);
    };
    let Some(col) = read_number(BOUND, col) else {
        return Err(LineFault::Number);
    };
    *made = Line::Act(Act::Click {
        row: row as u32,
        col: col as u32,
    });
    Ok(())
}

/// Nothing behind `user look`.
pub fn read_look(line: &[u8], made: &mut Line) -> Result<(), LineFault>
    ensures line { Makes result made.new (form nothing Look line.now) }
    ensures fits { OnOk result (LineFits made.new) }
{
    end_line(line)?;
    *made = Line::Act(Act::Look);
    Ok(())
}

/// `ROW COL HEIGHT WIDTH HEX` behind `page T.N draw`.
pub fn read_draw(alloc: Global, who: &[u8], line: &[u8], made: &mut Line) -> Result<(), LineFault>
    ensures line { Makes result made.new
        (form_of (number (number (number (number (hex nothing))))) Draw who.now line.now) }
    ensures fits { OnOk result (LineFits made.new) }
{
    let (row, rest) = take_word(line)?;
    let (col, rest) = take_word(rest)?;
    let (height, rest) = take_word(rest)?;
    let (width, rest) = take_word(rest)?;
    let (pixels, rest) = take_word(rest)?;
    end_line(rest)?;
    let Some(who) = read_instance(who) else {
        return Err(LineFault::Number);
    };
    let Some(row) = read_number(BOUND, row) else {
        return Err(LineFault::Number);
    };
    let Some(col) = read_number(BOUND, col) else {
        return Err(LineFault::Number);
    };
    let Some(height) = read_number(BOUND, height) else {
        return Err(LineFault::Number);
    };
    let Some(width) = read_number(BOUND, width) else {
        return Err(LineFault::Number);
    };
    let Some(pixels) = read_hex(alloc, pixels)? else {
        return Err(LineFault::Hex);
    };
    *made = Line::Act(Act::Draw {
        who,
        row: row as u32,
        col: col as u32,
        height: height as u32,
        width: width as u32,
        pixels,
    });
    Ok(())
}

/// `URL` behind `page T.N go`.
pub fn read_go(alloc: Global, who: &[u8], line: &[u8], made: &mut Line) -> Result<(), LineFault>
    ensures line { Makes result made.new (form_of rest Go who.now line.now) }
    ensures fits { OnOk result (LineFits made.new) }
{
    let Some(who) = read_instance(who) else {
        return Err(LineFault::Number);
    };
    let url = read_rest(alloc, line)?;
    *made = Line::Act(Act::Go { who, url });
    Ok(())
}

/// `TEXT` behind `cookie set`.
pub fn read_cookie_set(
    alloc: Global,
    side: Side,
    who: &[u8],
    line: &[u8],
    made: &mut Line,
) -> Result<(), LineFault>
    ensures line { Makes result made.new (form_of rest (CookieSet side) who.now line.now) }
    ensures fits { OnOk result (LineFits made.new) }
{
    let Some(who) = read_instance(who) else {
        return Err(LineFault::Number);
    };
    let text = read_rest(alloc, line)?;
    *made = Line::Act(Act::CookieSet { side, who, text });
    Ok(())
}

/// Nothing behind `cookie get`.
pub fn read_cookie_get(
    side: Side,
    who: &[u8],
    line: &[u8],
    made: &mut Line,
) -> Result<(), LineFault>
    ensures line { Makes result made.new (form_of nothing (CookieGet side) who.now line.now) }
    ensures fits { OnOk result (LineFits made.new) }
{
    end_line(line)?;
    let Some(who) = read_instance(who) else {
        return Err(LineFault::Number);
    };
    *made = Line::Act(Act::CookieGet { side, who });
    Ok(())
}

/// Nothing behind `net T.N flow P`.
pub fn read_bind(proto: Proto, who: &[u8], line: &[u8], made: &mut Line) -> Result<(), LineFault>
    ensures line { Makes result made.new
        (form_of nothing (λ who. Bind who proto) who.now line.now) }
    ensures fits { OnOk result (LineFits made.new) }
{
    end_line(line)?;
    let Some(who) = read_instance(who) else {
        return Err(LineFault::Number);
    };
    *made = Line::Act(Act::Bind { who, proto });
    Ok(())
}

/// `I` behind `net T.N close`.
pub fn read_unbind(who: &[u8], line: &[u8], made: &mut Line) -> Result<(), LineFault>
    ensures line { Makes result made.new (form_of (flow nothing) Unbind who.now line.now) }
    ensures fits { OnOk result (LineFits made.new) }
{
    let (flow, rest) = take_word(line)?;
    end_line(rest)?;
    let Some(who) = read_instance(who) else {
        return Err(LineFault::Number);
    };
    let Some(flow) = read_number(16, flow) else {
        return Err(LineFault::Number);
    };
    *made = Line::Act(Act::Unbind {
        who,
        flow: flow as u8,
    });
    Ok(())
}

/// Nothing behind `net T.N done`.
pub fn read_done(who: &[u8], line: &[u8], made: &mut Line) -> Result<(), LineFault>
    ensures line { Makes result made.new (form_of nothing Done who.now line.now) }
    ensures fits { OnOk result (LineFits made.new) }
{
    end_line(line)?;
    let Some(who) = read_instance(who) else {
        return Err(LineFault::Number);
    };
    *made = Line::Act(Act::Done { who });
    Ok(())
}

/// `B PLACE HEX` behind `net T.N fill`.
pub fn read_fill(alloc: Global, who: &[u8], line: &[u8], made: &mut Line) -> Result<(), LineFault>
    ensures line { Makes result made.new
        (form_of (buffer (number (hex nothing))) Fill who.now line.now) }
    ensures fits { OnOk result (LineFits made.new) }
{
    let (buffer, rest) = take_word(line)?;
    let (place, rest) = take_word(rest)?;
    let (bytes, rest) = take_word(rest)?;
    end_line(rest)?;
    let Some(who) = read_instance(who) else {
        return Err(LineFault::Number);
    };
    let Some(buffer) = read_number(4, buffer) else {
        return Err(LineFault::Number);
    };
    let Some(place) = read_number(BOUND, place) else {
        return Err(LineFault::Number);
    };
    let Some(bytes) = read_hex(alloc, bytes)? else {
        return Err(LineFault::Hex);
    };
    *made = Line::Act(Act::Fill {
        who,
        buffer: buffer as u8,
        place: place as u32,
        bytes,
    });
    Ok(())
}

/// `B LEN` behind `net T.N submit`.
pub fn read_submit(who: &[u8], line: &[u8], made: &mut Line) -> Result<(), LineFault>
    ensures line { Makes result made.new
        (form_of (buffer (number nothing)) Submit who.now line.now) }
    ensures fits { OnOk result (LineFits made.new) }
{
    let (buffer, rest) = take_word(line)?;
    let (len, rest) = take_word(rest)?;
    end_line(rest)?;
    let Some(who) = read_instance(who) else {
        return Err(LineFault::Number);
    };
    let Some(buffer) = read_number(4, buffer) else {
        return Err(LineFault::Number);
    };
    let Some(len) = read_number(BOUND, len) else {
        return Err(LineFault::Number);
    };
    *made = Line::Act(Act::Submit {
        who,
        buffer: buffer as u8,
        len: len as u32,
    });
    Ok(())
}

/// `KEY HEX` behind `page T.N put`.
pub fn read_put(alloc: Global, who: &[u8], line: &[u8], made: &mut Line) -> Result<(), LineFault>
    ensures line { Makes result made.new (form_of (word (hex nothing)) Put who.now line.now) }
    ensures fits { OnOk result (LineFits made.new) }
{
    let (key, rest) = take_word(line)?;
    let (bytes, rest) = take_word(rest)?;
    end_line(rest)?;
    let Some(who) = read_instance(who) else {
        return Err(LineFault::Number);
    };
    let Some(bytes) = read_hex(alloc, bytes)? else {
        return Err(LineFault::Hex);
    };
    let key = Bytes::from_slice(alloc, key)?;
    *made = Line::Act(Act::Put { who, key, bytes });
    Ok(())
}

/// `KEY` behind `page T.N ask`.
pub fn read_ask(alloc: Global, who: &[u8], line: &[u8], made: &mut Line) -> Result<(), LineFault>
    ensures line { Makes result made.new (form_of (word nothing) Ask who.now line.now) }
    ensures fits { OnOk result (LineFits made.new) }
{
    let (key, rest) = take_word(line)?;
    end_line(rest)?;
    let Some(who) = read_instance(who) else {
        return Err(LineFault::Number);
    };
    let key = Bytes::from_slice(alloc, key)?;
    *made = Line::Act(Act::Ask { who, key });
    Ok(())
}

/// `T.N R ORIGIN KEY V` behind `store answer`.
pub fn read_store_answer(alloc: Global, line: &[u8], made: &mut Line) -> Result<(), LineFault>
    ensures line { Makes result made.new
        (form (instance (number (word (word (number nothing))))) StoreAnswer line.now) }
    ensures fits { OnOk result (LineFits made.new) }
{
    let (who, rest) = take_word(line)?;
    let (request, rest) = take_word(rest)?;
    let (origin, rest) = take_word(rest)?;
    let (key, rest) = take_word(rest)?;
    let (version, rest) = take_word(rest)?;
    end_line(rest)?;
    let Some(who) = read_instance(who) else {
        return Err(LineFault::Number);
    };
    let Some(request) = read_number(BOUND, request) else {
        return Err(LineFault::Number);
    };
    let Some(version) = read_number(BOUND, version) else {
        return Err(LineFault::Number);
    };
    let origin = Bytes::from_slice(alloc, origin)?;
    let key = Bytes::from_slice(alloc, key)?;
    *made = Line::Act(Act::StoreAnswer {
        who,
        request: request as u32,
        origin,
        key,
        version: version as u32,
    });
    Ok(())
}

/// `T.N R` behind `store none`.
pub fn read_store_none(line: &[u8], made: &mut Line) -> Result<(), LineFault>
    ensures line { Makes result made.new (form (instance (number nothing)) StoreNone line.now) }
    ensures fits { OnOk result (LineFits made.new) }
{
    let (who, rest) = take_word(line)?;
    let (request, rest) = take_word(rest)?;
    end_line(rest)?;
    let Some(who) = read_instance(who) else {
        return Err(LineFault::Number);
    };
    let Some(request) = read_number(BOUND, request) else {
        return Err(LineFault::Number);
    };
    *made = Line::Act(Act::StoreNone {
        who,
        request: request as u32,
    });
    Ok(())
}

/// `ORIGIN KEY V` behind `store lose`.
pub fn read_store_lose(alloc: Global, line: &[u8], made: &mut Line) -> Result<(), LineFault>
    ensures line { Makes result made.new (form (word (word (number nothing))) StoreLose line.now) }
    ensures fits { OnOk result (LineFits made.new) }
{
    let (origin, rest) = take_word(line)?;
    let (key, rest) = take_word(rest)?;
    let (version, rest) = take_word(rest)?;
    end_line(rest)?;
    let Some(version) = read_number(BOUND, version) else {
        return Err(LineFault::Number);
    };
    let origin = Bytes::from_slice(alloc, origin)?;
    let key = Bytes::from_slice(alloc, key)?;
    *made = Line::Act(Act::StoreLose {
        origin,
        key,
        version: version as u32,
    });
    Ok(())
}

/// `REG` behind `dev read`.
pub fn read_register_read(line: &[u8], made: &mut Line) -> Result<(), LineFault>
    ensures line { Makes result made.new (form (hex_number nothing) RegRead line.now) }
    ensures fits { OnOk result (LineFits made.new) }
{
    let (offset, rest) = take_word(line)?;
    end_line(rest)?;
    let Some(offset) = read_hex_number(offset) else {
        return Err(LineFault::Number);
    };
    *made = Line::Act(Act::RegRead { offset });
    Ok(())
}

/// `REG VALUE` behind `dev write`.
pub fn read_register_write(line: &[u8], made: &mut Line) -> Result<(), LineFault>
    ensures line { Makes result made.new
        (form (hex_number (hex_number nothing)) RegWrite line.now) }
    ensures fits { OnOk result (LineFits made.new) }
{
    let (offset, rest) = take_word(line)?;
    let (value, rest) = take_word(rest)?;
    end_line(rest)?;
    let Some(offset) = read_hex_number(offset) else {
        return Err(LineFault::Number);
    };
    let Some(value) = read_hex_number(value) else {
        return Err(LineFault::Number);
    };
    *made = Line::Act(Act::RegWrite { offset, value });
    Ok(())
}

/// `SLOT NAME TURN` behind `dev rx`.
pub fn read_receive_post(line: &[u8], made: &mut Line) -> Result<(), LineFault>
    ensures line { Makes result made.new (form (number (name (number nothing))) posted line.now) }
    ensures fits { OnOk result (LineFits made.new) }
{
    let (slot, rest) = take_word(line)?;
    let (name, rest) = take_word(rest)?;
    let (turn, rest) = take_word(rest)?;
    end_line(rest)?;
    let Some(slot) = read_number(BOUND, slot) else {
        return Err(LineFault::Number);
    };
    let Some(name) = read_number(256, name) else {
        return Err(LineFault::Number);
    };
    let Some(turn) = read_number(BOUND, turn) else {
        return Err(LineFault::Number);
    };
    *made = Line::Act(Act::RxPost {
        slot: slot as u32,
        handle: Handle {
            name: name as u8,
            turn: turn as u32,
        },
    });
    Ok(())
}

/// `SLOT SEND` behind `dev tx`.
pub fn read_transmit_post(line: &[u8], made: &mut Line) -> Result<(), LineFault>
    ensures line { Makes result made.new (form (number (number nothing)) TxPost line.now) }
    ensures fits { OnOk result (LineFits made.new) }
{
    let (slot, rest) = take_word(line)?;
    let (send, rest) = take_word(rest)?;
    end_line(rest)?;
    let Some(slot) = read_number(BOUND, slot) else {
        return Err(LineFault::Number);
    };
    let Some(send) = read_number(BOUND, send) else {
        return Err(LineFault::Number);
    };
    *made = Line::Act(Act::TxPost {
        slot: slot as u32,
        send: send as u32,
    });
    Ok(())
}

/// Nothing behind `dev bell rx`.
pub fn read_receive_bell(line: &[u8], made: &mut Line) -> Result<(), LineFault>
    ensures line { Makes result made.new (form nothing RxBell line.now) }
    ensures fits { OnOk result (LineFits made.new) }
{
    end_line(line)?;
    *made = Line::Act(Act::RxBell);
    Ok(())
}

/// Nothing behind `dev bell tx`.
pub fn read_transmit_bell(line: &[u8], made: &mut Line) -> Result<(), LineFault>
    ensures line { Makes result made.new (form nothing TxBell line.now) }
    ensures fits { OnOk result (LineFits made.new) }
{
    end_line(line)?;
    *made = Line::Act(Act::TxBell);
    Ok(())
}

/// `HEX` behind `wire in`.
pub fn read_wire_frame(alloc: Global, line: &[u8], made: &mut Line) -> Result<(), LineFault>
    ensures line { Makes result made.new (form (hex nothing) WireIn line.now) }
    ensures fits { OnOk result (LineFits made.new) }
{
    let (frame, rest) = take_word(line)?;
    end_line(rest)?;
    let Some(frame) = read_hex(alloc, frame)? else {
        return Err(LineFault::Hex);
    };
    *made = Line::Act(Act::WireIn { frame });
    Ok(())
}

/// Nothing behind `wire next`, which is no act yet.
pub fn read_next_frame(line: &[u8], made: &mut Line) -> Result<(), LineFault>
    ensures line { Makes result made.new (next_frame line.now) }
    ensures fits { OnOk result (LineFits made.new) }
{
    end_line(line)?;
    *made = Line::NextFrame;
    Ok(())
}

/// Nothing behind `wire out`.
pub fn read_wire_room(line: &[u8], made: &mut Line) -> Result<(), LineFault>
    ensures line { Makes result made.new (form nothing WireOut line.now) }
    ensures fits { OnOk result (LineFits made.new) }
{
    end_line(line)?;
    *made = Line::Act(Act::WireOut);
    Ok(())
}

// The first word of a line that must have one, and the rest after it.
fn take_word(line: &[u8]) -> Result<(&[u8], &[u8]), LineFault>
    ensures has { MatchResult result (λ _. has_word line.now ≡ true)
        (λ fault. (has_word line.now ≡ false) × (fault ≡ LineFault.Count)) }
    ensures word { IfOk result (λ found. found.0.now ≡ first_word line.now) }
    ensures rest { IfOk result (λ found. found.1.now ≡ after_word line.now) }
{
    match next_word(line) {
        Some(found) => Ok(found),
        None => Err(LineFault::Count),
    }
}

// A line that must have no word.
fn end_line(line: &[u8]) -> Result<(), LineFault>
    ensures { MatchResult result (λ _. has_word line.now ≡ false)
        (λ fault. (has_word line.now ≡ true) × (fault ≡ LineFault.Count)) }
{
    match next_word(line) {
        Some(_) => Err(LineFault::Count),
        None => Ok(()),
    }
}

// The rest of a line after the spaces at its front.
fn read_rest(alloc: Global, line: &[u8]) -> Result<Bytes, Memory>
    ensures { IfOk result (λ rest. rest ≡ after_spaces line.now) }
{
    Bytes::from_slice(alloc, skip_spaces(line))
}
