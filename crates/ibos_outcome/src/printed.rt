// The text of an outcome.
ghost use Rattle.std.specs.Prelude.{◌≡◌, ◌<◌, ◌≤◌, ◌++◌, [], ◌∷◌, length, take, IfOk, OnOk};
ghost use Rattle.std.specs.Prelude.{OnErr, codes};
ghost use Rattle.std.specs.Prelude.{decimal};
ghost use Rattle.hex.specs.Hex.{encode_lower};
ghost use Rattle.ibos_outcome.specs.Printed as spec;
ghost use Rattle.ibos_outcome.specs.Printed.{Appends, IsCutShort, outcome_text, line_text};
ghost use Rattle.ibos_outcome.specs.Printed.{head_text, item_text, items_text};
ghost use Rattle.ibos_outcome.specs.Printed.{addr_text, hex_text, value_text, verdict_text};

use ibos_fields::encode_block;
use ibos_kinds::{Bytes, Endpoint, Handle, Head, Instance, Item, Memory, Outcome, Verdict};
use itoa::Buffer;
use std::alloc::Global;

// So many bytes are written in hexadecimal at once.
const BLOCK: usize = 16;

// And so many before one append.
const WIDE: usize = 4 * BLOCK;

/// Appends the lines of an outcome, each with the act's number: one for its head, and one for each
/// item. Where memory runs out a front of these lines is appended.
#[tactic(auto, unfolding(crate::specs::Printed::outcome_text))]
pub fn write_outcome(
    alloc: Global,
    number: u64,
    outcome: &Outcome,
    text: &mut Bytes,
) -> Result<(), Memory>
    ensures ok { OnOk result (text.new ≡ text.old ++ outcome_text number outcome.now) }
    ensures err { OnErr result (IsCutShort text.old text.new (outcome_text number outcome.now)) }
{
    let mut buffer = Buffer::new();
    let digits = buffer.format(number).as_bytes();
    write_head(digits, outcome.head, text)?;
    write_items(alloc, digits, outcome.items.as_slice(), text)?;
    Ok(())
}

fn write_items(alloc: Global, digits: &[u8], items: &[Item], text: &mut Bytes) -> Result<(), Memory>
    ensures { Appends result text.old text.new (items_text digits.now items.now) }
{
    for item in items {
        write_item(alloc, digits, item, text)?;
    }
    Ok(())
}

/// Appends the line of a head.
#[tactic(auto, unfolding(crate::specs::Printed::line_text, crate::specs::Printed::head_text))]
pub fn write_head(digits: &[u8], head: Head, text: &mut Bytes) -> Result<(), Memory>
    ensures { Appends result text.old text.new (line_text digits.now (head_text head)) }
{
    match head {
        Head::Ok => push_two(text, digits, b" ok\n"),
        Head::Denied(rule) => {
            let (code, name) = (rule.code().as_bytes(), rule.name().as_bytes());
            write_two(digits, b"denied ", code, name, text)
        }
    }
}

/// Appends the line of an item.
#[tactic(auto, unfolding(crate::specs::Printed::line_text, crate::specs::Printed::item_text))]
pub fn write_item(alloc: Global, digits: &[u8], item: &Item, text: &mut Bytes) -> Result<(), Memory>
    ensures { Appends result text.old text.new (line_text digits.now (item_text item.now)) }
{
    match item {
        Item::Opened { who, url } => write_told(digits, *who, b" opened ", url.as_slice(), text),
        Item::Moved { who, url } => write_told(digits, *who, b" at ", url.as_slice(), text),
        Item::Ended { who } => write_told(digits, *who, b" ended", b"", text),
        Item::KeyTo { who, byte } => write_told(digits, *who, b" key ", &hex_pair(*byte), text),
        Item::ClickTo { who, row, col } => write_click(digits, *who, *row, *col, text),
        Item::Cookies { who, text: cookies } => {
            let cookies = or_dash(cookies.as_slice());
            write_told(digits, *who, b" cookies ", cookies, text)
        }
        Item::RowIs { row, text: cells } => write_row(digits, *row, cells.as_slice(), text),
        Item::FlowIs {
            who,
            flow,
            port,
            remote,
        } => { write_flow(alloc, digits, *who, *flow, *port, *remote, text) }
        Item::Arrived { who, flow, bytes } => {
            write_frame(digits, *who, *flow, bytes.as_slice(), text)
        }
        Item::ValueIs { value } => write_one(digits, b"dev value ", &value_digits(*value), text),
        Item::LentIs { handle } => write_lent(digits, *handle, text),
        Item::VerdictIs { verdict } => write_one(digits, b"wire ", verdict_name(*verdict), text),
        Item::Dropped { rule } => {
            let (code, name) = (rule.code().as_bytes(), rule.name().as_bytes());
            write_two(digits, b"log drop ", code, name, text)
        }
        Item::Home { who, buffer } => {
            write_told_number(digits, *who, b" home ", u32::from(*buffer), text)
        }
        Item::SendIs { send } => write_number(digits, b"dev send ", *send, text),
        Item::Returned { send } => write_number(digits, b"dev returned ", *send, text),
        Item::SentIs { send } => write_number(digits, b"wire sent ", *send, text),
        Item::Idle => write_one(digits, b"wire ", b"idle", text),
        Item::Accepted { send, who, bytes } => {
            write_accepted(digits, *send, *who, bytes.as_slice(), text)
        }
        Item::VersionIs { who, version } => {
            write_told_number(digits, *who, b" version ", *version, text)
        }
        Item::RequestIs { who, request } => {
            write_told_number(digits, *who, b" request ", *request, text)
        }
        Item::Object {
            who,
            request,
            version,
            bytes,
        } => { write_object(digits, *who, *request, *version, bytes.as_slice(), text) }
        Item::NoObject { who, request } => {
            write_told_number(digits, *who, b" none ", *request, text)
        }
        Item::StorePut {
            origin,
            key,
            version,
            len,
        } => {
            let (origin, key) = (origin.as_slice(), key.as_slice());
            write_put(digits, origin, key, *version, *len, text)
        }
        Item::StoreAsk {
            who,
            request,
            origin,
            key,
        } => {
            let (origin, key) = (origin.as_slice(), key.as_slice());
            write_ask(digits, *who, *request, origin, key, text)
        }
    }
}

// A line to an instance.
fn write_told(
    digits: &[u8],
    who: Instance,
    word: &[u8],
    told: &[u8],
    text: &mut Bytes,
) -> Result<(), Memory>
    ensures { Appends result text.old text.new
        (line_text digits.now (spec.instance_text who ++ word.now ++ told.now)) }
{
    push_named(
        text, digits, b"", who, word, told, b"\n", b"", b"", b"", b"", b"",
    )
}

// A byte as two hexadecimal digits.
fn hex_pair(byte: u8) -> [u8; 2]
    ensures { result ≡ encode_lower (byte ∷ []) }
{
    let mut digits = [0u8; 2];
    let Ok(()) = hex::encode_to_slice([byte].as_slice(), &mut digits) else {
        unreachable!()
    };
    digits
}

// A register's value as eight hexadecimal digits.
#[tactic(auto, unfolding(crate::specs::Printed::value_text))]
fn value_digits(value: u32) -> [u8; 8]
    ensures { result ≡ value_text value }
{
    let mut digits = [0u8; 8];
    let Ok(()) = hex::encode_to_slice(value.to_be_bytes().as_slice(), &mut digits) else {
        unreachable!()
    };
    digits
}

fn verdict_name(verdict: Verdict) -> &'static [u8]
    ensures { result.now ≡ verdict_text verdict }
{
    match verdict {
        Verdict::Filtered => b"filtered",
        Verdict::Missed => b"missed",
        Verdict::Heard => b"heard",
    }
}

// A click on a cell of an instance's content.
fn write_click(
    digits: &[u8],
    who: Instance,
    row: u8,
    col: u8,
    text: &mut Bytes,
) -> Result<(), Memory>
    ensures { Appends result text.old text.new
        (line_text digits.now (spec.instance_text who ++ codes " click "
        ++ decimal row ++ codes " " ++ decimal col)) }
{
    let mut rows = Buffer::new();
    let mut cols = Buffer::new();
    let row = rows.format(row).as_bytes();
    let col = cols.format(col).as_bytes();
    write_told_two(digits, who, b" click ", row, col, text)
}

// A flow of an instance, with its port here and its other end.
fn write_flow(
    alloc: Global,
    digits: &[u8],
    who: Instance,
    flow: u8,
    port: u16,
    remote: Endpoint,
    text: &mut Bytes,
) -> Result<(), Memory>
    ensures { Appends result text.old text.new
        (line_text digits.now (spec.instance_text who ++ codes " flow " ++ decimal flow
        ++ codes " " ++ decimal port ++ codes " " ++ addr_text remote.addr
        ++ codes " " ++ decimal remote.port)) }
{
    let mut flows = Buffer::new();
    let flow = flows.format(flow).as_bytes();
    let ends = ends_of(alloc, port, remote)?;
    write_told_two(digits, who, b" flow ", flow, ends.as_slice(), text)
}

// The ends of a flow: the port here, and address and port there.
fn ends_of(alloc: Global, port: u16, remote: Endpoint) -> Result<Bytes, Memory>
    ensures { IfOk result (λ ends. ends ≡ decimal port ++ codes " " ++ addr_text remote.addr
        ++ codes " " ++ decimal remote.port) }
{
    let mut ports = Buffer::new();
    let mut remotes = Buffer::new();
    let port = ports.format(port).as_bytes();
    let other = remotes.format(remote.port).as_bytes();
    let addr = addr_digits(alloc, remote.addr)?;
    let mut ends = Bytes::new(alloc);
    push_eight(
        &mut ends,
        port,
        b" ",
        addr.as_slice(),
        b" ",
        other,
        b"",
        b"",
        b"",
    )?;
    Ok(ends)
}

// An IPv4 address in dotted decimal.
#[tactic(auto, unfolding(crate::specs::Printed::addr_text))]
fn addr_digits(alloc: Global, addr: u32) -> Result<Bytes, Memory>
    ensures { IfOk result (λ digits. digits ≡ addr_text addr) }
{
    let mut buffers = (Buffer::new(), Buffer::new(), Buffer::new(), Buffer::new());
    let [a, b, c, d] = addr.to_be_bytes();
    let a = buffers.0.format(a).as_bytes();
    let b = buffers.1.format(b).as_bytes();
    let c = buffers.2.format(c).as_bytes();
    let d = buffers.3.format(d).as_bytes();
    let mut digits = Bytes::new(alloc);
    push_eight(&mut digits, a, b".", b, b".", c, b".", d, b"")?;
    Ok(digits)
}

// A frame for a flow of an instance.
fn write_frame(
    digits: &[u8],
    who: Instance,
    flow: u8,
    bytes: &[u8],
    text: &mut Bytes,
) -> Result<(), Memory>
    ensures { Appends result text.old text.new
        (line_text digits.now (spec.instance_text who ++ codes " frame "
        ++ decimal flow ++ codes " " ++ hex_text bytes.now)) }
{
    let mut buffer = Buffer::new();
    let flow = buffer.format(flow).as_bytes();
    push_named(
        text, digits, b"", who, b" frame ", flow, b" ", b"", b"", b"", b"", b"",
    )?;
    write_hex(bytes, text)
}

// A send that was accepted, with its frame.
#[tactic(auto, unfolding(crate::specs::Printed::line_text, crate::specs::Printed::instance_text))]
fn write_accepted(
    digits: &[u8],
    send: u32,
    who: Instance,
    bytes: &[u8],
    text: &mut Bytes,
) -> Result<(), Memory>
    ensures { Appends result text.old text.new
        (line_text digits.now (codes "log frame " ++ decimal send ++ codes " "
        ++ spec.instance_text who ++ codes " " ++ hex_text bytes.now)) }
{
    let mut buffers = (Buffer::new(), Buffer::new(), Buffer::new());
    let send = buffers.0.format(send).as_bytes();
    let tab = buffers.1.format(who.tab).as_bytes();
    let ord = buffers.2.format(who.ord).as_bytes();
    push_eight(
        text,
        digits,
        b" log frame ",
        send,
        b" ",
        tab,
        b".",
        ord,
        b" ",
    )?;
    write_hex(bytes, text)
}

// An object for a request of an instance.
fn write_object(
    digits: &[u8],
    who: Instance,
    request: u32,
    version: u32,
    bytes: &[u8],
    text: &mut Bytes,
) -> Result<(), Memory>
    ensures { Appends result text.old text.new
        (line_text digits.now (spec.instance_text who ++ codes " object " ++ decimal request
        ++ codes " " ++ decimal version ++ codes " " ++ hex_text bytes.now)) }
{
    let mut buffers = (Buffer::new(), Buffer::new());
    let request = buffers.0.format(request).as_bytes();
    let version = buffers.1.format(version).as_bytes();
    push_named(
        text,
        digits,
        b"",
        who,
        b" object ",
        request,
        b" ",
        version,
        b" ",
        b"",
        b"",
        b"",
    )?;
    write_hex(bytes, text)
}

// An object that is to be stored.
#[tactic(auto, unfolding(crate::specs::Printed::line_text))]
fn write_put<'a>(
    digits: &'a [u8],
    origin: &'a [u8],
    key: &'a [u8],
    version: u32,
    len: u32,
    text: &mut Bytes,
) -> Result<(), Memory>
    ensures { Appends result text.old text.new
        (line_text digits.now (codes "store put " ++ origin.now ++ codes " " ++ key.now
        ++ codes " " ++ decimal version ++ codes " " ++ decimal len)) }
{
    let mut buffers = (Buffer::new(), Buffer::new());
    let version = buffers.0.format(version).as_bytes();
    let len = buffers.1.format(len).as_bytes();
    push_twelve(
        text,
        digits,
        b" store put ",
        origin,
        b" ",
        key,
        b" ",
        version,
        b" ",
        len,
        b"\n",
        b"",
        b"",
    )
}

// A request for an object.
fn write_ask(
    digits: &[u8],
    who: Instance,
    request: u32,
    origin: &[u8],
    key: &[u8],
    text: &mut Bytes,
) -> Result<(), Memory>
    ensures { Appends result text.old text.new
        (line_text digits.now (codes "store ask " ++ spec.instance_text who ++ codes " "
        ++ decimal request ++ codes " " ++ origin.now ++ codes " " ++ key.now)) }
{
    let mut buffer = Buffer::new();
    let request = buffer.format(request).as_bytes();
    push_named(
        text,
        digits,
        b" store ask",
        who,
        b" ",
        request,
        b" ",
        origin,
        b" ",
        key,
        b"\n",
        b"",
    )
}

// A line to an instance that ends in a number.
fn write_told_number(
    digits: &[u8],
    who: Instance,
    word: &[u8],
    number: u32,
    text: &mut Bytes,
) -> Result<(), Memory>
    ensures { Appends result text.old text.new
        (line_text digits.now (spec.instance_text who ++ word.now ++ decimal number)) }
{
    let mut buffer = Buffer::new();
    let number = buffer.format(number).as_bytes();
    write_told(digits, who, word, number, text)
}

// A line that ends in a number.
fn write_number(digits: &[u8], said: &[u8], number: u32, text: &mut Bytes) -> Result<(), Memory>
    ensures { Appends result text.old text.new
        (line_text digits.now (said.now ++ decimal number)) }
{
    let mut buffer = Buffer::new();
    let number = buffer.format(number).as_bytes();
    write_one(digits, said, number, text)
}

// A buffer that is the driver's again.
fn write_lent(digits: &[u8], handle: Handle, text: &mut Bytes) -> Result<(), Memory>
    ensures { Appends result text.old text.new
        (line_text digits.now (codes "dev lent " ++ decimal handle.name ++ codes " "
        ++ decimal handle.turn)) }
{
    let mut names = Buffer::new();
    let mut turns = Buffer::new();
    let name = names.format(handle.name).as_bytes();
    let turn = turns.format(handle.turn).as_bytes();
    write_two(digits, b"dev lent ", name, turn, text)
}

// A line to an instance that ends in two words.
fn write_told_two(
    digits: &[u8],
    who: Instance,
    word: &[u8],
    first: &[u8],
    second: &[u8],
    text: &mut Bytes,
) -> Result<(), Memory>
    ensures { Appends result text.old text.new
        (line_text digits.now (spec.instance_text who ++ word.now ++ first.now
        ++ codes " " ++ second.now)) }
{
    push_named(
        text, digits, b"", who, word, first, b" ", second, b"\n", b"", b"", b"",
    )
}

// A line that ends in one word.
#[tactic(auto, unfolding(crate::specs::Printed::line_text))]
fn write_one<'a>(
    digits: &'a [u8],
    said: &'a [u8],
    word: &'a [u8],
    text: &mut Bytes,
) -> Result<(), Memory>
    ensures { Appends result text.old text.new (line_text digits.now (said.now ++ word.now)) }
{
    push_eight(text, digits, b" ", said, word, b"\n", b"", b"", b"")
}

// A line that ends in two words.
#[tactic(auto, unfolding(crate::specs::Printed::line_text))]
fn write_two<'a>(
    digits: &'a [u8],
    said: &'a [u8],
    first: &'a [u8],
    second: &'a [u8],
    text: &mut Bytes,
) -> Result<(), Memory>
    ensures { Appends result text.old text.new
        (line_text digits.now (said.now ++ first.now ++ codes " " ++ second.now)) }
{
    push_eight(text, digits, b" ", said, first, b" ", second, b"\n", b"")
}

// A row of the screen.
fn write_row(digits: &[u8], row: u8, cells: &[u8], text: &mut Bytes) -> Result<(), Memory>
    ensures { Appends result text.old text.new
        (line_text digits.now (codes "user row " ++ decimal row ++ codes " |" ++ cells.now)) }
{
    let mut number = Buffer::new();
    let number = number.format(row).as_bytes();
    write_cells(digits, number, cells, text)
}

#[tactic(auto, unfolding(crate::specs::Printed::line_text))]
fn write_cells<'a>(
    digits: &'a [u8],
    row: &'a [u8],
    cells: &'a [u8],
    text: &mut Bytes,
) -> Result<(), Memory>
    ensures { Appends result text.old text.new
        (line_text digits.now (codes "user row " ++ row.now ++ codes " |" ++ cells.now)) }
{
    push_eight(
        text,
        digits,
        b" user row ",
        row,
        b" |",
        cells,
        b"\n",
        b"",
        b"",
    )
}

#[tactic(auto, unfolding(crate::specs::Printed::or_dash))]
fn or_dash(text: &[u8]) -> &[u8]
    ensures { result.now ≡ spec.or_dash text.now }
{
    if text.is_empty() { b"-" } else { text }
}

// The bytes in which a line ends.
fn write_hex(bytes: &[u8], text: &mut Bytes) -> Result<(), Memory>
    ensures { Appends result text.old text.new (hex_text bytes.now ++ codes "\n") }
{
    push_hex(text, bytes)?;
    push_two(text, b"\n", b"")
}

// Appends bytes in hexadecimal, `-` for none.
#[tactic(auto, unfolding(crate::specs::Printed::hex_text, crate::specs::Printed::or_dash))]
fn push_hex(text: &mut Bytes, bytes: &[u8]) -> Result<(), Memory>
    ensures { Appends result text.old text.new (hex_text bytes.now) }
{
    if bytes.is_empty() {
        return push_two(text, b"-", b"");
    }
    push_digits(text, bytes)
}

// Appends two digits for each byte: those of 64 bytes at a time, of 16, and then of the few that
// are left.
fn push_digits(text: &mut Bytes, bytes: &[u8]) -> Result<(), Memory>
    ensures { Appends result text.old text.new (encode_lower bytes.now) }
{
    let mut at = 0;
    while bytes.len() - at >= WIDE {
        push_wide(text, &bytes[at..])?;
        at += WIDE;
    }
    push_blocks(text, &bytes[at..])
}

#[inline(always)]
fn push_wide(text: &mut Bytes, bytes: &[u8]) -> Result<(), Memory>
    requires { WIDE ≤ length bytes.now }
    ensures { Appends result text.old text.new (encode_lower (take WIDE bytes.now)) }
{
    let (a, b) = encode_block(bytes);
    let (c, d) = encode_block(&bytes[BLOCK..]);
    let (e, f) = encode_block(&bytes[2 * BLOCK..]);
    let (g, h) = encode_block(&bytes[3 * BLOCK..]);
    text.push_slice([a, b, c, d, e, f, g, h].as_slice().as_flattened())
}

fn push_blocks(text: &mut Bytes, bytes: &[u8]) -> Result<(), Memory>
    ensures { Appends result text.old text.new (encode_lower bytes.now) }
{
    let mut at = 0;
    while bytes.len() - at >= BLOCK {
        let (first, second) = encode_block(&bytes[at..]);
        push_two(text, &first, &second)?;
        at += BLOCK;
    }
    push_few(text, &bytes[at..])
}

fn push_few(text: &mut Bytes, bytes: &[u8]) -> Result<(), Memory>
    requires few { length bytes.now < 16 }
    ensures { Appends result text.old text.new (encode_lower bytes.now) }
{
    let mut room = [0u8; 2 * BLOCK];
    let digits = &mut room[..2 * bytes.len()];
    let Ok(()) = hex::encode_to_slice(bytes, digits) else {
        unreachable!()
    };
    text.push_slice(digits)
}

// Appends pieces, one after another, `b""` where there are fewer. They stand in straight code since
// a loop over them calls for each what copies bytes of any number.
#[inline(always)]
fn push_two(text: &mut Bytes, a: &[u8], b: &[u8]) -> Result<(), Memory>
    ensures { Appends result text.old text.new (a.now ++ b.now) }
{
    text.push_slice(a)?;
    text.push_slice(b)?;
    Ok(())
}

#[inline(always)]
fn push_four(text: &mut Bytes, a: &[u8], b: &[u8], c: &[u8], d: &[u8]) -> Result<(), Memory>
    ensures { Appends result text.old text.new (a.now ++ b.now ++ c.now ++ d.now) }
{
    push_two(text, a, b)?;
    push_two(text, c, d)
}

#[inline(always)]
fn push_eight(
    text: &mut Bytes,
    a: &[u8],
    b: &[u8],
    c: &[u8],
    d: &[u8],
    e: &[u8],
    f: &[u8],
    g: &[u8],
    h: &[u8],
) -> Result<(), Memory>
    ensures { Appends result text.old text.new
        (a.now ++ b.now ++ c.now ++ d.now ++ e.now ++ f.now ++ g.now ++ h.now) }
{
    push_four(text, a, b, c, d)?;
    push_four(text, e, f, g, h)
}

#[inline(always)]
fn push_twelve(
    text: &mut Bytes,
    a: &[u8],
    b: &[u8],
    c: &[u8],
    d: &[u8],
    e: &[u8],
    f: &[u8],
    g: &[u8],
    h: &[u8],
    i: &[u8],
    j: &[u8],
    k: &[u8],
    l: &[u8],
) -> Result<(), Memory>
    ensures { Appends result text.old text.new
        (a.now ++ b.now ++ c.now ++ d.now ++ e.now ++ f.now ++ g.now ++ h.now
        ++ i.now ++ j.now ++ k.now ++ l.now) }
{
    push_eight(text, a, b, c, d, e, f, g, h)?;
    push_four(text, i, j, k, l)
}

// Appends what most lines begin with, the act's number, who else is told or nothing, and an
// instance, and then pieces.
#[inline(always)]
fn push_named(
    text: &mut Bytes,
    digits: &[u8],
    said: &[u8],
    who: Instance,
    a: &[u8],
    b: &[u8],
    c: &[u8],
    d: &[u8],
    e: &[u8],
    f: &[u8],
    g: &[u8],
    h: &[u8],
) -> Result<(), Memory>
    ensures { Appends result text.old text.new
        (digits.now ++ said.now ++ codes " " ++ spec.instance_text who
        ++ a.now ++ b.now ++ c.now ++ d.now ++ e.now ++ f.now ++ g.now ++ h.now) }
{
    push_front(text, digits, said, who)?;
    push_eight(text, a, b, c, d, e, f, g, h)
}

#[inline(always)]
fn push_front(text: &mut Bytes, digits: &[u8], said: &[u8], who: Instance) -> Result<(), Memory>
    ensures { Appends result text.old text.new
        (digits.now ++ said.now ++ (codes " " ++ spec.instance_text who)) }
{
    push_two(text, digits, said)?;
    push_instance(text, who)
}

// Appends an instance behind a space. Both its numbers have one digit, most of the time, and then
// all is one piece.
#[inline(always)]
fn push_instance(text: &mut Bytes, who: Instance) -> Result<(), Memory>
    ensures { Appends result text.old text.new (codes " " ++ spec.instance_text who) }
{
    if who.tab < 10 && who.ord < 10 {
        let digits = [b' ', b'0' + who.tab, b'.', b'0' + who.ord];
        return push_two(text, &digits, b"");
    }
    push_long_instance(text, who)
}

#[inline(never)]
#[tactic(auto, unfolding(crate::specs::Printed::instance_text))]
fn push_long_instance(text: &mut Bytes, who: Instance) -> Result<(), Memory>
    ensures { Appends result text.old text.new (codes " " ++ spec.instance_text who) }
{
    let mut buffers = (Buffer::new(), Buffer::new());
    let tab = buffers.0.format(who.tab).as_bytes();
    let ord = buffers.1.format(who.ord).as_bytes();
    push_four(text, b" ", tab, b".", ord)
}
