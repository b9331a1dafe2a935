// The items of all parties, each read from what its line says.
ghost use Rattle.std.specs.Prelude.{◌≡◌, IfOk, IfSome};
ghost use Rattle.ibos_kinds.specs.declared.outcome.Item.TheVariants.{ValueIs, SendIs, Returned};
ghost use Rattle.ibos_kinds.specs.declared.outcome.Item.TheVariants.{SentIs, Dropped, Accepted};
ghost use Rattle.ibos_kinds.specs.declared.outcome.Item.TheVariants.{RowIs, StorePut, StoreAsk};
ghost use Rattle.ibos_fields.specs.Fields.{instance_in, hex_in};
ghost use Rattle.ibos_outcome.specs.Canonical.{IsCanonicalItem};
ghost use Rattle.ibos_outcome.specs.Readings.{field, last, nothing, item_in, other_in, dev_in};
ghost use Rattle.ibos_outcome.specs.Readings.{wire_in, log_in, user_in, store_in, lent_item};
ghost use Rattle.ibos_outcome.specs.Readings.{value_in, rule_in, cells_in, word_in};
ghost use Rattle.ibos_outcome.specs.Readings.{small_in, count_in};

use crate::read_told::{COUNTS, SMALL, read_told};
use crate::words::{cut, read_cells, read_rule, read_value, read_word};
use ibos_fields::{read_hex, read_instance, read_number};
use ibos_kinds::{Handle, Item, Memory, Verdict};
use std::alloc::Global;

/// The item that a line says behind its number: an addressee, a kind, and fields.
#[tactic(auto, unfolding(crate::specs::Readings::item_in))]
pub fn read_item(alloc: Global, said: &[u8]) -> Result<Option<Item>, Memory>
    ensures item { IfOk result (λ item. item ≡ item_in said.now) }
    ensures canonical { IfOk result (λ item. IfSome item IsCanonicalItem) }
{
    let (addressee, rest) = cut(said, b' ');
    let (kind, line) = cut(rest, b' ');
    match read_instance(addressee) {
        Some(who) => read_told(alloc, who, kind, line),
        None => read_other(alloc, addressee, kind, line),
    }
}

// What a party is told that is no instance.
#[tactic(auto, unfolding(crate::specs::Readings::other_in))]
fn read_other(
    alloc: Global,
    addressee: &[u8],
    kind: &[u8],
    line: &[u8],
) -> Result<Option<Item>, Memory>
    ensures item { IfOk result (λ item. item ≡ other_in addressee.now kind.now line.now) }
    ensures canonical { IfOk result (λ item. IfSome item IsCanonicalItem) }
{
    if addressee == b"dev".as_slice() {
        return Ok(read_dev(kind, line));
    }
    if addressee == b"wire".as_slice() {
        return Ok(read_wire(kind, line));
    }
    if addressee == b"log".as_slice() {
        return read_log(alloc, kind, line);
    }
    if addressee == b"user".as_slice() {
        return read_user(alloc, kind, line);
    }
    if addressee == b"store".as_slice() {
        return read_store(alloc, kind, line);
    }
    Ok(None)
}

#[tactic(auto, unfolding(crate::specs::Readings::dev_in))]
fn read_dev(kind: &[u8], line: &[u8]) -> Option<Item>
    ensures item { result ≡ dev_in kind.now line.now }
    ensures canonical { IfSome result IsCanonicalItem }
{
    if kind == b"value".as_slice() {
        return read_register(line);
    }
    if kind == b"lent".as_slice() {
        return read_lent(line);
    }
    if kind == b"send".as_slice() {
        return read_send(line);
    }
    if kind == b"returned".as_slice() {
        return read_returned(line);
    }
    None
}

fn read_register(line: &[u8]) -> Option<Item>
    ensures item { result ≡ last value_in ValueIs line.now }
    ensures canonical { IfSome result IsCanonicalItem }
{
    let value = read_value(line)?;
    Some(Item::ValueIs { value })
}

fn read_lent(line: &[u8]) -> Option<Item>
    ensures item { result ≡ field small_in (last count_in) lent_item line.now }
    ensures canonical { IfSome result IsCanonicalItem }
{
    let (name, turn) = cut(line, b' ');
    let name = read_number(SMALL, name)?;
    let turn = read_number(COUNTS, turn)?;
    Some(Item::LentIs {
        handle: Handle {
            name: name as u8,
            turn: turn as u32,
        },
    })
}

fn read_send(line: &[u8]) -> Option<Item>
    ensures item { result ≡ last count_in SendIs line.now }
    ensures canonical { IfSome result IsCanonicalItem }
{
    let send = read_number(COUNTS, line)?;
    Some(Item::SendIs { send: send as u32 })
}

fn read_returned(line: &[u8]) -> Option<Item>
    ensures item { result ≡ last count_in Returned line.now }
    ensures canonical { IfSome result IsCanonicalItem }
{
    let send = read_number(COUNTS, line)?;
    Some(Item::Returned { send: send as u32 })
}

#[tactic(auto, unfolding(crate::specs::Readings::wire_in))]
fn read_wire(kind: &[u8], line: &[u8]) -> Option<Item>
    ensures item { result ≡ wire_in kind.now line.now }
    ensures canonical { IfSome result IsCanonicalItem }
{
    if kind == b"filtered".as_slice() {
        return Some(Item::VerdictIs {
            verdict: Verdict::Filtered,
        });
    }
    if kind == b"missed".as_slice() {
        return Some(Item::VerdictIs {
            verdict: Verdict::Missed,
        });
    }
    if kind == b"heard".as_slice() {
        return Some(Item::VerdictIs {
            verdict: Verdict::Heard,
        });
    }
    if kind == b"sent".as_slice() {
        return read_sent(line);
    }
    if kind == b"idle".as_slice() {
        return Some(Item::Idle);
    }
    None
}

fn read_sent(line: &[u8]) -> Option<Item>
    ensures item { result ≡ last count_in SentIs line.now }
    ensures canonical { IfSome result IsCanonicalItem }
{
    let send = read_number(COUNTS, line)?;
    Some(Item::SentIs { send: send as u32 })
}

#[tactic(auto, unfolding(crate::specs::Readings::log_in))]
fn read_log(alloc: Global, kind: &[u8], line: &[u8]) -> Result<Option<Item>, Memory>
    ensures item { IfOk result (λ item. item ≡ log_in kind.now line.now) }
    ensures canonical { IfOk result (λ item. IfSome item IsCanonicalItem) }
{
    if kind == b"drop".as_slice() {
        return Ok(read_dropped(line));
    }
    if kind == b"frame".as_slice() {
        return read_accepted(alloc, line);
    }
    Ok(None)
}

fn read_dropped(line: &[u8]) -> Option<Item>
    ensures item { result ≡ field rule_in nothing Dropped line.now }
    ensures canonical { IfSome result IsCanonicalItem }
{
    let (code, _) = cut(line, b' ');
    let rule = read_rule(code)?;
    Some(Item::Dropped { rule })
}

fn read_accepted(alloc: Global, line: &[u8]) -> Result<Option<Item>, Memory>
    ensures item { IfOk result (λ item. item ≡
        field count_in (field instance_in (last hex_in)) Accepted line.now) }
    ensures canonical { IfOk result (λ item. IfSome item IsCanonicalItem) }
{
    let (send, rest) = cut(line, b' ');
    let (who, bytes) = cut(rest, b' ');
    let Some(send) = read_number(COUNTS, send) else {
        return Ok(None);
    };
    let Some(who) = read_instance(who) else {
        return Ok(None);
    };
    let Some(bytes) = read_hex(alloc, bytes)? else {
        return Ok(None);
    };
    Ok(Some(Item::Accepted {
        send: send as u32,
        who,
        bytes,
    }))
}

#[tactic(auto, unfolding(crate::specs::Readings::user_in))]
fn read_user(alloc: Global, kind: &[u8], line: &[u8]) -> Result<Option<Item>, Memory>
    ensures item { IfOk result (λ item. item ≡ user_in kind.now line.now) }
    ensures canonical { IfOk result (λ item. IfSome item IsCanonicalItem) }
{
    if kind == b"row".as_slice() {
        return read_row(alloc, line);
    }
    Ok(None)
}

fn read_row(alloc: Global, line: &[u8]) -> Result<Option<Item>, Memory>
    ensures item { IfOk result (λ item. item ≡ field small_in (last cells_in) RowIs line.now) }
    ensures canonical { IfOk result (λ item. IfSome item IsCanonicalItem) }
{
    let (row, cells) = cut(line, b' ');
    let Some(row) = read_number(SMALL, row) else {
        return Ok(None);
    };
    let Some(text) = read_cells(alloc, cells)? else {
        return Ok(None);
    };
    Ok(Some(Item::RowIs {
        row: row as u8,
        text,
    }))
}

#[tactic(auto, unfolding(crate::specs::Readings::store_in))]
fn read_store(alloc: Global, kind: &[u8], line: &[u8]) -> Result<Option<Item>, Memory>
    ensures item { IfOk result (λ item. item ≡ store_in kind.now line.now) }
    ensures canonical { IfOk result (λ item. IfSome item IsCanonicalItem) }
{
    if kind == b"put".as_slice() {
        return read_put(alloc, line);
    }
    if kind == b"ask".as_slice() {
        return read_ask(alloc, line);
    }
    Ok(None)
}

fn read_put(alloc: Global, line: &[u8]) -> Result<Option<Item>, Memory>
    ensures item { IfOk result (λ item. item ≡
        field word_in (field word_in (field count_in (last count_in))) StorePut line.now) }
    ensures canonical { IfOk result (λ item. IfSome item IsCanonicalItem) }
{
    let (origin, rest) = cut(line, b' ');
    let (key, rest) = cut(rest, b' ');
    let (version, len) = cut(rest, b' ');
    let Some(origin) = read_word(alloc, origin)? else {
        return Ok(None);
    };
    let Some(key) = read_word(alloc, key)? else {
        return Ok(None);
    };
    let Some(version) = read_number(COUNTS, version) else {
        return Ok(None);
    };
    let Some(len) = read_number(COUNTS, len) else {
        return Ok(None);
    };
    Ok(Some(Item::StorePut {
        origin,
        key,
        version: version as u32,
        len: len as u32,
    }))
}

fn read_ask(alloc: Global, line: &[u8]) -> Result<Option<Item>, Memory>
    ensures item { IfOk result (λ item. item ≡
        field instance_in (field count_in (field word_in (last word_in))) StoreAsk line.now) }
    ensures canonical { IfOk result (λ item. IfSome item IsCanonicalItem) }
{
    let (who, rest) = cut(line, b' ');
    let (request, rest) = cut(rest, b' ');
    let (origin, key) = cut(rest, b' ');
    let Some(who) = read_instance(who) else {
        return Ok(None);
    };
    let Some(request) = read_number(COUNTS, request) else {
        return Ok(None);
    };
    let Some(origin) = read_word(alloc, origin)? else {
        return Ok(None);
    };
    let Some(key) = read_word(alloc, key)? else {
        return Ok(None);
    };
    Ok(Some(Item::StoreAsk {
        who,
        request: request as u32,
        origin,
        key,
    }))
}
