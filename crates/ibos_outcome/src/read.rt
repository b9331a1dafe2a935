// An outcome, read from its text.
ghost use Rattle.std.specs.Prelude.{◌≡◌, ◌≤◌, ◌<◌, ◌^◌, [], true, length, take};
ghost use Rattle.std.specs.Prelude.{ℕ, decimal, IfOk, OnOk, IfSome, IfNone};
ghost use Rattle.std.specs.List.{list_all};
ghost use Rattle.ibos_kinds.specs.declared.outcome.Head.{Head as HeadSpec};
ghost use Rattle.ibos_kinds.specs.declared.outcome.Item.{Item as ItemSpec};
ghost use Rattle.ibos_kinds.specs.declared.outcome.Outcome.{Outcome as OutcomeSpec};
ghost use Rattle.ibos_fields.specs.Fields.{is_digit};
ghost use Rattle.ibos_outcome.specs.Printed.{outcome_text, line_text};
ghost use Rattle.ibos_outcome.specs.Printed.{head_text, item_text};
ghost use Rattle.ibos_outcome.specs.Canonical.{IsCanonical, IsCanonicalItem, IsFront};
ghost use Rattle.ibos_outcome.specs.Canonical.{OnNotCanonical};
ghost use Rattle.ibos_outcome.specs.Readings.{head_in, said_of, HasItems};

use crate::fault::OutcomeFault;
use crate::printed::{write_head, write_item};
use crate::read_items::read_item;
use crate::words::{begins_with, cut, read_decimal, read_rule};
use ibos_kinds::{Bytes, Head, Item, Memory, Outcome};
use itoa::Buffer;
use std::alloc::Global;

/// The outcome whose text is the longest front of this text that is the text of a canonical
/// outcome: its number, the outcome, and how many bytes that front has.
pub fn read_outcome(alloc: Global, text: &[u8]) -> Result<(u64, Outcome, usize), OutcomeFault>
    ensures within { IfOk result (λ read. read.2 ≤ length text.now) }
    ensures canonical { IfOk result (λ read. (read.0 < 2 ^ 64) × IsCanonical read.1) }
    ensures told { IfOk result (λ read. outcome_text read.0 read.1 ≡ take read.2 text.now) }
    ensures longest { IfOk result (λ read. (n : ℕ) (outcome : OutcomeSpec) → n < 2 ^ 64 →
        IsCanonical outcome → IsFront (outcome_text n outcome) text.now →
        length (outcome_text n outcome) ≤ read.2) }
    ensures none { OnNotCanonical result ((n : ℕ) (outcome : OutcomeSpec) → n < 2 ^ 64 →
        IsCanonical outcome → IsFront (outcome_text n outcome) text.now → ⊥) }
    ensures back { IfOk result (λ read. (n : ℕ) (outcome : OutcomeSpec) → n < 2 ^ 64 →
        IsCanonical outcome → text.now ≡ outcome_text n outcome →
        (read.0 ≡ n) × (read.1 ≡ outcome) × (read.2 ≡ length text.now)) }
{
    let mut line = Bytes::new(alloc);
    let Some((number, head)) = read_head(text, &mut line)? else {
        return Err(OutcomeFault::NotCanonical);
    };
    let mut outcome = Outcome::new(alloc);
    outcome.head = head;
    let start = line.len();
    let mut buffer = Buffer::new();
    let digits = buffer.format(number).as_bytes();
    let rest = text.split_at(start).1;
    let len = read_items(alloc, digits, rest, &mut line, &mut outcome)?;
    Ok((number, outcome, start + len))
}

// The number and the head that the text's first line tells, and that line. What was read is printed
// again: the text tells it where it begins so.
fn read_head(text: &[u8], line: &mut Bytes) -> Result<Option<(u64, Head)>, Memory>
    ensures number { IfOk result (λ read. IfSome read (λ read. read.0 < 2 ^ 64)) }
    ensures some { IfOk result (λ read. IfSome read (λ read.
        (line.new ≡ line_text (decimal read.0) (head_text read.1)) × IsFront line.new text.now)) }
    ensures none { IfOk result (λ read. IfNone read ((n : ℕ) (head : HeadSpec) → n < 2 ^ 64 →
        IsFront (line_text (decimal n) (head_text head)) text.now → ⊥)) }
{
    let (first, _) = cut(text, b'\n');
    let (word, said) = cut(first, b' ');
    let Some(number) = read_decimal(word) else {
        return Ok(None);
    };
    let Some(head) = head_of(said) else {
        return Ok(None);
    };
    let mut buffer = Buffer::new();
    let printed = buffer.format(number).as_bytes();
    line.clear();
    write_head(printed, head, line)?;
    if begins_with(text, line.as_slice()) {
        Ok(Some((number, head)))
    } else {
        Ok(None)
    }
}

// A head, told by `ok` or by the code of a rule.
#[tactic(auto, unfolding(crate::specs::Readings::head_in))]
fn head_of(said: &[u8]) -> Option<Head>
    ensures { result ≡ head_in said.now }
{
    if said == b"ok".as_slice() {
        return Some(Head::Ok);
    }
    let (_, rule) = cut(said, b' ');
    let (code, _) = cut(rule, b' ');
    let rule = read_rule(code)?;
    Some(Head::Denied(rule))
}

// Appends the items that the text tells, line by line, and counts the bytes of their lines.
fn read_items(
    alloc: Global,
    digits: &[u8],
    text: &[u8],
    line: &mut Bytes,
    outcome: &mut Outcome,
) -> Result<usize, Memory>
    requires digits { list_all is_digit digits.now ≡ true }
    requires none { outcome.old.items ≡ [] }
    ensures head { OnOk result (outcome.new.head ≡ outcome.old.head) }
    ensures items { IfOk result (HasItems digits.now text.now outcome.new.items) }
{
    let mut len = 0;
    while let Some(item) = read_line(alloc, digits, text.split_at(len).1, line)? {
        outcome.push(item)?;
        len += line.len();
    }
    Ok(len)
}

// The canonical item that the text's first line tells, and that line, again by printing.
fn read_line(
    alloc: Global,
    digits: &[u8],
    text: &[u8],
    line: &mut Bytes,
) -> Result<Option<Item>, Memory>
    requires digits { list_all is_digit digits.now ≡ true }
    ensures some { IfOk result (λ item. IfSome item (λ item. IsCanonicalItem item
        × (line.new ≡ line_text digits.now (item_text item)) × IsFront line.new text.now)) }
    ensures none { IfOk result (λ item. IfNone item ((item : ItemSpec) → IsCanonicalItem item →
        IsFront (line_text digits.now (item_text item)) text.now → ⊥)) }
{
    let said = said_in(text, digits);
    let Some(item) = read_item(alloc, said)? else {
        return Ok(None);
    };
    line.clear();
    write_item(alloc, digits, &item, line)?;
    if begins_with(text, line.as_slice()) {
        Ok(Some(item))
    } else {
        Ok(None)
    }
}

// What the first line says behind a first word that is as long as these digits.
#[tactic(auto, unfolding(crate::specs::Readings::said_of))]
fn said_in<'a>(text: &'a [u8], digits: &[u8]) -> &'a [u8]
    ensures { result.now ≡ said_of (length digits.now) text.now }
{
    let (first, _) = cut(text, b'\n');
    first.split_at(first.len().min(digits.len() + 1)).1
}
