// The fields of a line of an outcome's text, each read from its word.
ghost use Rattle.std.specs.Prelude.{◌≡◌, ◌↔◌, ◌^◌, ◌<◌, true, Some, IsTrue, IfOk, IfSome};
ghost use Rattle.std.specs.Prelude.{ℕ, decimal, find};
ghost use Rattle.std.specs.List.{list_all};
ghost use Rattle.ibos_kinds.specs.Texts.{code_of};
ghost use Rattle.ibos_text.specs.Words.{is_word};
ghost use Rattle.ibos_fields.specs.Printable as printable;
ghost use Rattle.ibos_fields.specs.Printable.{IsWord};
ghost use Rattle.ibos_outcome.specs.Canonical as canonical;
ghost use Rattle.ibos_outcome.specs.Canonical.{IsPrintable, IsCells, AreCookies, IsFront};
ghost use Rattle.ibos_outcome.specs.Readings.{word_of, rest_of, printable_in, word_in};
ghost use Rattle.ibos_outcome.specs.Readings.{cookies_in, cells_in, byte_in, value_in, addr_in};
ghost use Rattle.ibos_outcome.specs.Readings.{rule_in, after_first};

use ibos_fields::read_number;
use ibos_kinds::{Bytes, Memory, Rule};
use ibos_text::len_before;
use std::alloc::Global;

// So many columns has a row of the screen.
const COLUMNS: usize = 80;

// Each rule once.
const RULES: [Rule; 58] = [
    Rule::M1,
    Rule::M2,
    Rule::M3,
    Rule::M4,
    Rule::M5,
    Rule::M6,
    Rule::M7,
    Rule::M8,
    Rule::M9,
    Rule::F1,
    Rule::F2,
    Rule::F3,
    Rule::F4,
    Rule::F5,
    Rule::F6,
    Rule::F7,
    Rule::F8,
    Rule::F9,
    Rule::F10,
    Rule::F11,
    Rule::F12,
    Rule::F13,
    Rule::F14,
    Rule::F15,
    Rule::N1,
    Rule::N2,
    Rule::N3,
    Rule::N4,
    Rule::N5,
    Rule::N6,
    Rule::U1,
    Rule::U2,
    Rule::U3,
    Rule::U4,
    Rule::U5,
    Rule::U6,
    Rule::U7,
    Rule::U8,
    Rule::U9,
    Rule::U10,
    Rule::U11,
    Rule::U12,
    Rule::P1,
    Rule::P2,
    Rule::P3,
    Rule::P4,
    Rule::C1,
    Rule::C2,
    Rule::C3,
    Rule::S1,
    Rule::S2,
    Rule::S3,
    Rule::S4,
    Rule::S5,
    Rule::S6,
    Rule::S7,
    Rule::S8,
    Rule::S9,
];

/// What stands before the first such byte, and what stands behind it.
#[tactic(auto, unfolding(crate::specs::Readings::word_of, crate::specs::Readings::rest_of))]
pub fn cut(line: &[u8], stop: u8) -> (&[u8], &[u8])
    ensures word { result.0.now ≡ word_of stop line.now }
    ensures rest { result.1.now ≡ rest_of stop line.now }
{
    let (word, rest) = line.split_at(len_before(line, stop));
    (word, behind(rest))
}

fn behind(bytes: &[u8]) -> &[u8]
    ensures { result.now ≡ after_first bytes.now }
{
    match bytes {
        [_, rest @ ..] => rest,
        [] => bytes,
    }
}

/// Whether a text begins with another one.
pub fn begins_with(text: &[u8], front: &[u8]) -> bool
    ensures { IsTrue result ↔ IsFront front.now text.now }
{
    text.starts_with(front)
}

/// A decimal number, where the word is one as it is printed.
pub fn read_decimal(word: &[u8]) -> Option<u64>
    ensures { (n : ℕ) → n < 2 ^ 64 → word.now ≡ decimal n → result ≡ Some n }
{
    let Ok(word) = str::from_utf8(word) else {
        return None;
    };
    word.parse().ok()
}

/// A printable text.
#[tactic(auto, unfolding(crate::specs::Readings::printable_in))]
pub fn read_printable(alloc: Global, text: &[u8]) -> Result<Option<Bytes>, Memory>
    ensures text { IfOk result (λ read. read ≡ printable_in text.now) }
    ensures printable { IfOk result (λ read. IfSome read IsPrintable) }
    ensures same { IfOk result (λ read. IfSome read (λ read. read ≡ text.now)) }
{
    if !is_printable(text) {
        return Ok(None);
    }
    let text = Bytes::from_slice(alloc, text)?;
    Ok(Some(text))
}

fn is_printable(text: &[u8]) -> bool
    ensures { result ≡ list_all printable.is_printable text.now }
{
    text.iter().all(|b| *b >= b' ' && *b <= b'~')
}

/// One printable word.
#[tactic(auto, unfolding(crate::specs::Readings::word_in))]
pub fn read_word(alloc: Global, word: &[u8]) -> Result<Option<Bytes>, Memory>
    ensures word { IfOk result (λ read. read ≡ word_in word.now) }
    ensures is { IfOk result (λ read. IfSome read IsWord) }
{
    if word.is_empty() || !is_graph(word) {
        return Ok(None);
    }
    let word = Bytes::from_slice(alloc, word)?;
    Ok(Some(word))
}

fn is_graph(word: &[u8]) -> bool
    ensures { result ≡ list_all printable.is_graph word.now }
{
    word.iter().all(|b| *b >= b'!' && *b <= b'~')
}

/// The cookies of an origin, `-` for none.
#[tactic(auto, unfolding(crate::specs::Readings::cookies_in))]
pub fn read_cookies(alloc: Global, text: &[u8]) -> Result<Option<Bytes>, Memory>
    ensures cookies { IfOk result (λ read. read ≡ cookies_in text.now) }
    ensures are { IfOk result (λ read. IfSome read AreCookies) }
{
    if text == b"-".as_slice() {
        return Ok(Some(Bytes::new(alloc)));
    }
    let Some(text) = read_printable(alloc, text)? else {
        return Ok(None);
    };
    Ok(Some(text))
}

/// A row of the screen, behind a bar.
#[tactic(auto, unfolding(crate::specs::Readings::cells_in))]
pub fn read_cells(alloc: Global, text: &[u8]) -> Result<Option<Bytes>, Memory>
    ensures cells { IfOk result (λ read. read ≡ cells_in text.now) }
    ensures are { IfOk result (λ read. IfSome read IsCells) }
{
    let cells = behind(text);
    if cells.len() > COLUMNS || ends_in_space(cells) {
        return Ok(None);
    }
    let Some(cells) = read_printable(alloc, cells)? else {
        return Ok(None);
    };
    Ok(Some(cells))
}

fn ends_in_space(text: &[u8]) -> bool
    ensures { result ≡ canonical.ends_in_space text.now }
{
    matches!(text, [.., b' '])
}

/// A byte in two hexadecimal digits.
#[tactic(auto, unfolding(crate::specs::Readings::byte_in))]
pub fn read_byte(word: &[u8]) -> Option<u8>
    ensures { result ≡ byte_in word.now }
{
    let mut byte = [0u8; 1];
    if hex::decode_to_slice(word, &mut byte).is_err() {
        return None;
    }
    let [byte] = byte;
    Some(byte)
}

/// A register's value in eight hexadecimal digits, the highest first.
#[tactic(auto, unfolding(crate::specs::Readings::value_in))]
pub fn read_value(word: &[u8]) -> Option<u32>
    ensures { result ≡ value_in word.now }
{
    let mut bytes = [0u8; 4];
    if hex::decode_to_slice(word, &mut bytes).is_err() {
        return None;
    }
    Some(u32::from_be_bytes(bytes))
}

/// An IPv4 address in dotted decimal.
#[tactic(auto, unfolding(crate::specs::Readings::addr_in))]
pub fn read_addr(word: &[u8]) -> Option<u32>
    ensures { result ≡ addr_in word.now }
{
    let (a, rest) = cut(word, b'.');
    let (b, rest) = cut(rest, b'.');
    let (c, d) = cut(rest, b'.');
    let a = read_number(256, a)?;
    let b = read_number(256, b)?;
    let c = read_number(256, c)?;
    let d = read_number(256, d)?;
    Some(u32::from_be_bytes([a as u8, b as u8, c as u8, d as u8]))
}

/// A rule, by its code.
#[tactic(auto, unfolding(crate::specs::Readings::rule_in))]
pub fn read_rule(word: &[u8]) -> Option<Rule>
    ensures { result ≡ rule_in word.now }
{
    rule_with(&RULES, word)
}

fn rule_with(rules: &[Rule], word: &[u8]) -> Option<Rule>
    ensures { result ≡ find (λ rule. is_word word.now (code_of rule)) rules.now }
{
    for rule in rules {
        if has_code(*rule, word) {
            return Some(*rule);
        }
    }
    None
}

fn has_code(rule: Rule, word: &[u8]) -> bool
    ensures { result ≡ is_word word.now (code_of rule) }
{
    rule.code().as_bytes() == word
}
