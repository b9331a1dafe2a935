// The fields of a text, each read from its word.
ghost use Rattle.std.specs.Prelude.{◌≡◌, ◌≤◌, ◌<◌, ◌^◌, None, Some, true, false, length};
ghost use Rattle.std.specs.Prelude.{MatchOption, IfSome};
ghost use Rattle.std.specs.Char.{digit_value, is_digit as is_digit_in};
ghost use Rattle.std.specs.List.{list_all};
ghost use Rattle.std.specs.Option.{SomeIff};
ghost use Rattle.std.specs.Str.Parse.{digits_value};
ghost use Rattle.ibos_kinds.specs.Limits.{IsKey, IsNamed};
ghost use Rattle.ibos_fields.specs.Fields.{number_in, hex_number_in, hex_digits_in};
ghost use Rattle.ibos_fields.specs.Fields.{instance_in, key_in, is_digit};
ghost use Rattle.ibos_fields.specs.Fields as spec;

use ibos_kinds::{Instance, Key};
use ibos_text::len_before;

const MAX_DIGITS: usize = 10;

const MAX_HEX_DIGITS: usize = 8;

/// A decimal number below the bound. Leading zeros count among its digits, of which there are at
/// most ten.
#[tactic(auto, unfolding(crate::specs::Fields::number_in))]
pub fn read_number(bound: u64, word: &[u8]) -> Option<u64>
    ensures number { result ≡ number_in bound word.now }
    ensures below { IfSome result (λ n. n < bound) }
{
    if word.is_empty() || word.len() > MAX_DIGITS {
        return None;
    }
    let value = value_of(word)?;
    if value < bound { Some(value) } else { None }
}

// The value of a word, if its bytes are decimal digits.
fn value_of(word: &[u8]) -> Option<u64>
    requires few { length word.now ≤ 10 }
    ensures digits { MatchOption result (list_all is_digit word.now ≡ false)
        (λ _. list_all is_digit word.now ≡ true) }
    ensures value { IfSome result (λ value. value ≡ spec.value_of word.now) }
{
    let mut value = 0u64;
    for b in word {
        if *b < b'0' || *b > b'9' {
            return None;
        }
        value = 10 * value + u64::from(*b - b'0');
    }
    Some(value)
}

/// A register's offset or value, as in `0x2818`: up to eight digits of either case.
#[tactic(auto, unfolding(crate::specs::Fields::hex_number_in))]
pub fn read_hex_number(word: &[u8]) -> Option<u32>
    ensures { result ≡ hex_number_in word.now }
{
    match word {
        [b'0', b'x', digits @ ..] => read_hex_digits(digits),
        _ => None,
    }
}

#[tactic(auto, unfolding(crate::specs::Fields::hex_digits_in))]
fn read_hex_digits(digits: &[u8]) -> Option<u32>
    ensures { result ≡ hex_digits_in digits.now }
{
    if digits.is_empty() || digits.len() > MAX_HEX_DIGITS {
        return None;
    }
    hex_value_of(digits)
}

// The value of hexadecimal digits, if that is what the bytes are.
fn hex_value_of(digits: &[u8]) -> Option<u32>
    requires few { length digits.now ≤ 8 }
    ensures digits { MatchOption result (list_all (λ b. is_digit_in b 16) digits.now ≡ false)
        (λ _. list_all (λ b. is_digit_in b 16) digits.now ≡ true) }
    ensures value { IfSome result (λ value. value ≡ digits_value 16 digits.now) }
{
    let mut value = 0u32;
    for b in digits {
        value = value * 16 + hex_digit_in(*b)?;
    }
    Some(value)
}

fn hex_digit_in(byte: u8) -> Option<u32>
    ensures { SomeIff result (digit_value byte < 16) (digit_value byte) }
{
    char::from(byte).to_digit(16)
}

/// A page instance, as in `63.31`.
#[tactic(auto, unfolding(crate::specs::Fields::instance_in))]
pub fn read_instance(word: &[u8]) -> Option<Instance>
    ensures instance { result ≡ instance_in word.now }
    ensures named { IfSome result IsNamed }
{
    let (tab, dotted) = word.split_at(len_before(word, b'.'));
    let [_, ord @ ..] = dotted else {
        return None;
    };
    let Some(tab) = read_number(64, tab) else {
        return None;
    };
    let Some(ord) = read_number(32, ord) else {
        return None;
    };
    Some(Instance {
        tab: tab as u8,
        ord: ord as u8,
    })
}

/// A key: its name, or the byte that it writes in hexadecimal.
#[tactic(auto, unfolding(crate::specs::Fields::key_in))]
pub fn read_key(word: &[u8]) -> Option<Key>
    ensures key { result ≡ key_in word.now }
    ensures fits { IfSome result IsKey }
{
    if word == b"enter".as_slice() {
        return Some(Key::Enter);
    }
    if word == b"back".as_slice() {
        return Some(Key::Back);
    }
    let mut byte = [0u8; 1];
    if hex::decode_to_slice(word, &mut byte).is_err() {
        return None;
    }
    let [byte] = byte;
    if byte >= b' ' && byte <= b'~' {
        Some(Key::Byte(byte))
    } else {
        None
    }
}
