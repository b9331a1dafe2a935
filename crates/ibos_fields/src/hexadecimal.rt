// Bytes that are written in hexadecimal.
ghost use Rattle.std.specs.Prelude.{◌≡◌, ◌*◌, None, Some, length, if◌then◌else◌, IfOk};
ghost use Rattle.std.specs.Option.{unwrap_or};
ghost use Rattle.hex.specs.Hex.{decode_pairs, hex_digit_value};
ghost use Rattle.ibos_fields.specs.Fields.{bytes_named, hex_in};

use crate::lanes::decode_block;
use ibos_kinds::{Bytes, Memory};
use std::alloc::Global;

// More than any digit's value, in the bits that no digit has too.
const NO_DIGIT: u8 = 0xff;

/// Bytes in hexadecimal, `-` for none. None where the word is malformed.
#[tactic(auto, unfolding(crate::specs::Fields::hex_in))]
pub fn read_hex(alloc: Global, word: &[u8]) -> Result<Option<Bytes>, Memory>
    ensures { IfOk result (λ bytes. bytes ≡ hex_in word.now) }
{
    if word == b"-".as_slice() {
        return Ok(Some(Bytes::new(alloc)));
    }
    if word.len() % 2 != 0 {
        return Ok(None);
    }
    let mut bytes = vec![in alloc; 0u8; word.len() / 2]?;
    if decode_digits(word, bytes.as_mut_slice()) {
        Ok(Some(Bytes::from(bytes)))
    } else {
        Ok(None)
    }
}

// Writes the bytes, and says whether all that was read is digits: 16 bytes at a time, and then the
// few that are left.
fn decode_digits(word: &[u8], bytes: &mut [u8]) -> bool
    requires { length word.now ≡ 2 * length bytes.old }
    ensures { bytes_named (decode_pairs 0 word.now) ≡ if result then Some bytes.new else None }
{
    let mut at = 0;
    while bytes.len() - at >= 16 {
        let Some(block) = decode_block(&word[2 * at..]) else {
            return false;
        };
        bytes[at..at + 16].copy_from_slice(&block);
        at += 16;
    }
    decode_few(&word[2 * at..], &mut bytes[at..])
}

// It goes on behind what is no digit, so that no branch depends on the digits.
fn decode_few(word: &[u8], bytes: &mut [u8]) -> bool
    requires { length word.now ≡ 2 * length bytes.old }
    ensures { bytes_named (decode_pairs 0 word.now) ≡ if result then Some bytes.new else None }
{
    let mut codes = 0u8;
    'pairs: for i in 0..bytes.len() {
        let high = digit_code(word[2 * i]);
        let low = digit_code(word[2 * i + 1]);
        codes |= high | low;
        bytes[i] = high.wrapping_mul(16).wrapping_add(low);
    }
    codes < 16
}

// The value of a digit, in either case.
fn digit_code(byte: u8) -> u8
    ensures { result ≡ unwrap_or (hex_digit_value byte) 255 }
{
    match byte {
        b'A'..=b'F' => byte - b'A' + 10,
        b'a'..=b'f' => byte - b'a' + 10,
        b'0'..=b'9' => byte - b'0',
        _ => NO_DIGIT,
    }
}
