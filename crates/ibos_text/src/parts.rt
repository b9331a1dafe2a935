// Parts of a text.
ghost use Rattle.std.specs.Prelude.{◌≡◌, ◌≤◌, ◌∷◌, length, take};
ghost use Rattle.std.specs.Option.{option_copied};
ghost use Rattle.ibos_text.specs.Parts as spec;
ghost use Rattle.ibos_text.specs.Parts.{parts_of, parts_left};

use memchr::memchr;
use std::simd::prelude::*;

// So many bytes are compared at once: most parts end among them.
const LANES: usize = 16;

/// How many bytes stand before the first `byte`, or before the end.
pub fn len_before(text: &[u8], byte: u8) -> usize
    ensures within { result ≤ length text.now }
    ensures value { result ≡ spec.len_before byte text.now }
{
    if text.len() < LANES {
        return len_in_few(text, byte);
    }
    let len = len_in_block(text, byte);
    if len < LANES {
        return len;
    }
    match memchr(byte, &text[LANES..]) {
        Some(more) => LANES + more,
        None => text.len(),
    }
}

// The same in the first 16 bytes.
#[inline(always)]
fn len_in_block(text: &[u8], byte: u8) -> usize
    requires { 16 ≤ length text.now }
    ensures within { result ≤ 16 }
    ensures value { result ≡ spec.len_before byte (take 16 text.now) }
{
    let block = u8x16::from_slice(text);
    let marks = block.simd_eq(u8x16::splat(byte)).to_bitmask();
    if marks == 0 {
        LANES
    } else {
        marks.trailing_zeros() as usize
    }
}

fn len_in_few(text: &[u8], byte: u8) -> usize
    ensures within { result ≤ length text.now }
    ensures value { result ≡ spec.len_before byte text.now }
{
    for (i, b) in text.iter().enumerate() {
        if *b == byte {
            return i;
        }
    }
    text.len()
}

/// The part before the first `byte`, and what follows that byte if it is there.
pub fn split_first(text: &[u8], byte: u8) -> (&[u8], Option<&[u8]>)
    ensures { parts_of byte text.now ≡ result.0.now ∷ parts_left byte (option_copied result.1) }
{
    let len = len_before(text, byte);
    if len < text.len() {
        (&text[..len], Some(&text[len + 1..]))
    } else {
        (text, None)
    }
}
