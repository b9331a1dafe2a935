// Many bytes at once.
ghost use Rattle.std.specs.Prelude.{◌≡◌, ◌/◌, ◌%◌, ◌≤◌, ◌++◌, nat_lt, length, map, take};
ghost use Rattle.std.specs.Prelude.{slice_index};
ghost use Rattle.std.specs.List.{list_all};
ghost use Rattle.std.specs.Option.{unwrap_or};
ghost use Rattle.hex.specs.Hex.{decode_pairs, encode_lower, hex_digit_value, lower_digits};
ghost use Rattle.ibos_fields.specs.Fields.{bytes_named};
ghost use Rattle.ibos_fields.specs.Printable.{is_printable};

use std::simd::prelude::*;

// The lower-case digits, by their value.
const LOWER: [u8; 16] = *b"0123456789abcdef";

/// Whether the first 16 bytes are printable.
#[inline(always)]
pub fn is_printable_block(text: &[u8]) -> bool
    requires { 16 ≤ length text.now }
    ensures { result ≡ list_all is_printable (take 16 text.now) }
{
    are_printable(u8x16::from_slice(text))
}

#[inline(always)]
fn are_printable(bytes: u8x16) -> bool
    ensures { result ≡ list_all is_printable bytes }
{
    let behind_space = bytes - u8x16::splat(b' ');
    behind_space.simd_gt(u8x16::splat(b'~' - b' ')).to_bitmask() == 0
}

/// The 16 bytes of the first 32 digits, if that is what they are.
#[inline(always)]
pub fn decode_block(word: &[u8]) -> Option<[u8; 16]>
    requires { 32 ≤ length word.now }
    ensures { result ≡ bytes_named (decode_pairs 0 (take 32 word.now)) }
{
    let first = digit_codes(u8x16::from_slice(word));
    let second = digit_codes(u8x16::from_slice(&word[16..]));
    if !are_digits(first) || !are_digits(second) {
        return None;
    }
    let (high, low) = first.deinterleave(second);
    Some((high * u8x16::splat(16) + low).to_array())
}

// The value of each digit, in either case, and 255 for a byte that is none.
#[inline(always)]
fn digit_codes(bytes: u8x16) -> u8x16
    ensures { result ≡ map (λ b. unwrap_or (hex_digit_value b) 255) bytes }
{
    let digit = bytes - u8x16::splat(b'0');
    let letter = (bytes | u8x16::splat(b' ')) - u8x16::splat(b'a');
    let is_digit = digit.simd_lt(u8x16::splat(10));
    let is_letter = letter.simd_lt(u8x16::splat(6));
    let others = is_letter.select(letter + u8x16::splat(10), u8x16::splat(255));
    is_digit.select(digit, others)
}

#[inline(always)]
fn are_digits(codes: u8x16) -> bool
    ensures { result ≡ list_all (λ code. nat_lt code 16) codes }
{
    codes.simd_ge(u8x16::splat(16)).to_bitmask() == 0
}

/// The first 16 bytes in hexadecimal: 32 lower-case digits, in two halves.
#[inline(always)]
pub fn encode_block(bytes: &[u8]) -> ([u8; 16], [u8; 16])
    requires { 16 ≤ length bytes.now }
    ensures { result.0 ++ result.1 ≡ encode_lower (take 16 bytes.now) }
{
    let block = u8x16::from_slice(bytes);
    let (first, second) = high_digits(block).interleave(low_digits(block));
    (first.to_array(), second.to_array())
}

#[inline(always)]
fn high_digits(bytes: u8x16) -> u8x16
    ensures { result ≡ map (λ b. slice_index lower_digits (b / 16)) bytes }
{
    u8x16::from_array(LOWER).swizzle_dyn(bytes >> u8x16::splat(4))
}

#[inline(always)]
fn low_digits(bytes: u8x16) -> u8x16
    ensures { result ≡ map (λ b. slice_index lower_digits (b % 16)) bytes }
{
    u8x16::from_array(LOWER).swizzle_dyn(bytes & u8x16::splat(15))
}
