// Internet checksums, as RFC 1071 words them.
ghost use Rattle.std.specs.Prelude.{◌≡◌, ℕ, ◌+◌, ◌<◌, ◌≤◌, ◌%◌, ◌^◌, List, ◌++◌, length};
ghost use Rattle.ibos_kinds.specs.Sums.{plain_sum, carried, sum_words, sum16};

// So few bytes that the sum of what they hold, four bytes at a time, fits 64 bits.
const PIECE: usize = 65536;

/// The ones' complement sum (RFC 1071) of a word and of the 16-bit words in the bytes, the first
/// byte of each the higher, an odd last byte padded by zero. It is 0 only where all of them are 0.
#[tactic(auto, unfolding(crate::specs::Sums::sum_words))]
pub fn sum_words(start: u16, bytes: &[u8]) -> u16
    ensures value { result ≡ sum_words start bytes.now }

    // A sum may be taken in parts, each but the last of an even number of bytes.
    ensures parts { (first : ℕ) (front : List ℕ) → length front % 2 ≡ 0 → start
        ≡ sum_words first front
        → result ≡ sum_words first (front ++ bytes.now) }
{
    let mut total = start;
    let mut rest = bytes;
    while rest.len() > PIECE {
        let (piece, after) = rest.split_at(PIECE);
        total = with_piece(total, piece);
        rest = after;
    }
    with_piece(total, rest)
}

/// The checksum (RFC 1071) of the bytes: the complement of the ones' complement sum of their words.
/// Over bytes that hold their own checksum it is 0.
#[tactic(auto, unfolding(crate::specs::Sums::sum16))]
pub fn sum16(bytes: &[u8]) -> u16
    ensures { result ≡ sum16 bytes.now }
{
    u16::MAX - sum_words(0, bytes)
}

// A word and the words in a piece, summed. Two words are added as one number: its higher word
// counts as often as its weight, 65536, which carries to 1.
#[inline(always)]
fn with_piece(start: u16, piece: &[u8]) -> u16
    requires { length piece.now ≤ PIECE }
    ensures { result ≡ carried (start + plain_sum piece.now) }
{
    let mut total = u64::from(start);
    let mut rest = piece;
    while let [a, b, c, d, after @ ..] = rest {
        total += u64::from(u32::from_be_bytes([*a, *b, *c, *d]));
        rest = after;
    }
    carried(total + last_words(rest))
}

// The words in the last bytes, fewer than four.
#[inline(always)]
fn last_words(rest: &[u8]) -> u64
    requires { length rest.now < 4 }
    ensures within { result < 2 ^ 32 }
    ensures value { result ≡ plain_sum rest.now }
{
    match rest {
        [a, b, c] => 256 * (u64::from(*a) + u64::from(*c)) + u64::from(*b),
        [a, b] => 256 * u64::from(*a) + u64::from(*b),
        [a] => 256 * u64::from(*a),
        _ => 0,
    }
}

// A sum in 16 bits, its carries added in.
#[inline(always)]
fn carried(total: u64) -> u16
    ensures { result ≡ carried total }
{
    if total == 0 {
        0
    } else {
        (1 + (total - 1) % 65535) as u16
    }
}

#[cfg(test)]
mod tests {
    use super::*;

    #[test]
    fn words_are_summed(rt: HostRuntime) {
        // The sum of the third row is the example of RFC 1071, section 3.
        let table: [(u16, &[u8], u16); 9] = [
            (0, b"", 0),
            (0, b"\x00\x00\x00", 0),
            (0, b"\x00\x01\xf2\x03\xf4\xf5\xf6\xf7", 0xDDF2),
            (0, b"\xff\xff", 0xFFFF),
            (0xFFFF, b"\x00\x00", 0xFFFF),
            (0xFFFF, b"\x00\x01", 1),
            (1, b"\x12", 0x1201),
            (0x0100, b"\xff\x00\xab", 0xAB01),
            (0x8000, b"\x80\x00", 1),
        ];
        for (start, bytes, sum) in table {
            assert_eq!(rt; sum_words(start, bytes), sum, "{bytes:?}");
        }
        assert_eq!(rt; sum16(b"\x00\x01\xf2\x03\xf4\xf5\xf6\xf7"), 0x220D);
        assert_eq!(rt; sum16(b""), 0xFFFF);
    }

    #[test]
    fn pieces_are_summed(rt: HostRuntime) {
        // 100,001 bytes of 0xFF are 50,000 words of 0xFFFF and one of 0xFF00.
        let bytes = [0xFF; 100_001];
        assert_eq!(rt; sum_words(0, &bytes), 0xFF00);
    }
}
