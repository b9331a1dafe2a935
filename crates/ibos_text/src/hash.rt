// A hash function for short texts that come byte by byte.
ghost use Rattle.std.specs.Prelude.{◌≡◌};
ghost use Rattle.ibos_text.specs.Hash.{number_of};

use std::hash::Hasher;

// 2^64 over the golden ratio, as an odd number: its product with a state reaches all bits.
const SPREAD: u64 = 0x9e37_79b9_7f4a_7c15;

/// A hash function for texts. A table feeds it their bytes one at a time, so that a step must be
/// short: a rotation, and no product but at the end.
#[derive(Clone, Copy, Default)]
pub struct TextHasher {
    state: u64,
}

impl Hasher for TextHasher {
    ghost use Rattle.ibos_text.specs.Hash as spec;

    ghost write = { spec.write };

    ghost finish = { spec.finish };

    #[inline(always)]
    fn finish(&self) -> u64 {
        self.state.wrapping_mul(SPREAD)
    }

    #[inline(always)]
    fn write(&mut self, bytes: &[u8]) {
        self.state = self.state.rotate_left(7) ^ number_of(bytes);
    }
}

// The bytes as a number, the first byte the highest. What passes 64 bits is dropped.
#[inline(always)]
fn number_of(bytes: &[u8]) -> u64
    ensures { result ≡ number_of bytes.now }
{
    let mut number = 0u64;
    for b in bytes {
        number = number.wrapping_mul(256).wrapping_add(u64::from(*b));
    }
    number
}
