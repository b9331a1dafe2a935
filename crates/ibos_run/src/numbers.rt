// The numbers of a command line.
ghost use Rattle.std.specs.Prelude.{◌≡◌, ◌≤◌, ◌<◌, false, true, length, IfSome, MatchOption};
ghost use Rattle.std.specs.List.{list_all};
ghost use Rattle.ibos_fields.specs.Fields.{is_digit};
ghost use Rattle.ibos_fields.specs.Fields as spec;
ghost use Rattle.ibos_run.specs.Words.{decimal_in, rounds_in, seed_in};

const MAX_SEED_DIGITS: usize = 20;

// The first number that is no seed.
const SEED_BOUND: u128 = 1 << 64;

const MAX_ROUNDS_DIGITS: usize = 6;

const ROUNDS_BOUND: u128 = 100_001;

/// The number of a drill: below 2^64, in 1 to 20 decimal digits.
pub fn read_seed(word: &[u8]) -> Option<u64>
    ensures { result ≡ seed_in word.now }
{
    read_decimal(MAX_SEED_DIGITS, 0, SEED_BOUND, word)
}

/// How many rounds a drill has: 1 to 100,000, in 1 to 6 decimal digits.
pub fn read_rounds(word: &[u8]) -> Option<u32>
    ensures rounds { result ≡ rounds_in word.now }
    ensures few { IfSome result (λ rounds. rounds ≤ 100000) }
{
    let rounds = read_decimal(MAX_ROUNDS_DIGITS, 1, ROUNDS_BOUND, word)?;
    Some(rounds as u32)
}

// A decimal number of at most so many digits, from the first bound on and below the second.
#[tactic(auto, unfolding(crate::specs::Words::decimal_in))]
fn read_decimal(digits: usize, least: u128, bound: u128, word: &[u8]) -> Option<u64>
    requires digits { digits ≤ 20 }
    requires bound { bound ≤ 18446744073709551616 }
    ensures number { result ≡ decimal_in digits least bound word.now }
    ensures below { IfSome result (λ n. n < bound) }
{
    if word.is_empty() || word.len() > digits {
        return None;
    }
    let value = value_of(word)?;
    if value >= least && value < bound {
        Some(value as u64)
    } else {
        None
    }
}

// The value of a word, if its bytes are decimal digits.
fn value_of(word: &[u8]) -> Option<u128>
    requires few { length word.now ≤ 20 }
    ensures digits { MatchOption result (list_all is_digit word.now ≡ false)
        (λ _. list_all is_digit word.now ≡ true) }
    ensures value { IfSome result (λ value. value ≡ spec.value_of word.now) }
{
    let mut value = 0u128;
    for b in word {
        if *b < b'0' || *b > b'9' {
            return None;
        }
        value = 10 * value + u128::from(*b - b'0');
    }
    Some(value)
}
