// IPv4 and MAC addresses in texts.
ghost use Rattle.std.specs.Prelude.{◌≡◌, ◌<◌, Some, None, if◌then◌else◌, IfSome};
ghost use Rattle.std.specs.Char.{digit_value};
ghost use Rattle.std.specs.Option.{SomeIff};
ghost use Rattle.std.specs.Str.Parse.{digits_value};
ghost use Rattle.ibos_origin.specs.Addresses as spec;
ghost use Rattle.ibos_origin.specs.Addresses.{is_pair};

use ibos_text::split_first;
use std::net::Ipv4Addr;

const PAIRS: usize = 6;

/// The IPv4 address that a word writes in dotted decimal, its first number the highest byte.
pub fn addr_in(word: &[u8]) -> Option<u32>
    ensures { result ≡ spec.addr_in word.now }
{
    match Ipv4Addr::parse_ascii(word) {
        Ok(addr) => Some(addr.to_bits()),
        Err(_) => None,
    }
}

/// The MAC address that a word writes as in `02:00:5e:10:00:01`, in digits of either case. Its
/// first byte is the highest.
pub fn mac_in(word: &[u8]) -> Option<u64>
    ensures { result ≡ spec.mac_in word.now }
{
    let mut mac = 0u64;
    let mut count = 0;
    let mut rest = Some(word);
    'pairs: while let Some(text) = rest {
        if count == PAIRS {
            return None;
        }
        let (pair, after) = split_first(text, b':');
        mac = mac * 256 + u64::from(pair_in(pair)?);
        count += 1;
        rest = after;
    }
    if count == PAIRS { Some(mac) } else { None }
}

fn pair_in(part: &[u8]) -> Option<u32>
    ensures value { result ≡ (if is_pair part.now then Some (digits_value 16 part.now) else None) }
    ensures below { IfSome result (λ n. n < 256) }
{
    match part {
        [high, low] => Some(digit_in(*high)? * 16 + digit_in(*low)?),
        _ => None,
    }
}

fn digit_in(byte: u8) -> Option<u32>
    ensures { SomeIff result (digit_value byte < 16) (digit_value byte) }
{
    char::from(byte).to_digit(16)
}
