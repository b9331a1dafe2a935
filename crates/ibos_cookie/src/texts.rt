// The text of a set: its name, its value, and what they may hold (RFC 6265, section 4.1.1).
ghost use Rattle.std.specs.Prelude.{◌≡◌, ◌≤◌, length};
ghost use Rattle.std.specs.List.{list_all};
ghost use Rattle.ibos_kinds.specs.Cookies.{name_in, value_in, is_token_byte, is_cookie_octet};
ghost use Rattle.ibos_kinds.specs.Cookies as spec;

fn name_len(text: &[u8]) -> usize
    ensures within { result ≤ length text.now }
    ensures value { result ≡ spec.name_len text.now }
{
    for (i, b) in text.iter().enumerate() {
        if *b == b'=' {
            return i;
        }
    }
    text.len()
}

/// The name before the first equals sign, empty without one, and the value behind it.
#[tactic(auto, unfolding(ibos_kinds::specs::Cookies::name_in, ibos_kinds::specs::Cookies::value_in))]
pub fn split_cookie(text: &[u8]) -> (&[u8], &[u8])
    ensures name { result.0.now ≡ name_in text.now }
    ensures value { result.1.now ≡ value_in text.now }
{
    let at = name_len(text);
    if at < text.len() {
        (&text[..at], &text[at + 1..])
    } else {
        (&[], text)
    }
}

fn is_token_byte(b: u8) -> bool
    ensures { result ≡ spec.is_token_byte b }
{
    is_letter(b) || is_digit(b) || is_mark(b)
}

fn is_letter(b: u8) -> bool
    ensures { result ≡ spec.is_letter b }
{
    (b >= b'A' && b <= b'Z') || (b >= b'a' && b <= b'z')
}

fn is_digit(b: u8) -> bool
    ensures { result ≡ spec.is_digit b }
{
    b >= b'0' && b <= b'9'
}

fn is_mark(b: u8) -> bool
    ensures { result ≡ spec.is_mark b }
{
    b == b'!'
        || (b >= b'#' && b <= b'\'')
        || b == b'*'
        || b == b'+'
        || b == b'-'
        || b == b'.'
        || (b >= b'^' && b <= b'`')
        || b == b'|'
        || b == b'~'
}

fn is_cookie_octet(b: u8) -> bool
    ensures { result ≡ spec.is_cookie_octet b }
{
    (b == b'!')
        | ((b >= b'#') & (b <= b'+'))
        | ((b >= b'-') & (b <= b':'))
        | ((b >= b'<') & (b <= b'['))
        | ((b >= b']') & (b <= b'~'))
}

/// Whether a name is a token: one or more letters, digits and marks.
#[tactic(auto, unfolding(ibos_kinds::specs::Cookies::is_token))]
pub fn is_token(name: &[u8]) -> bool
    ensures { result ≡ spec.is_token name.now }
{
    !name.is_empty() && all_token_bytes(name)
}

fn all_token_bytes(name: &[u8]) -> bool
    ensures { result ≡ list_all is_token_byte name.now }
{
    name.iter().all(|b| is_token_byte(*b))
}

// All bytes are looked at, wherever the first wrong one stands: that is faster than to stop there.
fn all_cookie_octets(value: &[u8]) -> bool
    ensures { result ≡ list_all is_cookie_octet value.now }
{
    let mut all = true;
    for b in value {
        all = all & is_cookie_octet(*b);
    }
    all
}

// What stands between two double quotes, or the whole where it isn't quoted.
fn unquoted(value: &[u8]) -> &[u8]
    ensures { result.now ≡ spec.unquoted value.now }
{
    if value.len() >= 2 && value[0] == b'"' && value[value.len() - 1] == b'"' {
        &value[1..value.len() - 1]
    } else {
        value
    }
}

/// Whether a value is cookie octets, or cookie octets between two double quotes.
#[tactic(auto, unfolding(ibos_kinds::specs::Cookies::is_value))]
pub fn is_value(value: &[u8]) -> bool
    ensures { result ≡ spec.is_value value.now }
{
    all_cookie_octets(unquoted(value))
}
