// What a key may be.
ghost use Rattle.std.specs.Prelude.{◌≡◌};
ghost use Rattle.std.specs.List.{list_all};
ghost use Rattle.ibos_kinds.specs.Objects as spec;

const MAX_KEY: usize = 64;

fn is_key_byte(b: u8) -> bool
    ensures { result ≡ spec.is_key_byte b }
{
    b >= b'!' && b <= b'~'
}

fn all_key_bytes(key: &[u8]) -> bool
    ensures { result ≡ list_all spec.is_key_byte key.now }
{
    key.iter().all(|b| is_key_byte(*b))
}

/// Whether a key is 1 to 64 printable bytes without a space.
#[tactic(auto, unfolding(ibos_kinds::specs::Objects::is_key))]
pub(crate) fn is_key(key: &[u8]) -> bool
    ensures { result ≡ spec.is_key key.now }
{
    !key.is_empty() && key.len() <= MAX_KEY && all_key_bytes(key)
}
