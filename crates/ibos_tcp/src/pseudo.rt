// The sum over what stands before a segment while it is summed.
ghost use Rattle.std.specs.Prelude.{◌≡◌};
ghost use Rattle.ibos_kinds.specs.Sums.{sum_words};
ghost use Rattle.ibos_kinds.specs.Frames.{pseudo_header};

use ibos_kinds::sum_words;

/// The ones' complement sum over the pseudo-header (RFC 9293, 3.1, and RFC 768) of addresses,
/// protocol number and length in bytes, which takes part with its lowest 16 bits. The sum over a
/// segment goes on from it.
pub fn pseudo_sum(src: u32, dst: u32, protocol: u8, len: usize) -> u16
    ensures { result ≡ sum_words 0 (pseudo_header src dst protocol len) }
{
    sum_words(0, &pseudo_header(src, dst, protocol, len))
}

// What stands before a segment while it is summed.
fn pseudo_header(src: u32, dst: u32, protocol: u8, len: usize) -> [u8; 12]
    ensures { result ≡ pseudo_header src dst protocol len }
{
    let [a, b, c, d] = src.to_be_bytes();
    let [e, f, g, h] = dst.to_be_bytes();
    let [high, low] = ((len % 0x1_0000) as u16).to_be_bytes();
    [a, b, c, d, e, f, g, h, 0, protocol, high, low]
}
