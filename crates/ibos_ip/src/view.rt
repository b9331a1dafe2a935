// A datagram's header, what it carries, and what follows it.
ghost use Rattle.std.specs.Prelude.{◌≡◌, ◌*◌, ◌%◌, ◌==◌, ◌≤◌, not, None, Some, length, IfOk};
ghost use Rattle.std.specs.Prelude.{IfErr};
ghost use Rattle.ibos_kinds.specs.Frames.{ip_version, ip_words, ip_total, ip_fragment};
ghost use Rattle.ibos_kinds.specs.Frames.{ip_protocol, ip_src, ip_dst, ip_payload, ip_tail};
ghost use Rattle.ibos_kinds.specs.Frames.{is_equal_out, is_ip_form, ip_broken};

use byteorder::{BigEndian, ByteOrder};
use ibos_kinds::{Dir, Rule, sum16};
use std::marker::Model;

// The header's fields (RFC 791, 3.1).
mod field {
    use std::ops::Range;

    pub const VERSION_IHL: usize = 0;

    pub const TOTAL_LENGTH: Range<usize> = 2..4;

    pub const FLAGS_FRAGMENT_OFFSET: Range<usize> = 6..8;

    pub const PROTOCOL: usize = 9;

    pub const SOURCE_ADDRESS: Range<usize> = 12..16;

    pub const DESTINATION_ADDRESS: Range<usize> = 16..20;
}

const VERSION: u8 = 4;

// The length of a header without options, in bytes and in words of four bytes.
const HEADER_LEN: usize = 20;

const HEADER_WORDS: u8 = 5;

// Of the field that has flags and fragment offset: more fragments, and the offset.
const FRAGMENT: u16 = 0x3FFF;

/// An IPv4 datagram (RFC 791) that is whole, and what follows it, borrowed. Contracts see the
/// bytes.
///
/// # Examples
///
/// ```
/// use ibos_ip::IpView;
/// use ibos_kinds::{Dir, Rule};
///
/// fn sender(payload: &[u8]) -> Result<u32, Rule> {
///     let view = IpView::new(payload, Dir::In)?;
///     Ok(view.src())
/// }
/// ```
#[derive(Debug, Drop)]
pub struct IpView<'a> {
    bytes: &'a [u8],
}

impl<'a> Model for IpView<'a> {
    ghost use Rattle.std.specs.Prelude.{List, ℕ};
    ghost use Rattle.ibos_ip.specs.Form.{HasLengths};

    ghost Value = { List ℕ };

    ghost view = { λ v. v.bytes.now };

    ghost invariant = { λ v. HasLengths v.bytes.now };
}

impl<'a> IpView<'a> {
    /// Views the payload of a frame. It is refused with F5 where its header has not the form of
    /// one, or its lengths don't fit each other and the payload, with F6 where the header's
    /// checksum is wrong, and with F7 where it is a fragment. What goes out is refused with F5
    /// where it has options, too.
    #[tactic(auto, unfolding(ibos_kinds::specs::Frames::ip_broken))]
    pub fn new(bytes: &'a [u8], dir: Dir) -> Result<IpView<'a>, Rule>
        ensures ok { IfOk result (λ view. (ip_broken dir bytes.now ≡ None) × (view ≡ bytes.now)) }
        ensures err { IfErr result (λ rule. ip_broken dir bytes.now ≡ Some rule) }
    {
        if !is_formed(bytes, dir) {
            return Err(Rule::F5);
        }
        if sum16(&bytes[..header_len(bytes)]) != 0 {
            return Err(Rule::F6);
        }
        if is_fragment(bytes) {
            return Err(Rule::F7);
        }
        Ok(IpView { bytes })
    }

    /// The address that the datagram comes from.
    #[tactic(auto, unfolding(ibos_kinds::specs::Frames::number))]
    pub fn src(&self) -> u32
        ensures { result ≡ ip_src self.now }
    {
        BigEndian::read_u32(&self.bytes[field::SOURCE_ADDRESS])
    }

    /// The address that the datagram goes to.
    #[tactic(auto, unfolding(ibos_kinds::specs::Frames::number))]
    pub fn dst(&self) -> u32
        ensures { result ≡ ip_dst self.now }
    {
        BigEndian::read_u32(&self.bytes[field::DESTINATION_ADDRESS])
    }

    /// The number of the protocol that is carried.
    pub fn protocol(&self) -> u8
        ensures { result ≡ ip_protocol self.now }
    {
        self.bytes[field::PROTOCOL]
    }

    /// What the datagram carries: all that its total length covers after the header.
    pub fn payload(&self) -> &'a [u8]
        ensures { result.now ≡ ip_payload self.now }
    {
        &self.bytes[header_len(self.bytes)..total_len(self.bytes)]
    }

    /// What follows the datagram.
    pub fn tail(&self) -> &'a [u8]
        ensures { result.now ≡ ip_tail self.now }
    {
        &self.bytes[total_len(self.bytes)..]
    }
}

// Whether version and lengths are those of a datagram that stands at the front.
fn is_formed(bytes: &[u8], dir: Dir) -> bool
    ensures { result ≡ is_ip_form dir bytes.now }
{
    bytes.len() >= HEADER_LEN
        && bytes[field::VERSION_IHL] / 16 == VERSION
        && header_words(bytes) >= HEADER_WORDS
        && header_len(bytes) <= total_len(bytes)
        && total_len(bytes) <= bytes.len()
        && (dir == Dir::In || header_words(bytes) == HEADER_WORDS)
}

// The length of the header in words, IHL.
fn header_words(bytes: &[u8]) -> u8
    requires { 20 ≤ length bytes.now }
    ensures { result ≡ ip_words bytes.now }
{
    bytes[field::VERSION_IHL] % 16
}

// The length of the header, its options included.
fn header_len(bytes: &[u8]) -> usize
    requires { 20 ≤ length bytes.now }
    ensures { result ≡ 4 * ip_words bytes.now }
{
    4 * header_words(bytes) as usize
}

// The length of header and data.
#[tactic(auto, unfolding(ibos_kinds::specs::Frames::number))]
fn total_len(bytes: &[u8]) -> usize
    requires { 20 ≤ length bytes.now }
    ensures { result ≡ ip_total bytes.now }
{
    BigEndian::read_u16(&bytes[field::TOTAL_LENGTH]) as usize
}

// Whether more fragments follow, or this is one at an offset.
#[tactic(auto, unfolding(ibos_kinds::specs::Frames::number))]
fn is_fragment(bytes: &[u8]) -> bool
    requires { 20 ≤ length bytes.now }
    ensures { result ≡ not (ip_fragment bytes.now % 0x4000 == 0) }
{
    BigEndian::read_u16(&bytes[field::FLAGS_FRAGMENT_OFFSET]) & FRAGMENT != 0
}
