// A segment's header, and what it carries.
ghost use Rattle.std.specs.Prelude.{◌≡◌, ◌*◌, ◌≤◌, ◌++◌, None, Some, length, IfOk, IfErr};
ghost use Rattle.ibos_tcp.specs.Segments.{HasLengths};
ghost use Rattle.ibos_kinds.specs.Sums.{sum16};
ghost use Rattle.ibos_kinds.specs.Frames.{proto_of, proto_in, seg_src_port, seg_dst_port};
ghost use Rattle.ibos_kinds.specs.Frames.{tcp_words, udp_checksum, udp_len, seg_payload};
ghost use Rattle.ibos_kinds.specs.Frames.{pseudo_header, is_equal_out, is_seg_form, is_seg_sum};
ghost use Rattle.ibos_kinds.specs.Frames.{seg_broken};

use crate::pseudo::pseudo_sum;
use byteorder::{BigEndian, ByteOrder};
use ibos_kinds::{Dir, Proto, Rule, sum_words};
use std::marker::Model;

// The fields with which both headers begin, and those of each (RFC 9293, 3.1, and RFC 768).
mod field {
    use std::ops::Range;

    pub const SOURCE_PORT: Range<usize> = 0..2;

    pub const DESTINATION_PORT: Range<usize> = 2..4;

    pub const TCP_DATA_OFFSET: usize = 12;

    pub const UDP_LENGTH: Range<usize> = 4..6;

    pub const UDP_CHECKSUM: Range<usize> = 6..8;
}

// The numbers of the protocols, and the lengths of their headers without options, in bytes.
const TCP: u8 = 6;

const UDP: u8 = 17;

const TCP_HEADER_LEN: usize = 20;

const UDP_HEADER_LEN: usize = 8;

/// A TCP segment or a UDP datagram, borrowed. Contracts see its protocol and its bytes.
///
/// # Examples
///
/// ```
/// use ibos_ip::IpView;
/// use ibos_kinds::{Dir, Rule};
/// use ibos_tcp::SegView;
///
/// fn ports(ip: &IpView) -> Result<(u16, u16), Rule> {
///     let view = SegView::new(ip.protocol(), ip.src(), ip.dst(), ip.payload(), Dir::In)?;
///     Ok((view.src_port(), view.dst_port()))
/// }
/// ```
#[derive(Debug, Drop)]
pub struct SegView<'a> {
    proto: Proto,
    bytes: &'a [u8],
}

impl<'a> Model for SegView<'a> {
    ghost use Rattle.ibos_tcp.specs.Segments.{Segment, HasLengths};

    ghost Value = { Segment };

    ghost view = { λ v. record { proto = v.proto; bytes = v.bytes.now } };

    ghost invariant = { λ v. HasLengths v.proto v.bytes.now };
}

impl<'a> SegView<'a> {
    /// Views the payload of an IPv4 datagram of that protocol number between those addresses. It is
    /// refused with F9 where the protocol is neither TCP nor UDP, with F10 where its lengths don't
    /// fit its header and the bytes, and with F11 where its checksum is wrong; a UDP checksum of 0
    /// is none. What goes out is refused with F10 where a UDP length isn't that of the bytes, too.
    #[tactic(auto, unfolding(ibos_kinds::specs::Frames::seg_broken))]
    pub fn new(
        protocol: u8,
        src: u32,
        dst: u32,
        bytes: &'a [u8],
        dir: Dir,
    ) -> Result<SegView<'a>, Rule>
        ensures ok { IfOk result (λ view. seg_broken dir protocol src dst bytes.now ≡ None) }
        ensures proto { IfOk result (λ view. view.proto ≡ proto_in protocol) }
        ensures bytes { IfOk result (λ view. view.bytes ≡ bytes.now) }
        ensures err { IfErr result (λ rule. seg_broken dir protocol src dst bytes.now ≡ Some rule) }
    {
        let Some(proto) = proto_of(protocol) else {
            return Err(Rule::F9);
        };
        if !is_formed(proto, bytes, dir) {
            return Err(Rule::F10);
        }
        if !is_summed(proto, src, dst, bytes) {
            return Err(Rule::F11);
        }
        Ok(SegView { proto, bytes })
    }

    /// The protocol.
    pub fn proto(&self) -> Proto
        ensures { result ≡ self.now.proto }
    {
        self.proto
    }

    /// The port that the segment comes from.
    #[tactic(auto, unfolding(ibos_kinds::specs::Frames::number))]
    pub fn src_port(&self) -> u16
        ensures { result ≡ seg_src_port self.now.bytes }
    {
        BigEndian::read_u16(&self.bytes[field::SOURCE_PORT])
    }

    /// The port that the segment goes to.
    #[tactic(auto, unfolding(ibos_kinds::specs::Frames::number))]
    pub fn dst_port(&self) -> u16
        ensures { result ≡ seg_dst_port self.now.bytes }
    {
        BigEndian::read_u16(&self.bytes[field::DESTINATION_PORT])
    }

    /// What the segment carries: over TCP all that follows the header, over UDP what the length
    /// covers.
    pub fn payload(&self) -> &'a [u8]
        ensures { result.now ≡ seg_payload self.now.proto self.now.bytes }
    {
        match self.proto {
            Proto::Tcp => &self.bytes[tcp_header_len(self.bytes)..],
            Proto::Udp => &self.bytes[UDP_HEADER_LEN..udp_len(self.bytes)],
        }
    }
}

// The protocol of that number.
fn proto_of(protocol: u8) -> Option<Proto>
    ensures { result ≡ proto_of protocol }
{
    match protocol {
        TCP => Some(Proto::Tcp),
        UDP => Some(Proto::Udp),
        _ => None,
    }
}

// Whether the lengths are those of a segment.
fn is_formed(proto: Proto, bytes: &[u8], dir: Dir) -> bool
    ensures { result ≡ is_seg_form dir proto bytes.now }
{
    match proto {
        Proto::Tcp => {
            bytes.len() >= TCP_HEADER_LEN
                && tcp_header_len(bytes) >= TCP_HEADER_LEN
                && tcp_header_len(bytes) <= bytes.len()
        }
        Proto::Udp => {
            bytes.len() >= UDP_HEADER_LEN
                && udp_len(bytes) >= UDP_HEADER_LEN
                && udp_len(bytes) <= bytes.len()
                && (dir == Dir::In || udp_len(bytes) == bytes.len())
        }
    }
}

// Whether the checksum is right.
fn is_summed(proto: Proto, src: u32, dst: u32, bytes: &[u8]) -> bool
    requires { HasLengths proto bytes.now }
    ensures { result ≡ is_seg_sum proto src dst bytes.now }
{
    match proto {
        Proto::Tcp => checksum(src, dst, TCP, bytes) == 0,
        Proto::Udp => {
            udp_checksum(bytes) == 0 || checksum(src, dst, UDP, &bytes[..udp_len(bytes)]) == 0
        }
    }
}

// The checksum over a segment behind its pseudo-header. It is 0 where the segment holds the right
// one.
#[tactic(auto, unfolding(ibos_kinds::specs::Sums::sum16))]
fn checksum(src: u32, dst: u32, protocol: u8, segment: &[u8]) -> u16
    ensures { result ≡ sum16 (pseudo_header src dst protocol (length segment.now) ++ segment.now) }
{
    u16::MAX - sum_words(pseudo_sum(src, dst, protocol, segment.len()), segment)
}

// The length of a TCP header, its options included.
fn tcp_header_len(bytes: &[u8]) -> usize
    requires { 20 ≤ length bytes.now }
    ensures { result ≡ 4 * tcp_words bytes.now }
{
    4 * (bytes[field::TCP_DATA_OFFSET] / 16) as usize
}

// The length of UDP header and data.
#[tactic(auto, unfolding(ibos_kinds::specs::Frames::number))]
fn udp_len(bytes: &[u8]) -> usize
    requires { 8 ≤ length bytes.now }
    ensures { result ≡ udp_len bytes.now }
{
    BigEndian::read_u16(&bytes[field::UDP_LENGTH]) as usize
}

// The checksum of UDP, where 0 is none.
#[tactic(auto, unfolding(ibos_kinds::specs::Frames::number))]
fn udp_checksum(bytes: &[u8]) -> u16
    requires { 8 ≤ length bytes.now }
    ensures { result ≡ udp_checksum bytes.now }
{
    BigEndian::read_u16(&bytes[field::UDP_CHECKSUM])
}
