// Frames, header by header.
ghost use Rattle.std.specs.Prelude.{◌≡◌, ℕ, ◌<◌, ◌≤◌, ◌+◌, ◌%◌, ◌^◌, ◌++◌, None, length, IfOk};
ghost use Rattle.std.specs.Int.{bytes_high_first};
ghost use Rattle.ibos_kinds.specs.Sums.{sum_words, sum16};
ghost use Rattle.ibos_kinds.specs.Frames.{first_broken, pseudo_header};
ghost use Rattle.ibos_kinds.specs.Datagrams.{Datagram, frame_bytes, ip_bytes, segment_bytes};
ghost use Rattle.ibos_make.specs.Building.{protocol_number, header_len, ip_for, transport_for};
ghost use Rattle.ibos_make.specs.Building.{parts_with, ip_checksum_for, written, parts_for};
ghost use Rattle.ibos_make.specs.Building.{receiver, sender, HasAddrs, HasPorts};

use crate::fields::{ethernet, ipv4, tcp, udp};
use arrayvec::ArrayVec;
use ibos_kinds::{Bytes, Dir, Endpoint, Memory, Proto, sum_words, sum16};
use ibos_tcp::pseudo_sum;
use std::alloc::Global;

// The type of IPv4.
const IPV4: u16 = 0x0800;

// The most bytes that the headers of a frame have: 14, 20, and 20 of TCP.
const MOST_HEADERS: usize = 54;

// What each header of IPv4 says (RFC 791, 3.1): version 4 and a length of five words, the flag DF
// and no offset, and a life of so many hops.
const VERSION_IHL: u8 = 0x45;

const DONT_FRAGMENT: u16 = 0x4000;

const TIME_TO_LIVE: u8 = 64;

// The numbers of the protocols.
const TCP: u8 = 6;

const UDP: u8 = 17;

// What each header of TCP says (RFC 9293, 3.1): a length of five words, the flags PSH and ACK, and
// a window in bytes.
const SEQUENCE: u32 = 1;

const ACKNOWLEDGEMENT: u32 = 1;

const DATA_OFFSET: u8 = 0x50;

const PSH_ACK: u8 = 0x18;

const WINDOW: u16 = 8_192;

/// What a frame is to say: the MAC addresses that it goes to and comes from, its ends, and its
/// payload.
#[derive(Debug, Drop)]
pub struct FrameSpec {
    pub to: u64,
    pub from: u64,
    pub src: Endpoint,
    pub dst: Endpoint,
    pub proto: Proto,
    pub payload: Bytes,
}

/// A frame (Ethernet II, RFC 791, RFC 9293, RFC 768) of what it is to say, which breaks no rule for
/// the machine that it goes to, and none for the one that it comes from. The header of IPv4 has no
/// options, is not to be fragmented, and lives for 64 hops; that of TCP has sequence and
/// acknowledgement 1, the flags PSH and ACK, and a window of 8,192 bytes. Both checksums are right,
/// and no byte follows the payload.
///
/// # Examples
///
/// ```
/// use ibos_kinds::{Bytes, Endpoint, Memory, Proto};
/// use ibos_make::{FrameSpec, build};
/// use std::process::Abort;
///
/// fn datagram(rt: &(impl Abort + AllocGlobal)) -> Result<(), Memory> {
///     let spec = FrameSpec {
///         to: 0x0200_0000_0001,
///         from: 0x0200_0000_00fe,
///         src: Endpoint {
///             addr: 0xc633_6401,
///             port: 80,
///         },
///         dst: Endpoint {
///             addr: 0xc000_020a,
///             port: 32_768,
///         },
///         proto: Proto::Udp,
///         payload: Bytes::from_slice(rt.alloc(), b"hi")?,
///     };
///     let frame = build(rt.alloc(), &spec)?;
///     // The headers of Ethernet, IPv4 and UDP have 14, 20 and 8 bytes.
///     assert_eq!(rt; frame.len(), 44);
///     Ok(())
/// }
/// ```
pub fn build(alloc: Global, spec: &FrameSpec) -> Result<Bytes, Memory>
    requires payload { length spec.now.payload ≤ 1460 }
    requires to { spec.now.to < 2 ^ 48 }
    requires from { spec.now.from < 2 ^ 48 }
    ensures layout { IfOk result (λ frame. frame ≡ frame_bytes (parts_for spec.now)) }

    // These are its parts, both where it comes in and where it goes out.
    ensures comes_in { IfOk result (λ frame. (gateway : ℕ)
        → Datagram (receiver spec.now gateway) Dir.In frame (parts_for spec.now)) }
    ensures goes_out { IfOk result (λ frame.
        Datagram (sender spec.now) Dir.Out frame (parts_for spec.now)) }

    // So it breaks no rule.
    ensures none_in { IfOk result (λ frame. (gateway : ℕ)
        → first_broken (receiver spec.now gateway) Dir.In frame ≡ None) }
    ensures none_out { IfOk result (λ frame. first_broken (sender spec.now) Dir.Out frame ≡ None) }
{
    let frame = laid_out(alloc, spec)?;
    Ok(frame)
}

// The frame, in its layout.
#[inline(always)]
fn laid_out(alloc: Global, spec: &FrameSpec) -> Result<Bytes, Memory>
    requires { length spec.now.payload ≤ 1460 }
    ensures bytes { IfOk result (λ frame. frame ≡ frame_bytes (parts_for spec.now)) }
    ensures addrs { HasAddrs spec.now }
    ensures ports { HasPorts spec.now }
{
    match spec.proto {
        Proto::Tcp => {
            let sum = checksum(spec, &tcp_header(spec, 0));
            joined(alloc, spec, &tcp_header(spec, sum))
        }
        Proto::Udp => {
            let sum = shown(checksum(spec, &udp_header(spec, 0)));
            joined(alloc, spec, &udp_header(spec, sum))
        }
    }
}

// The frame, the segment's header given.
#[inline(always)]
fn joined(alloc: Global, spec: &FrameSpec, header: &[u8]) -> Result<Bytes, Memory>
    requires payload { length spec.now.payload ≤ 1460 }
    requires header { length header.now ≤ 20 }
    ensures addrs { HasAddrs spec.now }
    ensures bytes { IfOk result (λ frame. frame ≡ bytes_high_first 6 spec.now.to
        ++ bytes_high_first 6 spec.now.from ++ bytes_high_first 2 0x0800
        ++ ip_bytes (ip_for spec.now (ip_checksum_for spec.now)) ++ header.now
        ++ spec.now.payload) }
{
    let checksum = sum16(&ip_header(spec, 0));
    let mut front = ArrayVec::<u8, MOST_HEADERS>::new();
    push(&mut front, &eth_header(spec));
    push(&mut front, &ip_header(spec, checksum));
    push(&mut front, header);
    Bytes::from_two(alloc, front.as_slice(), spec.payload.as_slice())
}

// Appends to the headers of a frame.
#[inline(always)]
fn push(front: &mut ArrayVec<u8, MOST_HEADERS>, header: &[u8])
    requires { length front.old.items + length header.now ≤ MOST_HEADERS }
    ensures { front.new.items ≡ front.old.items ++ header.now }
{
    if front.try_extend_from_slice(header).is_err() {
        unreachable!()
    }
}

// The checksum over a segment, its header given.
#[inline(always)]
#[tactic(auto, unfolding(ibos_kinds::specs::Sums::sum16))]
fn checksum(spec: &FrameSpec, header: &[u8]) -> u16
    requires payload { length spec.now.payload ≤ 1460 }
    requires header { length header.now ≤ 20 }
    requires even { length header.now % 2 ≡ 0 }
    ensures { result ≡ sum16 (pseudo_header spec.now.src.addr spec.now.dst.addr
        (protocol_number spec.now.proto)
        (length header.now + length spec.now.payload) ++ (header.now ++ spec.now.payload)) }
{
    let protocol = protocol_number(spec.proto);
    let len = header.len() + spec.payload.len();
    let front = pseudo_sum(spec.src.addr, spec.dst.addr, protocol, len);
    u16::MAX - sum_words(sum_words(front, header), spec.payload.as_slice())
}

// What UDP writes for a checksum, where 0 means that there is none.
fn shown(checksum: u16) -> u16
    ensures { result ≡ written Proto.Udp checksum }
{
    if checksum == 0 { u16::MAX } else { checksum }
}

// The header of Ethernet.
#[inline(always)]
fn eth_header(spec: &FrameSpec) -> [u8; 14]
    ensures { result ≡ bytes_high_first 6 spec.now.to ++ bytes_high_first 6 spec.now.from
        ++ bytes_high_first 2 0x0800 }
{
    let mut header = [0; ethernet::HEADER_LEN];
    header[ethernet::DESTINATION].copy_from_slice(&spec.to.to_be_bytes()[2..]);
    header[ethernet::SOURCE].copy_from_slice(&spec.from.to_be_bytes()[2..]);
    header[ethernet::TYPE].copy_from_slice(&IPV4.to_be_bytes());
    header
}

// The header of IPv4, with a checksum. Type of service and identification are 0.
#[inline(always)]
fn ip_header(spec: &FrameSpec, checksum: u16) -> [u8; 20]
    requires { length spec.now.payload ≤ 1460 }
    ensures bytes { result ≡ ip_bytes (ip_for spec.now checksum) }
    ensures addrs { HasAddrs spec.now }
{
    let total = (ipv4::HEADER_LEN + header_len(spec.proto) + spec.payload.len()) as u16;
    let mut header = [0; ipv4::HEADER_LEN];
    header[ipv4::VERSION_IHL] = VERSION_IHL;
    header[ipv4::TOTAL_LENGTH].copy_from_slice(&total.to_be_bytes());
    header[ipv4::FLAGS_FRAGMENT_OFFSET].copy_from_slice(&DONT_FRAGMENT.to_be_bytes());
    header[ipv4::TIME_TO_LIVE] = TIME_TO_LIVE;
    header[ipv4::PROTOCOL] = protocol_number(spec.proto);
    header[ipv4::CHECKSUM].copy_from_slice(&checksum.to_be_bytes());
    header[ipv4::SOURCE_ADDRESS].copy_from_slice(&address_bytes(spec.src));
    header[ipv4::DESTINATION_ADDRESS].copy_from_slice(&address_bytes(spec.dst));
    header
}

// The header of TCP, with a checksum. The urgent pointer is 0.
#[inline(always)]
fn tcp_header(spec: &FrameSpec, checksum: u16) -> [u8; 20]
    requires { spec.now.proto ≡ Proto.Tcp }
    ensures bytes { (ip : ℕ) → result ≡ segment_bytes (parts_with spec.now ip checksum) }
    ensures ports { HasPorts spec.now }
{
    let mut header = [0; tcp::HEADER_LEN];
    header[tcp::SOURCE_PORT].copy_from_slice(&port_bytes(spec.src));
    header[tcp::DESTINATION_PORT].copy_from_slice(&port_bytes(spec.dst));
    header[tcp::SEQUENCE_NUMBER].copy_from_slice(&SEQUENCE.to_be_bytes());
    header[tcp::ACKNOWLEDGEMENT_NUMBER].copy_from_slice(&ACKNOWLEDGEMENT.to_be_bytes());
    header[tcp::DATA_OFFSET] = DATA_OFFSET;
    header[tcp::FLAGS] = PSH_ACK;
    header[tcp::WINDOW].copy_from_slice(&WINDOW.to_be_bytes());
    header[tcp::CHECKSUM].copy_from_slice(&checksum.to_be_bytes());
    header
}

// The header of UDP, with a checksum.
#[inline(always)]
fn udp_header(spec: &FrameSpec, checksum: u16) -> [u8; 8]
    requires proto { spec.now.proto ≡ Proto.Udp }
    requires payload { length spec.now.payload ≤ 1460 }
    ensures bytes { (ip : ℕ) → result ≡ segment_bytes (parts_with spec.now ip checksum) }
    ensures ports { HasPorts spec.now }
{
    let len = (udp::HEADER_LEN + spec.payload.len()) as u16;
    let mut header = [0; udp::HEADER_LEN];
    header[udp::SOURCE_PORT].copy_from_slice(&port_bytes(spec.src));
    header[udp::DESTINATION_PORT].copy_from_slice(&port_bytes(spec.dst));
    header[udp::LENGTH].copy_from_slice(&len.to_be_bytes());
    header[udp::CHECKSUM].copy_from_slice(&checksum.to_be_bytes());
    header
}

// The number of a protocol.
fn protocol_number(proto: Proto) -> u8
    ensures { result ≡ protocol_number proto }
{
    match proto {
        Proto::Tcp => TCP,
        Proto::Udp => UDP,
    }
}

// The length of a protocol's header.
fn header_len(proto: Proto) -> usize
    ensures { result ≡ header_len proto }
{
    match proto {
        Proto::Tcp => tcp::HEADER_LEN,
        Proto::Udp => udp::HEADER_LEN,
    }
}

// The bytes of an address. A caller knows from here that it has 32 bits.
fn address_bytes(end: Endpoint) -> [u8; 4]
    ensures bytes { result ≡ bytes_high_first 4 end.addr }
    ensures fits { end.addr < 2 ^ 32 }
{
    end.addr.to_be_bytes()
}

// The bytes of a port, likewise.
fn port_bytes(end: Endpoint) -> [u8; 2]
    ensures bytes { result ≡ bytes_high_first 2 end.port }
    ensures fits { end.port < 2 ^ 16 }
{
    end.port.to_be_bytes()
}
