// A frame's header, and what it carries.
ghost use Rattle.std.specs.Prelude.{◌≡◌, ◌≤◌, None, Some, length, IfOk, IfErr};
ghost use Rattle.ibos_kinds.specs.Frames.{eth_dest, eth_source, eth_type, eth_payload};
ghost use Rattle.ibos_kinds.specs.Frames.{eth_broken};

use byteorder::{BigEndian, ByteOrder};
use ibos_kinds::Rule;
use std::marker::Model;

// The header's fields (IEEE 802.3, 3.1.1), with a type in place of a length (3.2.6).
mod field {
    use std::ops::Range;

    pub const DESTINATION: Range<usize> = 0..6;

    pub const SOURCE: Range<usize> = 6..12;

    pub const TYPE: Range<usize> = 12..14;
}

// In bytes.
const HEADER_LEN: usize = 14;

// The type of IPv4.
const IPV4: u16 = 0x0800;

/// An Ethernet II frame that carries IPv4, borrowed. Contracts see the frame's bytes.
///
/// # Examples
///
/// ```
/// use ibos_eth::EthView;
/// use ibos_kinds::Rule;
///
/// fn is_for(mac: u64, frame: &[u8]) -> Result<bool, Rule> {
///     let view = EthView::new(frame)?;
///     Ok(view.dest() == mac)
/// }
/// ```
#[derive(Debug, Drop)]
pub struct EthView<'a> {
    frame: &'a [u8],
}

impl<'a> Model for EthView<'a> {
    ghost use Rattle.std.specs.Prelude.{◌≤◌, List, ℕ, length};

    ghost Value = { List ℕ };

    ghost view = { λ v. v.frame.now };

    ghost invariant = { λ v. 14 ≤ length v.frame.now };
}

impl<'a> EthView<'a> {
    /// Views a frame, of any length. It is refused with F1 where it is shorter than the header, and
    /// with F2 where its type is not that of IPv4.
    #[tactic(auto, unfolding(ibos_kinds::specs::Frames::eth_broken))]
    pub fn new(frame: &'a [u8]) -> Result<EthView<'a>, Rule>
        ensures ok { IfOk result (λ view. (eth_broken frame.now ≡ None) × (view ≡ frame.now)) }
        ensures err { IfErr result (λ rule. eth_broken frame.now ≡ Some rule) }
    {
        if frame.len() < HEADER_LEN {
            return Err(Rule::F1);
        }
        if type_of(frame) != IPV4 {
            return Err(Rule::F2);
        }
        Ok(EthView { frame })
    }

    /// The MAC address that the frame goes to.
    #[tactic(auto, unfolding(ibos_kinds::specs::Frames::number))]
    pub fn dest(&self) -> u64
        ensures { result ≡ eth_dest self.now }
    {
        BigEndian::read_u48(&self.frame[field::DESTINATION])
    }

    /// The MAC address that the frame comes from.
    #[tactic(auto, unfolding(ibos_kinds::specs::Frames::number))]
    pub fn source(&self) -> u64
        ensures { result ≡ eth_source self.now }
    {
        BigEndian::read_u48(&self.frame[field::SOURCE])
    }

    /// All that follows the header, an IPv4 datagram and what may follow it.
    pub fn payload(&self) -> &'a [u8]
        ensures { result.now ≡ eth_payload self.now }
    {
        &self.frame[HEADER_LEN..]
    }
}

// The type of what is carried.
#[tactic(auto, unfolding(ibos_kinds::specs::Frames::number))]
fn type_of(frame: &[u8]) -> u16
    requires { 14 ≤ length frame.now }
    ensures { result ≡ eth_type frame.now }
{
    BigEndian::read_u16(&frame[field::TYPE])
}
