// Frames judged layer by layer, and their headings.
ghost use Rattle.std.specs.Prelude.{◌≡◌, ◌==◌};
ghost use Rattle.std.specs.List.{list_all};
ghost use Rattle.ibos_kinds.specs.Frames.{addr_broken, datagram_broken, datagram_heading};
ghost use Rattle.ibos_kinds.specs.Frames.{heading_between, mac_broken, tail_broken};
ghost use Rattle.ibos_kinds.specs.Judged.{judged, unless_broken};

use ibos_eth::EthView;
use ibos_ip::IpView;
use ibos_kinds::{Dir, Endpoint, Heading, Local, Proto, Rule};
use ibos_tcp::SegView;

/// The heading of a frame that comes in: its port is the one that it goes to, and the other end the
/// one that it comes from. It is refused with the first of F1, F2 and F4 to F11 that it breaks
/// (Ethernet II, RFC 791, RFC 9293, RFC 768).
pub fn read_in(local: &Local, frame: &[u8]) -> Result<Heading, Rule>
    ensures { result ≡ judged local.now Dir.In frame.now }
{
    read(local, Dir::In, frame)
}

/// The heading of a frame that goes out: its port is the one that it comes from, and the other end
/// the one that it goes to. It is refused with the first of F1 to F11 and F15 that it breaks.
pub fn read_out(local: &Local, frame: &[u8]) -> Result<Heading, Rule>
    ensures { result ≡ judged local.now Dir.Out frame.now }
{
    read(local, Dir::Out, frame)
}

#[tactic(auto, unfolding(ibos_kinds::specs::Frames::first_broken, ibos_kinds::specs::Frames::heading_of))]
fn read(local: &Local, dir: Dir, frame: &[u8]) -> Result<Heading, Rule>
    ensures { result ≡ judged local.now dir frame.now }
{
    let eth = EthView::new(frame)?;
    if let Some(rule) = mac_rule(local, dir, eth.dest(), eth.source()) {
        return Err(rule);
    }
    read_datagram(local, dir, eth.payload())
}

fn read_datagram(local: &Local, dir: Dir, bytes: &[u8]) -> Result<Heading, Rule>
    ensures { result ≡ unless_broken (datagram_broken local.now dir bytes.now)
        (datagram_heading dir bytes.now) }
{
    let ip = IpView::new(bytes, dir)?;
    if let Some(rule) = addr_rule(local, dir, ip.src(), ip.dst()) {
        return Err(rule);
    }
    let segment = SegView::new(ip.protocol(), ip.src(), ip.dst(), ip.payload(), dir)?;
    if let Some(rule) = tail_rule(dir, ip.tail()) {
        return Err(rule);
    }
    let src = Endpoint {
        addr: ip.src(),
        port: segment.src_port(),
    };
    let dst = Endpoint {
        addr: ip.dst(),
        port: segment.dst_port(),
    };
    Ok(heading(dir, segment.proto(), src, dst))
}

// The rule that the addresses of Ethernet break.
#[tactic(auto, unfolding(ibos_kinds::specs::Frames::mac_broken))]
fn mac_rule(local: &Local, dir: Dir, dest: u64, source: u64) -> Option<Rule>
    ensures { result ≡ mac_broken local.now dir dest source }
{
    let wanted = match dir {
        Dir::In => local.mac,
        Dir::Out => local.gateway,
    };
    if dir == Dir::Out && source != local.mac {
        return Some(Rule::F3);
    }
    if dest != wanted {
        return Some(Rule::F4);
    }
    None
}

// The rule that the addresses of IPv4 break.
#[tactic(auto, unfolding(ibos_kinds::specs::Frames::addr_broken))]
fn addr_rule(local: &Local, dir: Dir, src: u32, dst: u32) -> Option<Rule>
    ensures { result ≡ addr_broken local.now dir src dst }
{
    let own = match dir {
        Dir::In => dst,
        Dir::Out => src,
    };
    if own != local.addr {
        return Some(Rule::F8);
    }
    None
}

// The rule that is broken by what follows the datagram.
#[tactic(auto, unfolding(ibos_kinds::specs::Frames::tail_broken))]
fn tail_rule(dir: Dir, tail: &[u8]) -> Option<Rule>
    ensures { result ≡ tail_broken dir tail.now }
{
    match dir {
        Dir::In => None,
        Dir::Out if are_zeros(tail) => None,
        Dir::Out => Some(Rule::F15),
    }
}

fn are_zeros(bytes: &[u8]) -> bool
    ensures { result ≡ list_all (λ b. b == 0) bytes.now }
{
    bytes.iter().all(|b| *b == 0)
}

fn heading(dir: Dir, proto: Proto, src: Endpoint, dst: Endpoint) -> Heading
    ensures { result ≡ heading_between dir proto src.addr src.port dst.addr dst.port }
{
    match dir {
        Dir::In => Heading {
            proto,
            port: dst.port,
            remote: src,
        },
        Dir::Out => Heading {
            proto,
            port: src.port,
            remote: dst,
        },
    }
}
