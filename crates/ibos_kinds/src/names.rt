// The plain types that the parties share.

/// A page instance: the `ord`-th of its tab, counted from 0. It names the renderer and the network
/// process of one page at one time.
#[derive(Clone, Copy, Debug, PartialEq, Eq)]
pub struct Instance {
    pub tab: u8,
    pub ord: u8,
}

/// Which process of an instance acts: its renderer or its network process.
#[derive(Clone, Copy, Debug, PartialEq, Eq)]
pub enum Side {
    Page,
    Net,
}

/// The transport protocol of a flow: TCP (RFC 9293) or UDP (RFC 768).
#[derive(Clone, Copy, Debug, PartialEq, Eq)]
pub enum Proto {
    Tcp,
    Udp,
}

/// Which way a frame goes: in from the wire, or out to it.
#[derive(Clone, Copy, Debug, PartialEq, Eq)]
pub enum Dir {
    In,
    Out,
}

/// An IPv4 address, its first byte the highest, and a port.
#[derive(Clone, Copy, Debug, PartialEq, Eq)]
pub struct Endpoint {
    pub addr: u32,
    pub port: u16,
}

/// This machine's own addresses, and the MAC address to which every frame is sent. A MAC address is
/// a number below 2^48 whose highest byte is the first on the wire; an IPv4 address likewise.
#[derive(Clone, Copy, Debug, PartialEq, Eq)]
pub struct Local {
    pub addr: u32,
    pub mac: u64,
    pub gateway: u64,
}

/// What a frame's headers say of its flow: the protocol, the port on this machine, and the other
/// end.
#[derive(Clone, Copy, Debug, PartialEq, Eq)]
pub struct Heading {
    pub proto: Proto,
    pub port: u16,
    pub remote: Endpoint,
}

/// A receive buffer's name, and how often the buffer had been taken back when it was handed out.
#[derive(Clone, Copy, Debug, PartialEq, Eq)]
pub struct Handle {
    pub name: u8,
    pub turn: u32,
}

/// What became of an arriving frame.
#[derive(Clone, Copy, Debug, PartialEq, Eq)]
pub enum Verdict {
    Filtered,
    Missed,
    Heard,
}

/// A key that the user presses.
#[derive(Clone, Copy, Debug, PartialEq, Eq)]
pub enum Key {
    /// A key that writes a byte, from 0x20 to 0x7E.
    Byte(u8),
    Enter,
    Back,
}
