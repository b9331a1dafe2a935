// What an actor may do.
ghost use Rattle.std.specs.Prelude.{◌↔◌, IsTrue, ◌<◌};
ghost use Rattle.ibos_kinds.specs.Limits.{Fits, IsKey, IsNamed};

use crate::{Bytes, Handle, Instance, Key, Proto, Side};

/// One event of one actor. The user opens, switches and closes tabs, presses keys, clicks and
/// looks; the processes of an instance do the rest.
///
/// # Examples
///
/// ```
/// use ibos_kinds::{Act, Instance, Party, Proto, actor};
/// use std::process::Abort;
///
/// fn bind(rt: &impl Abort) {
///     let who = Instance { tab: 5, ord: 0 };
///     let act = Act::Bind {
///         who,
///         proto: Proto::Tcp,
///     };
///     assert!(rt; act.fits());
///     assert_eq!(rt; actor(&act), Party::Page(who));
/// }
/// ```
#[derive(Debug, PartialEq, Eq, Drop)]
pub enum Act {
    /// The user opens a URL in a tab.
    Start {
        tab: u8,
        url: Bytes,
    },
    /// The user makes a tab the active one.
    Switch {
        tab: u8,
    },
    /// The user closes a tab.
    Close {
        tab: u8,
    },
    /// The user presses a key.
    Press {
        key: Key,
    },
    /// The user clicks on a cell of the screen, both counted from 0.
    Click {
        row: u32,
        col: u32,
    },
    /// The user looks at the screen.
    Look,
    /// A renderer leaves for a URL.
    Go {
        who: Instance,
        url: Bytes,
    },
    /// A renderer draws a region of its content: rows of pixels, one after the other. Row and
    /// column are those of its first cell; all are counted in cells.
    Draw {
        who: Instance,
        row: u32,
        col: u32,
        height: u32,
        width: u32,
        pixels: Bytes,
    },
    /// A process of an instance sets a cookie of its origin, by the text `name=value`.
    CookieSet {
        side: Side,
        who: Instance,
        text: Bytes,
    },
    /// A process of an instance reads the cookies of its origin.
    CookieGet {
        side: Side,
        who: Instance,
    },
    /// A network process binds a flow to the endpoint of its origin.
    Bind {
        who: Instance,
        proto: Proto,
    },
    /// A network process closes a flow of its instance.
    Unbind {
        who: Instance,
        flow: u8,
    },
    /// A network process is done with the oldest frame that it hasn't read.
    Done {
        who: Instance,
    },
    /// The driver reads the register at an offset.
    RegRead {
        offset: u32,
    },
    /// The driver writes the register at an offset.
    RegWrite {
        offset: u32,
        value: u32,
    },
    /// The driver posts a receive buffer at a slot of the receive ring.
    RxPost {
        slot: u32,
        handle: Handle,
    },
    /// The driver asks for the frames that were received.
    RxBell,
    /// A frame comes from the wire, without its check sequence.
    WireIn {
        frame: Bytes,
    },
    /// A network process writes into one of its transmit buffers, from a place on.
    Fill {
        who: Instance,
        buffer: u8,
        place: u32,
        bytes: Bytes,
    },
    /// A network process wants the first bytes of a transmit buffer sent as a frame.
    Submit {
        who: Instance,
        buffer: u8,
        len: u32,
    },
    /// The driver posts an accepted send at a slot of the transmit ring.
    TxPost {
        slot: u32,
        send: u32,
    },
    /// The driver asks for the buffers of frames that were sent.
    TxBell,
    /// The wire has room for a frame.
    WireOut,
    /// A renderer stores an object of its origin under a key.
    Put {
        who: Instance,
        key: Bytes,
        bytes: Bytes,
    },
    /// A renderer asks for the object of its origin under a key.
    Ask {
        who: Instance,
        key: Bytes,
    },
    /// The storage process answers a request by a label: an origin, a key and a version.
    StoreAnswer {
        who: Instance,
        request: u32,
        origin: Bytes,
        key: Bytes,
        version: u32,
    },
    /// The storage process has no object for a request.
    StoreNone {
        who: Instance,
        request: u32,
    },
    /// The storage process lost a version of an object.
    StoreLose {
        origin: Bytes,
        key: Bytes,
        version: u32,
    },
}

impl Act {
    /// Whether each field is in its range: tabs below 64, ordinals below 32, flows below 16,
    /// transmit buffers below 4, a key's byte 0x20 to 0x7E.
    pub fn fits(&self) -> bool
        ensures { IsTrue result ↔ Fits self.now }
    {
        match self {
            Act::Start { tab, .. } => *tab < 64,
            Act::Switch { tab } => *tab < 64,
            Act::Close { tab } => *tab < 64,
            Act::Press { key } => is_key(*key),
            Act::Click { .. } => true,
            Act::Look => true,
            Act::Go { who, .. } => is_named(*who),
            Act::Draw { who, .. } => is_named(*who),
            Act::CookieSet { who, .. } => is_named(*who),
            Act::CookieGet { who, .. } => is_named(*who),
            Act::Bind { who, .. } => is_named(*who),
            Act::Unbind { who, flow } => is_named(*who) && *flow < 16,
            Act::Done { who } => is_named(*who),
            Act::RegRead { .. } | Act::RegWrite { .. } => true,
            Act::RxPost { .. } | Act::RxBell => true,
            Act::WireIn { .. } => true,
            Act::Fill { who, buffer, .. } => is_named(*who) && *buffer < 4,
            Act::Submit { who, buffer, .. } => is_named(*who) && *buffer < 4,
            Act::TxPost { .. } | Act::TxBell | Act::WireOut => true,
            Act::Put { who, .. } => is_named(*who),
            Act::Ask { who, .. } => is_named(*who),
            Act::StoreAnswer { who, .. } => is_named(*who),
            Act::StoreNone { who, .. } => is_named(*who),
            Act::StoreLose { .. } => true,
        }
    }
}

fn is_named(who: Instance) -> bool
    ensures { IsTrue result ↔ IsNamed who }
{
    who.tab < 64 && who.ord < 32
}

fn is_key(key: Key) -> bool
    ensures { IsTrue result ↔ IsKey key }
{
    match key {
        Key::Byte(byte) => byte >= b' ' && byte <= b'~',
        Key::Enter | Key::Back => true,
    }
}
