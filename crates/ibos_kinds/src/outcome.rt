// What an act brings: a head, and items for the parties.
ghost use Rattle.std.specs.Prelude.{◌≡◌, [], ◌∷◌, ◌++◌, OnOk, OnErr};

use crate::{Bytes, Endpoint, Handle, Instance, Memory, Rule, Verdict};
use std::alloc::Global;
use std::marker::Model;

/// Whether the act was accepted, and else the rule that it broke.
#[derive(Clone, Copy, Debug, PartialEq, Eq)]
pub enum Head {
    Ok,
    Denied(Rule),
}

/// What a party is told.
#[derive(Debug, PartialEq, Eq, Drop)]
pub enum Item {
    /// An instance was opened at this URL.
    Opened {
        who: Instance,
        url: Bytes,
    },
    /// An instance stays, and shows this URL of its origin.
    Moved {
        who: Instance,
        url: Bytes,
    },
    /// An instance ended.
    Ended {
        who: Instance,
    },
    /// A key that the user pressed for an instance: its byte, 0x0A for Enter and 0x08 for Back.
    KeyTo {
        who: Instance,
        byte: u8,
    },
    /// The user clicked on a cell of an instance's content.
    ClickTo {
        who: Instance,
        row: u8,
        col: u8,
    },
    /// The cookies of an instance's origin, as `name=value` joined by `; `.
    Cookies {
        who: Instance,
        text: Bytes,
    },
    /// A row of the screen, which the user sees, without the spaces at its end.
    RowIs {
        row: u8,
        text: Bytes,
    },
    /// A flow that an instance bound: its number, its port on this machine, and its other end.
    FlowIs {
        who: Instance,
        flow: u8,
        port: u16,
        remote: Endpoint,
    },
    /// A frame for a flow of an instance, whole and as the device received it.
    Arrived {
        who: Instance,
        flow: u8,
        bytes: Bytes,
    },
    /// The value of a register that the driver reads.
    ValueIs {
        value: u32,
    },
    /// A receive buffer that is the driver's again, under a new handle.
    LentIs {
        handle: Handle,
    },
    /// What became of the frame that came from the wire.
    VerdictIs {
        verdict: Verdict,
    },
    /// A received frame that no instance gets, for the rule that it breaks.
    Dropped {
        rule: Rule,
    },
    /// A transmit buffer that is its instance's again, with the bytes that it had at its submit.
    Home {
        who: Instance,
        buffer: u8,
    },
    /// The number of a send that was accepted, which the driver may post.
    SendIs {
        send: u32,
    },
    /// A send whose buffer came back from the ring.
    Returned {
        send: u32,
    },
    /// The send whose frame went out.
    SentIs {
        send: u32,
    },
    /// No frame went out.
    Idle,
    /// A send that was accepted: its number, its sender, and its frame.
    Accepted {
        send: u32,
        who: Instance,
        bytes: Bytes,
    },
    /// The version of an object that an instance stored.
    VersionIs {
        who: Instance,
        version: u32,
    },
    /// The number of an instance's request for an object.
    RequestIs {
        who: Instance,
        request: u32,
    },
    /// The object that was asked for, in its newest version.
    Object {
        who: Instance,
        request: u32,
        version: u32,
        bytes: Bytes,
    },
    /// There is no object for a request.
    NoObject {
        who: Instance,
        request: u32,
    },
    /// An object that is to be stored: its label, and its length in bytes.
    StorePut {
        origin: Bytes,
        key: Bytes,
        version: u32,
        len: u32,
    },
    /// A request for the object of an origin under a key.
    StoreAsk {
        who: Instance,
        request: u32,
        origin: Bytes,
        key: Bytes,
    },
}

/// Items in their order, which contracts see as the list of them.
#[derive(Debug, Drop)]
pub struct Items {
    inner: Vec<Item>,
}

impl Model for Items {
    ghost use Rattle.std.specs.Prelude.{List};
    ghost use Rattle.ibos_kinds.specs.declared.outcome.Item.{Item};

    ghost Value = { List Item };

    ghost view = { λ it. it.inner.items };
}

impl Items {
    /// The items, lent.
    pub fn as_slice(&self) -> &[Item]
        ensures { result.now ≡ self.now }
    {
        self.inner.as_slice()
    }
}

/// The outcome of an act: a head for its actor, and the items in the order in which they are told.
///
/// # Examples
///
/// ```
/// use ibos_kinds::{Head, Instance, Item, Memory, Outcome};
/// use std::process::Abort;
///
/// fn ended(rt: &(impl Abort + AllocGlobal)) -> Result<(), Memory> {
///     let who = Instance { tab: 5, ord: 0 };
///     let mut outcome = Outcome::new(rt.alloc());
///     outcome.push(Item::Ended { who })?;
///     assert_eq!(rt; outcome.head, Head::Ok);
///     assert_eq!(rt; outcome.items.as_slice(), [Item::Ended { who }].as_slice());
///     Ok(())
/// }
/// ```
#[derive(Debug, Drop)]
pub struct Outcome {
    pub head: Head,
    pub items: Items,
}

impl Outcome {
    /// Accepted, with no items. Takes no memory.
    pub fn new(alloc: Global) -> Outcome
        ensures head { result.head ≡ Head.Ok }
        ensures items { result.items ≡ [] }
    {
        Outcome {
            head: Head::Ok,
            items: Items {
                inner: Vec::new(alloc),
            },
        }
    }

    /// Appends an item, or drops it where there is no memory for it. Part of its callers, so that
    /// an item is written where it stays, and not moved there.
    #[inline(always)]
    pub fn push(&mut self, item: Item) -> Result<(), Memory>
        ensures head { self.new.head ≡ self.old.head }
        ensures ok { OnOk result (self.new.items ≡ self.old.items ++ item ∷ []) }
        ensures err { OnErr result (self.new.items ≡ self.old.items) }
    {
        match self.items.inner.push(item) {
            Ok(()) => Ok(()),
            Err(_) => Err(Memory),
        }
    }

    /// Makes it as new.
    pub fn clear(&mut self)
        ensures head { self.new.head ≡ Head.Ok }
        ensures items { self.new.items ≡ [] }
    {
        self.head = Head::Ok;
        self.items.inner.clear();
    }
}
