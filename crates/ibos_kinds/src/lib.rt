//! The words that every crate shares: bytes, instances, rules, acts, items and outcomes, and the
//! traits of what lies outside, with stand-ins for them in memory.
#![tactic(auto)]

mod act;
mod bytes;
mod cookies;
mod fakes;
mod names;
mod outcome;
mod outside;
mod party;
mod ports;
mod rule;
mod screens;
mod sums;

pub use act::Act;
pub use bytes::{Bytes, Memory};
pub use cookies::Cookie;
pub use fakes::{File, MemCabinet, MemSink};
pub use names::{Dir, Endpoint, Handle, Heading, Instance, Key, Local, Proto, Side, Verdict};
pub use outcome::{Head, Item, Items, Outcome};
pub use outside::{Cabinet, Failed, Sink};
pub use party::{Party, actor, addressee};
pub use ports::{instance_of_port, local_port, ports_are_apart};
pub use rule::Rule;
pub use screens::{CHROME_ROWS, COLUMNS, CONTENT_ROWS, SCREEN_ROWS};
pub use sums::{sum_words, sum16};

#[cfg(test)]
mod tests;
