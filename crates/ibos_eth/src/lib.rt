//! The view of an Ethernet II frame: its header's fields, read where they stand.
#![tactic(auto)]

mod view;

pub use view::EthView;

#[cfg(test)]
mod tests;
