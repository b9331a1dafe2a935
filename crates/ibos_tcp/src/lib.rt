//! The view of a TCP segment or a UDP datagram: its header's fields, read where they stand, and the
//! sum that its checksum goes on from.
#![tactic(auto)]

mod pseudo;
mod view;

pub use pseudo::pseudo_sum;
pub use view::SegView;

#[cfg(test)]
mod tests;
