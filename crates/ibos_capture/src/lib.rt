//! Packet captures (classic pcap, version 2.4): where each frame lies in the bytes of a file.
//!
//! A file is gone over once, from its header on, and no frame is copied: what is kept is a place
//! and a length for each entry, 8 bytes together. `Index::read` gives them, or the first fault and
//! the number of its entry; an `IndexReader` does so where the file isn't in memory, from its
//! headers alone.
#![tactic(auto)]

mod fault;
mod fields;
mod header;
mod index;
mod laws;
mod reader;

pub use fault::{CapFault, CaptureFault};
pub use header::MAX_CAPTURE;
pub use index::Index;
pub use laws::captures_law;
pub use reader::IndexReader;

#[cfg(test)]
mod tests;
