//! Cuts texts into lines, and lines into words and parts, without copying them, and hashes short
//! ones.
#![tactic(auto)]

mod hash;
mod lines;
mod parts;
mod words;

pub use hash::TextHasher;
pub use lines::next_line;
pub use parts::{len_before, split_first};
pub use words::{next_word, skip_spaces};
