//! The text of an outcome: the lines that it prints, and the outcome that such lines tell.
#![tactic(auto)]

mod fault;
mod laws;
mod printed;
mod read;
mod read_items;
mod read_told;
mod words;

pub use fault::OutcomeFault;
pub use laws::texts_tell_one_outcome;
pub use printed::write_outcome;
pub use read::read_outcome;

#[cfg(test)]
mod tests;
