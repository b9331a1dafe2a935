//! Where the user's keys and clicks go.
#![tactic(auto)]

mod focus;

pub use focus::{ClickDone, Focus, KeyDone, Spot};

#[cfg(test)]
mod tests;
