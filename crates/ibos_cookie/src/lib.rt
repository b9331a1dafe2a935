//! Cookie jars, one for each origin.
#![tactic(auto)]

mod jar;
mod jars;
mod texts;

pub use jars::{CookieFault, Jars};

#[cfg(test)]
mod tests;
