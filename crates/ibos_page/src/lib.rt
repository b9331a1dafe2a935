//! Tabs, and the page instances that live in them.
#![tactic(auto)]

mod pages;
mod tabs;

pub use tabs::{Moved, Tabs};

#[cfg(test)]
mod tests;
