//! The screen: what each instance has drawn, and the rows that are seen.
#![tactic(auto)]

mod content;
mod contents;
mod rows;
mod screen;

pub use screen::Screen;

#[cfg(test)]
mod tests;
