//! Two devices: a model of the Intel 8254x, and one that writes other bytes than those that came.
//!
//! Both read and write the memory only where a descriptor of their rings and the lent buffer that
//! it names lie, and both keep a log of what came in and what went out, which only contracts read.
#![tactic(auto)]

mod card;
mod history;
mod memory;
mod model;
mod noisy;

pub use model::Model8254x;
pub use noisy::Noisy;

#[cfg(test)]
mod tests;
