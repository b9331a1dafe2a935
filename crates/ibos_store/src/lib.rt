//! Stored objects, sealed by origin, and the requests for them. A process that nobody trusts
//! answers a request by a label, an origin with a key and a version, and is never told bytes: what
//! it answers is what stands under that label, or is refused.
#![tactic(auto)]

mod fault;
mod keys;
mod object;
mod objects;
mod requests;
mod store;
mod table;

pub use fault::StoreFault;
pub use store::Store;

#[cfg(test)]
mod tests;
