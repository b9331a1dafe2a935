//! What the network processes send: four transmit buffers for each instance, the sends that were
//! accepted, and the transmit bell, at which the buffers of the frames that went out come back.
#![tactic(auto)]

mod fault;
mod homes;
mod laws;
mod sending;
mod sends;
mod table;

pub use fault::SendFault;
pub use laws::areas_are_fresh;
pub use sends::Sends;

#[cfg(test)]
mod tests;
