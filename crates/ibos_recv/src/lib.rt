//! What the network processes receive: an inbox of sixteen buffers for each instance, and the
//! receive bell, at which the frames that the device heard go to the instances that they belong to.
//! A frame goes into an inbox by an exchange of two buffers' places, and stays where the device
//! wrote it.
#![tactic(auto)]

mod inbox;
mod inboxes;
mod laws;
mod serving;

pub use inboxes::Inboxes;
pub use laws::{bells_agree, fresh_areas, hands_are_parted, inboxes_keep_their_frames};
pub use serving::serve;

#[cfg(test)]
mod tests;
