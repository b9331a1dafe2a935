//! The half of the kernel that frames pass: the mediator of the network card, the memory and the
//! pool of its buffers, the flows and the inboxes of the instances, and what these send.
#![tactic(auto)]

mod flows;
mod frames;
mod instances;
mod net;
mod parts;
mod registers;
mod sends;
mod starting;

pub use net::{Net, lives_may_change};
