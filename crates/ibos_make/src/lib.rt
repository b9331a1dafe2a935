//! Frames that are built, the law of frames, and drills.
#![tactic(auto)]

mod building;
mod drilling;
mod fields;
mod laws;
mod opening;
mod rounds;

pub use building::{FrameSpec, build};
pub use drilling::{Drill, drill_hosts};
pub use laws::frames_law;

#[cfg(test)]
mod tests;
