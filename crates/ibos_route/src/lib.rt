//! Who may act, and who is told.
#![tactic(auto)]

mod party;

pub use ibos_kinds::Party;
pub use party::{admit, told};
