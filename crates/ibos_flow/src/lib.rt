//! Which flow a frame belongs to: the heading of a frame that breaks no rule, and the table of
//! flows.
#![tactic(auto)]

mod flows;
mod heading;
mod instances;
mod laws;
mod ports;
mod table;

pub use heading::{read_in, read_out};
pub use laws::flows_are_found;
pub use ports::PortPlace;
pub use table::FlowTable;

#[cfg(test)]
mod tests;
