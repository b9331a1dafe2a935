//! The text of a session: the lines of a script, and with them the lines that an outcome prints.
#![tactic(auto)]

mod fault;
mod forms;
mod laws;
mod lines;

pub use fault::LineFault;
pub use ibos_outcome::{OutcomeFault, read_outcome, write_outcome};
pub use laws::{lines_name_their_actor, spelled_acts_are_read};
pub use lines::{Line, read_line, read_line_into};

#[cfg(test)]
mod tests;
