//! The top call: from the words of a command line, and the files that they name, to the printed
//! text.
#![tactic(auto)]

mod capture;
mod drill;
mod fault;
mod gather;
mod numbers;
mod run_words;
mod script;
mod session;
mod source;
mod tally;
mod texts;
mod transfer;
mod window;

pub use fault::Status;
pub use run_words::run;

#[cfg(test)]
mod tests;
