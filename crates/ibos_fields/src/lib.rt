//! The words of a text that stand for numbers, names and bytes.
#![tactic(auto)]

mod fields;
mod hexadecimal;
mod lanes;
mod printable;

pub use fields::{read_hex_number, read_instance, read_key, read_number};
pub use hexadecimal::read_hex;
pub use lanes::encode_block;
pub use printable::are_printable;
