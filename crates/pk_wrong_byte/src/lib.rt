//! The first byte of a text with which no line of a report goes on.
#![tactic(auto)]

mod lines;
mod pieces;
mod wrong;

pub use wrong::first_wrong_byte;
