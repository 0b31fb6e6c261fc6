//! Lines of states, each written and read beside the one before it: what both have is copied or compared, and not formatted or parsed.
#![tactic(auto)]

mod graphs;
mod guesses;
mod lines;
mod parts;
mod reading;
mod symbols;
mod told;
mod values;

pub use graphs::{read_alike, told_of, write_line};
pub use told::Told;
