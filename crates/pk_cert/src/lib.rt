//! Certificates: the states of a graph's points as a text, which another machine reads.
#![tactic(auto)]

mod failures;
mod heads;
mod laws;
mod numbers;
mod pieces;
mod reading;
mod rows;
mod symbols;

pub use failures::Unread;
pub use heads::{Head, read_head};
pub use laws::{
    every_head_ends, every_lines_end, first_wrong_is_one, heads_are_told, lines_are_told,
};
pub use reading::{read, read_row};
pub use rows::{Row, Shape, Symbol};
