//! Congruences: the numbers that differ from a rest by a multiple of a modulus, and what the operators of C give on them (Granger 1989).
#![tactic(auto)]

mod congr;
mod divisors;
mod lattice;
mod laws;
mod meeting;
mod members;
mod operators;

pub use congr::Congr;
pub use laws::{
    euclid_law, join_law, meet_law, narrowing_law, next_law, operators_law, rank_law, reduced_law,
    tests_law, unchanged_law, widening_law, wrapping_law,
};
pub use operators::{binary, unary, wrap};
