//! Intervals of whole numbers, and what the operators of C give on them (Cousot and Cousot 1977).
#![tactic(auto)]

mod bits;
mod comparisons;
mod fitting;
mod interval;
mod laws;
mod operators;
mod outcome;
mod products;
mod scalars;
mod shifts;
mod widening;

pub use bits::whole;
pub use fitting::{clamp, finish, wrap};
pub use interval::{Interval, between, point};
pub use laws::{
    conversion_law, finish_law, lattice_law, narrowing_law, operator_law, ordered_law, rank_law,
    types_law, unchanged_law, widening_law,
};
pub use operators::{binary, unary};
pub use outcome::Outcome;
