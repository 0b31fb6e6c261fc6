//! What is known of a number: an interval and a congruence, each as tight as the other lets it be (the reduced product of Granger 1989), and what the operators
//! and conversions of C give on them.
#![tactic(auto)]

mod lattice;
mod laws;
mod operators;
mod reduction;
mod value;

pub use laws::{lattice_law, ranks_law, tight_law, values_law};
pub use operators::{convert, operate};
pub use reduction::{reduce, reduction_law};
pub use value::Value;
