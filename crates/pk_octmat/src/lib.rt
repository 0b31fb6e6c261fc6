// Octagons: matrices of bounds on the differences of numbers and their negatives (Miné, "The octagon abstract domain", 2006).
#![tactic(auto)]

mod bound;
mod laws;
mod matrix;
mod shape;

pub use bound::Bound;
pub use laws::octagons_are_entries;
pub use matrix::{Matrix, bar, blank, cell, row_place, spot, stored, write_pair};
pub use shape::Shape;
