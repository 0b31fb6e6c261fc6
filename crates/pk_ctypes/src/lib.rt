//! The integer types of C, its operators on numbers, and small values that many crates speak of.
#![tactic(auto)]

mod conversions;
mod faults;
mod laws;
mod names;
mod operators;
mod places;
mod spellings;
mod types;
mod words;

pub use conversions::{convert, fits, is_signed, promote, range, size, usual, width};
pub use faults::Fault;
pub use laws::{
    bits_law, comparison_law, conversion_law, division_law, fault_law, place_law, promotion_law,
    usual_law, value_law,
};
pub use names::{Name, Names};
pub use operators::{apply, is_shift_count, result_type};
pub use places::Pos;
pub use spellings::{is_spelled, look_up};
pub use types::{IntType, Op};
pub use words::{Construct, Quantity, Rule};
