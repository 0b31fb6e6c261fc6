//! The text of a report.
#![tactic(auto)]

mod accesses;
mod octagons;
mod paths;
mod points;
mod reports;
mod texts;
mod values;

pub use accesses::write_accesses;
pub use points::{head_marks, is_told, write_point};
pub use reports::{summary, unknown_count, write_first, write_last, write_valid};
