//! Whether states solve the equations of a graph's points, wherever they come from.
#![tactic(auto)]

mod checks;
mod laws;
mod runs;

pub use checks::first_failing;
pub use laws::{every_check_ends, one_check};
