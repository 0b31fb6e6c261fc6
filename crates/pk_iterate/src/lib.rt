// The recursive iteration of a system over an order, on one thread.
#![tactic(auto)]

mod failure;
mod front;
mod laws;
mod outcome;
mod systems;
mod times;
mod walk;

pub use failure::Solve;
pub use laws::{
    cells_are_held, counts_beyond_are_over, different_stand_once, falling_turns_end,
    recursion_is_determined, run_values_agree, trace_is_one, whole_is_settled, within_is_whole,
};
pub use outcome::Cells;
pub use systems::{Decision, System};
pub use walk::iterate;
