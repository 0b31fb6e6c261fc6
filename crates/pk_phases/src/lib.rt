// The phases of a component's iteration, and how often its head is run.
#![tactic(auto)]

mod equations;
mod laws;
mod phased;
mod phases;

pub use equations::{Cell, Equate, Part};
pub use laws::{end_is_solved, equations_end, linear_order_ends, phases_end, stable_is_below};
pub use phased::Phased;
pub use phases::{Phase, decision, first_phase};
