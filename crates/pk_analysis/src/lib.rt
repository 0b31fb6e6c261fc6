//! The analysis of a graph: the equations of its points over abstract states, iterated by the phases.
#![tactic(auto)]

mod analysis;
mod arrows;
mod digraphs;
mod flow;
mod frames;
mod laws;
mod parts;
mod reads;
mod starts;
mod states;

pub use analysis::{Analysis, Options};
pub use digraphs::digraph;
pub use frames::frame_for;
pub use laws::layouts_law;
pub use states::States;
