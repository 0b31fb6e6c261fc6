//! Verdicts: whether the operations of a graph that can fault do so in some run.
#![tactic(auto)]

mod laws;
mod safety;
mod verdicts;

pub use laws::accesses_law;
pub use verdicts::verdict;
