//! Laws of texts: no two loops of a body share a place, and each loop of a call path begins again at one point of the graph at most.
#![tactic(auto)]

mod laws;

pub use laws::{loops_are_apart, turns_are_apart, turns_of_texts_are_apart};
