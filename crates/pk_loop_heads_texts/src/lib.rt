//! Laws of texts: where a loop into which nothing jumps begins again is a head of the graph's plan, if edges from two points lead there.
#![tactic(auto)]

mod laws;

pub use laws::turns_of_texts_are_heads;
