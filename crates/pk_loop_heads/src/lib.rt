//! Laws of loops into which nothing jumps: where such a loop begins again is a head of the graph's plan, if edges from two points lead there.
#![tactic(auto)]

mod laws;

pub use laws::loops_have_heads;
