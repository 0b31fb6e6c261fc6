//! Laws of typing: the loops of a typed unit are those of the trees of its text, each a token of its own.
#![tactic(auto)]

mod laws;

pub use laws::{loops_are_the_tokens, loops_are_the_trees};
