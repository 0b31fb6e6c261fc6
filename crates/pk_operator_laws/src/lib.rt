//! Laws of typing: the operators and calls of a typed unit are those of the trees of its text, each a token of its own.
#![tactic(auto)]

mod laws;

pub use laws::{calls_are_the_trees, operators_are_the_tokens, operators_are_the_trees};
