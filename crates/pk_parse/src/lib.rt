//! The trees of a C text, by its tokens.
#![tactic(auto)]

mod declarations;
mod enumerations;
mod externals;
mod initializers;
mod items;
mod laws;
mod statements;
mod texts;

pub use laws::{answers_are_determined, tokens_are_ended};
pub use pk_grammar::ParseError;
pub use texts::parse;
