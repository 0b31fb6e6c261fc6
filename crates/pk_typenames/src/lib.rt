//! Type names: which names of a text are names of types (C99 6.7.7).
#![tactic(auto)]

mod laws;
mod marking;
mod spellings;

pub use laws::one_marking;
pub use marking::mark;
