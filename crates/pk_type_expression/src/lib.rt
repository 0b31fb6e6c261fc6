//! Typing of C expressions (C99 6.5): which rules an expression breaks in its scope, its type, and its typed tree where none leaves it without one.
#![tactic(auto)]

mod boxes;
mod calls;
mod checked;
mod evaluated;
mod expressions;
mod laws;
mod mentions;
mod names;
mod operators;

pub use checked::{Arguments, Checked};
pub use evaluated::Evaluated;
pub use expressions::{arguments, expression, used};
pub use laws::{assignment_law, tree_law};
pub use mentions::Mentions;
pub use names::Target;
