//! Statements of C functions (C99 6.8): which rules they break, and their typed trees where none leaves them without one. Labels and jumps are a matter of their own.
#![tactic(auto)]

mod boxes;
mod cases;
mod heads;
mod items;
mod statements;
mod trees;
mod walk;

pub use statements::{Case, Statements};
pub use walk::{Around, body_items, statement};
