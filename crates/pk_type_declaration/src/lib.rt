//! Declared objects of C functions (C99 6.7): which rules a declaration breaks in its scope, and its typed tree where none leaves it without one.
#![tactic(auto)]

mod constants;
mod declarators;
mod enumerations;
mod initializers;
mod parts;
mod specials;
mod starts;
mod statics;
mod walk;
mod words;

pub use constants::Evaluated;
pub use declarators::length_or_1;
pub use initializers::{note_braces, note_misfit};
pub use parts::Parts;
pub use specials::special;
pub use walk::{Statics, Walk};
pub use words::{Words, integer_in, type_or_int};
