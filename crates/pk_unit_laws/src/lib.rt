//! Laws of typing: the names and places of a typed unit are those of the trees of its text.
#![tactic(auto)]

mod laws;

pub use laws::{names_are_the_texts, places_are_the_texts, places_are_the_tokens};
