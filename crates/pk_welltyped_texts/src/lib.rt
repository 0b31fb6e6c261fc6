//! The typed unit of a text is well typed, and its draft is typed.
#![tactic(auto)]

mod laws;

pub use laws::{drafts_of_texts_are_typed, texts_are_well_typed, texts_have_constants};
