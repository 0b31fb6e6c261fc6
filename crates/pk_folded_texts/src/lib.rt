//! Laws of what the lowering of a text folds, and of what runs of its program compute.
#![tactic(auto)]

mod laws;

pub use laws::{texts_computed_accesses_are_evaluated, texts_folded_has_no_access};
