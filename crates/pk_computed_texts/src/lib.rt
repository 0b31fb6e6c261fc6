//! Law of what runs of the programs that texts are compute.
#![tactic(auto)]

mod laws;

pub use laws::texts_computed_is_evaluated;
