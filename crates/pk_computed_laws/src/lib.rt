//! Laws of what runs compute: each operation that a run of a program computes is one that a run of its graph evaluates.
#![tactic(auto)]

mod laws;

pub use laws::{computed_is_evaluated, faults_are_computed};
