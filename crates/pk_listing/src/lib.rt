//! Findings as a compiler writes its warnings.
#![tactic(auto)]

mod findings;
mod invariants;
mod places;
mod sources;

pub use findings::{listing, refusals};
pub use sources::Source;
