//! Thresholds of a graph, at which widening stops, and the length of a chain of widening steps.
#![tactic(auto)]

mod constants;
mod stops;

pub use stops::{chain_bound, thresholds};
