//! What begins with an expression of a run.
#![tactic(auto)]

mod expressions;

pub use expressions::{evaluate, filled, passed, performed, tested};
