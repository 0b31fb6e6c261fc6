//! What is seen of a run of a program.
#![tactic(auto)]

mod visits;

pub use visits::{Known, Visit, seen};
