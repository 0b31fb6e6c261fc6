//! Runs of a program, step by step.
#![tactic(auto)]

mod runs;
mod steps;

pub use pk_runner_state::{Answer, Program};
pub use pk_runner_visit::{Known, Visit};
pub use runs::{Config, is_readable, run, run_from_start, start, step, visit};
