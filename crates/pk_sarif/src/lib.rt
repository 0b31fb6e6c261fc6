//! Writes what was found as a log of SARIF 2.1.0.
#![tactic(auto)]

mod logs;
mod objects;
mod results;
mod rules;
mod texts;

pub use logs::sarif;
