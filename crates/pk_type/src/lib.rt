//! Typing of C texts (C99 6.5 to 6.9): the typed tree of a text in which no rule fails, or the first failure.
#![tactic(auto)]

mod bodies;
mod defined;
mod files;
mod functions;
mod laws;
mod signatures;
mod type_names;
mod units;

pub use laws::checks_leave_the_unit;
pub use units::{Refusal, check};
