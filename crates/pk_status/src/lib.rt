//! How a command ends: the statuses, with their exit codes and their lines on standard error.
#![tactic(auto)]

mod status;

pub use status::Status;
