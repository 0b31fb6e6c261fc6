//! The walk of calls of a typed unit, and its call paths.
#![tactic(auto)]

mod answers;
mod failures;
mod functions;
mod laws;
mod listings;
mod walk;

pub use answers::paths;
pub use failures::CallError;
pub use functions::{body, calls, name};
pub use laws::{answer_is_determined, no_function_twice, paths_are_all, refusals_are_met};
pub use listings::{CallPath, Caller, Paths};
