//! What is kept of the items of a plan for the report of its graph: the pieces of their points.
#![tactic(auto)]

mod cells;
mod kept;
mod reporting;
mod systems;

pub use kept::Kept;
pub use reporting::Reporting;
