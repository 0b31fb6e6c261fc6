//! What the analysis of a graph leaves at each point, which any number of workers make.
#![tactic(auto)]

mod iterating;
mod laws;
mod preparing;
mod solving;
mod widths;

pub use laws::{raw_cells_are_determined, states_are_determined};
pub use pk_analysis::{Options, States};
pub use preparing::{analysis_of, prepare};
pub use solving::{IterationOptions, SolverError, cells, states};
pub use widths::paying_workers;
