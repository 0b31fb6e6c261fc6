//! The lowering of a typed unit with its call paths to a graph under construction.
#![tactic(auto)]

mod contexts;
mod parameters;
mod parts;
mod paths;
mod programs;
mod sizes;

pub use paths::graph_paths;
pub use programs::draft;
