//! The graph of a text.
#![tactic(auto)]

mod graphs;
mod laws;

pub use graphs::graph_of_text;
pub use laws::{graph_is_determined, graphs_are_few, graphs_are_well_made};
