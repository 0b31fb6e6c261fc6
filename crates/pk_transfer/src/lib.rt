//! What a state knows of trees, and what it knows after instructions.
#![tactic(auto)]

mod assumptions;
mod frames;
mod guards;
mod laws;
mod linear;
mod operators;
mod telling;
mod transfers;
mod trees;
mod variables;

pub use assumptions::guard;
pub use frames::{frame, frame_over, further_count, is_small};
pub use guards::refine;
pub use laws::{
    assignments_law, forms_law, graphs_law, guards_law, passing_law, transfers_law, trees_law,
};
pub use transfers::transfer;
pub use trees::value;
