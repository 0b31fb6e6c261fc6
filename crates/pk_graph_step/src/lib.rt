//! Graph runs: one step over an edge.
#![tactic(auto)]

mod answers;
mod laws;
mod stepping;
mod stores;
mod values;

pub use answers::GraphStep;
pub use laws::step_law;
pub use stepping::graph_step;
pub use stores::Store;
pub use values::Failure;
