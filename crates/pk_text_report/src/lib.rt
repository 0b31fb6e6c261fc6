//! What is told of a text.
#![tactic(auto)]

mod answers;
mod laws;

pub use answers::told;
pub use laws::{answer_law, means_law};
