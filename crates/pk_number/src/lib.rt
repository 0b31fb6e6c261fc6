//! The graph of a draft: its points in depth-first preorder from the entry, without those that aren't reached.
#![tactic(auto)]

mod laws;
mod numbering;
mod rows;
mod walks;

pub use laws::numbered_law;
pub use numbering::number;
