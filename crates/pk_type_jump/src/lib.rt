//! Labels and jumps of C functions (C99 6.8.1, 6.8.6): which label a name stands for, and which labels and jumps are out of place.
#![tactic(auto)]

mod jumps;
mod labels;

pub use jumps::Jumps;
pub use labels::{Label, Labels, Within};
