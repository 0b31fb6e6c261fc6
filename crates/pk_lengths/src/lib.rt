//! The lengths of the arrays that a text accesses.
#![tactic(auto)]

mod arrays;

pub use arrays::lengths;
