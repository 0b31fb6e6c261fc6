//! The lowering of expressions: each makes points and edges of a graph under construction, and gives a tree, a choice or nothing.
#![tactic(auto)]

mod calls;
mod expressions;

pub use expressions::{choose, perform, unused, value};
