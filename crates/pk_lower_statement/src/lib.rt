//! The lowering of declarations and statements, on that of expressions.
#![tactic(auto)]

mod declarations;
mod jumps;
mod statements;
mod switches;

pub use declarations::introduce;
pub use statements::{Exits, lower_items};
