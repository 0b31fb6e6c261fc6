//! The plan of a digraph and its linear order.
#![tactic(auto)]

mod orders;

pub use orders::{order_is_determined, ordered, planned};
pub use pk_linear::line;
