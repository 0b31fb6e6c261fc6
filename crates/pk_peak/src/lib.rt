//! The most points that are kept at once where an order is gone through item by item.
#![tactic(auto)]

mod items;
mod laws;
mod peaks;
mod readers;
mod stretches;
mod texts;

pub use laws::order_lines_are_determined;
pub use peaks::peak;
pub use texts::order_lines;
