//! What is told of a graph by the states of its points: its report, its summary and its order.
#![tactic(auto)]

mod answers;
mod laws;
mod pieces;

pub use answers::{checked_of, heads, order_of, report_of, summary_of};
pub use laws::one_report;
