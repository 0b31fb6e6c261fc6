//! The report on a graph, of which no cell is kept that nothing reads any more.
#![tactic(auto)]

mod reports;

pub use reports::lean_report;
