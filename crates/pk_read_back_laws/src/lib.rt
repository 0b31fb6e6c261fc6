//! Laws of reports: the report of a unit's graph is read back whole.
#![tactic(auto)]

mod laws;

pub use laws::{graph_reports_are_read_back, reports_are_read_back, verdicts_are_tellable};
