//! Laws of certificates: what is read may be checked, what an analysis leaves checks well, and what checks well holds the runs.
#![tactic(auto)]

mod laws;

pub use laws::{
    checked_cells_hold_runs, read_cells_are_checked, read_cells_hold_states, results_check_well,
};
