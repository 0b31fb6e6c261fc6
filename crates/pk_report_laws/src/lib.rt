//! Laws of reports: what is told of a text is true of every run of its graph, and of the program that it is.
#![tactic(auto)]

mod laws;

pub use laws::{
    answers_are_true, checked_cells_are_true, checks_are_faultless, checks_are_true_of_programs,
    programs_are_faultless, reports_are_true, reports_are_true_of_programs,
    true_states_are_faultless, true_states_are_true_of_programs,
};
