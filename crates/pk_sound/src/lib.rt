//! The analysis is sound: no run of a graph leaves its result.
#![tactic(auto)]

mod laws;

pub use laws::{
    analyses_go_by_plan, bounds_hold, families_are_tested, families_bound, families_hold_runs,
    families_judge, families_tell_faults, faults_are_accesses, faults_are_unknown,
    result_holds_runs, result_is_solved, results_are_families, transfers_stay, verdicts_hold,
};
