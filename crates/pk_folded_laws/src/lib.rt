//! Laws of what the lowering folds: an operator that a run begins to evaluate, of which the lowering knows the value, has no access.
#![tactic(auto)]

mod laws;

pub use laws::{computed_accesses_are_evaluated, folded_has_no_access};
