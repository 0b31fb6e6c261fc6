// What is done with octagons over integers: guards, assignments, join, order, widening and narrowing (Miné 2006).
#![tactic(auto)]

mod assigns;
mod chains;
mod guards;
mod laws;
mod tables;
mod values;

pub use assigns::assign;
pub use chains::{numbers_are_ranks, widening_chains_end, widening_loses_numbers};
pub use guards::guard;
pub use laws::values_keep;
pub use tables::{join, leq, narrow, widen};
pub use values::bounds;
