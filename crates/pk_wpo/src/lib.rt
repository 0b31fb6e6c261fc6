// Plans of digraphs: what has to be run before what, by the nest of their components.
#![tactic(auto)]

mod constraints;
mod laws;
mod layout;
mod listing;
mod top;
mod weak_order;

pub use laws::plan_is_determined;
pub use weak_order::plan;
