//! The items of a plan, which are gone through one after another, and when they are over.
#![tactic(auto)]

mod items;
mod laws;

pub use items::{points_of, tops};
pub use laws::{done_is_over, every_top_is_outermost, others_leave_alone, reads_are_near};
