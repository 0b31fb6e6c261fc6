//! What is known of an octagon: that it is closed, that it is but for the bounds on one variable, or nothing.
#![tactic(auto)]

mod closing;
mod far;
mod mark;
mod turns;

pub use closing::close_marked;
pub use mark::Mark;
pub use turns::{Ahead, close_ahead, close_small};
