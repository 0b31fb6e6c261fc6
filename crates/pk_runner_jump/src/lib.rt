//! Where jumps of a run lead, and how loops go on.
#![tactic(auto)]

mod jumps;

pub use jumps::{Found, Mark, break_out, continue_loop, for_scope, go_to, go_to_case, loop_again};
