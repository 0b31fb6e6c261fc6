//! The work that waits in a run of a program, in frames by number.
#![tactic(auto)]

mod frames;
mod works;

pub use frames::{
    LoopEnd, Outer, ahead_in_frame, before, below, known, loop_at, take, take_caller, then,
    way_there,
};
pub use works::{
    Ahead, Array, Caller, Expression, Frame, Loop, Object, Scope, Spot, Task, Way, Work, loop_of,
};
