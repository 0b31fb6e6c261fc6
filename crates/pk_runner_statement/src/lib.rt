//! Steps of a run at declarations and statements.
#![tactic(auto)]

mod declarations;
mod statements;
mod steps;

pub use declarations::{After, declare_all};
pub use statements::{choose, execute, proceed};
pub use steps::{enter, go_back, go_back_to_loop, leave, turn_loop};
