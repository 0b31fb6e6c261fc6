// The linear order of a plan, and its text.
#![tactic(auto)]

mod laws;
mod orders;
mod progress;
mod texts;
mod waits;

pub use laws::linear_is_determined;
pub use orders::linear;
pub use texts::line;
