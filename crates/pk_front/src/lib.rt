//! The way of a text to its typed tree and call paths, or why it is not analysed.
#![tactic(auto)]

mod failures;
mod laws;
mod texts;

pub use failures::{Refusal, TextError};
pub use laws::{accepted_are_programs, program_is_determined, trees_lead_on, way_is_determined};
pub use texts::front;
