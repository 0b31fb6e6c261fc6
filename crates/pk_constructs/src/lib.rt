//! The constructs of C that aren't analysed.
#![tactic(auto)]

mod constructs;
mod laws;

pub use constructs::{braces_after, first_unsupported};
pub use laws::first_is_determined;
