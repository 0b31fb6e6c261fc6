//! Laws of the lowering: where the edges that it makes begin, and where they lead.
#![tactic(auto)]

mod laws;

pub use laws::{expressions_stay, loops_are_entered, statements_stay};
