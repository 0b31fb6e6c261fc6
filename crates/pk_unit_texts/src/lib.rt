//! Laws of texts: the names of a typed unit are names by the lexis, and its places stand in its text.
#![tactic(auto)]

mod laws;

pub use laws::{entries_are_names, places_are_bounded, units_have_names, units_have_places};
