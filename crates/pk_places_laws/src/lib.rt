//! Laws of the lowering: the names and places of a graph are its unit's, and callers come before their paths.
#![tactic(auto)]

mod laws;

pub use laws::{
    accesses_are_on_paths, callers_come_first, names_are_the_units, places_are_the_units,
};
