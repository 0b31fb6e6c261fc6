//! Laws of texts: no two accesses of a text's graph share call path, place and kind, and no two of its paths are entered by one call.
#![tactic(auto)]

mod laws;

pub use laws::{
    accesses_are_apart, calls_are_apart, operators_are_apart, paths_are_apart,
    places_tell_accesses, tokens_are_apart,
};
