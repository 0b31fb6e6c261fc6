//! Laws of the lowering: no two accesses of a graph share call path, place and kind, and no two paths are entered by one call.
#![tactic(auto)]

mod laws;

pub use laws::{accesses_are_apart, calls_tell_paths, paths_are_apart, paths_have_calls};
