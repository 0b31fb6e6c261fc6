//! Laws of the first wrong byte.
#![tactic(auto)]

mod laws;

pub use laws::first_wrong_byte_is_first;
