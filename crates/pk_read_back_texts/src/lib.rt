//! Laws of texts: every report that `run` writes of a text is read back whole.
#![tactic(auto)]

mod laws;

pub use laws::{runs_are_read_back, texts_are_tellable};
