//! Where the lines of a preprocessed text come from: the files and lines that line markers tell.
#![tactic(auto)]

mod comments;
mod laws;
mod markers;
mod names;
mod sources;
mod texts;

pub use laws::markers_tell_origins;
pub use markers::{Marker, read_marker};
pub use sources::{Origin, file_name, origins};
pub use texts::lines;
