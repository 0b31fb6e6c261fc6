//! The cells of certificates: what is known at the points of a graph, written and read.
#![tactic(auto)]

mod failures;
mod heads;
mod laws;
mod reading;
mod writing;

pub use failures::{Unfit, Unwritten};
pub use laws::{every_reading_ends, one_reading, written_is_read};
pub use reading::read_cells;
pub use writing::{MOST_BYTES, write};
