//! Reads the report on a program, and shows what it found.
#![tactic(auto)]

mod laws;
mod paths;
mod pieces;
mod reading;
mod report;
mod rows;

pub use laws::{accesses_are_read, lines_are_read, reports_are_read};
pub use paths::{Call, Path, read_path, read_place};
pub use pieces::{count, is_first, is_name, is_part_byte, is_same, signed, strip};
pub use report::{Kind, ReadError, Row, kind_of, may_stand, next_row, read};
pub use rows::{Access, Bound, Counts, Form, Heading, Known, Opening, Subject, Value, Verdict};
