//! Writes a page of HTML part by part: tags, text, numbers.
#![tactic(auto)]

mod escapes;
mod laws;
mod parts;
mod tags;

pub use laws::pages_hold_no_marks_of_texts;
pub use parts::{Part, Text, write};
pub use tags::Tag;
