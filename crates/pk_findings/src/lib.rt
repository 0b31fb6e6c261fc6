//! What a report says of a text: its operations, each with the call paths that lead to it, at the places that they come
//! from.
#![tactic(auto)]

mod grouping;
mod lengths;
mod messages;
mod operations;
mod refused;
mod shown;
mod texts;
mod words;

pub use lengths::{Lengths, place_number, with_lengths};
pub use messages::{write_message, write_range};
pub use operations::{Operation, Way};
pub use refused::{Refused, refusal};
pub use shown::{ShowError, Shown, look};
pub use texts::{Text, file_of, line_of, origin_at, text_of};
pub use words::{counts_of, is_finding, verdict_of};
