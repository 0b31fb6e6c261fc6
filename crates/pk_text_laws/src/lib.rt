//! Laws of reading, over its definitions: every text has an end, and the names in its trees stand in it.
#![tactic(auto)]

mod laws;

pub use laws::{
    ended_tokens_are_accepted_or_refused, every_text_ends, every_text_is_lexed_or_fails,
    names_stand_in_texts,
};
