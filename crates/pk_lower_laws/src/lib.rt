//! Laws of the lowering, over its definitions: a part makes as much as its size says, and the draft of a well-typed unit is typed.
#![tactic(auto)]

mod laws;

pub use laws::{
    drafts_are_typed, drafts_have_labels, expressions_make_as_much, listings_lead_behind,
    numbers_tell_behind, parts_fill_regions, parts_make_their_size, sizes_are_measured,
    statements_make_as_much, well_typed_calls_are_noted,
};
