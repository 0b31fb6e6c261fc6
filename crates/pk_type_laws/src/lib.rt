//! Laws of typing, over its definitions: a text has one answer, and the typed unit of an accepted text is well typed, has its bodies, and has each label and case once.
#![tactic(auto)]

mod laws;

pub use laws::{
    accepted_units_are_well_typed, check_gives_the_answer, functions_have_bodies,
    texts_have_one_answer, units_are_marked,
};
