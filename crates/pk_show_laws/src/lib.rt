//! Laws of reports as they are written and read.
#![tactic(auto)]

mod laws;

pub use laws::{
    facts_are_tellable, first_wrong_is_first, graphs_are_tellable, reports_give_their_rows,
};
