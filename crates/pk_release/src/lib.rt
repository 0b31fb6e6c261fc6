//! How many points are kept at most where what is over is let go of.
#![tactic(auto)]

mod laws;

pub use laws::{
    cells_are_kept, edges_lead_from_items, every_plan_has_a_line, items_are_tops, keeps_within_peak,
};
