//! Laws of the lowering: a program and its graph have the same visits, and a point of the graph has one edge, or the two guards of one test.
#![tactic(auto)]

mod laws;

pub use laws::{
    graphs_have_program_visits, points_have_one_way, points_share_accesses, programs_are_followed,
    programs_are_never_stuck, turns_are_followed,
};
