//! Every graph has a report, has too many packs or is cut off, and words and a text have an answer.
#![tactic(auto)]

mod laws;

pub use laws::{
    certificates_are_checked, checks_are_answered, commands_are_answered, cut_offs_are_low,
    enough_is_reported, enough_is_summed, every_graph_has_limits, every_graph_is_ordered,
    every_graph_is_reported, every_graph_is_summed, orders_are_answered, short_graphs_are_answered,
    short_graphs_have_room, words_are_answered, words_for_orders_are_answered,
};
