//! Laws of the analysis: states have a rank, chains of widening steps end, and elements are run only so often.
#![tactic(auto)]

mod laws;

pub use laws::{
    analyses_end, cells_are_states, graph_chains_end, limits_are_low, runs_are_few, small_bounds,
    states_are_ranked, states_stay, widening_chains_end,
};
