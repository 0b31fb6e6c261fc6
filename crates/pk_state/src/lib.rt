//! Abstract states: what is known of each variable, and octagons over some of them.
#![tactic(auto)]

mod changes;
mod facts;
mod frame;
mod laws;
mod marks;
mod state;
mod values;

pub use frame::Frame;
pub use laws::{changes_law, states_law, stays_law, written_law};
pub use state::State;
