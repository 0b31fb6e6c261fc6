//! Lines of certificates as states.
#![tactic(auto)]

mod bounds;
mod laws;
mod numbers;
mod orders;
mod states;
mod values;

pub use bounds::octagon;
pub use laws::{every_line_is_settled, facts_have_lines};
pub use numbers::first_value;
pub use orders::Order;
pub use states::{octagon_size, state_of};
