// Which slots a board has, and whose cell each of them holds.
#![tactic(auto)]

mod gathering;
mod giving;
mod laws;
mod layouts;

pub use laws::{every_plan_is_wired, fits_read_within};
pub use layouts::Layout;
