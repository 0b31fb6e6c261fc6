// A board on which passes run the elements of a plan, from threads of their own.
#![tactic(auto)]

mod about;
mod answers;
mod boards;
mod copies;
mod earliest;
mod ends;
mod items;
mod laws;
mod lean;
mod parts;
mod passes;
mod restarts;
mod results;
mod runs;
mod sends;
mod starts;
mod stops;
mod tokens;

pub use answers::{Armed, Arrived, Got, Seen};
pub use boards::Board;
pub use copies::Copies;
pub use laws::nested_meets_board;
pub use passes::Pass;
pub use tokens::{Finished, Hold, Resetting, Sending, Stopped};
