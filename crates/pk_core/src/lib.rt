// The scheduler's core: events over the elements of a plan, on no thread yet.
#![tactic(auto)]

mod changes;
mod cores;
mod entries;
mod events;
mod laws;
mod playing;
mod queries;
mod restarts;
mod starts;

pub use cores::Core;
pub use events::{Event, Status};
pub use laws::{every_list_keeps, nested_meets_all};
pub use playing::{PlayError, play};
