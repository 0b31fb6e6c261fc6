// Integers that meet an octagon: each bound of a tight matrix is attained by some (Miné 2006, section 3.5).
#![tactic(auto)]

mod laws;
mod met;
mod points;

pub use laws::tight_is_best;
pub use met::inside;
pub use points::{point, point_past};
