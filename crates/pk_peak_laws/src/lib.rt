//! An analysis keeps no more cells than the peak of its order, where what is over is let go of.
#![tactic(auto)]

mod laws;

pub use laws::{analyses_keep_within_peak, every_order_has_a_line};
