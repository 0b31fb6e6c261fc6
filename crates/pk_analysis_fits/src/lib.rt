//! The orders of digraphs, and the analysis, meet what the scheduler's core asks.
#![tactic(auto)]

mod laws;

pub use laws::{
    analyses_fit, analyses_keep, ends_as_iterated, every_digraph_is_scheduled, every_order_keeps,
    linear_orders_are_orders,
};
