//! Every digraph has an order.
#![tactic(auto)]

mod laws;

pub use laws::{
    every_digraph_has_a_nest, every_digraph_has_an_order, every_nest_has_a_plan,
    every_plan_has_a_linear_order,
};
