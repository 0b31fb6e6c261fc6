// Digraphs, their nests, plans, and the orders in which elements are run.
#![tactic(auto)]

mod components;
mod digraphs;
mod laws;
mod nests;
mod orders;
mod places;
mod plans;
mod reverses;

pub use components::Component;
pub use digraphs::Digraph;
pub use laws::shapes_meet;
pub use nests::{Nest, NestPlace};
pub use orders::Order;
pub use places::{Place, Role};
pub use plans::{Plan, lies_within};
pub use reverses::reversed;
