//! Lists whose items stand in blocks that copies share: a write copies one path to a block, and what a merge leaves as it was stays shared.
#![tactic(auto)]

mod block;
mod blocks;
mod group;
mod item;

pub use blocks::Blocks;
pub use item::{Item, Merge};
