//! The generator: the program that a seed and a size make, for measuring and trying.
#![tactic(auto)]

mod generator;

pub use generator::{drawn, generate, next};
