//! Control-flow graphs: points, edges with instructions, and what a step over an edge does to a store.
//!
//! A variable is a scalar or an array, and has a number. A tree is an expression without effects: operators have the type to which their operands
//! were converted, and a conversion that changes no value of its operand's type is left out.
#![tactic(auto)]

mod graphs;
mod instructions;
mod octagons;
mod operations;
mod trees;
mod verdicts;
mod visibility;

pub use graphs::{Edge, Entry, Graph, Path, Point, Scope, Start, Variable};
pub use instructions::{Array, Instr};
pub use octagons::octagon_variables;
pub use operations::{Access, Operation, accesses};
pub use trees::{Site, Tree};
pub use verdicts::Verdict;
pub use visibility::visible;
