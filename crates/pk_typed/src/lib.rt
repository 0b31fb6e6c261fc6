//! Typed trees of C texts: what a text means once typing has resolved its names, types and constants.
//!
//! Objects, functions, labels and cases are numbers. What has a value and what is evaluated for its effect are different types, an operator carries the type to which its operands
//! are converted, and only a place is assigned. Calls are numbered within their function in the order of their names in the text. A function of C's special names
//! without a body isn't called: each such call is a form of its own.
#![tactic(auto)]

mod statements;
mod units;
mod values;

pub use statements::{Declared, ForHead, ForStart, Item, Statement};
pub use units::{Body, CallSite, FileObject, Function, Local, Start, Unit};
pub use values::{Effect, Place, Value, Variable};
