//! Tokens taken one by one, and the expressions of C that they make.
#![tactic(auto)]

mod expressions;
mod kept;
mod parser;

pub use kept::keeping;
pub use parser::{NESTING_LIMIT, Parser, identifier, nested};
