//! Constant expressions (C99 6.6): which forms they have, and what they give.
#![tactic(auto)]

mod constants;
mod forms;

pub use constants::{Constant, constant_effect, constant_value};
pub use forms::is_constant_form;
