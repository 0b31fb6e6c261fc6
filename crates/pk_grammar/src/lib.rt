//! The grammar of C texts, and reading by it: what each token's kind tells, and what reading a text comes to.
#![tactic(auto)]

mod failure;
mod laws;
mod signs;
mod states;

pub use failure::ParseError;
pub use laws::{names_are_tokens, nestings_are_determined, units_are_determined};
pub use signs::{
    Fixed, OperandStart, Operator, Shape, StatementStart, following_word, is, is_void_word,
    operand_start, operator_of, specifier_word, statement_start, storage_word, takes_braces,
    wants_tag, with_word,
};
pub use states::Testing;
