//! The tokens of a C text, between white space, comments and skipped lines.
#![tactic(auto)]

mod bytes;
mod characters;
mod lexer;
mod lines;
mod numbers;
mod tables;
mod token;
mod white;
mod words;

pub use lexer::{lex, spans_are_in_order, tokens_are_determined};
pub use token::{Keyword, Kind, LexError, LexicalKind, Punctuator, Token};
