//! Syntax trees of C texts, as the grammar derives them, before typing.
//!
//! Arguments, declared names, enumerators, values in braces, parameters, the items of a block and external definitions are lists, of any length.
//! Every other tree inside a tree is one level of nesting, which the parser limits. So dropping a tree, or walking it, recurses no deeper than that limit.
#![tactic(auto)]

mod boxes;
mod declarations;
mod expressions;
mod operators;
mod statements;
mod units;

pub use declarations::{
    Declaration, Declarator, Dimensions, Enumeration, Enumerator, Initializer, InitializerItem,
    InitializerRow, Specifier, SpecifierWord, Specifiers,
};
pub use expressions::{ElementName, Expression, Identifier};
pub use operators::{AssignmentOperator, BinaryOperator, StepOperator, UnaryOperator};
pub use statements::{Block, BlockItem, ForHead, ForStart, Statement};
pub use units::{Brackets, External, Function, Parameter, Storage, StorageWord, Typedef, Unit};
