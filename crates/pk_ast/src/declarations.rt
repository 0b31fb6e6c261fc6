// Declarations (C99 6.7).

ghost use Rattle.std.specs.Prelude.{◌≡◌, IfOk, option_map};
ghost use Rattle.pk_ast.specs.Trees as tree;
ghost use Rattle.pk_ast.specs.Views.{
  specifiers_tree,
  expression_tree,
  expression_trees,
  initializer_item_tree,
  initializer_item_trees,
  initializer_tree,
  dimensions_tree,
  declarator_tree,
  declarator_trees,
  enumerator_tree,
  enumerator_trees,
  enumeration_tree,
  declaration_tree,
};

use crate::boxes::{boxed, boxed_if_some};
use crate::expressions::{Expression, Identifier};
use pk_ctypes::Pos;
use std::alloc::{AllocError, Global};

/// A word of a type's name (C99 6.7.2, 6.7.3).
#[derive(Clone, Copy)]
pub enum SpecifierWord {
    Void,
    Char,
    Short,
    Int,
    Long,
    Signed,
    Unsigned,
    Const,
    /// A type name (C99 6.7.7): its bytes from `start` up to `end`, counted from 0.
    TypeName { start: usize, end: usize },
    /// The word `enum` (C99 6.7.2.2).
    Enum,
    /// The tag behind `enum`: its bytes from `start` up to `end`, counted from 0.
    Tag { start: usize, end: usize },
}

/// A word of a type's name at its place.
#[derive(Clone, Copy)]
pub struct Specifier {
    pub word: SpecifierWord,
    pub at: Pos,
}

/// The words of a type's name, one or more.
#[derive(Drop)]
pub struct Specifiers {
    pub first: Specifier,
    pub more: Vec<Specifier>,
}

/// A row of values in braces, with the place of the `{`.
#[derive(Drop)]
pub struct InitializerRow {
    pub at: Pos,
    pub first: Expression,
    pub more: Vec<Expression>,
}

/// An item of an initialiser's braces: a value, or a row of values in braces of its own.
#[derive(Drop)]
pub enum InitializerItem {
    Value(Expression),
    Row(Box<InitializerRow>),
}

/// What a declared object begins with: a value, or one or more items in braces, with the place of the `{`.
#[derive(Drop)]
pub enum Initializer {
    Single(Expression),
    Braced {
        at: Pos,
        first: InitializerItem,
        more: Vec<InitializerItem>,
    },
}

/// How many elements an array has, or rows and columns.
#[derive(Drop)]
pub struct Dimensions {
    pub length: Expression,
    pub columns: Option<Expression>,
}

/// A declared name, with the dimensions of an array and what it begins with, where these are given.
#[derive(Drop)]
pub struct Declarator {
    pub name: Identifier,
    pub dimensions: Option<Dimensions>,
    pub initializer: Option<Initializer>,
}

/// An enumerator, with the value that it is given, if it is given one.
#[derive(Drop)]
pub struct Enumerator {
    pub name: Identifier,
    pub value: Option<Expression>,
}

/// The braces of an enumeration (C99 6.7.2.2), and the `const`s behind them. What stands before them, up to `enum` or its tag, are words of a type.
#[derive(Drop)]
pub struct Enumeration {
    pub first: Enumerator,
    pub more: Vec<Enumerator>,
    pub qualifiers: Vec<Specifier>,
}

/// The words of a type, the enumeration that ends them if it has braces, and the names that are declared with it: none only behind an enumeration.
#[derive(Drop)]
pub struct Declaration {
    pub specifiers: Specifiers,
    pub enumeration: Option<Box<Enumeration>>,
    pub declarators: Vec<Declarator>,
}

#[tactic(auto, unfolding(crate::specs::Views::initializer_tree))]
impl Initializer {
    pub fn single(value: Expression) -> Initializer
        ensures { initializer_tree result ≡ tree.single (expression_tree value) }
    {
        Initializer::Single(value)
    }

    pub fn braced(at: Pos, first: InitializerItem, more: Vec<InitializerItem>) -> Initializer
        ensures { initializer_tree result ≡ tree.braced at (record {
          first = initializer_item_tree first;
          more = initializer_item_trees more.items;
        }) }
    {
        Initializer::Braced { at, first, more }
    }
}

#[tactic(auto, unfolding(crate::specs::Views::initializer_item_tree))]
impl InitializerItem {
    pub fn value(value: Expression) -> InitializerItem
        ensures { initializer_item_tree result ≡ tree.item_value (expression_tree value) }
    {
        InitializerItem::Value(value)
    }

    /// A row, at its `{`.
    pub fn row(
        alloc: Global,
        at: Pos,
        first: Expression,
        more: Vec<Expression>,
    ) -> Result<InitializerItem, AllocError>
        ensures { IfOk result (λ i. initializer_item_tree i
            ≡ tree.item_row at (expression_tree first) (expression_trees more.items)) }
    {
        let row = boxed(alloc, InitializerRow { at, first, more })?;
        Ok(InitializerItem::Row(row))
    }
}

#[tactic(auto, unfolding(crate::specs::Views::dimensions_tree))]
impl Dimensions {
    pub fn new(length: Expression, columns: Option<Expression>) -> Dimensions
        ensures { dimensions_tree result ≡ record {
          length = expression_tree length;
          columns = option_map expression_tree columns;
        } }
    {
        Dimensions { length, columns }
    }
}

#[tactic(auto, unfolding(crate::specs::Views::declarator_tree))]
impl Declarator {
    pub fn new(
        name: Identifier,
        dimensions: Option<Dimensions>,
        initializer: Option<Initializer>,
    ) -> Declarator
        ensures { declarator_tree result ≡ record {
          name = name;
          dimensions = option_map dimensions_tree dimensions;
          initializer = option_map initializer_tree initializer;
        } }
    {
        Declarator {
            name,
            dimensions,
            initializer,
        }
    }
}

#[tactic(auto, unfolding(crate::specs::Views::enumerator_tree))]
impl Enumerator {
    pub fn new(name: Identifier, value: Option<Expression>) -> Enumerator
        ensures { enumerator_tree result ≡ record { name = name; value = option_map expression_tree value } }
    {
        Enumerator { name, value }
    }
}

#[tactic(auto, unfolding(crate::specs::Views::enumeration_tree))]
impl Enumeration {
    pub fn new(first: Enumerator, more: Vec<Enumerator>, qualifiers: Vec<Specifier>) -> Enumeration
        ensures { enumeration_tree result ≡ record {
          enumerators = record { first = enumerator_tree first; more = enumerator_trees more.items };
          qualifiers = qualifiers.items;
        } }
    {
        Enumeration {
            first,
            more,
            qualifiers,
        }
    }
}

#[tactic(auto, unfolding(crate::specs::Views::declaration_tree))]
impl Declaration {
    pub fn new(
        alloc: Global,
        specifiers: Specifiers,
        enumeration: Option<Enumeration>,
        declarators: Vec<Declarator>,
    ) -> Result<Declaration, AllocError>
        ensures { IfOk result (λ d. declaration_tree d ≡ record {
          specifiers = specifiers_tree specifiers;
          enumeration = option_map enumeration_tree enumeration;
          declarators = declarator_trees declarators.items;
        }) }
    {
        let enumeration = boxed_if_some(alloc, enumeration)?;
        Ok(Declaration {
            specifiers,
            enumeration,
            declarators,
        })
    }
}
