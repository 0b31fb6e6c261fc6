// External definitions (C99 6.9).

ghost use Rattle.std.specs.Prelude.{◌≡◌, IfOk, option_map};
ghost use Rattle.pk_ast.specs.Trees as tree;
ghost use Rattle.pk_ast.specs.Views.{
  specifiers_tree,
  declaration_tree,
  enumeration_tree,
  block_tree,
  expression_tree,
  brackets_tree,
  parameter_tree,
  parameter_trees,
  function_tree,
  typedef_tree,
  external_tree,
  external_trees,
  unit_tree,
};

use crate::boxes::boxed_if_some;
use crate::declarations::{Declaration, Enumeration, Specifiers};
use crate::expressions::{Expression, Identifier};
use crate::statements::Block;
use pk_ctypes::Pos;
use std::alloc::{AllocError, Global};

/// `static` or `extern`.
#[derive(Clone, Copy)]
pub enum StorageWord {
    Static,
    Extern,
}

/// `static` or `extern` at its place.
#[derive(Clone, Copy)]
pub struct Storage {
    pub word: StorageWord,
    pub at: Pos,
}

/// What makes a parameter one of an array: its length, which may be left out, and its columns.
#[derive(Drop)]
pub struct Brackets {
    pub length: Option<Expression>,
    pub columns: Option<Expression>,
}

/// A parameter: the words of its type, its name where it has one, and its brackets where it is one of an array.
#[derive(Drop)]
pub struct Parameter {
    pub specifiers: Specifiers,
    pub name: Option<Identifier>,
    pub brackets: Option<Brackets>,
}

/// A function, declared or, where it has a body, defined. A parameter list that is empty or `void` alone has no parameter.
#[derive(Drop)]
pub struct Function {
    pub storage: Option<Storage>,
    pub specifiers: Specifiers,
    pub name: Identifier,
    pub parameters: Vec<Parameter>,
    pub body: Option<Block>,
}

/// Names that are declared to be type names, one or more, for the words of a type and the enumeration that ends them, if it has braces.
#[derive(Drop)]
pub struct Typedef {
    pub specifiers: Specifiers,
    pub enumeration: Option<Box<Enumeration>>,
    pub first: Identifier,
    pub more: Vec<Identifier>,
}

/// A function, a declaration of objects, or one of type names.
#[derive(Drop)]
pub enum External {
    Function(Function),
    Declaration(Option<Storage>, Declaration),
    TypeNames(Typedef),
}

/// A text, by its external definitions in order.
#[derive(Drop)]
pub struct Unit {
    pub externals: Vec<External>,
}

#[tactic(auto, unfolding(crate::specs::Views::brackets_tree))]
impl Brackets {
    pub fn new(length: Option<Expression>, columns: Option<Expression>) -> Brackets
        ensures { brackets_tree result ≡ record {
          length = option_map expression_tree length;
          columns = option_map expression_tree columns;
        } }
    {
        Brackets { length, columns }
    }
}

#[tactic(auto, unfolding(crate::specs::Views::parameter_tree))]
impl Parameter {
    pub fn new(
        specifiers: Specifiers,
        name: Option<Identifier>,
        brackets: Option<Brackets>,
    ) -> Parameter
        ensures { parameter_tree result ≡ record {
          specifiers = specifiers_tree specifiers;
          name = name;
          brackets = option_map brackets_tree brackets;
        } }
    {
        Parameter {
            specifiers,
            name,
            brackets,
        }
    }
}

#[tactic(auto, unfolding(crate::specs::Views::function_tree))]
impl Function {
    pub fn new(
        storage: Option<Storage>,
        specifiers: Specifiers,
        name: Identifier,
        parameters: Vec<Parameter>,
        body: Option<Block>,
    ) -> Function
        ensures { function_tree result ≡ record {
          storage = storage;
          specifiers = specifiers_tree specifiers;
          name = name;
          parameters = parameter_trees parameters.items;
          body = option_map block_tree body;
        } }
    {
        Function {
            storage,
            specifiers,
            name,
            parameters,
            body,
        }
    }
}

#[tactic(auto, unfolding(crate::specs::Views::typedef_tree))]
impl Typedef {
    pub fn new(
        alloc: Global,
        specifiers: Specifiers,
        enumeration: Option<Enumeration>,
        first: Identifier,
        more: Vec<Identifier>,
    ) -> Result<Typedef, AllocError>
        ensures { IfOk result (λ d. typedef_tree d ≡ record {
          specifiers = specifiers_tree specifiers;
          enumeration = option_map enumeration_tree enumeration;
          names = record { first = first; more = more.items };
        }) }
    {
        let enumeration = boxed_if_some(alloc, enumeration)?;
        Ok(Typedef {
            specifiers,
            enumeration,
            first,
            more,
        })
    }
}

#[tactic(auto, unfolding(crate::specs::Views::external_tree))]
impl External {
    pub fn function(function: Function) -> External
        ensures { external_tree result ≡ tree.function (function_tree function) }
    {
        External::Function(function)
    }

    pub fn declaration(storage: Option<Storage>, declaration: Declaration) -> External
        ensures { external_tree result ≡ tree.objects storage (declaration_tree declaration) }
    {
        External::Declaration(storage, declaration)
    }

    pub fn type_names(typedef: Typedef) -> External
        ensures { external_tree result ≡ tree.type_names (typedef_tree typedef) }
    {
        External::TypeNames(typedef)
    }
}

#[tactic(auto, unfolding(crate::specs::Views::unit_tree))]
impl Unit {
    pub fn new(externals: Vec<External>) -> Unit
        ensures { unit_tree result ≡ external_trees externals.items }
    {
        Unit { externals }
    }
}
