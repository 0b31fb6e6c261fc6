// Expressions (C99 6.5).

ghost use Rattle.std.specs.Prelude.{◌≡◌, IfOk};
ghost use Rattle.pk_ast.specs.Places.{first_place_of};
ghost use Rattle.pk_ast.specs.Trees as tree;
ghost use Rattle.pk_ast.specs.Views.{specifiers_tree, expression_tree, expression_trees};

use crate::boxes::{all_boxed, both_boxed, boxed};
use crate::declarations::Specifiers;
use crate::operators::{AssignmentOperator, BinaryOperator, StepOperator, UnaryOperator};
use pk_ctypes::{IntType, Pos};
use std::alloc::{AllocError, Global};

/// A name in a text: its bytes from `start` up to `end`, counted from 0, the place of the first one, and whether it is a tag, for tags
/// have a name space of their own (C99 6.2.3). Two names are the same where their bytes are, so identifiers are not compared.
#[derive(Clone, Copy)]
pub struct Identifier {
    pub start: usize,
    pub end: usize,
    pub at: Pos,
    pub is_tag: bool,
}

/// What an element of an array of rows and columns is named by: the array's name, and the place of each `[`.
#[derive(Drop)]
pub struct ElementName {
    pub array: Identifier,
    pub at: Pos,
    pub column_at: Pos,
}

/// An expression. Operators stand with their places; parentheses are kept.
#[derive(Drop)]
pub enum Expression {
    Name(Identifier),
    /// A call, by the name of what is called.
    Call(Identifier, Vec<Expression>),
    /// An element of an array, by its name and the place of the `[`.
    Index(Identifier, Pos, Box<Expression>),
    /// An element of an array of rows and columns. Its name lies apart, so that other expressions aren't larger for it.
    Element {
        name: Box<ElementName>,
        row: Box<Expression>,
        column: Box<Expression>,
    },
    /// An integer constant with its type and value.
    Constant(Pos, IntType, u64),
    /// A character constant, of type int.
    Character(Pos, i8),
    Parenthesized(Pos, Box<Expression>),
    Postfix(StepOperator, Pos, Box<Expression>),
    Prefix(StepOperator, Pos, Box<Expression>),
    Unary(UnaryOperator, Pos, Box<Expression>),
    /// A conversion to the type that the specifiers name, at its `(`.
    Cast(Pos, Box<Specifiers>, Box<Expression>),
    Binary {
        op: BinaryOperator,
        at: Pos,
        left: Box<Expression>,
        right: Box<Expression>,
    },
    /// `condition ? if_true : if_false`, at its `?`.
    Conditional {
        at: Pos,
        condition: Box<Expression>,
        if_true: Box<Expression>,
        if_false: Box<Expression>,
    },
    Assignment {
        op: AssignmentOperator,
        at: Pos,
        left: Box<Expression>,
        right: Box<Expression>,
    },
    Comma {
        at: Pos,
        left: Box<Expression>,
        right: Box<Expression>,
    },
}

// Each ensures which tree it makes.
#[tactic(auto, unfolding(crate::specs::Views::expression_tree))]
impl Expression {
    pub fn name(name: Identifier) -> Expression
        ensures { expression_tree result ≡ tree.name name }
    {
        Expression::Name(name)
    }

    /// A call, by the name of what is called.
    #[tactic(auto, using(crate::proofs::ViewLemmas::tree_of_call))]
    pub fn call(name: Identifier, arguments: Vec<Expression>) -> Expression
        ensures { expression_tree result ≡ tree.call name (expression_trees arguments.items) }
    {
        Expression::Call(name, arguments)
    }

    /// An element of an array, by its name and the place of the `[`.
    pub fn index(
        alloc: Global,
        name: Identifier,
        at: Pos,
        index: Expression,
    ) -> Result<Expression, AllocError>
        ensures { IfOk result (λ e. expression_tree e ≡ tree.index name at (expression_tree index)) }
    {
        let index = boxed(alloc, index)?;
        Ok(Expression::Index(name, at, index))
    }

    /// An element of an array of rows and columns, by its name and the place of each `[`.
    pub fn element(
        alloc: Global,
        name: Identifier,
        at: Pos,
        row: Expression,
        column_at: Pos,
        column: Expression,
    ) -> Result<Expression, AllocError>
        ensures { IfOk result (λ e. expression_tree e
            ≡ tree.element name at (expression_tree row) column_at (expression_tree column)) }
    {
        let name = ElementName {
            array: name,
            at,
            column_at,
        };
        let (name, row, column) = all_boxed(alloc, name, row, column)?;
        Ok(Expression::Element { name, row, column })
    }

    pub fn constant(at: Pos, int_type: IntType, value: u64) -> Expression
        ensures { expression_tree result ≡ tree.constant at int_type value }
    {
        Expression::Constant(at, int_type, value)
    }

    pub fn character(at: Pos, value: i8) -> Expression
        ensures { expression_tree result ≡ tree.character at value }
    {
        Expression::Character(at, value)
    }

    /// An expression in parentheses, at the `(`.
    pub fn parenthesized(
        alloc: Global,
        at: Pos,
        inner: Expression,
    ) -> Result<Expression, AllocError>
        ensures { IfOk result (λ e. expression_tree e ≡ tree.parenthesized at (expression_tree inner)) }
    {
        let inner = boxed(alloc, inner)?;
        Ok(Expression::Parenthesized(at, inner))
    }

    pub fn postfix(
        alloc: Global,
        op: StepOperator,
        at: Pos,
        operand: Expression,
    ) -> Result<Expression, AllocError>
        ensures { IfOk result (λ e. expression_tree e ≡ tree.postfix op at (expression_tree operand)) }
    {
        let operand = boxed(alloc, operand)?;
        Ok(Expression::Postfix(op, at, operand))
    }

    pub fn prefix(
        alloc: Global,
        op: StepOperator,
        at: Pos,
        operand: Expression,
    ) -> Result<Expression, AllocError>
        ensures { IfOk result (λ e. expression_tree e ≡ tree.prefix op at (expression_tree operand)) }
    {
        let operand = boxed(alloc, operand)?;
        Ok(Expression::Prefix(op, at, operand))
    }

    pub fn unary(
        alloc: Global,
        op: UnaryOperator,
        at: Pos,
        operand: Expression,
    ) -> Result<Expression, AllocError>
        ensures { IfOk result (λ e. expression_tree e ≡ tree.unary op at (expression_tree operand)) }
    {
        let operand = boxed(alloc, operand)?;
        Ok(Expression::Unary(op, at, operand))
    }

    /// A conversion, at its `(`.
    pub fn cast(
        alloc: Global,
        at: Pos,
        specifiers: Specifiers,
        operand: Expression,
    ) -> Result<Expression, AllocError>
        ensures { IfOk result (λ e. expression_tree e
            ≡ tree.cast at (specifiers_tree specifiers) (expression_tree operand)) }
    {
        let (specifiers, operand) = both_boxed(alloc, specifiers, operand)?;
        Ok(Expression::Cast(at, specifiers, operand))
    }

    pub fn binary(
        alloc: Global,
        op: BinaryOperator,
        at: Pos,
        left: Expression,
        right: Expression,
    ) -> Result<Expression, AllocError>
        ensures { IfOk result (λ e. expression_tree e
            ≡ tree.binary op at (expression_tree left) (expression_tree right)) }
    {
        let (left, right) = both_boxed(alloc, left, right)?;
        Ok(Expression::Binary {
            op,
            at,
            left,
            right,
        })
    }

    pub fn assignment(
        alloc: Global,
        op: AssignmentOperator,
        at: Pos,
        left: Expression,
        right: Expression,
    ) -> Result<Expression, AllocError>
        ensures { IfOk result (λ e. expression_tree e
            ≡ tree.assignment op at (expression_tree left) (expression_tree right)) }
    {
        let (left, right) = both_boxed(alloc, left, right)?;
        Ok(Expression::Assignment {
            op,
            at,
            left,
            right,
        })
    }

    pub fn comma(
        alloc: Global,
        at: Pos,
        left: Expression,
        right: Expression,
    ) -> Result<Expression, AllocError>
        ensures { IfOk result (λ e. expression_tree e
            ≡ tree.comma at (expression_tree left) (expression_tree right)) }
    {
        let (left, right) = both_boxed(alloc, left, right)?;
        Ok(Expression::Comma { at, left, right })
    }

    /// At its `?`.
    pub fn conditional(
        alloc: Global,
        at: Pos,
        condition: Expression,
        if_true: Expression,
        if_false: Expression,
    ) -> Result<Expression, AllocError>
        ensures { IfOk result (λ e. expression_tree e
            ≡ tree.conditional at (expression_tree condition) (expression_tree if_true) (expression_tree if_false)) }
    {
        let (condition, if_true, if_false) = all_boxed(alloc, condition, if_true, if_false)?;
        Ok(Expression::Conditional {
            at,
            condition,
            if_true,
            if_false,
        })
    }

    /// The place of the first token.
    #[tactic(auto, unfolding(crate::specs::Views::expression_tree, crate::specs::Places::first_place_of))]
    pub fn first_place(&self) -> Pos
        ensures { result ≡ first_place_of (expression_tree self.now) }
    {
        let mut e = self;
        loop {
            match e {
                Expression::Name(name) => return name.at,
                Expression::Call(name, _) => return name.at,
                Expression::Index(name, _, _) => return name.at,
                Expression::Element { name, .. } => return name.array.at,
                Expression::Constant(at, _, _) => return *at,
                Expression::Character(at, _) => return *at,
                Expression::Parenthesized(at, _) => return *at,
                Expression::Prefix(_, at, _) => return *at,
                Expression::Unary(_, at, _) => return *at,
                Expression::Cast(at, _, _) => return *at,
                Expression::Postfix(_, _, operand) => e = operand,
                Expression::Binary { left, .. } => e = left,
                Expression::Conditional { condition, .. } => e = condition,
                Expression::Assignment { left, .. } => e = left,
                Expression::Comma { left, .. } => e = left,
            }
        }
    }
}
