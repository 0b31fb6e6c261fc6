// Typed declarations and statements (C99 6.7, 6.8).

ghost use Rattle.std.specs.Prelude.{◌≡◌, option_map};
ghost use Rattle.pk_typed.specs.Trees as tree;
ghost use Rattle.pk_typed.specs.Views.{
  value_tree,
  effect_tree,
  optional_values,
  declared_tree,
  declared_trees,
  for_start_tree,
  statement_tree,
  item_trees,
};

use crate::values::{Effect, Value, Variable};
use pk_ctypes::{IntType, Pos};

/// A declared object of a function, at its name: by its number among the function's, or if it is static among the file's.
#[derive(Drop)]
pub enum Declared {
    /// A scalar, and what it begins with, converted to its type.
    Scalar(usize, Pos, Option<Value>),
    /// An array, and the values of its first elements; the rest of a list is 0.
    Array(usize, Pos, Option<Vec<Value>>),
    /// One that all calls share, and that holds what it begins with when a run begins.
    Static(usize, Pos),
    /// A constant whose name hides this object's from here on.
    Hiding(Variable, Pos),
}

/// What the parentheses of a `for` begin with.
#[derive(Drop)]
pub enum ForStart {
    Declared(Vec<Declared>),
    Effect(Option<Effect>),
}

/// What stands in the parentheses of a `for`.
#[derive(Drop)]
pub struct ForHead {
    pub start: ForStart,
    pub test: Option<Value>,
    pub step: Option<Effect>,
}

/// A statement, at its first token.
#[derive(Drop)]
#[cycle(statements)]
pub enum Statement {
    Block(Pos, Vec<Item>),
    /// A `;` alone.
    Empty(Pos),
    Effect(Pos, Effect),
    /// A label, by its number in the function: labels are numbered in the order of the text.
    Label(Pos, usize, Box<Statement>),
    /// A case, by its number in the innermost `switch` around it.
    Case(Pos, usize, Box<Statement>),
    Default(Pos, Box<Statement>),
    If(Pos, Value, Box<Statement>),
    IfElse {
        at: Pos,
        condition: Value,
        if_true: Box<Statement>,
        if_false: Box<Statement>,
    },
    Switch {
        at: Pos,
        /// The promoted type of the value, to which the cases' values were converted.
        int_type: IntType,
        value: Value,
        /// The cases' values in order of their numbers.
        cases: Vec<i128>,
        has_default: bool,
        body: Box<Statement>,
    },
    While(Pos, Value, Box<Statement>),
    Do(Pos, Box<Statement>, Value),
    For(Pos, Box<ForHead>, Box<Statement>),
    Goto(Pos, usize),
    Continue(Pos),
    Break(Pos),
    /// The value is converted to the type that the function returns.
    Return(Pos, Option<Value>),
}

/// A declared object or a statement of a block. A declaration is the objects that it declares, in order.
#[derive(Drop)]
#[cycle(statements)]
pub enum Item {
    Declared(Declared),
    Statement(Statement),
}

#[tactic(auto, unfolding(crate::specs::Views::declared_tree))]
impl Declared {
    pub fn scalar(local: usize, at: Pos, first: Option<Value>) -> Declared
        ensures { declared_tree result ≡ tree.scalar_object local at (option_map value_tree first) }
    {
        Declared::Scalar(local, at, first)
    }

    pub fn array(local: usize, at: Pos, items: Option<Vec<Value>>) -> Declared
        ensures { declared_tree result ≡ tree.array_object local at (optional_values items) }
    {
        Declared::Array(local, at, items)
    }

    pub fn static_object(file: usize, at: Pos) -> Declared
        ensures { declared_tree result ≡ tree.static_object file at }
    {
        Declared::Static(file, at)
    }

    pub fn hiding(object: Variable, at: Pos) -> Declared
        ensures { declared_tree result ≡ tree.hiding_constant object at }
    {
        Declared::Hiding(object, at)
    }
}

#[tactic(auto, unfolding(crate::specs::Views::for_start_tree))]
impl ForStart {
    pub fn declared(objects: Vec<Declared>) -> ForStart
        ensures { for_start_tree result ≡ tree.declarations (declared_trees objects.items) }
    {
        ForStart::Declared(objects)
    }

    pub fn effect(first: Option<Effect>) -> ForStart
        ensures { for_start_tree result ≡ tree.expression (option_map effect_tree first) }
    {
        ForStart::Effect(first)
    }
}

// Each ensures which tree it makes.
#[tactic(auto, unfolding(crate::specs::Views::statement_tree))]
impl Statement {
    #[tactic(auto, using(crate::proofs::ViewLemmas::tree_of_block))]
    pub fn block(at: Pos, items: Vec<Item>) -> Statement
        ensures { statement_tree result ≡ tree.block at (item_trees items.items) }
    {
        Statement::Block(at, items)
    }

    /// A `;` alone.
    pub fn empty(at: Pos) -> Statement
        ensures { statement_tree result ≡ tree.empty at }
    {
        Statement::Empty(at)
    }

    pub fn effect(at: Pos, expression: Effect) -> Statement
        ensures { statement_tree result ≡ tree.effect at (effect_tree expression) }
    {
        Statement::Effect(at, expression)
    }

    /// A label by its number.
    pub fn label(at: Pos, number: usize, body: Box<Statement>) -> Statement
        ensures { statement_tree result ≡ tree.label at number (statement_tree body.value) }
    {
        Statement::Label(at, number, body)
    }

    /// A case by its number.
    pub fn case(at: Pos, number: usize, body: Box<Statement>) -> Statement
        ensures { statement_tree result ≡ tree.case at number (statement_tree body.value) }
    {
        Statement::Case(at, number, body)
    }

    pub fn default(at: Pos, body: Box<Statement>) -> Statement
        ensures { statement_tree result ≡ tree.default at (statement_tree body.value) }
    {
        Statement::Default(at, body)
    }

    pub fn if_then(at: Pos, condition: Value, body: Box<Statement>) -> Statement
        ensures { statement_tree result ≡ tree.if_then at (value_tree condition) (statement_tree body.value) }
    {
        Statement::If(at, condition, body)
    }

    pub fn if_else(
        at: Pos,
        condition: Value,
        if_true: Box<Statement>,
        if_false: Box<Statement>,
    ) -> Statement
        ensures { statement_tree result
            ≡ tree.if_else at (value_tree condition) (statement_tree if_true.value) (statement_tree if_false.value) }
    {
        Statement::IfElse {
            at,
            condition,
            if_true,
            if_false,
        }
    }

    pub fn switch(
        at: Pos,
        int_type: IntType,
        value: Value,
        cases: Vec<i128>,
        has_default: bool,
        body: Box<Statement>,
    ) -> Statement
        ensures { statement_tree result
            ≡ tree.switch at int_type (value_tree value) cases.items has_default (statement_tree body.value) }
    {
        Statement::Switch {
            at,
            int_type,
            value,
            cases,
            has_default,
            body,
        }
    }

    pub fn while_loop(at: Pos, condition: Value, body: Box<Statement>) -> Statement
        ensures { statement_tree result ≡ tree.while at (value_tree condition) (statement_tree body.value) }
    {
        Statement::While(at, condition, body)
    }

    pub fn do_while(at: Pos, body: Box<Statement>, condition: Value) -> Statement
        ensures { statement_tree result ≡ tree.do_while at (statement_tree body.value) (value_tree condition) }
    {
        Statement::Do(at, body, condition)
    }

    pub fn for_loop(at: Pos, head: Box<ForHead>, body: Box<Statement>) -> Statement
        ensures { let h = head.value in statement_tree result
            ≡ tree.for_loop at (for_start_tree h.start) (option_map value_tree h.test)
            (option_map effect_tree h.step) (statement_tree body.value) }
    {
        Statement::For(at, head, body)
    }

    /// A jump to a label by its number.
    pub fn goto(at: Pos, number: usize) -> Statement
        ensures { statement_tree result ≡ tree.goto at number }
    {
        Statement::Goto(at, number)
    }

    pub fn continue_loop(at: Pos) -> Statement
        ensures { statement_tree result ≡ tree.continue at }
    {
        Statement::Continue(at)
    }

    pub fn break_out(at: Pos) -> Statement
        ensures { statement_tree result ≡ tree.break at }
    {
        Statement::Break(at)
    }

    pub fn return_value(at: Pos, value: Option<Value>) -> Statement
        ensures { statement_tree result ≡ tree.return at (option_map value_tree value) }
    {
        Statement::Return(at, value)
    }
}
