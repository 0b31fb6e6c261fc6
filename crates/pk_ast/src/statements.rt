// Statements (C99 6.8).

ghost use Rattle.std.specs.Prelude.{◌≡◌, ◌∷◌, [], IfOk, option_map};
ghost use Rattle.pk_ast.specs.Places.{first_place_of_statement};
ghost use Rattle.pk_ast.specs.Trees as tree;
ghost use Rattle.pk_ast.specs.Views.{
  expression_tree,
  declaration_tree,
  for_start_tree,
  statement_tree,
  item_trees,
  block_tree,
};

use crate::boxes::{boxed, boxed_beside};
use crate::declarations::Declaration;
use crate::expressions::{Expression, Identifier};
use pk_ctypes::Pos;
use std::alloc::{AllocError, Global};

/// What the parentheses of a `for` begin with.
#[derive(Drop)]
pub enum ForStart {
    Declaration(Declaration),
    Expression(Option<Expression>),
}

/// The parentheses of a `for`.
#[derive(Drop)]
pub struct ForHead {
    pub start: ForStart,
    pub condition: Option<Expression>,
    pub step: Option<Expression>,
}

/// A statement, with the place of its first word.
#[derive(Drop)]
#[cycle(statements)]
pub enum Statement {
    Block(Block),
    /// A `;` alone.
    Empty(Pos),
    Expression(Expression),
    Label(Identifier, Box<Statement>),
    Case(Pos, Expression, Box<Statement>),
    Default(Pos, Box<Statement>),
    If(Pos, Expression, Box<Statement>),
    IfElse {
        at: Pos,
        condition: Expression,
        then_branch: Box<Statement>,
        else_branch: Box<Statement>,
    },
    Switch(Pos, Expression, Box<Statement>),
    While(Pos, Expression, Box<Statement>),
    Do(Pos, Box<Statement>, Expression),
    For(Pos, Box<ForHead>, Box<Statement>),
    Goto(Pos, Identifier),
    Continue(Pos),
    Break(Pos),
    Return(Pos, Option<Expression>),
}

/// A declaration or a statement of a block.
#[derive(Drop)]
#[cycle(statements)]
pub enum BlockItem {
    /// With the place of its `static`, if it has one.
    Declaration(Option<Pos>, Box<Declaration>),
    Statement(Statement),
}

/// A block, with the places of its braces.
#[derive(Drop)]
#[cycle(statements)]
pub struct Block {
    pub open: Pos,
    pub items: Vec<BlockItem>,
    pub close: Pos,
}

#[tactic(auto, unfolding(crate::specs::Views::for_start_tree))]
impl ForStart {
    pub fn declaration(declaration: Declaration) -> ForStart
        ensures { for_start_tree result ≡ tree.declaration (declaration_tree declaration) }
    {
        ForStart::Declaration(declaration)
    }

    pub fn expression(expression: Option<Expression>) -> ForStart
        ensures { for_start_tree result ≡ tree.expression (option_map expression_tree expression) }
    {
        ForStart::Expression(expression)
    }
}

// Each ensures which tree it makes.
#[tactic(auto, unfolding(crate::specs::Views::statement_tree))]
impl Statement {
    #[tactic(auto, using(crate::proofs::ViewLemmas::tree_of_block), unfolding(crate::specs::Views::block_tree))]
    pub fn block(block: Block) -> Statement
        ensures { let t = block_tree block in statement_tree result ≡ tree.block t.opened t.items t.closed }
    {
        Statement::Block(block)
    }

    /// A `;` alone.
    pub fn empty(at: Pos) -> Statement
        ensures { statement_tree result ≡ tree.empty at }
    {
        Statement::Empty(at)
    }

    pub fn expression(expression: Expression) -> Statement
        ensures { statement_tree result ≡ tree.expression_statement (expression_tree expression) }
    {
        Statement::Expression(expression)
    }

    pub fn label(alloc: Global, name: Identifier, body: Statement) -> Result<Statement, AllocError>
        ensures { IfOk result (λ s. statement_tree s ≡ tree.label name (statement_tree body)) }
    {
        let body = boxed(alloc, body)?;
        Ok(Statement::Label(name, body))
    }

    pub fn case(
        alloc: Global,
        at: Pos,
        value: Expression,
        body: Statement,
    ) -> Result<Statement, AllocError>
        ensures { IfOk result (λ s. statement_tree s
            ≡ tree.case at (expression_tree value) (statement_tree body)) }
    {
        let (value, body) = boxed_beside(alloc, value, body)?;
        Ok(Statement::Case(at, value, body))
    }

    pub fn default(alloc: Global, at: Pos, body: Statement) -> Result<Statement, AllocError>
        ensures { IfOk result (λ s. statement_tree s ≡ tree.default at (statement_tree body)) }
    {
        let body = boxed(alloc, body)?;
        Ok(Statement::Default(at, body))
    }

    pub fn if_then(
        alloc: Global,
        at: Pos,
        condition: Expression,
        then_branch: Statement,
    ) -> Result<Statement, AllocError>
        ensures { IfOk result (λ s. statement_tree s
            ≡ tree.if_then at (expression_tree condition) (statement_tree then_branch)) }
    {
        let (condition, then_branch) = boxed_beside(alloc, condition, then_branch)?;
        Ok(Statement::If(at, condition, then_branch))
    }

    pub fn if_else(
        alloc: Global,
        at: Pos,
        condition: Expression,
        then_branch: Box<Statement>,
        else_branch: Statement,
    ) -> Result<Statement, AllocError>
        ensures { IfOk result (λ s. statement_tree s
            ≡ tree.if_else at (expression_tree condition) (statement_tree then_branch.value)
            (statement_tree else_branch)) }
    {
        let ((condition, then_branch), else_branch) = boxed_beside(
            alloc,
            (condition, then_branch),
            else_branch,
        )?;
        Ok(Statement::IfElse {
            at,
            condition,
            then_branch,
            else_branch,
        })
    }

    pub fn switch(
        alloc: Global,
        at: Pos,
        value: Expression,
        body: Statement,
    ) -> Result<Statement, AllocError>
        ensures { IfOk result (λ s. statement_tree s
            ≡ tree.switch at (expression_tree value) (statement_tree body)) }
    {
        let (value, body) = boxed_beside(alloc, value, body)?;
        Ok(Statement::Switch(at, value, body))
    }

    pub fn while_loop(
        alloc: Global,
        at: Pos,
        condition: Expression,
        body: Statement,
    ) -> Result<Statement, AllocError>
        ensures { IfOk result (λ s. statement_tree s
            ≡ tree.while at (expression_tree condition) (statement_tree body)) }
    {
        let (condition, body) = boxed_beside(alloc, condition, body)?;
        Ok(Statement::While(at, condition, body))
    }

    pub fn do_while(
        alloc: Global,
        at: Pos,
        body: Statement,
        condition: Expression,
    ) -> Result<Statement, AllocError>
        ensures { IfOk result (λ s. statement_tree s
            ≡ tree.do_while at (statement_tree body) (expression_tree condition)) }
    {
        let (condition, body) = boxed_beside(alloc, condition, body)?;
        Ok(Statement::Do(at, body, condition))
    }

    pub fn for_loop(
        alloc: Global,
        at: Pos,
        head: Box<ForHead>,
        body: Statement,
    ) -> Result<Statement, AllocError>
        ensures { IfOk result (λ s. statement_tree s ≡ tree.for_loop at (for_start_tree head.value.start)
            (option_map expression_tree head.value.condition) (option_map expression_tree head.value.step)
            (statement_tree body)) }
    {
        let (head, body) = boxed_beside(alloc, head, body)?;
        Ok(Statement::For(at, head, body))
    }

    pub fn goto(at: Pos, label: Identifier) -> Statement
        ensures { statement_tree result ≡ tree.goto at label }
    {
        Statement::Goto(at, label)
    }

    pub fn continue_statement(at: Pos) -> Statement
        ensures { statement_tree result ≡ tree.continue at }
    {
        Statement::Continue(at)
    }

    pub fn break_statement(at: Pos) -> Statement
        ensures { statement_tree result ≡ tree.break at }
    {
        Statement::Break(at)
    }

    pub fn return_statement(at: Pos, value: Option<Expression>) -> Statement
        ensures { statement_tree result ≡ tree.return at (option_map expression_tree value) }
    {
        Statement::Return(at, value)
    }

    /// The place of the first token.
    #[tactic(auto, using(crate::proofs::ViewLemmas::tree_of_block), unfolding(crate::specs::Views::statement_tree, crate::specs::Places::first_place_of_statement))]
    pub fn first_place(&self) -> Pos
        ensures { result ≡ first_place_of_statement (statement_tree self.now) }
    {
        match self {
            Statement::Block(block) => block.open,
            Statement::Expression(expression) => expression.first_place(),
            Statement::Label(name, _) => name.at,
            Statement::Empty(at) => *at,
            Statement::Case(at, _, _) => *at,
            Statement::Default(at, _) => *at,
            Statement::If(at, _, _) => *at,
            Statement::IfElse { at, .. } => *at,
            Statement::Switch(at, _, _) => *at,
            Statement::While(at, _, _) => *at,
            Statement::Do(at, _, _) => *at,
            Statement::For(at, _, _) => *at,
            Statement::Goto(at, _) => *at,
            Statement::Continue(at) => *at,
            Statement::Break(at) => *at,
            Statement::Return(at, _) => *at,
        }
    }
}

impl BlockItem {
    pub fn declaration(
        alloc: Global,
        static_at: Option<Pos>,
        declaration: Declaration,
    ) -> Result<BlockItem, AllocError>
        ensures { IfOk result (λ item. item_trees (item ∷ [])
            ≡ tree.declaration_then static_at (declaration_tree declaration) tree.no_items) }
    {
        let declaration = boxed(alloc, declaration)?;
        Ok(BlockItem::Declaration(static_at, declaration))
    }

    pub fn statement(statement: Statement) -> BlockItem
        ensures { item_trees (result ∷ []) ≡ tree.statement_then (statement_tree statement) tree.no_items }
    {
        BlockItem::Statement(statement)
    }
}

#[tactic(auto, unfolding(crate::specs::Views::block_tree))]
impl Block {
    pub fn new(opened: Pos, items: Vec<BlockItem>, closed: Pos) -> Block
        ensures { block_tree result
            ≡ record { opened = opened; items = item_trees items.items; closed = closed } }
    {
        Block {
            open: opened,
            items,
            close: closed,
        }
    }
}
