// Statements in order.

ghost use Rattle.std.specs.Prelude.{◌≡◌, option_map, IfOk, OnOk};
ghost use Rattle.pk_ast.specs.Trees as tree;
ghost use Rattle.pk_ast.specs.Views as ast;
ghost use Rattle.pk_typed.specs.Views.{item_trees};
ghost use Rattle.pk_type_jump.specs.Views.{labels_in};
ghost use Rattle.pk_type_statement.specs.Statements as definitions;
ghost use Rattle.pk_type_statement.specs.Trees as typed;
ghost use Rattle.pk_type_statement.specs.Views.{passed_in, statement_in};
ghost use Rattle.pk_type_statement.specs.Rules.{noting};

use crate::boxes::boxed;
use crate::cases::switch;
use crate::heads::for_loop;
use crate::items::{add_empty, add_objects, add_statement, empty_at};
use crate::statements::Statements;
use crate::trees;
use pk_ast::{BlockItem, Expression, ForHead, Statement};
use pk_ctypes::Pos;
use pk_type_declaration::Parts;
use pk_type_jump::Labels;
use pk_type_scope::Typing;
use pk_typed as typed;
use pk_typed::Item;
use std::alloc::{AllocError, Global};

/// What the statements of a function see of it: what it returns, and its labels.
#[derive(Clone, Copy)]
pub struct Around<'f, 'a> {
    pub alloc: Global,
    pub returns: Typing,
    pub labels: &'f Labels<'a>,
}

/// Checks a statement, and gives its tree.
#[cycle(walk)]
#[tactic(auto, using(pk_ast::proofs::ViewLemmas::tree_of_block), unfolding(pk_ast::specs::Views::statement_tree, crate::specs::Statements::after, crate::specs::Trees::typed))]
pub fn statement(
    to: &mut Statements<'_>,
    around: &Around<'_, '_>,
    s: &Statement,
) -> Result<Option<Box<typed::Statement>>, AllocError>
    ensures passed { OnOk result (passed_in to.new
        ≡ definitions.after noting around.now.returns (passed_in to.old) (ast.statement_tree s.now)) }
    ensures tree { IfOk result (λ t. statement_in t
        ≡ typed.typed noting around.now.returns (labels_in around.now.labels.now) (passed_in to.old)
        (ast.statement_tree s.now)) }
{
    let alloc = around.alloc;
    match s {
        Statement::Block(block) => {
            let list = block_items(to, around, &block.items)?;
            boxed(alloc, trees::block(block.open, list))
        }
        Statement::Empty(at) => boxed(alloc, Some(typed::Statement::empty(*at))),
        Statement::Expression(e) => {
            let effect = to.effect(alloc, e)?;
            boxed(alloc, trees::effect(e.first_place(), effect))
        }
        Statement::Label(name, body) => {
            let number = to.label(around.labels, *name);
            let body = statement(to, around, body)?;
            boxed(alloc, trees::label(name.at, number, body))
        }
        Statement::Case(at, e, body) => {
            let number = to.cases.len();
            to.case(alloc, *at, e)?;
            let body = statement(to, around, body)?;
            boxed(alloc, trees::case(*at, number, body))
        }
        Statement::Default(at, body) => {
            to.default();
            let body = statement(to, around, body)?;
            boxed(alloc, trees::default(*at, body))
        }
        Statement::If(at, e, body) => {
            let condition = to.value(alloc, e)?;
            let body = statement(to, around, body)?;
            boxed(alloc, trees::if_then(*at, condition, body))
        }
        Statement::IfElse {
            at,
            condition,
            then_branch,
            else_branch,
        } => {
            let condition = to.value(alloc, condition)?;
            let if_true = statement(to, around, then_branch)?;
            let if_false = statement(to, around, else_branch)?;
            boxed(alloc, trees::if_else(*at, condition, if_true, if_false))
        }
        Statement::Switch(at, e, body) => switch_statement(to, around, *at, body, e),
        Statement::While(at, e, body) => {
            let condition = to.value(alloc, e)?;
            let body = statement(to, around, body)?;
            boxed(alloc, trees::while_loop(*at, condition, body))
        }
        Statement::Do(at, body, e) => {
            let body = statement(to, around, body)?;
            let condition = to.value(alloc, e)?;
            boxed(alloc, trees::do_while(*at, body, condition))
        }
        Statement::For(at, head, body) => for_statement(to, around, *at, head, body),
        Statement::Goto(at, name) => {
            let number = to.label(around.labels, *name);
            boxed(alloc, trees::goto(*at, number))
        }
        Statement::Continue(at) => boxed(alloc, Some(typed::Statement::continue_loop(*at))),
        Statement::Break(at) => boxed(alloc, Some(typed::Statement::break_out(*at))),
        Statement::Return(at, e) => {
            let value = to.returned(alloc, around.returns, *at, e)?;
            boxed(alloc, trees::return_value(*at, value))
        }
    }
}

// A `switch`. Its cases are apart from those of the `switch` around it.
#[cycle(walk)]
fn switch_statement(
    to: &mut Statements<'_>,
    around: &Around<'_, '_>,
    at: Pos,
    body: &Statement,
    e: &Expression,
) -> Result<Option<Box<typed::Statement>>, AllocError>
    ensures passed { OnOk result (passed_in to.new
        ≡ definitions.after noting around.now.returns (passed_in to.old)
        (tree.switch at (ast.expression_tree e.now) (ast.statement_tree body.now))) }
    ensures tree { IfOk result (λ t. statement_in t
        ≡ typed.typed noting around.now.returns (labels_in around.now.labels.now) (passed_in to.old)
        (tree.switch at (ast.expression_tree e.now) (ast.statement_tree body.now))) }
{
    let alloc = around.alloc;
    let (typing, value) = to.operand(alloc, e)?;
    let outer = to.enter_switch(alloc);
    let body = statement(to, around, body)?;
    let ended = to.leave_switch(alloc, typing, outer)?;
    let made = boxed(alloc, switch(at, value, ended, body))?;
    Ok(made)
}

// A `for`, which is a scope.
#[cycle(walk)]
fn for_statement(
    to: &mut Statements<'_>,
    around: &Around<'_, '_>,
    at: Pos,
    head: &ForHead,
    body: &Statement,
) -> Result<Option<Box<typed::Statement>>, AllocError>
    ensures passed { let h = head.now in OnOk result (passed_in to.new
        ≡ definitions.after noting around.now.returns (passed_in to.old)
        (tree.for_loop at (ast.for_start_tree h.start) (option_map ast.expression_tree h.condition)
        (option_map ast.expression_tree h.step) (ast.statement_tree body.now))) }
    ensures tree { let h = head.now in IfOk result (λ t. statement_in t
        ≡ typed.typed noting around.now.returns (labels_in around.now.labels.now) (passed_in to.old)
        (tree.for_loop at (ast.for_start_tree h.start) (option_map ast.expression_tree h.condition)
        (option_map ast.expression_tree h.step) (ast.statement_tree body.now))) }
{
    let alloc = around.alloc;
    to.enter(alloc)?;
    let head = to.head(alloc, head)?;
    let body = statement(to, around, body)?;
    to.leave();
    let made = boxed(alloc, for_loop(at, head, body))?;
    Ok(made)
}

// The items of a block, which is a scope.
#[cycle(walk)]
fn block_items(
    to: &mut Statements<'_>,
    around: &Around<'_, '_>,
    list: &[BlockItem],
) -> Result<Option<Vec<Item>>, AllocError>
    ensures passed { OnOk result (passed_in to.new
        ≡ definitions.outside (passed_in to.old) (definitions.after_items noting around.now.returns
        (definitions.inside (passed_in to.old)) (ast.item_trees list.now))) }
    ensures trees { IfOk result (λ t. option_map (λ v. item_trees v.items) t
        ≡ typed.typed_items noting around.now.returns (labels_in around.now.labels.now)
        (definitions.inside (passed_in to.old)) (ast.item_trees list.now)) }
{
    to.enter(around.alloc)?;
    let all = body_items(to, around, list)?;
    to.leave();
    Ok(all)
}

/// Checks the items of a block in its scope, and gives their trees.
#[cycle(walk)]
pub fn body_items(
    to: &mut Statements<'_>,
    around: &Around<'_, '_>,
    list: &[BlockItem],
) -> Result<Option<Vec<Item>>, AllocError>
    ensures passed { OnOk result (passed_in to.new
        ≡ definitions.after_items noting around.now.returns (passed_in to.old) (ast.item_trees list.now)) }
    ensures trees { IfOk result (λ t. option_map (λ v. item_trees v.items) t
        ≡ typed.typed_items noting around.now.returns (labels_in around.now.labels.now) (passed_in to.old)
        (ast.item_trees list.now)) }
{
    let alloc = around.alloc;
    let mut all = Parts::new(alloc);
    for item in list {
        match item {
            BlockItem::Declaration(is_static, d) => {
                let objects = to.declaration(alloc, *is_static, d)?;
                add_objects(&mut all, alloc, objects)?;
            }
            BlockItem::Statement(s) => match empty_at(s) {
                Some(at) => add_empty(&mut all, at)?,
                None => {
                    let one = statement(to, around, s)?;
                    add_statement(&mut all, one)?;
                }
            },
        }
    }
    Ok(all.whole())
}
