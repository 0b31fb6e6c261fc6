// The parentheses of a `for`.

ghost use Rattle.std.specs.Prelude.{◌≡◌, option_map, IfOk, OnOk};
ghost use Rattle.pk_ast.specs.Views.{expression_tree};
ghost use Rattle.pk_ast.specs.Views as ast;
ghost use Rattle.pk_typed.specs.Trees as tree;
ghost use Rattle.pk_typed.specs.Views.{value_tree, effect_tree, declared_trees, for_start_tree, statement_tree};
ghost use Rattle.pk_type_expression.specs.Typed.{of_both};
ghost use Rattle.pk_type_statement.specs.Statements as definitions;
ghost use Rattle.pk_type_statement.specs.Trees as typed;
ghost use Rattle.pk_type_statement.specs.Views.{passed_in, head_in, head_tree, statement_in};
ghost use Rattle.pk_type_statement.specs.Rules.{noting};

use crate::boxes::boxed;
use crate::statements::Statements;
use pk_ast::{ForHead, ForStart};
use pk_ctypes::Pos;
use pk_typed as typed;
use pk_typed::{Declared, Effect, Statement, Value};
use std::alloc::{AllocError, Global};

fn declared(objects: Option<Vec<Declared>>) -> Option<typed::ForStart>
    ensures { option_map for_start_tree result
        ≡ option_map tree.declarations (option_map (λ v. declared_trees v.items) objects) }
{
    match objects {
        None => None,
        Some(objects) => Some(typed::ForStart::declared(objects)),
    }
}

fn started(effect: Option<Option<Effect>>) -> Option<typed::ForStart>
    ensures { option_map for_start_tree result
        ≡ option_map tree.expression (option_map (option_map effect_tree) effect) }
{
    match effect {
        None => None,
        Some(effect) => Some(typed::ForStart::effect(effect)),
    }
}

fn head_of(
    start: Option<Box<typed::ForStart>>,
    test: Option<Box<Option<Value>>>,
    step: Option<Option<Effect>>,
) -> Option<typed::ForHead>
    ensures { option_map head_tree result ≡ typed.of_three typed.a_head (option_map (λ b. for_start_tree b.value) start)
        (option_map (λ b. option_map value_tree b.value) test) (option_map (option_map effect_tree) step) }
{
    match start {
        None => None,
        Some(start) => match test {
            None => None,
            Some(test) => match step {
                None => None,
                Some(step) => Some(typed::ForHead {
                    start: Box::into_inner(start),
                    test: Box::into_inner(test),
                    step,
                }),
            },
        },
    }
}

pub(crate) fn for_loop(
    at: Pos,
    head: Option<Box<typed::ForHead>>,
    body: Option<Box<Statement>>,
) -> Option<Statement>
    ensures { option_map statement_tree result ≡ of_both (typed.for_tree at) (head_in head) (statement_in body) }
{
    match head {
        None => None,
        Some(head) => match body {
            None => None,
            Some(body) => Some(Statement::for_loop(at, head, body)),
        },
    }
}

impl<'a> Statements<'a> {
    // What a `for` begins with.
    #[tactic(auto, unfolding(pk_ast::specs::Views::for_start_tree))]
    fn start(
        &mut self,
        alloc: Global,
        start: &ForStart,
    ) -> Result<Option<typed::ForStart>, AllocError>
        ensures passed { OnOk result (passed_in self.new
            ≡ definitions.on (definitions.after_start noting.declarations (ast.for_start_tree start.now))
            (passed_in self.old)) }
        ensures tree { IfOk result (λ t. option_map for_start_tree t
            ≡ typed.start_at noting.declarations (ast.for_start_tree start.now) (passed_in self.old).walked) }
    {
        match start {
            ForStart::Declaration(d) => {
                let objects = self.walk.declaration(alloc, d)?;
                Ok(declared(objects))
            }
            ForStart::Expression(e) => {
                let effect = self.optional_effect(alloc, e)?;
                Ok(started(effect))
            }
        }
    }

    /// The parentheses of a `for`.
    pub(crate) fn head(
        &mut self,
        alloc: Global,
        head: &ForHead,
    ) -> Result<Option<Box<typed::ForHead>>, AllocError>
        ensures passed { let h = head.now in OnOk result (passed_in self.new
            ≡ definitions.on (definitions.after_head noting.declarations (ast.for_start_tree h.start)
            (option_map expression_tree h.condition) (option_map expression_tree h.step)) (passed_in self.old)) }
        ensures tree { let h = head.now in IfOk result (λ t. head_in t
            ≡ typed.head_at noting.declarations (ast.for_start_tree h.start) (option_map expression_tree h.condition)
            (option_map expression_tree h.step) (passed_in self.old).walked) }
    {
        let start = self.start(alloc, &head.start)?;
        let start = boxed(alloc, start)?;
        let test = self.optional_value(alloc, &head.condition)?;
        let test = boxed(alloc, test)?;
        let step = self.optional_effect(alloc, &head.step)?;
        boxed(alloc, head_of(start, test, step))
    }
}
