// What is known at a place of a function.

ghost use Rattle.std.specs.Prelude.{◌≡◌, option_map, is_some, IfOk, OnOk};
ghost use Rattle.pk_ast.specs.Views.{expression_tree, expression_trees};
ghost use Rattle.pk_typed.specs.Views.{value_tree, effect_tree, optional_values, local_tree};
ghost use Rattle.pk_type_scope.specs.Failures.{fails_if, noted};
ghost use Rattle.pk_type_scope.specs.Scopes.{declared_here};
ghost use Rattle.pk_type_expression.specs.Typed as typed;
ghost use Rattle.pk_type_expression.specs.Types.{type_of};
ghost use Rattle.pk_type_expression.specs.Views.{evaluated_tree};
ghost use Rattle.pk_type_declaration.specs.Rules as rules;
ghost use Rattle.pk_type_declaration.specs.Views.{walked_in};
ghost use Rattle.pk_type_declaration.specs.Walks as walks;
ghost use Rattle.pk_type_declaration.specs.Rules.{noting};

use pk_ast::{Expression, Identifier};
use pk_ctypes::{Pos, Rule};
use pk_type_expression::{Evaluated, arguments, expression, used};
use pk_type_scope::{Declaration, Notes, Scope, Typing};
use pk_typed::{Effect, FileObject, Local, Value};
use std::alloc::{AllocError, Global};

/// Objects that functions declare static. Their numbers follow those of the file's objects.
#[derive(Drop)]
pub struct Statics {
    /// How many objects the file has: the number of the first.
    pub first: usize,
    pub made: Vec<FileObject>,
}

/// The scopes around a place, and what stands before it: the failure that would be answered, the calls and the objects of its function, and static objects.
#[derive(Drop)]
pub struct Walk<'a> {
    pub scope: Scope<'a>,
    pub notes: Notes,
    pub locals: Vec<Local>,
    pub statics: Statics,
}

#[tactic(auto, unfolding(pk_type_expression::specs::Views::evaluated_tree))]
fn value_in(tree: Option<Evaluated>) -> Option<Box<Value>>
    ensures { option_map (λ v. value_tree v.value) result ≡ typed.value_of (option_map evaluated_tree tree) }
{
    match tree {
        None => None,
        Some(Evaluated::Value(value)) => Some(value),
        Some(Evaluated::Effect(_)) => None,
    }
}

impl<'a> Walk<'a> {
    /// Notes that a rule fails, where it does.
    pub fn fail_if(&mut self, fails: bool, rule: Rule, at: Pos)
        ensures { walked_in self.new ≡ rules.failing noted (fails_if fails rule at) (walked_in self.old) }
    {
        self.notes.fail_if(fails, rule, at);
    }

    /// Checks an expression whose value is used, and gives its value.
    pub fn value(&mut self, alloc: Global, e: &Expression) -> Result<Option<Box<Value>>, AllocError>
        ensures walked { OnOk result (walked_in self.new
            ≡ walks.after_value noting (expression_tree e.now) (walked_in self.old)) }
        ensures value { IfOk result (λ v. option_map (λ b. value_tree b.value) v
            ≡ walks.value_at (walked_in self.old) (expression_tree e.now)) }
    {
        let checked = used(alloc, &self.scope, &mut self.notes, e)?;
        Ok(value_in(checked.tree))
    }

    /// Checks an expression whose value is used, and gives its type and its value.
    pub fn operand(
        &mut self,
        alloc: Global,
        e: &Expression,
    ) -> Result<(Typing, Option<Box<Value>>), AllocError>
        ensures walked { OnOk result (walked_in self.new
            ≡ walks.after_value noting (expression_tree e.now) (walked_in self.old)) }
        ensures typing { IfOk result (λ r. r.0 ≡ type_of (walks.here (walked_in self.old)) (expression_tree e.now)) }
        ensures value { IfOk result (λ r. option_map (λ b. value_tree b.value) r.1
            ≡ walks.value_at (walked_in self.old) (expression_tree e.now)) }
    {
        let checked = used(alloc, &self.scope, &mut self.notes, e)?;
        let typing = checked.typing;
        Ok((typing, value_in(checked.tree)))
    }

    /// Checks an expression whose value isn't used, and gives its evaluation.
    pub fn effect(&mut self, alloc: Global, e: &Expression) -> Result<Option<Effect>, AllocError>
        ensures walked { OnOk result (walked_in self.new
            ≡ walks.after_effect noting (expression_tree e.now) (walked_in self.old)) }
        ensures effect { IfOk result (λ v. option_map effect_tree v
            ≡ walks.effect_at (walked_in self.old) (expression_tree e.now)) }
    {
        let checked = expression(alloc, &self.scope, &mut self.notes, e)?;
        Ok(checked.into_effect())
    }

    /// Checks expressions whose values are used, and gives their values.
    pub fn values(
        &mut self,
        alloc: Global,
        list: &[Expression],
    ) -> Result<Option<Vec<Value>>, AllocError>
        ensures walked { OnOk result (walked_in self.new
            ≡ walks.after_values noting (expression_trees list.now) (walked_in self.old)) }
        ensures values { IfOk result (λ v. optional_values v
            ≡ walks.values_at (walked_in self.old) (expression_trees list.now)) }
    {
        let all = arguments(alloc, &self.scope, &mut self.notes, list)?;
        Ok(all.values)
    }

    /// Declares a name in the innermost scope, and answers whether that scope had declared it before.
    pub fn declare(
        &mut self,
        name: Identifier,
        declaration: Declaration,
    ) -> Result<bool, AllocError>
        ensures again { IfOk result (λ r. r ≡ is_some (declared_here (walked_in self.old).scoping name)) }
        ensures walked { OnOk result (walked_in self.new ≡ walks.after_name name declaration (walked_in self.old)) }
    {
        let again = self.scope.declare(name, declaration)?;
        Ok(again)
    }

    /// Counts an object of the function.
    #[tactic(auto, using(crate::proofs::ListLemmas::locals_push))]
    pub fn local(&mut self, local: Local) -> Result<(), AllocError>
        ensures { OnOk result (walked_in self.new ≡ walks.with_local (local_tree local) (walked_in self.old)) }
    {
        self.locals.push(local)?;
        Ok(())
    }

    /// Opens a scope inside the innermost one.
    pub fn enter(&mut self, alloc: Global) -> Result<(), AllocError>
        ensures { OnOk result (walked_in self.new ≡ walks.entering (walked_in self.old)) }
    {
        self.scope.open(alloc)?;
        Ok(())
    }
}
