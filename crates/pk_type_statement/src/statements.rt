// What stands before a place of a function, and of its innermost `switch`.

ghost use Rattle.std.specs.Prelude.{◌≡◌, ◌<◌, ◌∷◌, ◌++◌, [], Option, option_map, is_some, Some, IfOk, OnOk, length};
ghost use Rattle.pk_ast.specs.Views.{expression_tree, declaration_tree};
ghost use Rattle.pk_typed.specs.Views.{value_tree, effect_tree, declared_trees};
ghost use Rattle.pk_type_scope.specs.declared.failures.Failure.{Failure};
ghost use Rattle.pk_type_expression.specs.Types.{type_of};
ghost use Rattle.pk_type_jump.specs.Views.{labels_in};
ghost use Rattle.pk_type_declaration.specs.Statics.{after_block_declaration, block_declaration_at};
ghost use Rattle.pk_type_declaration.specs.Walks as walks;
ghost use Rattle.pk_type_declaration.specs.Walks.{Walked};
ghost use Rattle.pk_type_statement.specs.Rules as rules;
ghost use Rattle.pk_type_statement.specs.Statements as definitions;
ghost use Rattle.pk_type_statement.specs.Trees as typed;
ghost use Rattle.pk_type_statement.specs.Views.{passed_in, value_in};
ghost use Rattle.pk_type_statement.specs.Rules.{noting};

use crate::boxes::unboxed;
use pk_ast::{Declaration, Expression, Identifier};
use pk_ctypes::{Pos, Rule};
use pk_type_declaration::Walk;
use pk_type_jump::Labels;
use pk_type_scope::Typing;
use pk_typed::{Declared, Effect, Value};
use std::alloc::{AllocError, Global};

/// A case of a `switch`, at its `case`. It has a value where that is a constant expression without fault.
#[derive(Clone, Copy)]
pub struct Case {
    pub at: Pos,
    pub value: Option<i128>,
}

/// What stands before a place of a function, and of its innermost `switch`.
#[derive(Drop)]
pub struct Statements<'a> {
    pub walk: Walk<'a>,
    pub cases: Vec<Case>,
    pub has_default: bool,
}

fn returns_otherwise(returns: Typing, has_value: bool) -> bool
    ensures { result ≡ rules.returns_otherwise returns has_value }
{
    match returns {
        Typing::Void => has_value,
        Typing::Integer(_) => !has_value,
        Typing::Unknown => false,
    }
}

impl<'a> Statements<'a> {
    /// Checks an expression whose value is used.
    pub(crate) fn value(
        &mut self,
        alloc: Global,
        e: &Expression,
    ) -> Result<Option<Box<Value>>, AllocError>
        ensures passed { OnOk result (passed_in self.new
            ≡ definitions.on (walks.after_value noting.declarations (expression_tree e.now)) (passed_in self.old)) }
        ensures value { IfOk result (λ v. value_in v
            ≡ walks.value_at (passed_in self.old).walked (expression_tree e.now)) }
    {
        self.walk.value(alloc, e)
    }

    /// Checks an expression whose value isn't used.
    pub(crate) fn effect(
        &mut self,
        alloc: Global,
        e: &Expression,
    ) -> Result<Option<Effect>, AllocError>
        ensures passed { OnOk result (passed_in self.new
            ≡ definitions.on (walks.after_effect noting.declarations (expression_tree e.now)) (passed_in self.old)) }
        ensures effect { IfOk result (λ v. option_map effect_tree v
            ≡ walks.effect_at (passed_in self.old).walked (expression_tree e.now)) }
    {
        self.walk.effect(alloc, e)
    }

    /// An optional value. The outer option is whether a rule lets it have a tree.
    pub(crate) fn optional_value(
        &mut self,
        alloc: Global,
        e: &Option<Expression>,
    ) -> Result<Option<Option<Value>>, AllocError>
        ensures passed { OnOk result (passed_in self.new
            ≡ definitions.on (definitions.after_optional_value noting.declarations (option_map expression_tree e.now))
            (passed_in self.old)) }
        ensures value { IfOk result (λ v. option_map (option_map value_tree) v
            ≡ typed.optional_value_at (passed_in self.old).walked (option_map expression_tree e.now)) }
    {
        match e {
            None => Ok(Some(None)),
            Some(e) => {
                let value = self.value(alloc, e)?;
                Ok(given(unboxed(value)))
            }
        }
    }

    /// An optional expression whose value isn't used.
    pub(crate) fn optional_effect(
        &mut self,
        alloc: Global,
        e: &Option<Expression>,
    ) -> Result<Option<Option<Effect>>, AllocError>
        ensures passed { OnOk result (passed_in self.new
            ≡ definitions.on (definitions.after_optional_effect noting.declarations (option_map expression_tree e.now))
            (passed_in self.old)) }
        ensures effect { IfOk result (λ v. option_map (option_map effect_tree) v
            ≡ typed.optional_effect_at (passed_in self.old).walked (option_map expression_tree e.now)) }
    {
        match e {
            None => Ok(Some(None)),
            Some(e) => {
                let effect = self.effect(alloc, e)?;
                Ok(given(effect))
            }
        }
    }

    /// The value that a function returns.
    pub(crate) fn returned(
        &mut self,
        alloc: Global,
        returns: Typing,
        at: Pos,
        e: &Option<Expression>,
    ) -> Result<Option<Option<Value>>, AllocError>
        ensures passed { OnOk result (passed_in self.new
            ≡ definitions.on (definitions.after_return noting returns at (option_map expression_tree e.now))
            (passed_in self.old)) }
        ensures value { IfOk result (λ v. option_map (option_map value_tree) v
            ≡ typed.optional_value_at (passed_in self.old).walked (option_map expression_tree e.now)) }
    {
        let fails = returns_otherwise(returns, e.is_some());
        self.walk.fail_if(fails, Rule::Return, at);
        self.optional_value(alloc, e)
    }

    /// A case, whose number is how many were before it.
    pub(crate) fn case(&mut self, alloc: Global, at: Pos, e: &Expression) -> Result<(), AllocError>
        ensures { OnOk result (passed_in self.new
            ≡ definitions.with_case noting.declarations at (expression_tree e.now) (passed_in self.old)) }
    {
        let evaluated = self.walk.constant(alloc, e)?;
        self.cases.push(Case {
            at,
            value: evaluated.number(),
        })?;
        Ok(())
    }

    /// A default.
    pub(crate) fn default(&mut self)
        ensures { passed_in self.new ≡ definitions.with_default (passed_in self.old) }
    {
        self.has_default = true;
    }

    /// Checks an expression whose value is used, and gives its type too.
    pub(crate) fn operand(
        &mut self,
        alloc: Global,
        e: &Expression,
    ) -> Result<(Typing, Option<Box<Value>>), AllocError>
        ensures passed { OnOk result (passed_in self.new
            ≡ definitions.on (walks.after_value noting.declarations (expression_tree e.now)) (passed_in self.old)) }
        ensures typing { IfOk result (λ r. r.0
            ≡ type_of (walks.here (passed_in self.old).walked) (expression_tree e.now)) }
        ensures value { IfOk result (λ r. value_in r.1
            ≡ walks.value_at (passed_in self.old).walked (expression_tree e.now)) }
    {
        self.walk.operand(alloc, e)
    }

    /// Checks a declaration of a block, which may have `static` at a place.
    pub(crate) fn declaration(
        &mut self,
        alloc: Global,
        is_static: Option<Pos>,
        d: &Declaration,
    ) -> Result<Option<Vec<Declared>>, AllocError>
        ensures passed { OnOk result (passed_in self.new
            ≡ definitions.on (after_block_declaration noting.declarations is_static (declaration_tree d.now))
            (passed_in self.old)) }
        ensures trees { IfOk result (λ t. option_map (λ v. declared_trees v.items) t
            ≡ block_declaration_at noting.declarations is_static (declaration_tree d.now) (passed_in self.old).walked) }
    {
        self.walk.block_declaration(alloc, is_static, d)
    }

    /// The number of a label.
    pub(crate) fn label(&self, labels: &Labels<'_>, name: Identifier) -> Option<usize>
        ensures { result ≡ typed.label_at (labels_in labels.now) (passed_in self.now).walked name }
    {
        match labels.lookup(self.walk.scope.text, name) {
            None => None,
            Some(label) => Some(label.number),
        }
    }

    /// Leaves a scope. What was around it is as it was.
    pub(crate) fn leave(&mut self)
        requires { 0 < length (passed_in self.old).walked.scoping.outer }
        ensures { (before : Walked (Option Failure)) →
            (passed_in self.old).walked.scoping.outer ≡ before.scoping.outer ++ before.scoping.inner ∷ []
            → (passed_in self.old).walked.scoping.text ≡ before.scoping.text →
            passed_in self.new ≡ definitions.on (walks.leaving before) (passed_in self.old) }
    {
        self.walk.scope.close();
    }

    /// Opens a scope.
    pub(crate) fn enter(&mut self, alloc: Global) -> Result<(), AllocError>
        ensures { OnOk result (passed_in self.new ≡ definitions.inside (passed_in self.old)) }
    {
        self.walk.enter(alloc)
    }
}

// What there is, if there is something: the outer option says whether it has a tree.
fn given<T: Drop>(value: Option<T>) -> Option<Option<T>>
    ensures { result ≡ option_map Some value }
{
    match value {
        None => None,
        Some(value) => Some(Some(value)),
    }
}
