// Constant expressions where the grammar alone doesn't ask for them.

ghost use Rattle.std.specs.Prelude.{◌≡◌, ◌||◌, option_map, IfOk, OnOk};
ghost use Rattle.pk_ast.specs.Views.{expression_tree};
ghost use Rattle.pk_typed.specs.Views.{value_tree};
ghost use Rattle.pk_type_declaration.specs.Rules as rules;
ghost use Rattle.pk_type_declaration.specs.Constants as definitions;
ghost use Rattle.pk_type_declaration.specs.Enumerations as enumerations;
ghost use Rattle.pk_type_declaration.specs.Views.{walked_in};
ghost use Rattle.pk_type_declaration.specs.Walks as walks;
ghost use Rattle.pk_type_declaration.specs.Rules.{noting};

use crate::enumerations::is_beyond;
use crate::walk::Walk;
use pk_ast::Expression;
use pk_ctypes::Rule;
use pk_type_constant::{Constant, constant_value, is_constant_form};
use pk_typed::Value;
use std::alloc::{AllocError, Global};

/// An expression that has to be constant: whether it has the form of one, and what it gives.
#[derive(Clone, Copy)]
pub struct Evaluated {
    pub is_form: bool,
    pub constant: Constant,
}

fn given_by(value: &Option<Box<Value>>) -> Constant
    ensures { result ≡ definitions.given_by (option_map (λ b. value_tree b.value) value.now) }
{
    match value {
        None => Constant::NotConstant,
        Some(value) => constant_value(value),
    }
}

fn is_faulty(constant: Constant) -> bool
    ensures { result ≡ definitions.is_faulty constant }
{
    match constant {
        Constant::Number(_) => false,
        Constant::Faulty(_) => true,
        Constant::NotConstant => false,
    }
}

// The most elements of an array.
const LENGTH_LIMIT: i128 = 1048576;

fn is_length(number: i128) -> bool
    ensures { result ≡ definitions.is_length number }
{
    1 <= number && number <= LENGTH_LIMIT
}

fn is_outside(constant: Constant) -> bool
    ensures { result ≡ definitions.is_outside constant }
{
    match constant {
        Constant::Number(number) => !is_length(number),
        Constant::Faulty(_) => true,
        Constant::NotConstant => false,
    }
}

fn either(a: bool, b: bool) -> bool
    ensures { result ≡ (a || b) }
{
    a || b
}

impl Evaluated {
    /// Whether it isn't a constant expression, or has a fault.
    fn is_refused(self) -> bool
        ensures { result ≡ definitions.is_refused self }
    {
        either(!self.is_form, is_faulty(self.constant))
    }

    /// Whether it is no length of an array.
    fn is_refused_length(self) -> bool
        ensures { result ≡ definitions.is_refused_length self }
    {
        either(!self.is_form, is_outside(self.constant))
    }

    /// Whether it is no value of an enumerator.
    pub(crate) fn is_refused_enumerator(self) -> bool
        ensures { result ≡ rules.is_refused_enumerator self }
    {
        either(self.is_refused(), is_beyond(self.number()))
    }

    /// Its number, where nothing is refused.
    pub fn number(self) -> Option<i128>
        ensures { result ≡ definitions.number_in self }
    {
        if self.is_refused() {
            return None;
        }
        match self.constant {
            Constant::Number(number) => Some(number),
            Constant::Faulty(_) => None,
            Constant::NotConstant => None,
        }
    }

    /// The length, where it is one.
    pub fn length(self) -> Option<usize>
        ensures { result ≡ definitions.length_in self }
    {
        if self.is_refused_length() {
            return None;
        }
        match self.constant {
            Constant::Number(number) => Some(number as usize),
            Constant::Faulty(_) => None,
            Constant::NotConstant => None,
        }
    }
}

impl<'a> Walk<'a> {
    /// What an expression gives that has to be constant.
    pub(crate) fn evaluate(
        &mut self,
        alloc: Global,
        e: &Expression,
    ) -> Result<Evaluated, AllocError>
        ensures walked { OnOk result (walked_in self.new
            ≡ walks.after_value noting (expression_tree e.now) (walked_in self.old)) }
        ensures evaluated { IfOk result (λ v. v ≡ definitions.evaluated (walked_in self.old) (expression_tree e.now)) }
    {
        let is_form = is_constant_form(&self.scope, e);
        let value = self.value(alloc, e)?;
        Ok(Evaluated {
            is_form,
            constant: given_by(&value),
        })
    }

    /// Checks an expression that has to be constant.
    pub fn constant(&mut self, alloc: Global, e: &Expression) -> Result<Evaluated, AllocError>
        ensures walked { OnOk result (walked_in self.new
            ≡ definitions.after_constant noting (expression_tree e.now) (walked_in self.old)) }
        ensures evaluated { IfOk result (λ v. v ≡ definitions.evaluated (walked_in self.old) (expression_tree e.now)) }
    {
        let evaluated = self.evaluate(alloc, e)?;
        self.fail_if(evaluated.is_refused(), Rule::Constant, e.first_place());
        Ok(evaluated)
    }

    /// Checks the length of an array.
    pub fn length(&mut self, alloc: Global, e: &Expression) -> Result<Option<usize>, AllocError>
        ensures walked { OnOk result (walked_in self.new
            ≡ definitions.after_length noting (expression_tree e.now) (walked_in self.old)) }
        ensures length { IfOk result (λ n. n
            ≡ definitions.length_in (definitions.evaluated (walked_in self.old) (expression_tree e.now))) }
    {
        let evaluated = self.evaluate(alloc, e)?;
        self.fail_if(
            evaluated.is_refused_length(),
            Rule::Constant,
            e.first_place(),
        );
        Ok(evaluated.length())
    }
}
