// Enumerations, and the words of a declaration.

ghost use Rattle.std.specs.Prelude.{◌≡◌, ◌++◌, Some, option_map, IfOk, OnOk};
ghost use Rattle.pk_ast.specs.Views.{
  expression_tree,
  specifiers_tree,
  enumerator_tree,
  enumerator_trees,
  enumeration_tree,
  braces_tree,
};
ghost use Rattle.pk_ctypes.specs.declared.types.IntType.TheVariants.{Int};
ghost use Rattle.pk_ctypes.specs.Types.{is_in_type};
ghost use Rattle.pk_typed.specs.Views.{declared_trees};
ghost use Rattle.pk_type_declaration.specs.Rules as rules;
ghost use Rattle.pk_type_declaration.specs.Enumerations as definitions;
ghost use Rattle.pk_type_declaration.specs.Views.{walked_in};
ghost use Rattle.pk_type_declaration.specs.Walks as walks;
ghost use Rattle.pk_type_declaration.specs.Rules.{noting};

use crate::specials::special;
use crate::walk::Walk;
use pk_ast::{Enumeration, Enumerator, Expression, Identifier, Specifiers};
use pk_ctypes::{IntType, Pos, Rule};
use pk_type_scope::{Declaration, NamedType, Typing, spelling, type_name_among};
use pk_typed::Declared;
use std::alloc::{AllocError, Global};

fn is_int(number: i128) -> bool
    ensures { result ≡ is_in_type Int number }
{
    -2147483648 <= number && number <= 2147483647
}

fn int_in(number: Option<i128>) -> Option<i32>
    ensures { result ≡ definitions.int_in number }
{
    match number {
        None => None,
        Some(number) => if is_int(number) {
            Some(number as i32)
        } else {
            None
        },
    }
}

/// Whether a number isn't one of int.
pub(crate) fn is_beyond(number: Option<i128>) -> bool
    ensures { result ≡ rules.is_beyond number }
{
    match number {
        None => false,
        Some(number) => !is_int(number),
    }
}

// One more than the value before, where that is known.
fn next_number(value: Option<i32>) -> Option<i128>
    ensures { result ≡ definitions.next_number value }
{
    match value {
        None => None,
        Some(value) => Some(i128::from(value) + 1),
    }
}

// What a constant of a name hides, where that is an object.
fn hidden(declared: Option<Declaration>, at: Pos, all: &mut Vec<Declared>) -> Result<(), AllocError>
    ensures { OnOk result (declared_trees all.new.items
        ≡ declared_trees all.old.items ++ definitions.hidden declared at) }
{
    match declared {
        None => Ok(()),
        Some(Declaration::Object(object)) => {
            all.push(Declared::hiding(object.variable, at))?;
            Ok(())
        }
        Some(Declaration::Function(_)) => Ok(()),
        Some(Declaration::Enumerator(_)) => Ok(()),
        Some(Declaration::TypeName(_)) => Ok(()),
    }
}

impl<'a> Walk<'a> {
    // Declares a tag, if there is one.
    fn tag(&mut self, tag: Option<Identifier>) -> Result<(), AllocError>
        ensures { OnOk result (walked_in self.new ≡ definitions.after_tag noting tag (walked_in self.old)) }
    {
        match tag {
            None => Ok(()),
            Some(name) => {
                let named = NamedType {
                    typing: Typing::Integer(IntType::Int),
                    is_const: false,
                };
                let is_again = self.declare(name, Declaration::TypeName(named))?;
                self.fail_if(is_again, Rule::Redeclared, name.at);
                Ok(())
            }
        }
    }

    // The value of an enumerator, where it is known and an int.
    fn enumerator_value(
        &mut self,
        alloc: Global,
        next: Option<i128>,
        name: Identifier,
        value: &Option<Expression>,
    ) -> Result<Option<i32>, AllocError>
        ensures walked { OnOk result (walked_in self.new
            ≡ definitions.after_enumerator_value noting next name (option_map expression_tree value.now)
            (walked_in self.old)) }
        ensures value { IfOk result (λ n. n
            ≡ definitions.enumerator_value (walked_in self.old) next (option_map expression_tree value.now)) }
    {
        match value {
            None => {
                self.fail_if(is_beyond(next), Rule::Constant, name.at);
                Ok(int_in(next))
            }
            Some(e) => {
                let evaluated = self.evaluate(alloc, e)?;
                self.fail_if(
                    evaluated.is_refused_enumerator(),
                    Rule::Constant,
                    e.first_place(),
                );
                Ok(int_in(evaluated.number()))
            }
        }
    }

    // Declares an enumerator, and notes what fails at its name.
    fn enumerator_name(&mut self, value: Option<i32>, name: Identifier) -> Result<(), AllocError>
        ensures { OnOk result
            (walked_in self.new ≡ definitions.after_enumerator_name noting value name (walked_in self.old)) }
    {
        let is_special = special(spelling(self.scope.text, name)).is_some();
        let is_again = self.declare(name, Declaration::Enumerator(value))?;
        self.fail_if(is_again, Rule::Redeclared, name.at);
        self.fail_if(is_special, Rule::Special, name.at);
        Ok(())
    }

    // Checks an enumerator, and gives its value.
    #[tactic(auto, unfolding(pk_ast::specs::Views::enumerator_tree))]
    fn enumerator(
        &mut self,
        alloc: Global,
        next: Option<i128>,
        x: &Enumerator,
    ) -> Result<Option<i32>, AllocError>
        ensures walked { OnOk result (walked_in self.new
            ≡ definitions.after_enumerator noting next (enumerator_tree x.now) (walked_in self.old)) }
        ensures value { IfOk result (λ n. n
            ≡ definitions.enumerator_value (walked_in self.old) next (enumerator_tree x.now).value) }
    {
        let value = self.enumerator_value(alloc, next, x.name, &x.value)?;
        self.enumerator_name(value, x.name)?;
        Ok(value)
    }

    // Checks an enumerator, adds what it hides, and gives the number of the next.
    #[tactic(auto, unfolding(pk_ast::specs::Views::enumerator_tree))]
    fn next_enumerator(
        &mut self,
        alloc: Global,
        next: Option<i128>,
        x: &Enumerator,
        all: &mut Vec<Declared>,
    ) -> Result<Option<i128>, AllocError>
        ensures walked { OnOk result (walked_in self.new
            ≡ definitions.after_enumerator noting next (enumerator_tree x.now) (walked_in self.old)) }
        ensures next { IfOk result (λ n. n ≡ definitions.next_number
            (definitions.enumerator_value (walked_in self.old) next (enumerator_tree x.now).value)) }
        ensures trees { OnOk result (declared_trees all.new.items
            ≡ declared_trees all.old.items
            ++ definitions.hidden (walks.here (walked_in self.old) (enumerator_tree x.now).name)
            (enumerator_tree x.now).name.at) }
    {
        hidden(self.scope.lookup(x.name), x.name.at, all)?;
        let value = self.enumerator(alloc, next, x)?;
        Ok(next_number(value))
    }

    // Checks enumerators, and adds what they hide.
    fn enumerators(
        &mut self,
        alloc: Global,
        next: Option<i128>,
        list: &[Enumerator],
        all: &mut Vec<Declared>,
    ) -> Result<(), AllocError>
        ensures walked { OnOk result (walked_in self.new
            ≡ definitions.after_enumerators noting next (enumerator_trees list.now) (walked_in self.old)) }
        ensures trees { OnOk result (declared_trees all.new.items
            ≡ declared_trees all.old.items
            ++ definitions.hidden_by noting next (enumerator_trees list.now) (walked_in self.old)) }
    {
        let mut next = next;
        for x in list {
            next = self.next_enumerator(alloc, next, x, all)?;
        }
        Ok(())
    }

    // Checks an enumeration, and adds what its constants hide.
    fn enumeration(
        &mut self,
        alloc: Global,
        words: &Specifiers,
        e: &Enumeration,
        all: &mut Vec<Declared>,
    ) -> Result<(), AllocError>
        ensures walked { OnOk result (walked_in self.new
            ≡ definitions.after_words noting (specifiers_tree words.now) (Some (enumeration_tree e.now))
            (walked_in self.old)) }
        ensures trees { OnOk result (declared_trees all.new.items
            ≡ declared_trees all.old.items
            ++ definitions.word_trees_at noting (specifiers_tree words.now) (Some (enumeration_tree e.now))
            (walked_in self.old)) }
    {
        self.tag(type_name_among(words))?;
        let next = self.next_enumerator(alloc, Some(0), &e.first, all)?;
        self.enumerators(alloc, next, &e.more, all)?;
        Ok(())
    }

    /// Checks the words of a declaration, and gives what the constants of their enumeration hide.
    #[tactic(auto, unfolding(crate::specs::Enumerations::after_words, crate::specs::Enumerations::word_trees_at))]
    pub fn words(
        &mut self,
        alloc: Global,
        words: &Specifiers,
        enumeration: &Option<Box<Enumeration>>,
    ) -> Result<Vec<Declared>, AllocError>
        ensures walked { OnOk result (walked_in self.new
            ≡ definitions.after_words noting (specifiers_tree words.now) (braces_tree enumeration.now)
            (walked_in self.old)) }
        ensures trees { IfOk result (λ v. declared_trees v.items
            ≡ definitions.word_trees_at noting (specifiers_tree words.now) (braces_tree enumeration.now)
            (walked_in self.old)) }
    {
        let mut all = Vec::new(alloc);
        match enumeration {
            None => self.note_words(words),
            Some(e) => self.enumeration(alloc, words, e, &mut all)?,
        }
        Ok(all)
    }

    /// Checks the words of a declaration outside of functions, where what is hidden has no tree.
    pub fn file_words(
        &mut self,
        alloc: Global,
        words: &Specifiers,
        enumeration: &Option<Box<Enumeration>>,
    ) -> Result<(), AllocError>
        ensures { OnOk result (walked_in self.new
            ≡ definitions.after_words noting (specifiers_tree words.now) (braces_tree enumeration.now)
            (walked_in self.old)) }
    {
        self.words(alloc, words, enumeration)?;
        Ok(())
    }
}
