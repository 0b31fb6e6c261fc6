// Declared objects of a function.

ghost use Rattle.std.specs.Prelude.{◌≡◌, option_map, IfOk, OnOk, length};
ghost use Rattle.pk_ast.specs.Views.{expression_tree, specifiers_tree, dimensions_tree, declarator_tree, declarator_trees};
ghost use Rattle.pk_typed.specs.Views.{declared_tree, declared_trees};
ghost use Rattle.pk_type_scope.specs.declared.declarations.Declaration.TheVariants as declared;
ghost use Rattle.pk_type_scope.specs.Failures.{noted};
ghost use Rattle.pk_type_declaration.specs.Rules as rules;
ghost use Rattle.pk_type_declaration.specs.Declarations as definitions;
ghost use Rattle.pk_type_scope.specs.Specifiers.{word_failures};
ghost use Rattle.pk_type_declaration.specs.Parts.{joined};
ghost use Rattle.pk_type_declaration.specs.Views.{walked_in, declared_in};
ghost use Rattle.pk_type_declaration.specs.Walks as walks;
ghost use Rattle.pk_type_declaration.specs.Rules.{noting};

use crate::initializers::{first_value, note_braces, note_misfit};
use crate::parts::Parts;
use crate::specials::special;
use crate::walk::Walk;
use crate::words::{Words, integer_in, type_or_int};
use pk_ast::{Declarator, Dimensions, Expression, Identifier, Specifiers};
use pk_ctypes::{Name, Pos, Rule};
use pk_type_scope::{Declaration, Object, Typing, note_specifiers, spelling};
use pk_typed::{Declared, Local, Variable};
use std::alloc::{AllocError, Global};

impl<'a> Walk<'a> {
    // The columns of an array of rows, where it has them: none is typed.
    fn columns(
        &mut self,
        alloc: Global,
        at: Pos,
        columns: &Option<Expression>,
    ) -> Result<(), AllocError>
        ensures { OnOk result (walked_in self.new
            ≡ definitions.after_columns noting at (option_map expression_tree columns.now) (walked_in self.old)) }
    {
        match columns {
            None => Ok(()),
            Some(e) => {
                self.length(alloc, e)?;
                self.fail_if(true, Rule::Array, at);
                Ok(())
            }
        }
    }

    /// The dimensions of an object whose name stands at a place: gives the length of an array, where it has one.
    #[tactic(auto, unfolding(pk_ast::specs::Views::dimensions_tree))]
    pub fn dimensions(
        &mut self,
        alloc: Global,
        at: Pos,
        dimensions: &Option<Dimensions>,
    ) -> Result<Option<usize>, AllocError>
        ensures walked { OnOk result (walked_in self.new
            ≡ definitions.after_dimensions noting at (option_map dimensions_tree dimensions.now) (walked_in self.old)) }
        ensures length { IfOk result
            (λ n. n ≡ definitions.length_at (walked_in self.old) (option_map dimensions_tree dimensions.now)) }
    {
        match dimensions {
            None => Ok(None),
            Some(d) => {
                let length = self.length(alloc, &d.length)?;
                self.columns(alloc, at, &d.columns)?;
                Ok(length)
            }
        }
    }

    /// Declares the name of an object, and notes what fails at it.
    pub fn object_name(
        &mut self,
        typing: Typing,
        object: Object,
        name: Identifier,
    ) -> Result<(), AllocError>
        ensures { OnOk result (walked_in self.new
            ≡ definitions.after_object_name noting typing (declared.Object object) name (walked_in self.old)) }
    {
        let is_special = special(spelling(self.scope.text, name)).is_some();
        let is_again = self.declare(name, Declaration::Object(object))?;
        self.fail_if(is_again, Rule::Redeclared, name.at);
        self.fail_if(typing.is_void(), Rule::Void, name.at);
        self.fail_if(is_special, Rule::Special, name.at);
        Ok(())
    }

    /// Declares an object, the next of its function, and notes what fails at its name.
    #[tactic(auto, unfolding(pk_typed::specs::Views::local_tree))]
    pub fn object(
        &mut self,
        alloc: Global,
        words: Words,
        is_array: bool,
        length: Option<usize>,
        name: Identifier,
    ) -> Result<(), AllocError>
        ensures { OnOk result (walked_in self.new
            ≡ definitions.after_object noting words is_array length name (walked_in self.old)) }
    {
        let local = Local {
            name: Some(Name::new(alloc, spelling(self.scope.text, name))?),
            int_type: type_or_int(words.typing),
            length: length_or_1(is_array, length),
        };
        let object = Object {
            variable: Variable::Local(self.locals.len()),
            int_type: integer_in(words.typing),
            is_array,
            is_const: words.is_const,
        };
        self.object_name(words.typing, object, name)?;
        self.local(local)
    }

    // The part of a declarator before what its name begins with: gives its number.
    #[tactic(auto, unfolding(pk_ast::specs::Views::declarator_tree))]
    fn head(&mut self, alloc: Global, words: Words, d: &Declarator) -> Result<usize, AllocError>
        ensures walked { OnOk result (walked_in self.new
            ≡ definitions.after_head noting words (declarator_tree d.now) (walked_in self.old)) }
        ensures number { IfOk result (λ n. n ≡ length (walked_in self.old).locals) }
    {
        let number = self.locals.len();
        let is_array = d.dimensions.is_some();
        let length = self.dimensions(alloc, d.name.at, &d.dimensions)?;
        self.object(alloc, words, is_array, length, d.name)?;
        note_braces(self, is_array, &d.initializer, d.name.at);
        note_misfit(self, length, &d.initializer);
        Ok(number)
    }

    // Checks a declarator, and gives the object that it declares.
    #[tactic(auto, unfolding(pk_ast::specs::Views::declarator_tree, crate::specs::Declarations::after_declarator, crate::specs::Declarations::declarator_tree_at))]
    fn declarator(
        &mut self,
        alloc: Global,
        words: Words,
        d: &Declarator,
    ) -> Result<Option<Declared>, AllocError>
        ensures walked { OnOk result (walked_in self.new
            ≡ definitions.after_declarator noting words (declarator_tree d.now) (walked_in self.old)) }
        ensures tree { IfOk result (λ t. option_map declared_tree t
            ≡ definitions.declarator_tree_at noting words (declarator_tree d.now) (walked_in self.old)) }
    {
        let number = self.head(alloc, words, d)?;
        first_value(
            self,
            alloc,
            d.dimensions.is_some(),
            number,
            d.name.at,
            &d.initializer,
        )
    }

    /// Notes that the words name no type, where they don't.
    pub fn note_words(&mut self, words: &Specifiers)
        ensures { walked_in self.new
            ≡ rules.failing noted (word_failures (walks.here (walked_in self.old)) (specifiers_tree words.now))
            (walked_in self.old) }
    {
        note_specifiers(&mut self.notes, &self.scope, words);
    }

    /// Checks the declarators of a declaration, and adds the objects that they declare.
    pub(crate) fn declarators(
        &mut self,
        alloc: Global,
        words: Words,
        list: &[Declarator],
        all: &mut Parts<Declared>,
    ) -> Result<(), AllocError>
        ensures walked { OnOk result (walked_in self.new
            ≡ definitions.after_declarators noting words (declarator_trees list.now) (walked_in self.old)) }
        ensures trees { OnOk result (declared_in all.new
            ≡ joined (declared_in all.old)
            (definitions.declarator_trees_at noting words (declarator_trees list.now) (walked_in self.old))) }
    {
        for d in list {
            let one = self.declarator(alloc, words, d)?;
            all.add(one)?;
        }
        Ok(())
    }
}

/// The length of an array, or 1 where a failure leaves it out.
pub fn length_or_1(is_array: bool, length: Option<usize>) -> Option<usize>
    ensures { result ≡ definitions.length_or_1 is_array length }
{
    if !is_array {
        return None;
    }
    match length {
        None => Some(1),
        Some(length) => Some(length),
    }
}
