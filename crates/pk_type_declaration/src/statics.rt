// Objects that functions declare static, and declarations of blocks.

ghost use Rattle.std.specs.Prelude.{◌≡◌, ◌+◌, ◌++◌, is_some, option_map, length, IfOk, OnOk};
ghost use Rattle.pk_ast.specs.Views.{declarator_tree, declarator_trees, declaration_tree};
ghost use Rattle.pk_typed.specs.Views.{file_object_tree, declared_tree, declared_trees};
ghost use Rattle.pk_type_declaration.specs.Declarations.{length_at, length_or_1};
ghost use Rattle.pk_type_declaration.specs.Statics as definitions;
ghost use Rattle.pk_type_declaration.specs.Views.{walked_in};
ghost use Rattle.pk_type_declaration.specs.Walks as walks;
ghost use Rattle.pk_type_declaration.specs.Rules.{noting};

use crate::declarators::length_or_1;
use crate::initializers::{note_braces, note_misfit};
use crate::parts::Parts;
use crate::walk::Walk;
use crate::words::{Words, integer_in, type_or_int};
use pk_ast::{Declaration, Declarator};
use pk_ctypes::{Name, Pos};
use pk_type_scope::{Object, spelling};
use pk_typed::{Declared, FileObject, Variable};
use std::alloc::{AllocError, Global};

impl<'a> Walk<'a> {
    // The number of the next static object. One that memory can't count is want of memory.
    fn next_static(&self) -> Result<usize, AllocError>
        ensures { IfOk result (λ n. n ≡ definitions.next_static (walked_in self.now)) }
    {
        match self.statics.first.checked_add(self.statics.made.len()) {
            Some(number) => Ok(number),
            None => Err(AllocError),
        }
    }

    // Counts a static object.
    #[tactic(auto, using(crate::proofs::ListLemmas::file_objects_push))]
    fn static_made(&mut self, object: FileObject) -> Result<(), AllocError>
        ensures { OnOk result
            (walked_in self.new ≡ walks.with_static (file_object_tree object) (walked_in self.old)) }
    {
        self.statics.made.push(object)?;
        Ok(())
    }

    // The part of a declarator before what its name begins with; gives the length of an array.
    #[tactic(auto, unfolding(pk_ast::specs::Views::declarator_tree))]
    fn static_head(
        &mut self,
        alloc: Global,
        words: Words,
        number: usize,
        d: &Declarator,
    ) -> Result<Option<usize>, AllocError>
        requires { number ≡ definitions.next_static (walked_in self.old) }
        ensures walked { OnOk result (walked_in self.new
            ≡ definitions.after_static_head noting words (declarator_tree d.now) (walked_in self.old)) }
        ensures length { IfOk result (λ n. n
            ≡ length_or_1 (is_some (declarator_tree d.now).dimensions)
            (length_at (walked_in self.old) (declarator_tree d.now).dimensions)) }
    {
        let is_array = d.dimensions.is_some();
        let object = Object {
            variable: Variable::File(number),
            int_type: integer_in(words.typing),
            is_array,
            is_const: words.is_const,
        };
        let length = self.dimensions(alloc, d.name.at, &d.dimensions)?;
        self.object_name(words.typing, object, d.name)?;
        note_braces(self, is_array, &d.initializer, d.name.at);
        note_misfit(self, length, &d.initializer);
        Ok(length_or_1(is_array, length))
    }

    // Checks a declarator, and gives the object that it declares.
    #[tactic(auto, unfolding(pk_ast::specs::Views::declarator_tree, pk_typed::specs::Views::file_object_tree, crate::specs::Statics::after_static))]
    fn static_declarator(
        &mut self,
        alloc: Global,
        words: Words,
        d: &Declarator,
    ) -> Result<Declared, AllocError>
        ensures walked { OnOk result (walked_in self.new
            ≡ definitions.after_static noting words (declarator_tree d.now) (walked_in self.old)) }
        ensures tree { IfOk result (λ t. declared_tree t
            ≡ definitions.static_tree_at (declarator_tree d.now) (walked_in self.old)) }
    {
        let name = Name::new(alloc, spelling(self.scope.text, d.name))?;
        let int_type = type_or_int(words.typing);
        let number = self.next_static()?;
        let length = self.static_head(alloc, words, number, d)?;
        let start = self.start(alloc, int_type, length, &d.initializer)?;
        self.static_made(FileObject {
            name,
            int_type,
            start,
        })?;
        Ok(Declared::static_object(number, d.name.at))
    }

    // Checks the declarators of a declaration.
    fn static_declarators(
        &mut self,
        alloc: Global,
        words: Words,
        list: &[Declarator],
        all: &mut Vec<Declared>,
    ) -> Result<(), AllocError>
        ensures walked { OnOk result (walked_in self.new
            ≡ definitions.after_statics noting words (declarator_trees list.now) (walked_in self.old)) }
        ensures trees { OnOk result (declared_trees all.new.items
            ≡ declared_trees all.old.items
            ++ definitions.static_trees_at noting words (declarator_trees list.now) (walked_in self.old)) }
    {
        for d in list {
            let one = self.static_declarator(alloc, words, d)?;
            all.push(one)?;
        }
        Ok(())
    }

    /// Checks a declaration, and gives the objects that it declares.
    #[tactic(auto, unfolding(pk_ast::specs::Views::declaration_tree, crate::specs::Statics::after_declaration))]
    pub fn declaration(
        &mut self,
        alloc: Global,
        d: &Declaration,
    ) -> Result<Option<Vec<Declared>>, AllocError>
        ensures walked { OnOk result (walked_in self.new
            ≡ definitions.after_declaration noting (declaration_tree d.now) (walked_in self.old)) }
        ensures trees { IfOk result (λ t. option_map (λ v. declared_trees v.items) t
            ≡ definitions.declaration_trees_at noting (declaration_tree d.now) (walked_in self.old)) }
    {
        let words = Words::at(&self.scope, &d.specifiers, &d.enumeration);
        let hidden = self.words(alloc, &d.specifiers, &d.enumeration)?;
        let mut all = Parts::of(hidden);
        self.declarators(alloc, words, &d.declarators, &mut all)?;
        Ok(all.whole())
    }

    // Checks a declaration that has `static`, and gives the objects that it declares.
    #[tactic(auto, unfolding(pk_ast::specs::Views::declaration_tree, crate::specs::Statics::after_static_declaration))]
    fn static_declaration(
        &mut self,
        alloc: Global,
        d: &Declaration,
    ) -> Result<Vec<Declared>, AllocError>
        ensures walked { OnOk result (walked_in self.new
            ≡ definitions.after_static_declaration noting (declaration_tree d.now) (walked_in self.old)) }
        ensures trees { IfOk result (λ v. declared_trees v.items
            ≡ definitions.static_declaration_at noting (declaration_tree d.now) (walked_in self.old)) }
    {
        let words = Words::at(&self.scope, &d.specifiers, &d.enumeration);
        let mut all = self.words(alloc, &d.specifiers, &d.enumeration)?;
        self.static_declarators(alloc, words, &d.declarators, &mut all)?;
        Ok(all)
    }

    /// Checks a declaration of a block, which may have `static` at a place, and gives the objects that it declares.
    pub fn block_declaration(
        &mut self,
        alloc: Global,
        is_static: Option<Pos>,
        d: &Declaration,
    ) -> Result<Option<Vec<Declared>>, AllocError>
        ensures walked { OnOk result (walked_in self.new
            ≡ definitions.after_block_declaration noting is_static (declaration_tree d.now) (walked_in self.old)) }
        ensures trees { IfOk result (λ t. option_map (λ v. declared_trees v.items) t
            ≡ definitions.block_declaration_at noting is_static (declaration_tree d.now) (walked_in self.old)) }
    {
        match is_static {
            None => self.declaration(alloc, d),
            Some(_) => {
                let objects = self.static_declaration(alloc, d)?;
                Ok(Some(objects))
            }
        }
    }
}
