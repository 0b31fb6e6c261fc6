// What stands before a place of the file scope.

ghost use Rattle.std.specs.Prelude.{◌≡◌, ◌++◌, None, is_some, IfOk, OnOk};
ghost use Rattle.pk_ast.specs.Views.{specifiers_tree, declarator_tree, declarator_trees, braces_tree, declaration_tree};
ghost use Rattle.pk_ctypes.specs.declared.words.Rule.TheVariants as rule;
ghost use Rattle.pk_type_scope.specs.Failures.{fails_if, noted};
ghost use Rattle.pk_type_scope.specs.Specifiers.{word_failures};
ghost use Rattle.pk_type_declaration.specs.Declarations.{length_or_1, length_at};
ghost use Rattle.pk_type_declaration.specs.Enumerations.{after_words};
ghost use Rattle.pk_type_declaration.specs.Views.{walked_in};
ghost use Rattle.pk_type_declaration.specs.Walks as walks;
ghost use Rattle.pk_type_declaration.specs.Rules.{failing};
ghost use Rattle.pk_type.specs.Rules as rules;
ghost use Rattle.pk_type.specs.Files as definitions;
ghost use Rattle.pk_type.specs.Units.{nothing_filed};
ghost use Rattle.pk_type.specs.Views.{filed_in};
ghost use Rattle.pk_type.specs.Rules.{noting};

use crate::signatures::Signature;
use pk_ast::{
    Declaration as ObjectDeclaration, Declarator, Enumeration, Specifiers, Storage, StorageWord,
};
use pk_ctypes::{Name, Pos, Rule};
use pk_type_declaration::{
    Statics, Walk, Words, integer_in, length_or_1, note_braces, note_misfit, special, type_or_int,
};
use pk_type_scope::{Declaration, Notes, Object, Scope, spelling};
use pk_type_statement::Statements;
use pk_typed::{Body, FileObject, Variable};
use std::alloc::{AllocError, Global};

/// A function that was declared: whether it was defined, and its body, where that has a tree.
#[derive(Drop)]
pub struct Entry {
    pub name: Name,
    pub signature: Signature,
    pub is_defined: bool,
    pub body: Option<Body>,
}

/// The file's scope, and what stands before a place of it.
#[derive(Drop)]
pub struct File<'a> {
    pub to: Statements<'a>,
    pub objects: Vec<FileObject>,
    pub functions: Vec<Entry>,
}

fn is_extern(storage: &Option<Storage>) -> bool
    ensures { result ≡ rules.is_extern storage.now }
{
    match storage {
        None => false,
        Some(storage) => match storage.word {
            StorageWord::Extern => true,
            StorageWord::Static => false,
        },
    }
}

// Notes what fails at the name of an object.
#[tactic(auto, using(pk_type_statement::proofs::CaseLemmas::failing_twice))]
fn note_rows(
    walk: &mut Walk<'_>,
    is_again: bool,
    is_extern: bool,
    is_void: bool,
    is_special: bool,
    at: Pos,
)
    ensures { walked_in walk.new
        ≡ failing noted (fails_if is_again rule.Redeclared at ++ fails_if is_extern rule.Extern at
        ++ fails_if is_void rule.Void at ++ fails_if is_special rule.Special at) (walked_in walk.old) }
{
    walk.fail_if(is_again, Rule::Redeclared, at);
    walk.fail_if(is_extern, Rule::Extern, at);
    walk.fail_if(is_void, Rule::Void, at);
    walk.fail_if(is_special, Rule::Special, at);
}

impl<'a> File<'a> {
    /// Before a text that declares so many objects outside of functions.
    pub fn new(alloc: Global, text: &'a [u8], objects: usize) -> File<'a>
        ensures { filed_in result ≡ nothing_filed None text.now objects }
    {
        File {
            to: Statements {
                walk: Walk {
                    scope: Scope::new(alloc, text),
                    notes: Notes::new(alloc),
                    locals: Vec::new(alloc),
                    statics: Statics {
                        first: objects,
                        made: Vec::new(alloc),
                    },
                },
                cases: Vec::new(alloc),
                has_default: false,
            },
            objects: Vec::new(alloc),
            functions: Vec::new(alloc),
        }
    }

    // The next object of the file.
    fn object_of(&self, words: Words, is_array: bool) -> Declaration
        ensures { result ≡ definitions.file_object words is_array (filed_in self.now) }
    {
        Declaration::Object(Object {
            variable: Variable::File(self.objects.len()),
            int_type: integer_in(words.typing),
            is_array,
            is_const: words.is_const,
        })
    }

    // A declarator as far as what its name begins with; gives the length of an array.
    #[tactic(auto, unfolding(pk_ast::specs::Views::declarator_tree))]
    fn head(
        &mut self,
        alloc: Global,
        storage: &Option<Storage>,
        words: Words,
        d: &Declarator,
    ) -> Result<Option<usize>, AllocError>
        ensures walked { OnOk result (walked_in self.new.to.walk
            ≡ definitions.after_head noting storage.now words (declarator_tree d.now) (filed_in self.old)) }
        ensures objects { self.new.objects ≡ self.old.objects }
        ensures functions { self.new.functions ≡ self.old.functions }
        ensures length { IfOk result (λ n. n
            ≡ length_or_1 (is_some (declarator_tree d.now).dimensions)
            (length_at (filed_in self.old).walked (declarator_tree d.now).dimensions)) }
    {
        let is_array = d.dimensions.is_some();
        let object = self.object_of(words, is_array);
        let length = self.to.walk.dimensions(alloc, d.name.at, &d.dimensions)?;
        let is_special = special(spelling(self.to.walk.scope.text, d.name)).is_some();
        let is_again = self.to.walk.declare(d.name, object)?;
        note_rows(
            &mut self.to.walk,
            is_again,
            is_extern(storage),
            words.typing.is_void(),
            is_special,
            d.name.at,
        );
        note_braces(&mut self.to.walk, is_array, &d.initializer, d.name.at);
        note_misfit(&mut self.to.walk, length, &d.initializer);
        Ok(length_or_1(is_array, length))
    }

    // An object of the file.
    #[tactic(auto, using(pk_type_declaration::proofs::ListLemmas::file_objects_push), unfolding(pk_ast::specs::Views::declarator_tree, pk_typed::specs::Views::file_object_tree, crate::specs::Files::after_object))]
    fn declarator(
        &mut self,
        alloc: Global,
        storage: &Option<Storage>,
        words: Words,
        d: &Declarator,
    ) -> Result<(), AllocError>
        ensures { OnOk result (filed_in self.new
            ≡ definitions.after_object noting storage.now words (declarator_tree d.now) (filed_in self.old)) }
    {
        let name = Name::new(alloc, spelling(self.to.walk.scope.text, d.name))?;
        let int_type = type_or_int(words.typing);
        let length = self.head(alloc, storage, words, d)?;
        let start = self.to.walk.start(alloc, int_type, length, &d.initializer)?;
        self.objects.push(FileObject {
            name,
            int_type,
            start,
        })?;
        Ok(())
    }

    pub(crate) fn note_words(&mut self, words: &Specifiers)
        ensures { filed_in self.new
            ≡ definitions.on (failing noted (word_failures (walks.here (filed_in self.old).walked)
            (specifiers_tree words.now))) (filed_in self.old) }
    {
        self.to.walk.note_words(words);
    }

    // The words of a declaration.
    fn words(
        &mut self,
        alloc: Global,
        words: &Specifiers,
        enumeration: &Option<Box<Enumeration>>,
    ) -> Result<(), AllocError>
        ensures { OnOk result (filed_in self.new
            ≡ definitions.on (after_words noting.statements.declarations (specifiers_tree words.now)
            (braces_tree enumeration.now)) (filed_in self.old)) }
    {
        self.to.walk.file_words(alloc, words, enumeration)
    }

    pub(crate) fn forget_calls(&mut self, alloc: Global)
        ensures { filed_in self.new ≡ definitions.without_calls (filed_in self.old) }
    {
        self.to.walk.notes.calls = Vec::new(alloc);
    }

    // The objects of a declaration.
    fn objects(
        &mut self,
        alloc: Global,
        storage: &Option<Storage>,
        words: Words,
        list: &[Declarator],
    ) -> Result<(), AllocError>
        ensures { OnOk result (filed_in self.new
            ≡ definitions.after_objects noting storage.now words (declarator_trees list.now) (filed_in self.old)) }
    {
        for d in list {
            self.declarator(alloc, storage, words, d)?;
        }
        Ok(())
    }

    /// A declaration of the file scope.
    pub fn declaration(
        &mut self,
        alloc: Global,
        storage: &Option<Storage>,
        d: &ObjectDeclaration,
    ) -> Result<(), AllocError>
        ensures { OnOk result (filed_in self.new
            ≡ definitions.after_declaration noting storage.now (declaration_tree d.now) (filed_in self.old)) }
    {
        let words = Words::at(&self.to.walk.scope, &d.specifiers, &d.enumeration);
        self.words(alloc, &d.specifiers, &d.enumeration)?;
        self.objects(alloc, storage, words, &d.declarators)?;
        self.forget_calls(alloc);
        Ok(())
    }
}
