// Declarations of type names.

ghost use Rattle.std.specs.Prelude.{◌≡◌, OnOk};
ghost use Rattle.pk_ast.specs.Views.{typedef_tree};
ghost use Rattle.pk_type_declaration.specs.Rules as declarations;
ghost use Rattle.pk_type_declaration.specs.Views.{walked_in};
ghost use Rattle.pk_type.specs.Files as files;
ghost use Rattle.pk_type.specs.TypeNames as definitions;
ghost use Rattle.pk_type.specs.Views.{filed_in};

use crate::files::File;
use pk_ast::{Identifier, Typedef};
use pk_ctypes::Rule;
use pk_type_declaration::{Walk, Words, special};
use pk_type_scope::{Declaration, NamedType, spelling};
use std::alloc::{AllocError, Global};

fn named_type(words: Words) -> NamedType
    ensures { result ≡ definitions.named_type words }
{
    NamedType {
        typing: words.typing,
        is_const: words.is_const,
    }
}

// A declared name.
fn type_name(walk: &mut Walk<'_>, named: NamedType, name: Identifier) -> Result<(), AllocError>
    ensures { OnOk result
        (walked_in walk.new ≡ definitions.after_type_name declarations.noting named name (walked_in walk.old)) }
{
    let is_special = special(spelling(walk.scope.text, name)).is_some();
    let is_again = walk.declare(name, Declaration::TypeName(named))?;
    walk.fail_if(is_again, Rule::Redeclared, name.at);
    walk.fail_if(is_special, Rule::Special, name.at);
    Ok(())
}

// The other names of a declaration.
fn more(walk: &mut Walk<'_>, named: NamedType, list: &[Identifier]) -> Result<(), AllocError>
    ensures { OnOk result
        (walked_in walk.new ≡ definitions.after_type_names declarations.noting named list.now (walked_in walk.old)) }
{
    for name in list {
        type_name(walk, named, *name)?;
    }
    Ok(())
}

// A declaration of type names.
fn typedef(alloc: Global, walk: &mut Walk<'_>, d: &Typedef) -> Result<(), AllocError>
    ensures { OnOk result
        (walked_in walk.new ≡ definitions.after_typedef declarations.noting (typedef_tree d.now) (walked_in walk.old)) }
{
    let words = Words::at(&walk.scope, &d.specifiers, &d.enumeration);
    let named = named_type(words);
    walk.file_words(alloc, &d.specifiers, &d.enumeration)?;
    type_name(walk, named, d.first)?;
    more(walk, named, &d.more)?;
    Ok(())
}

impl<'a> File<'a> {
    /// A declaration of type names.
    pub fn typedef(&mut self, alloc: Global, d: &Typedef) -> Result<(), AllocError>
        ensures { OnOk result (filed_in self.new ≡ files.without_calls
            (files.on (definitions.after_typedef declarations.noting (typedef_tree d.now)) (filed_in self.old))) }
    {
        typedef(alloc, &mut self.to.walk, d)?;
        self.forget_calls(alloc);
        Ok(())
    }
}
