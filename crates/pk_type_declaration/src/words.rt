// What the words of a declaration say of its names.

ghost use Rattle.std.specs.Prelude.{◌≡◌, ◌||◌};
ghost use Rattle.pk_ast.specs.Views.{specifiers_tree, enumeration_tree, braces_tree};
ghost use Rattle.pk_type_declaration.specs.Declarations as definitions;
ghost use Rattle.pk_type_declaration.specs.Enumerations as enumerations;
ghost use Rattle.pk_type_scope.specs.Specifiers.{is_const_among, has_const};
ghost use Rattle.pk_type_scope.specs.Scopes.{names_in, scoping_of};

use pk_ast::{Enumeration, Specifiers};
use pk_ctypes::IntType;
use pk_type_scope::{Scope, Typing, has_const, is_const, is_const_among, type_named};

/// The type that the words of a declaration name, and whether it is that of const objects.
#[derive(Clone, Copy)]
pub struct Words {
    pub typing: Typing,
    pub is_const: bool,
}

// Whether `const` stands on either side of the braces of an enumeration.
#[tactic(auto, unfolding(pk_ast::specs::Views::enumeration_tree))]
fn is_const_around(words: &Specifiers, e: &Enumeration) -> bool
    ensures { result
        ≡ (is_const_among (specifiers_tree words.now) || has_const (enumeration_tree e.now).qualifiers) }
{
    is_const_among(words) || has_const(&e.qualifiers)
}

impl Words {
    pub fn of(scope: &Scope<'_>, words: &Specifiers) -> Words
        ensures { result ≡ definitions.words_of (names_in (scoping_of scope.now)) (specifiers_tree words.now) }
    {
        Words {
            typing: type_named(scope, words),
            is_const: is_const(scope, words),
        }
    }

    /// Those of a declaration, which may end with an enumeration.
    pub fn at(
        scope: &Scope<'_>,
        words: &Specifiers,
        enumeration: &Option<Box<Enumeration>>,
    ) -> Words
        ensures { result ≡ enumerations.words_at (names_in (scoping_of scope.now)) (specifiers_tree words.now)
            (braces_tree enumeration.now) }
    {
        match enumeration {
            None => Words::of(scope, words),
            Some(e) => Words {
                typing: Typing::Integer(IntType::Int),
                is_const: is_const_around(words, e),
            },
        }
    }
}

/// The integer type, where it is one.
pub fn integer_in(typing: Typing) -> Option<IntType>
    ensures { result ≡ definitions.integer_in typing }
{
    match typing {
        Typing::Void => None,
        Typing::Integer(int_type) => Some(int_type),
        Typing::Unknown => None,
    }
}

/// The integer type, or int where a failure leaves it out.
pub fn type_or_int(typing: Typing) -> IntType
    ensures { result ≡ definitions.type_or_int typing }
{
    match typing {
        Typing::Void => IntType::Int,
        Typing::Integer(int_type) => int_type,
        Typing::Unknown => IntType::Int,
    }
}
