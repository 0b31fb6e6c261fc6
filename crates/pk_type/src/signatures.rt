// The types of functions.

ghost use Rattle.std.specs.Prelude.{◌≡◌, ◌&&◌, ◌||◌, IfOk};
ghost use Rattle.std.specs.List.{list_any, zip};
ghost use Rattle.pk_ast.specs.Views.{parameter_trees};
ghost use Rattle.pk_type.specs.Rules as rules;
ghost use Rattle.pk_type.specs.Signatures as definitions;
ghost use Rattle.pk_type.specs.Views.{signature_tree};
ghost use Rattle.pk_type_scope.specs.Scopes.{names_in, scoping_of};

use pk_ast::Parameter;
use pk_ctypes::IntType;
use pk_type_scope::{Callee, Scope, Typing, type_named};
use std::alloc::{AllocError, Global};

/// What a function returns, and the types of its parameters.
#[derive(Drop)]
pub struct Signature {
    pub returns: Typing,
    pub parameters: Vec<Typing>,
}

fn number_of(int_type: IntType) -> u8
    ensures { result ≡ rules.number_of int_type }
{
    match int_type {
        IntType::Char => 0,
        IntType::SChar => 1,
        IntType::UChar => 2,
        IntType::Short => 3,
        IntType::UShort => 4,
        IntType::Int => 5,
        IntType::UInt => 6,
        IntType::Long => 7,
        IntType::ULong => 8,
        IntType::LLong => 9,
        IntType::ULLong => 10,
    }
}

// Whether two types differ. One that a failure leaves out differs from none.
fn differ(a: Typing, b: Typing) -> bool
    ensures { result ≡ rules.differ a b }
{
    match a {
        Typing::Unknown => false,
        Typing::Void => match b {
            Typing::Unknown => false,
            Typing::Void => false,
            Typing::Integer(_) => true,
        },
        Typing::Integer(t) => match b {
            Typing::Unknown => false,
            Typing::Void => true,
            Typing::Integer(u) => number_of(t) != number_of(u),
        },
    }
}

fn some_differ(a: &[Typing], b: &[Typing]) -> bool
    ensures { result ≡ list_any (λ p. rules.differ p.0 p.1) (zip a.now b.now) }
{
    a.iter().zip(b.iter()).any(|(t, u)| differ(*t, *u))
}

fn is_integer(typing: Typing) -> bool
    ensures { result ≡ rules.is_integer typing }
{
    match typing {
        Typing::Void => false,
        Typing::Integer(_) => true,
        Typing::Unknown => false,
    }
}

fn are_integers(list: &[Typing]) -> bool
    ensures { result ≡ rules.are_integers list.now }
{
    list.iter().all(|typing| is_integer(*typing))
}

fn both(a: bool, b: bool) -> bool
    ensures { result ≡ (a && b) }
{
    a && b
}

fn either(a: bool, b: bool) -> bool
    ensures { result ≡ (a || b) }
{
    a || b
}

// Whether two lists of types differ in number or somewhere.
fn all_differ(a: &[Typing], b: &[Typing]) -> bool
    ensures { result ≡ rules.all_differ a.now b.now }
{
    either(a.len() != b.len(), some_differ(a, b))
}

fn returned(callee: Callee) -> Typing
    ensures { result ≡ rules.returned callee }
{
    match callee {
        Callee::Ordinary { .. } => Typing::Unknown,
        Callee::Any(t) => Typing::Integer(t),
        Callee::Assume => Typing::Void,
        Callee::Assert => Typing::Void,
        Callee::Abort => Typing::Void,
    }
}

fn takes_others(list: &[Typing], callee: Callee) -> bool
    ensures { result ≡ rules.all_differ list.now (rules.taken callee) }
{
    match callee {
        Callee::Ordinary { .. } => all_differ(list, &[]),
        Callee::Any(_) => all_differ(list, &[]),
        Callee::Assume => all_differ(list, &[Typing::Integer(IntType::Int)]),
        Callee::Assert => all_differ(list, &[Typing::Integer(IntType::Int)]),
        Callee::Abort => all_differ(list, &[]),
    }
}

fn types_of(alloc: Global, scope: &Scope<'_>, list: &[Parameter]) -> Result<Vec<Typing>, AllocError>
    ensures { IfOk result
        (λ v. v.items ≡ definitions.types_of (names_in (scoping_of scope.now)) (parameter_trees list.now)) }
{
    let mut types = Vec::new(alloc);
    for parameter in list {
        types.push(type_named(scope, &parameter.specifiers))?;
    }
    Ok(types)
}

impl Signature {
    pub fn of(
        alloc: Global,
        scope: &Scope<'_>,
        returns: Typing,
        list: &[Parameter],
    ) -> Result<Signature, AllocError>
        ensures { IfOk result (λ s. signature_tree s ≡ record {
          returns = returns;
          parameters = definitions.types_of (names_in (scoping_of scope.now)) (parameter_trees list.now);
        }) }
    {
        Ok(Signature {
            returns,
            parameters: types_of(alloc, scope, list)?,
        })
    }

    /// Whether its types differ from another's.
    pub fn differs(&self, other: &Signature) -> bool
        ensures { result ≡ rules.differs (signature_tree self.now) (signature_tree other.now) }
    {
        let are_integers = both(
            are_integers(&self.parameters),
            are_integers(&other.parameters),
        );
        both(
            are_integers,
            either(
                differ(self.returns, other.returns),
                all_differ(&self.parameters, &other.parameters),
            ),
        )
    }

    /// Whether its types differ from those of a special name.
    pub fn is_wrong(&self, special: Callee) -> bool
        ensures { result ≡ rules.is_wrong (signature_tree self.now) special }
    {
        let is_wrong = either(
            differ(self.returns, returned(special)),
            takes_others(&self.parameters, special),
        );
        both(are_integers(&self.parameters), is_wrong)
    }
}
