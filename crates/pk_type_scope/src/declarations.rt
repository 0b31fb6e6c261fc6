// What names stand for, and what expressions are.

ghost use Rattle.std.specs.Prelude.{◌≡◌};
ghost use Rattle.pk_type_scope.specs.Declarations as definitions;

use pk_ctypes::IntType;
use pk_typed::Variable;

/// What an expression is: of no value, of an integer type, or neither, where a rule fails in it or in a declaration that it names.
#[derive(Clone, Copy)]
pub enum Typing {
    Void,
    Integer(IntType),
    Unknown,
}

/// A declared object. Its type is none where its declaration fails a rule.
#[derive(Clone, Copy)]
pub struct Object {
    pub variable: Variable,
    pub int_type: Option<IntType>,
    pub is_array: bool,
    pub is_const: bool,
}

/// What a call of a function is. A function of a special name, which has that name's types and no body in the text, is a form of its own.
#[derive(Clone, Copy)]
pub enum Callee {
    Ordinary { returns: Typing, parameters: usize },
    /// `__VERIFIER_nondet_T`.
    Any(IntType),
    /// `__VERIFIER_assume`.
    Assume,
    /// `__pikos_assert`.
    Assert,
    /// `abort`.
    Abort,
}

/// A declared function, by its number in the unit.
#[derive(Clone, Copy)]
pub struct Function {
    pub number: usize,
    pub callee: Callee,
}

/// The type that a name stands for, and whether it is that of const objects (C99 6.7.3).
#[derive(Clone, Copy)]
pub struct NamedType {
    pub typing: Typing,
    pub is_const: bool,
}

/// What a name in scope stands for.
#[derive(Clone, Copy)]
pub enum Declaration {
    Object(Object),
    Function(Function),
    /// A constant of type int (C99 6.4.4.3, 6.7.2.2). Its value is none where its declaration fails a rule.
    Enumerator(Option<i32>),
    /// A type (C99 6.7.7).
    TypeName(NamedType),
}

impl Typing {
    pub fn is_void(self) -> bool
        ensures { result ≡ definitions.is_void self }
    {
        match self {
            Typing::Void => true,
            Typing::Integer(_) => false,
            Typing::Unknown => false,
        }
    }

    pub fn is_unknown(self) -> bool
        ensures { result ≡ definitions.is_unknown self }
    {
        match self {
            Typing::Void => false,
            Typing::Integer(_) => false,
            Typing::Unknown => true,
        }
    }
}

impl Callee {
    /// What a call gives.
    pub fn returns(self) -> Typing
        ensures { result ≡ definitions.returned_by self }
    {
        match self {
            Callee::Ordinary { returns, .. } => returns,
            Callee::Any(t) => Typing::Integer(t),
            Callee::Assume => Typing::Void,
            Callee::Assert => Typing::Void,
            Callee::Abort => Typing::Void,
        }
    }

    /// How many arguments a call has.
    pub fn arguments(self) -> usize
        ensures { result ≡ definitions.arguments_of self }
    {
        match self {
            Callee::Ordinary { parameters, .. } => parameters,
            Callee::Any(_) => 0,
            Callee::Assume => 1,
            Callee::Assert => 1,
            Callee::Abort => 0,
        }
    }
}

/// Whether it can stand where an object is needed: an enumerator counts as one.
pub fn is_object(declared: Option<Declaration>) -> bool
    ensures { result ≡ definitions.is_object declared }
{
    match declared {
        None => false,
        Some(Declaration::Function(_)) => false,
        Some(Declaration::Object(_)) => true,
        Some(Declaration::Enumerator(_)) => true,
        Some(Declaration::TypeName(_)) => false,
    }
}

/// Whether it is a function.
pub fn is_function(declared: Option<Declaration>) -> bool
    ensures { result ≡ definitions.is_function declared }
{
    match declared {
        None => false,
        Some(Declaration::Function(_)) => true,
        Some(Declaration::Object(_)) => false,
        Some(Declaration::Enumerator(_)) => false,
        Some(Declaration::TypeName(_)) => false,
    }
}

/// Whether it is an array.
pub fn is_array(declared: Option<Declaration>) -> bool
    ensures { result ≡ definitions.is_array declared }
{
    match declared {
        None => false,
        Some(Declaration::Function(_)) => false,
        Some(Declaration::Object(o)) => o.is_array,
        Some(Declaration::Enumerator(_)) => false,
        Some(Declaration::TypeName(_)) => false,
    }
}

/// Whether it has no elements, where an object is needed.
pub fn is_scalar(declared: Option<Declaration>) -> bool
    ensures { result ≡ definitions.is_scalar declared }
{
    match declared {
        None => false,
        Some(Declaration::Function(_)) => false,
        Some(Declaration::Object(o)) => !o.is_array,
        Some(Declaration::Enumerator(_)) => true,
        Some(Declaration::TypeName(_)) => false,
    }
}

/// Whether it is an enumerator.
pub fn is_enumerator(declared: Option<Declaration>) -> bool
    ensures { result ≡ definitions.is_enumerator declared }
{
    match declared {
        None => false,
        Some(Declaration::Object(_)) => false,
        Some(Declaration::Function(_)) => false,
        Some(Declaration::Enumerator(_)) => true,
        Some(Declaration::TypeName(_)) => false,
    }
}

/// Whether it is a type.
pub(crate) fn is_type_name(declared: Option<Declaration>) -> bool
    ensures { result ≡ definitions.is_type_name declared }
{
    match declared {
        None => false,
        Some(Declaration::Object(_)) => false,
        Some(Declaration::Function(_)) => false,
        Some(Declaration::Enumerator(_)) => false,
        Some(Declaration::TypeName(_)) => true,
    }
}

/// The type that a name stands for, unknown where it stands for none.
pub(crate) fn type_meant(declared: Option<Declaration>) -> Typing
    ensures { result ≡ definitions.type_meant declared }
{
    match declared {
        None => Typing::Unknown,
        Some(Declaration::Object(_)) => Typing::Unknown,
        Some(Declaration::Function(_)) => Typing::Unknown,
        Some(Declaration::Enumerator(_)) => Typing::Unknown,
        Some(Declaration::TypeName(named)) => named.typing,
    }
}

/// Whether a name stands for the type of const objects.
pub(crate) fn const_meant(declared: Option<Declaration>) -> bool
    ensures { result ≡ definitions.const_meant declared }
{
    match declared {
        None => false,
        Some(Declaration::Object(_)) => false,
        Some(Declaration::Function(_)) => false,
        Some(Declaration::Enumerator(_)) => false,
        Some(Declaration::TypeName(named)) => named.is_const,
    }
}
