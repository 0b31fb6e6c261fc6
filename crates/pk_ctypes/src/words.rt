// Small enums whose text is the printed word.

ghost use Rattle.std.specs.Prelude.{◌≡◌};
ghost use Rattle.pk_ctypes.specs.Words.{construct_text, rule_text, quantity_text};

use std::fmt;

/// What is not analysed.
#[derive(Clone, Copy, Debug, PartialEq, Eq)]
pub enum Construct {
    Float,
    Double,
    Bool,
    Complex,
    Imaginary,
    Struct,
    Union,
    Enum,
    Typedef,
    Volatile,
    Restrict,
    Inline,
    Register,
    Auto,
    Sizeof,
    Asm,
    GnuAsm,
    GnuAttribute,
    GnuExtension,
    GnuInline,
    GnuRestrict,
    /// A `static` inside braces.
    Static,
    Dot,
    Ellipsis,
    Arrow,
    StringLiteral,
    Floating,
    Directive,
    /// A `*` or `&` where no operand ends before it.
    Pointer,
    /// An array without a length.
    Brackets,
    /// An array of arrays.
    Arrays,
    /// An initializer that says which element it is for.
    Designator,
    /// What this stage doesn't read yet.
    Later,
}

impl Construct {
    /// The word that is printed for it.
    pub fn word(self) -> &'static str
        ensures { result.now ≡ construct_text self }
    {
        match self {
            Construct::Float => "float",
            Construct::Double => "double",
            Construct::Bool => "_Bool",
            Construct::Complex => "_Complex",
            Construct::Imaginary => "_Imaginary",
            Construct::Struct => "struct",
            Construct::Union => "union",
            Construct::Enum => "enum",
            Construct::Typedef => "typedef",
            Construct::Volatile => "volatile",
            Construct::Restrict => "restrict",
            Construct::Inline => "inline",
            Construct::Register => "register",
            Construct::Auto => "auto",
            Construct::Sizeof => "sizeof",
            Construct::Asm => "asm",
            Construct::GnuAsm => "__asm__",
            Construct::GnuAttribute => "__attribute__",
            Construct::GnuExtension => "__extension__",
            Construct::GnuInline => "__inline",
            Construct::GnuRestrict => "__restrict",
            Construct::Static => "static",
            Construct::Dot => ".",
            Construct::Ellipsis => "...",
            Construct::Arrow => "->",
            Construct::StringLiteral => "string",
            Construct::Floating => "floating",
            Construct::Directive => "directive",
            Construct::Pointer => "pointer",
            Construct::Brackets => "brackets",
            Construct::Arrays => "arrays",
            Construct::Designator => "designator",
            Construct::Later => "later",
        }
    }
}

impl fmt::Display for Construct {
    ghost use Rattle.std.specs.declared.option.Option.TheVariants.{Some};

    ghost output = { λ construct. Some (construct_text construct) };

    fn fmt<W: fmt::Write>(&self, f: &mut fmt::Formatter<W>) -> fmt::Result {
        f.write_str(self.word())
    }
}

/// A typing rule (C99 6.5 to 6.9), upper ones first: of failures at one place the upper one is told.
#[derive(Clone, Copy)]
pub enum Rule {
    /// The words name no type.
    Specifiers,
    /// A second declaration in one scope.
    Redeclared,
    /// An object that is declared extern.
    Extern,
    /// No object or function of that name is in scope.
    Undeclared,
    /// An object of type void, or a void value that is used.
    Void,
    /// An array without index, an index on a scalar, or braces where they don't belong.
    Array,
    /// What has to be a constant expression, or lies out of its range.
    Constant,
    /// More items than the array has elements.
    Initialiser,
    /// What is assigned or stepped can't be.
    Place,
    /// What is assigned or stepped was declared const.
    Const,
    /// The number of arguments differs.
    Arguments,
    /// A special name with other types.
    Special,
    /// A value in a void function, or none in another.
    Return,
    /// A label that isn't there, or a second one.
    Label,
    /// A jump, case or default out of place.
    Jump,
    /// Two operands of which one changes what the other names.
    Unsequenced,
}

impl Rule {
    /// The word that is printed for it.
    pub fn word(self) -> &'static str
        ensures { result.now ≡ rule_text self }
    {
        match self {
            Rule::Specifiers => "specifiers",
            Rule::Redeclared => "redeclared",
            Rule::Extern => "extern",
            Rule::Undeclared => "undeclared",
            Rule::Void => "void",
            Rule::Array => "array",
            Rule::Constant => "constant",
            Rule::Initialiser => "initialiser",
            Rule::Place => "place",
            Rule::Const => "const",
            Rule::Arguments => "arguments",
            Rule::Special => "special",
            Rule::Return => "return",
            Rule::Label => "label",
            Rule::Jump => "jump",
            Rule::Unsequenced => "unsequenced",
        }
    }
}

impl fmt::Display for Rule {
    ghost use Rattle.std.specs.declared.option.Option.TheVariants.{Some};

    ghost output = { λ rule. Some (rule_text rule) };

    fn fmt<W: fmt::Write>(&self, f: &mut fmt::Formatter<W>) -> fmt::Result {
        f.write_str(self.word())
    }
}

/// What there is too much of.
#[derive(Clone, Copy, Debug, PartialEq, Eq)]
pub enum Quantity {
    /// Bytes.
    Text,
    /// Constructs that are open.
    Nesting,
    /// Call paths.
    Paths,
    Variables,
    /// Points of the graph.
    Points,
    /// Octagon packs.
    Packs,
}

impl Quantity {
    /// The word that is printed for it.
    pub fn word(self) -> &'static str
        ensures { result.now ≡ quantity_text self }
    {
        match self {
            Quantity::Text => "text",
            Quantity::Nesting => "nesting",
            Quantity::Paths => "paths",
            Quantity::Variables => "variables",
            Quantity::Points => "points",
            Quantity::Packs => "packs",
        }
    }
}

impl fmt::Display for Quantity {
    ghost use Rattle.std.specs.declared.option.Option.TheVariants.{Some};

    ghost output = { λ quantity. Some (quantity_text quantity) };

    fn fmt<W: fmt::Write>(&self, f: &mut fmt::Formatter<W>) -> fmt::Result {
        f.write_str(self.word())
    }
}
