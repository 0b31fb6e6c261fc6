// Tokens and their kinds.

use pk_ctypes::{IntType, Pos};
use std::fmt;

/// A keyword (C99 6.4.1), or a word that GNU C reserves.
#[derive(Clone, Copy, PartialEq, Eq)]
pub enum Keyword {
    Auto,
    Break,
    Case,
    Char,
    Const,
    Continue,
    Default,
    Do,
    Double,
    Else,
    Enum,
    Extern,
    Float,
    For,
    Goto,
    If,
    Inline,
    Int,
    Long,
    Register,
    Restrict,
    Return,
    Short,
    Signed,
    Sizeof,
    Static,
    Struct,
    Switch,
    Typedef,
    Union,
    Unsigned,
    Void,
    Volatile,
    While,
    Bool,
    Complex,
    Imaginary,
    Asm,
    GnuAsm,
    GnuAttribute,
    GnuExtension,
    GnuInline,
    GnuRestrict,
}

/// A punctuator (C99 6.4.6) without digraphs and the preprocessor's own.
#[derive(Clone, Copy, PartialEq, Eq)]
pub enum Punctuator {
    OpenParenthesis,
    CloseParenthesis,
    OpenBracket,
    CloseBracket,
    OpenBrace,
    CloseBrace,
    Semicolon,
    Colon,
    Comma,
    Question,
    Tilde,
    Plus,
    Minus,
    Star,
    Slash,
    Percent,
    Ampersand,
    Caret,
    Bar,
    Exclamation,
    Assign,
    Less,
    Greater,
    Increment,
    Decrement,
    ShiftLeft,
    ShiftRight,
    LessOrEqual,
    GreaterOrEqual,
    Equal,
    NotEqual,
    LogicalAnd,
    LogicalOr,
    PlusAssign,
    MinusAssign,
    StarAssign,
    SlashAssign,
    PercentAssign,
    ShiftLeftAssign,
    ShiftRightAssign,
    AmpersandAssign,
    CaretAssign,
    BarAssign,
    Dot,
    Ellipsis,
    Arrow,
}

/// What a token is.
#[derive(Clone, Copy, PartialEq, Eq)]
pub enum Kind {
    Keyword(Keyword),
    Name,
    /// A name that a typedef before it declares (C99 6.7.7). The lexer gives none: it reads each as a name.
    TypeName,
    /// An integer constant, with its type and value (C99 6.4.4.1).
    Constant { ty: IntType, value: u64 },
    /// A character constant of type int, with its value (C99 6.4.4.4).
    Character(i8),
    StringLiteral,
    Floating,
    Directive,
    Punctuator(Punctuator),
    /// After the last token, one past the last byte.
    End,
}

/// A token: its kind, the bytes of the text from `start` up to `end`, counted from 0, and the place of its first byte.
#[derive(Clone, Copy, PartialEq, Eq)]
pub struct Token {
    pub kind: Kind,
    pub start: usize,
    pub end: usize,
    pub at: Pos,
}

/// What stands where no token begins.
#[derive(Clone, Copy, Debug, PartialEq, Eq)]
pub enum LexicalKind {
    /// A byte that no token begins with.
    Byte,
    /// A number that is no constant, or has no type.
    Constant,
    /// A quote that begins no character constant.
    Char,
    /// A string that isn't closed on its line.
    String,
    /// A comment that isn't closed.
    Comment,
}

impl fmt::Display for LexicalKind {
    ghost use Rattle.std.specs.declared.option.Option.TheVariants.{Some};
    ghost use Rattle.pk_lex.specs.Failures.{lexical_word};

    ghost output = { λ k. Some (lexical_word k) };

    fn fmt<W: fmt::Write>(&self, f: &mut fmt::Formatter<W>) -> fmt::Result {
        match self {
            LexicalKind::Byte => write!(f, "byte"),
            LexicalKind::Constant => write!(f, "constant"),
            LexicalKind::Char => write!(f, "char"),
            LexicalKind::String => write!(f, "string"),
            LexicalKind::Comment => write!(f, "comment"),
        }
    }
}

/// Why a text has no tokens.
#[derive(Clone, Copy, Debug, PartialEq, Eq)]
pub enum LexError {
    /// At this place, the earliest such, no token begins.
    Lexical { kind: LexicalKind, at: Pos },
    Memory,
}
