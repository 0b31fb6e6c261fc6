// What a token's kind tells the parser.

ghost use Rattle.std.specs.Prelude.{◌≡◌};
ghost use Rattle.pk_grammar.specs.Machine.Signs as signs;

use crate::states::Testing;
use pk_ast::{
    AssignmentOperator, BinaryOperator, SpecifierWord, StepOperator, StorageWord, UnaryOperator,
};
use pk_ctypes::IntType;
use pk_lex::{Keyword, Kind, Punctuator, Token};

/// A token that stands at its place in a construct, whatever its value.
#[derive(Clone, Copy)]
pub enum Fixed {
    Name,
    OpenParenthesis,
    CloseParenthesis,
    OpenBracket,
    CloseBracket,
    OpenBrace,
    CloseBrace,
    Semicolon,
    Colon,
    Comma,
    Assign,
    Else,
    While,
    End,
    Other,
    Typedef,
    Static,
    Const,
}

/// What words of a type are, as far as it decides what may stand behind them.
#[derive(Clone, Copy)]
pub enum Shape {
    /// `const` alone, or nothing.
    Consts,
    /// Keywords, some of which aren't `const`.
    Keywords,
    /// `enum`, perhaps behind `const`s.
    Enum,
    /// `enum` and a tag, perhaps behind `const`s.
    Tagged,
    /// A type name, or `enum` and a tag with a `const` behind it.
    Named,
}

/// What an operand begins with.
#[derive(Clone, Copy, PartialEq, Eq)]
pub enum OperandStart {
    Name,
    Constant { ty: IntType, value: u64 },
    Character(i8),
    Parenthesis,
    Step(StepOperator),
    Unary(UnaryOperator),
    Other,
}

/// What comes after an operand.
#[derive(Clone, Copy)]
pub enum Operator {
    Step(StepOperator),
    Binary(BinaryOperator),
    Question,
    Assignment(AssignmentOperator),
    Comma,
    Other,
}

/// What a statement begins with.
#[derive(Clone, Copy, PartialEq, Eq)]
pub enum StatementStart {
    Block,
    Empty,
    Case,
    Default,
    Test(Testing),
    Do,
    For,
    Goto,
    Continue,
    Break,
    Return,
    Other,
}

// The kind's token, where it is one that stands at its place in a construct.
fn fixed_of(kind: Kind) -> Fixed
    ensures { result ≡ signs.fixed_of kind }
{
    match kind {
        Kind::Name => Fixed::Name,
        Kind::Keyword(Keyword::Else) => Fixed::Else,
        Kind::Keyword(Keyword::While) => Fixed::While,
        Kind::Keyword(Keyword::Typedef) => Fixed::Typedef,
        Kind::Keyword(Keyword::Static) => Fixed::Static,
        Kind::Keyword(Keyword::Const) => Fixed::Const,
        Kind::Punctuator(Punctuator::OpenParenthesis) => Fixed::OpenParenthesis,
        Kind::Punctuator(Punctuator::CloseParenthesis) => Fixed::CloseParenthesis,
        Kind::Punctuator(Punctuator::OpenBracket) => Fixed::OpenBracket,
        Kind::Punctuator(Punctuator::CloseBracket) => Fixed::CloseBracket,
        Kind::Punctuator(Punctuator::OpenBrace) => Fixed::OpenBrace,
        Kind::Punctuator(Punctuator::CloseBrace) => Fixed::CloseBrace,
        Kind::Punctuator(Punctuator::Semicolon) => Fixed::Semicolon,
        Kind::Punctuator(Punctuator::Colon) => Fixed::Colon,
        Kind::Punctuator(Punctuator::Comma) => Fixed::Comma,
        Kind::Punctuator(Punctuator::Assign) => Fixed::Assign,
        Kind::End => Fixed::End,
        _ => Fixed::Other,
    }
}

fn number(fixed: Fixed) -> u8
    ensures { result ≡ signs.fixed_number fixed }
{
    match fixed {
        Fixed::Name => 0,
        Fixed::OpenParenthesis => 1,
        Fixed::CloseParenthesis => 2,
        Fixed::OpenBracket => 3,
        Fixed::CloseBracket => 4,
        Fixed::OpenBrace => 5,
        Fixed::CloseBrace => 6,
        Fixed::Semicolon => 7,
        Fixed::Colon => 8,
        Fixed::Comma => 9,
        Fixed::Assign => 10,
        Fixed::Else => 11,
        Fixed::While => 12,
        Fixed::End => 13,
        Fixed::Other => 14,
        Fixed::Typedef => 15,
        Fixed::Static => 16,
        Fixed::Const => 17,
    }
}

/// Whether a token of this kind is the fixed one.
pub fn is(kind: Kind, wanted: Fixed) -> bool
    ensures { result ≡ signs.is_fixed wanted kind }
{
    number(fixed_of(kind)) == number(wanted)
}

pub fn specifier_word(token: Token) -> Option<SpecifierWord>
    ensures { result ≡ signs.specifier_word token }
{
    match token.kind {
        Kind::TypeName => Some(SpecifierWord::TypeName {
            start: token.start,
            end: token.end,
        }),
        Kind::Keyword(Keyword::Void) => Some(SpecifierWord::Void),
        Kind::Keyword(Keyword::Char) => Some(SpecifierWord::Char),
        Kind::Keyword(Keyword::Short) => Some(SpecifierWord::Short),
        Kind::Keyword(Keyword::Int) => Some(SpecifierWord::Int),
        Kind::Keyword(Keyword::Long) => Some(SpecifierWord::Long),
        Kind::Keyword(Keyword::Signed) => Some(SpecifierWord::Signed),
        Kind::Keyword(Keyword::Unsigned) => Some(SpecifierWord::Unsigned),
        Kind::Keyword(Keyword::Const) => Some(SpecifierWord::Const),
        Kind::Keyword(Keyword::Enum) => Some(SpecifierWord::Enum),
        _ => None,
    }
}

/// Whether a tag has to stand behind words, or the braces of an enumeration.
pub fn wants_tag(shape: Shape) -> bool
    ensures { result ≡ signs.wants_tag shape }
{
    match shape {
        Shape::Enum => true,
        Shape::Consts => false,
        Shape::Keywords => false,
        Shape::Tagged => false,
        Shape::Named => false,
    }
}

/// Whether the braces of an enumeration may stand behind words.
pub fn takes_braces(shape: Shape) -> bool
    ensures { result ≡ signs.takes_braces shape }
{
    match shape {
        Shape::Enum => true,
        Shape::Tagged => true,
        Shape::Consts => false,
        Shape::Keywords => false,
        Shape::Named => false,
    }
}

// Whether a word may follow words of this shape.
fn follows(shape: Shape, word: SpecifierWord) -> bool
    ensures { result ≡ signs.follows shape word }
{
    match shape {
        Shape::Consts => match word {
            SpecifierWord::Tag { .. } => false,
            _ => true,
        },
        Shape::Keywords => match word {
            SpecifierWord::TypeName { .. } => false,
            SpecifierWord::Enum => false,
            SpecifierWord::Tag { .. } => false,
            _ => true,
        },
        Shape::Enum => match word {
            SpecifierWord::Tag { .. } => true,
            _ => false,
        },
        Shape::Tagged => match word {
            SpecifierWord::Const => true,
            _ => false,
        },
        Shape::Named => match word {
            SpecifierWord::Const => true,
            _ => false,
        },
    }
}

/// The word of a type that a token is, where it may follow words of this shape.
pub fn following_word(shape: Shape, token: Token) -> Option<SpecifierWord>
    ensures { result ≡ signs.following_word shape token }
{
    if wants_tag(shape) {
        return tag_word(token);
    }
    let word = specifier_word(token)?;
    if follows(shape, word) {
        Some(word)
    } else {
        None
    }
}

// The tag that a token is behind `enum`.
fn tag_word(token: Token) -> Option<SpecifierWord>
    ensures { result ≡ signs.tag_word token }
{
    if is(token.kind, Fixed::Name) {
        Some(SpecifierWord::Tag {
            start: token.start,
            end: token.end,
        })
    } else {
        None
    }
}

/// What words are with one more.
pub fn with_word(shape: Shape, word: SpecifierWord) -> Shape
    ensures { result ≡ signs.with_word shape word }
{
    match shape {
        Shape::Consts => match word {
            SpecifierWord::Const => Shape::Consts,
            SpecifierWord::TypeName { .. } => Shape::Named,
            SpecifierWord::Enum => Shape::Enum,
            SpecifierWord::Tag { .. } => Shape::Named,
            _ => Shape::Keywords,
        },
        Shape::Keywords => Shape::Keywords,
        Shape::Enum => Shape::Tagged,
        Shape::Tagged => Shape::Named,
        Shape::Named => Shape::Named,
    }
}

pub fn is_void_word(word: SpecifierWord) -> bool
    ensures { result ≡ signs.is_void_word word }
{
    match word {
        SpecifierWord::Void => true,
        _ => false,
    }
}

pub fn storage_word(kind: Kind) -> Option<StorageWord>
    ensures { result ≡ signs.storage_word kind }
{
    match kind {
        Kind::Keyword(Keyword::Static) => Some(StorageWord::Static),
        Kind::Keyword(Keyword::Extern) => Some(StorageWord::Extern),
        _ => None,
    }
}

pub fn operand_start(kind: Kind) -> OperandStart
    ensures { result ≡ signs.operand_start kind }
{
    match kind {
        Kind::Name => OperandStart::Name,
        Kind::Constant { ty, value } => OperandStart::Constant { ty, value },
        Kind::Character(value) => OperandStart::Character(value),
        Kind::Punctuator(Punctuator::OpenParenthesis) => OperandStart::Parenthesis,
        Kind::Punctuator(Punctuator::Increment) => OperandStart::Step(StepOperator::Increment),
        Kind::Punctuator(Punctuator::Decrement) => OperandStart::Step(StepOperator::Decrement),
        Kind::Punctuator(Punctuator::Plus) => OperandStart::Unary(UnaryOperator::Plus),
        Kind::Punctuator(Punctuator::Minus) => OperandStart::Unary(UnaryOperator::Minus),
        Kind::Punctuator(Punctuator::Tilde) => OperandStart::Unary(UnaryOperator::Complement),
        Kind::Punctuator(Punctuator::Exclamation) => OperandStart::Unary(UnaryOperator::Not),
        _ => OperandStart::Other,
    }
}

// The operator that a punctuator is after an operand.
fn sign(punctuator: Punctuator) -> Operator
    ensures { result ≡ signs.operator_sign punctuator }
{
    match punctuator {
        Punctuator::Increment => Operator::Step(StepOperator::Increment),
        Punctuator::Decrement => Operator::Step(StepOperator::Decrement),
        Punctuator::LogicalOr => Operator::Binary(BinaryOperator::LogicalOr),
        Punctuator::LogicalAnd => Operator::Binary(BinaryOperator::LogicalAnd),
        Punctuator::Bar => Operator::Binary(BinaryOperator::Or),
        Punctuator::Caret => Operator::Binary(BinaryOperator::ExclusiveOr),
        Punctuator::Ampersand => Operator::Binary(BinaryOperator::And),
        Punctuator::Equal => Operator::Binary(BinaryOperator::Equal),
        Punctuator::NotEqual => Operator::Binary(BinaryOperator::NotEqual),
        Punctuator::Less => Operator::Binary(BinaryOperator::Less),
        Punctuator::Greater => Operator::Binary(BinaryOperator::Greater),
        Punctuator::LessOrEqual => Operator::Binary(BinaryOperator::LessOrEqual),
        Punctuator::GreaterOrEqual => Operator::Binary(BinaryOperator::GreaterOrEqual),
        Punctuator::ShiftLeft => Operator::Binary(BinaryOperator::ShiftLeft),
        Punctuator::ShiftRight => Operator::Binary(BinaryOperator::ShiftRight),
        Punctuator::Plus => Operator::Binary(BinaryOperator::Add),
        Punctuator::Minus => Operator::Binary(BinaryOperator::Subtract),
        Punctuator::Star => Operator::Binary(BinaryOperator::Multiply),
        Punctuator::Slash => Operator::Binary(BinaryOperator::Divide),
        Punctuator::Percent => Operator::Binary(BinaryOperator::Remainder),
        Punctuator::Question => Operator::Question,
        Punctuator::Assign => Operator::Assignment(AssignmentOperator::Assign),
        Punctuator::StarAssign => Operator::Assignment(AssignmentOperator::Multiply),
        Punctuator::SlashAssign => Operator::Assignment(AssignmentOperator::Divide),
        Punctuator::PercentAssign => Operator::Assignment(AssignmentOperator::Remainder),
        Punctuator::PlusAssign => Operator::Assignment(AssignmentOperator::Add),
        Punctuator::MinusAssign => Operator::Assignment(AssignmentOperator::Subtract),
        Punctuator::ShiftLeftAssign => Operator::Assignment(AssignmentOperator::ShiftLeft),
        Punctuator::ShiftRightAssign => Operator::Assignment(AssignmentOperator::ShiftRight),
        Punctuator::AmpersandAssign => Operator::Assignment(AssignmentOperator::And),
        Punctuator::CaretAssign => Operator::Assignment(AssignmentOperator::ExclusiveOr),
        Punctuator::BarAssign => Operator::Assignment(AssignmentOperator::Or),
        Punctuator::Comma => Operator::Comma,
        _ => Operator::Other,
    }
}

pub fn operator_of(kind: Kind) -> Operator
    ensures { result ≡ signs.operator_of kind }
{
    match kind {
        Kind::Punctuator(punctuator) => sign(punctuator),
        _ => Operator::Other,
    }
}

pub fn statement_start(kind: Kind) -> StatementStart
    ensures { result ≡ signs.statement_start kind }
{
    match kind {
        Kind::Punctuator(Punctuator::OpenBrace) => StatementStart::Block,
        Kind::Punctuator(Punctuator::Semicolon) => StatementStart::Empty,
        Kind::Keyword(Keyword::Case) => StatementStart::Case,
        Kind::Keyword(Keyword::Default) => StatementStart::Default,
        Kind::Keyword(Keyword::If) => StatementStart::Test(Testing::If),
        Kind::Keyword(Keyword::Switch) => StatementStart::Test(Testing::Switch),
        Kind::Keyword(Keyword::While) => StatementStart::Test(Testing::While),
        Kind::Keyword(Keyword::Do) => StatementStart::Do,
        Kind::Keyword(Keyword::For) => StatementStart::For,
        Kind::Keyword(Keyword::Goto) => StatementStart::Goto,
        Kind::Keyword(Keyword::Continue) => StatementStart::Continue,
        Kind::Keyword(Keyword::Break) => StatementStart::Break,
        Kind::Keyword(Keyword::Return) => StatementStart::Return,
        _ => StatementStart::Other,
    }
}
