// The keywords and the punctuators.

ghost use Rattle.std.specs.Prelude.{◌≡◌, ◌∷◌, []};
ghost use Rattle.pk_lex.specs.Tables.{keyword_of, punctuator_of};

use crate::token::{Keyword, Punctuator};
use pk_ctypes::look_up;

const KEYWORDS: [(&[u8], Keyword); 43] = [
    (b"auto", Keyword::Auto),
    (b"break", Keyword::Break),
    (b"case", Keyword::Case),
    (b"char", Keyword::Char),
    (b"const", Keyword::Const),
    (b"continue", Keyword::Continue),
    (b"default", Keyword::Default),
    (b"do", Keyword::Do),
    (b"double", Keyword::Double),
    (b"else", Keyword::Else),
    (b"enum", Keyword::Enum),
    (b"extern", Keyword::Extern),
    (b"float", Keyword::Float),
    (b"for", Keyword::For),
    (b"goto", Keyword::Goto),
    (b"if", Keyword::If),
    (b"inline", Keyword::Inline),
    (b"int", Keyword::Int),
    (b"long", Keyword::Long),
    (b"register", Keyword::Register),
    (b"restrict", Keyword::Restrict),
    (b"return", Keyword::Return),
    (b"short", Keyword::Short),
    (b"signed", Keyword::Signed),
    (b"sizeof", Keyword::Sizeof),
    (b"static", Keyword::Static),
    (b"struct", Keyword::Struct),
    (b"switch", Keyword::Switch),
    (b"typedef", Keyword::Typedef),
    (b"union", Keyword::Union),
    (b"unsigned", Keyword::Unsigned),
    (b"void", Keyword::Void),
    (b"volatile", Keyword::Volatile),
    (b"while", Keyword::While),
    (b"_Bool", Keyword::Bool),
    (b"_Complex", Keyword::Complex),
    (b"_Imaginary", Keyword::Imaginary),
    (b"asm", Keyword::Asm),
    (b"__asm__", Keyword::GnuAsm),
    (b"__attribute__", Keyword::GnuAttribute),
    (b"__extension__", Keyword::GnuExtension),
    (b"__inline", Keyword::GnuInline),
    (b"__restrict", Keyword::GnuRestrict),
];

#[tactic(auto, unfolding(crate::specs::Tables::keyword_of))]
pub(crate) fn keyword(word: &[u8]) -> Option<Keyword>
    ensures { result ≡ keyword_of word.now }
{
    look_up(&KEYWORDS, word)
}

#[tactic(auto, unfolding(crate::specs::Tables::punctuator_of))]
fn punctuator_of_one(a: u8) -> Option<Punctuator>
    ensures { result ≡ punctuator_of (a ∷ []) }
{
    match a {
        b'(' => Some(Punctuator::OpenParenthesis),
        b')' => Some(Punctuator::CloseParenthesis),
        b'[' => Some(Punctuator::OpenBracket),
        b']' => Some(Punctuator::CloseBracket),
        b'{' => Some(Punctuator::OpenBrace),
        b'}' => Some(Punctuator::CloseBrace),
        b';' => Some(Punctuator::Semicolon),
        b':' => Some(Punctuator::Colon),
        b',' => Some(Punctuator::Comma),
        b'?' => Some(Punctuator::Question),
        b'~' => Some(Punctuator::Tilde),
        b'+' => Some(Punctuator::Plus),
        b'-' => Some(Punctuator::Minus),
        b'*' => Some(Punctuator::Star),
        b'/' => Some(Punctuator::Slash),
        b'%' => Some(Punctuator::Percent),
        b'&' => Some(Punctuator::Ampersand),
        b'^' => Some(Punctuator::Caret),
        b'|' => Some(Punctuator::Bar),
        b'!' => Some(Punctuator::Exclamation),
        b'=' => Some(Punctuator::Assign),
        b'<' => Some(Punctuator::Less),
        b'>' => Some(Punctuator::Greater),
        b'.' => Some(Punctuator::Dot),
        _ => None,
    }
}

#[tactic(auto, unfolding(crate::specs::Tables::punctuator_of))]
fn punctuator_of_two(a: u8, b: u8) -> Option<Punctuator>
    ensures { result ≡ punctuator_of (a ∷ b ∷ []) }
{
    match (a, b) {
        (b'+', b'+') => Some(Punctuator::Increment),
        (b'-', b'-') => Some(Punctuator::Decrement),
        (b'<', b'<') => Some(Punctuator::ShiftLeft),
        (b'>', b'>') => Some(Punctuator::ShiftRight),
        (b'<', b'=') => Some(Punctuator::LessOrEqual),
        (b'>', b'=') => Some(Punctuator::GreaterOrEqual),
        (b'=', b'=') => Some(Punctuator::Equal),
        (b'!', b'=') => Some(Punctuator::NotEqual),
        (b'&', b'&') => Some(Punctuator::LogicalAnd),
        (b'|', b'|') => Some(Punctuator::LogicalOr),
        (b'+', b'=') => Some(Punctuator::PlusAssign),
        (b'-', b'=') => Some(Punctuator::MinusAssign),
        (b'*', b'=') => Some(Punctuator::StarAssign),
        (b'/', b'=') => Some(Punctuator::SlashAssign),
        (b'%', b'=') => Some(Punctuator::PercentAssign),
        (b'&', b'=') => Some(Punctuator::AmpersandAssign),
        (b'^', b'=') => Some(Punctuator::CaretAssign),
        (b'|', b'=') => Some(Punctuator::BarAssign),
        (b'-', b'>') => Some(Punctuator::Arrow),
        _ => None,
    }
}

#[tactic(auto, unfolding(crate::specs::Tables::punctuator_of))]
fn punctuator_of_three(a: u8, b: u8, c: u8) -> Option<Punctuator>
    ensures { result ≡ punctuator_of (a ∷ b ∷ c ∷ []) }
{
    match (a, b, c) {
        (b'<', b'<', b'=') => Some(Punctuator::ShiftLeftAssign),
        (b'>', b'>', b'=') => Some(Punctuator::ShiftRightAssign),
        (b'.', b'.', b'.') => Some(Punctuator::Ellipsis),
        _ => None,
    }
}

#[tactic(auto, unfolding(crate::specs::Tables::punctuator_of))]
pub(crate) fn punctuator(word: &[u8]) -> Option<Punctuator>
    ensures { result ≡ punctuator_of word.now }
{
    match word {
        [a] => punctuator_of_one(*a),
        [a, b] => punctuator_of_two(*a, *b),
        [a, b, c] => punctuator_of_three(*a, *b, *c),
        _ => None,
    }
}
