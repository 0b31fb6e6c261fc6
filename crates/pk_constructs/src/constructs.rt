// The first construct of a text that isn't analysed.

ghost use Rattle.std.specs.Prelude.{◌≡◌, MatchOption, ◌<◌, ◌^◌};
ghost use Rattle.pk_constructs.specs.Constructs.{BraceStep, IsSupported, FirstUnsupported};
ghost use Rattle.pk_constructs.specs.Tables as tables;

use pk_ctypes::{Construct, Pos};
use pk_lex::{Keyword, Kind, Punctuator, Token};

/// What a token is to the `*`, `&`, `[` or `]` behind it.
#[derive(Clone, Copy)]
pub enum Before {
    /// An operand ends with it.
    Operand,
    OpenBracket,
    CloseBracket,
    /// A list begins with it or goes on.
    List,
    Other,
}

fn before_punctuator(p: Punctuator) -> Before
    ensures { result ≡ tables.before_punctuator p }
{
    match p {
        Punctuator::CloseParenthesis | Punctuator::Increment | Punctuator::Decrement =>
            Before::Operand,
        Punctuator::OpenBracket => Before::OpenBracket,
        Punctuator::CloseBracket => Before::CloseBracket,
        Punctuator::OpenBrace | Punctuator::Comma => Before::List,
        _ => Before::Other,
    }
}

fn before_of(kind: Kind) -> Before
    ensures { result ≡ tables.before_of kind }
{
    match kind {
        Kind::Name | Kind::TypeName => Before::Operand,
        Kind::Constant { .. } | Kind::Character(_) => Before::Operand,
        Kind::Punctuator(p) => before_punctuator(p),
        _ => Before::Other,
    }
}

fn word_shows(word: Keyword, in_braces: bool) -> Option<Construct>
    ensures { result ≡ tables.word_shows word in_braces }
{
    match word {
        Keyword::Float => Some(Construct::Float),
        Keyword::Double => Some(Construct::Double),
        Keyword::Bool => Some(Construct::Bool),
        Keyword::Complex => Some(Construct::Complex),
        Keyword::Imaginary => Some(Construct::Imaginary),
        Keyword::Struct => Some(Construct::Struct),
        Keyword::Union => Some(Construct::Union),
        Keyword::Volatile => Some(Construct::Volatile),
        Keyword::Restrict => Some(Construct::Restrict),
        Keyword::Inline => Some(Construct::Inline),
        Keyword::Register => Some(Construct::Register),
        Keyword::Auto => Some(Construct::Auto),
        Keyword::Sizeof => Some(Construct::Sizeof),
        Keyword::Asm => Some(Construct::Asm),
        Keyword::GnuAsm => Some(Construct::GnuAsm),
        Keyword::GnuAttribute => Some(Construct::GnuAttribute),
        Keyword::GnuExtension => Some(Construct::GnuExtension),
        Keyword::GnuInline => Some(Construct::GnuInline),
        Keyword::GnuRestrict => Some(Construct::GnuRestrict),
        Keyword::Typedef if in_braces => Some(Construct::Typedef),
        _ => None,
    }
}

fn punctuator_shows(p: Punctuator, before: Before) -> Option<Construct>
    ensures { result ≡ tables.punctuator_shows p before }
{
    match (p, before) {
        (Punctuator::Dot, _) => Some(Construct::Dot),
        (Punctuator::Ellipsis, _) => Some(Construct::Ellipsis),
        (Punctuator::Arrow, _) => Some(Construct::Arrow),
        (Punctuator::Star | Punctuator::Ampersand, Before::Operand | Before::CloseBracket) => None,
        (Punctuator::Star | Punctuator::Ampersand, _) => Some(Construct::Pointer),
        (Punctuator::CloseBracket, Before::OpenBracket) => Some(Construct::Brackets),
        (Punctuator::OpenBracket, Before::CloseBracket) => Some(Construct::Arrays),
        (Punctuator::OpenBracket, Before::List) => Some(Construct::Designator),
        _ => None,
    }
}

fn shows(kind: Kind, before: Before, in_braces: bool) -> Option<Construct>
    ensures { result ≡ tables.kind_shows before in_braces kind }
{
    match kind {
        Kind::Keyword(word) => word_shows(word, in_braces),
        Kind::Punctuator(p) => punctuator_shows(p, before),
        Kind::StringLiteral => Some(Construct::StringLiteral),
        Kind::Floating => Some(Construct::Floating),
        Kind::Directive => Some(Construct::Directive),
        _ => None,
    }
}

/// How many braces are open after a token.
pub fn braces_after(braces: usize, kind: Kind) -> usize
    requires { braces < 2 ^ 63 }
    ensures { BraceStep kind braces result }
{
    match kind {
        Kind::Punctuator(Punctuator::OpenBrace) => braces + 1,
        Kind::Punctuator(Punctuator::CloseBrace) => braces.saturating_sub(1),
        _ => braces,
    }
}

/// The first token of the text that shows a construct of C which isn't analysed, with its place and the construct; none where no token
/// does.
pub fn first_unsupported(tokens: &[Token]) -> Option<(Construct, Pos)>
    ensures { MatchOption result (IsSupported tokens.now) (λ r. FirstUnsupported tokens.now r.0 r.1) }
{
    let mut last = Before::Other;
    let mut braces = 0;
    let mut rest = tokens;
    while let Some((token, after)) = rest.split_first() {
        if let Some(construct) = shows(token.kind, last, braces > 0) {
            return Some((construct, token.at));
        }
        braces = braces_after(braces, token.kind);
        last = before_of(token.kind);
        rest = after;
    }
    None
}
