// Why a text is not analysed.

ghost use Rattle.std.specs.Fmt.{WritesOnOk};
ghost use Rattle.pk_front.specs.declared.failures.Refusal.TheVariants as refusals;
ghost use Rattle.pk_front.specs.Refusals.{refusal_text};

use pk_ctypes::{Construct, Name, Names, Pos, Quantity, Rule};
use pk_lex::LexicalKind;
use std::alloc::AllocError;
use std::fmt;

/// Why a text is not analysed.
#[derive(Drop)]
pub enum Refusal {
    /// No token begins at this place, the earliest such.
    Lexical { kind: LexicalKind, at: Pos },
    /// The first construct of C that isn't analysed.
    Unsupported { construct: Construct, at: Pos },
    /// The first token with which no text of the grammar goes on.
    Syntax { at: Pos },
    /// The rule that fails at the first place, the upper one of those that fail there.
    Typing { rule: Rule, at: Pos },
    /// No function of this name has a body.
    NoEntry { name: Name },
    /// A function that leads to a call of itself: the names from it to itself.
    Recursion { cycle: Names },
    /// A call of a function without a body, at the place of the name.
    UndefinedCall { name: Name, at: Pos },
}

// Why no token begins at a place.
fn write_lexical<W: fmt::Write>(
    f: &mut fmt::Formatter<W>,
    kind: &LexicalKind,
    at: &Pos,
) -> fmt::Result
    ensures { WritesOnOk W.write_str_gives f.old result (refusal_text (refusals.Lexical kind.now at.now)) f.new }
{
    write!(f, "lexical {kind} at {at}")
}

// A construct that isn't analysed, at a place.
fn write_unsupported<W: fmt::Write>(
    f: &mut fmt::Formatter<W>,
    construct: &Construct,
    at: &Pos,
) -> fmt::Result
    ensures { WritesOnOk W.write_str_gives f.old result
        (refusal_text (refusals.Unsupported construct.now at.now)) f.new }
{
    write!(f, "unsupported {construct} at {at}")
}

// A rule that fails at a place.
fn write_typing<W: fmt::Write>(f: &mut fmt::Formatter<W>, rule: &Rule, at: &Pos) -> fmt::Result
    ensures { WritesOnOk W.write_str_gives f.old result (refusal_text (refusals.Typing rule.now at.now)) f.new }
{
    write!(f, "typing {rule} at {at}")
}

// A call at a place.
fn write_undefined<W: fmt::Write>(f: &mut fmt::Formatter<W>, name: &Name, at: &Pos) -> fmt::Result
    ensures { WritesOnOk W.write_str_gives f.old result (refusal_text (refusals.UndefinedCall name.now at.now)) f.new }
{
    write!(f, "undefined call {name} at {at}")
}

impl fmt::Display for Refusal {
    ghost use Rattle.std.specs.declared.option.Option.TheVariants.{Some};

    ghost output = { λ r. Some (refusal_text r) };

    fn fmt<W: fmt::Write>(&self, f: &mut fmt::Formatter<W>) -> fmt::Result {
        match self {
            Refusal::Lexical { kind, at } => write_lexical(f, kind, at),
            Refusal::Unsupported { construct, at } => write_unsupported(f, construct, at),
            Refusal::Syntax { at } => write!(f, "syntax at {at}"),
            Refusal::Typing { rule, at } => write_typing(f, rule, at),
            Refusal::NoEntry { name } => write!(f, "no entry {name}"),
            Refusal::Recursion { cycle } => write!(f, "recursion {cycle}"),
            Refusal::UndefinedCall { name, at } => write_undefined(f, name, at),
        }
    }
}

/// Why a text has no typed tree with call paths, or no graph.
#[derive(Drop)]
pub enum TextError {
    Refused(Refusal),
    /// It passes this limit.
    Limit { what: Quantity, number: u64 },
    Memory,
}

impl From<AllocError> for TextError {
    ghost use Rattle.std.specs.Prelude.{◌≡◌};
    ghost use Rattle.pk_front.specs.declared.failures.TextError.TheVariants.{Memory};

    ghost from_gives = { λ _ e. e ≡ Memory };

    fn from(_: AllocError) -> Self {
        TextError::Memory
    }
}
