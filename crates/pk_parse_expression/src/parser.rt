// What the parsing functions share.

ghost use Rattle.std.specs.Prelude.{◌≡◌, ◌≢◌, ◌+◌, ◌<◌, ◌≤◌, ◌∷◌, [], MatchResult, MatchOption, false};
ghost use Rattle.pk_grammar.specs.Grammar as grammar;
ghost use Rattle.pk_grammar.specs.Grammar.{strength, all_of};
ghost use Rattle.pk_grammar.specs.Languages.{identifier_of};
ghost use Rattle.pk_grammar.specs.Machine.Signs.{is_fixed, operator_of, specifier_word, following_word, shape_of};
ghost use Rattle.pk_grammar.specs.Machine.Steps.{end_in_enum};
ghost use Rattle.pk_grammar.specs.Outcomes.{nesting_limit};
ghost use Rattle.pk_grammar.specs.Machine.Running.{first_of_all};
ghost use Rattle.pk_ast.specs.Views.{specifiers_tree};
ghost use Rattle.pk_parse_expression.specs.Parsing.{Begins, BeginsWith, BeginsWithWord, AreWords, AreNoType};

use pk_ast::{AssignmentOperator, BinaryOperator, Identifier, Specifier, Specifiers, StepOperator};
use pk_ctypes::Pos;
use pk_grammar::{
    Fixed, Operator, ParseError, Shape, following_word, is, operator_of, specifier_word, wants_tag,
    with_word,
};
use pk_lex::{Kind, Token};
use std::alloc::Global;

/// The greatest nesting of a token.
pub const NESTING_LIMIT: u32 = 128;

/// Where trees are allocated, and the token that ends the text. The functions are given the tokens that are left before it.
#[derive(Clone, Copy)]
pub struct Parser {
    pub alloc: Global,
    pub end: Token,
}

/// The name that a token is.
pub fn identifier(token: Token) -> Identifier
    ensures { result ≡ identifier_of token }
{
    Identifier {
        start: token.start,
        end: token.end,
        at: token.at,
        is_tag: false,
    }
}

/// The nesting of a token at this place, which opens so many more constructs.
pub fn nested(at: Pos, outside: u32, more: u32) -> Result<u32, ParseError>
    ensures { MatchResult result (λ n. (n ≡ outside + more) × (n ≤ nesting_limit))
        (λ x. (x ≡ ParseError.Nesting at) × (nesting_limit < outside + more)) }
{
    if outside > NESTING_LIMIT || more > NESTING_LIMIT - outside {
        Err(ParseError::Nesting { at })
    } else {
        Ok(outside + more)
    }
}

impl Parser {
    /// The kind of the first token.
    pub fn kind(self, tokens: &[Token]) -> Kind
        ensures { result ≡ (first_of_all self.end tokens.now).kind }
    {
        match tokens.split_first() {
            Some((token, _)) => token.kind,
            None => Kind::End,
        }
    }

    /// The place of the first token.
    pub fn place(self, tokens: &[Token]) -> Pos
        ensures { result ≡ (first_of_all self.end tokens.now).at }
    {
        match tokens.split_first() {
            Some((token, _)) => token.at,
            None => self.end.at,
        }
    }

    /// The first token, and those after it.
    pub fn next<'a>(self, tokens: &'a [Token]) -> Result<(Token, &'a [Token]), ParseError>
        ensures { MatchResult result (λ r. tokens.now ≡ r.0 ∷ r.1.now)
            (λ x. (tokens.now ≡ []) × (x ≡ ParseError.Syntax self.end.at)) }
    {
        match tokens.split_first() {
            Some((token, rest)) => Ok((*token, rest)),
            None => Err(ParseError::Syntax { at: self.end.at }),
        }
    }

    /// The first token, where it is this one, and those after it.
    pub fn take<'a>(self, tokens: &'a [Token], wanted: Fixed) -> Option<(Token, &'a [Token])>
        requires { is_fixed wanted Kind.End ≡ false }
        ensures { MatchOption result (is_fixed wanted (first_of_all self.end tokens.now).kind ≡ false)
            (λ r. Begins wanted tokens.now r.0 r.1.now) }
    {
        match tokens.split_first() {
            Some((token, rest)) if is(token.kind, wanted) => Some((*token, rest)),
            _ => None,
        }
    }

    /// The first token, which is to be this one, and those after it.
    pub fn expect<'a>(
        self,
        tokens: &'a [Token],
        wanted: Fixed,
    ) -> Result<(Token, &'a [Token]), ParseError>
        requires { is_fixed wanted Kind.End ≡ false }
        ensures { MatchResult result (λ r. Begins wanted tokens.now r.0 r.1.now)
            (λ x. (is_fixed wanted (first_of_all self.end tokens.now).kind ≡ false)
            × (x ≡ ParseError.Syntax (first_of_all self.end tokens.now).at)) }
    {
        match self.take(tokens, wanted) {
            Some(found) => Ok(found),
            None => Err(ParseError::Syntax {
                at: self.place(tokens),
            }),
        }
    }

    /// The first token, where it is a binary operator at least so strong.
    pub fn binary_operator<'a>(
        self,
        tokens: &'a [Token],
        level: u32,
    ) -> Option<(BinaryOperator, Pos, &'a [Token])>
        ensures { MatchOption result ((o : BinaryOperator) →
            operator_of (first_of_all self.end tokens.now).kind ≡ Operator.Binary o → strength o < level)
            (λ r. BeginsWith (Operator.Binary r.0) tokens.now r.1 r.2.now × (level ≤ strength r.0)) }
    {
        let (token, rest) = tokens.split_first()?;
        match operator_of(token.kind) {
            Operator::Binary(op) if level <= strength(op) => Some((op, token.at, rest)),
            _ => None,
        }
    }

    /// The first token, where it is `++` or `--`.
    pub fn step_operator<'a>(self, tokens: &'a [Token]) -> Option<(StepOperator, Pos, &'a [Token])>
        ensures { MatchOption result
            ((o : StepOperator) → operator_of (first_of_all self.end tokens.now).kind ≢ Operator.Step o)
            (λ r. BeginsWith (Operator.Step r.0) tokens.now r.1 r.2.now) }
    {
        let (token, rest) = tokens.split_first()?;
        match operator_of(token.kind) {
            Operator::Step(op) => Some((op, token.at, rest)),
            _ => None,
        }
    }

    /// The first token, where it is a `?`.
    pub fn question<'a>(self, tokens: &'a [Token]) -> Option<(Pos, &'a [Token])>
        ensures { MatchOption result (operator_of (first_of_all self.end tokens.now).kind ≢ Operator.Question)
            (λ r. BeginsWith Operator.Question tokens.now r.0 r.1.now) }
    {
        let (token, rest) = tokens.split_first()?;
        match operator_of(token.kind) {
            Operator::Question => Some((token.at, rest)),
            _ => None,
        }
    }

    /// The first token, where it is an assignment operator.
    pub fn assignment_operator<'a>(
        self,
        tokens: &'a [Token],
    ) -> Option<(AssignmentOperator, Pos, &'a [Token])>
        ensures { MatchOption result
            ((o : AssignmentOperator) → operator_of (first_of_all self.end tokens.now).kind ≢ Operator.Assignment o)
            (λ r. BeginsWith (Operator.Assignment r.0) tokens.now r.1 r.2.now) }
    {
        let (token, rest) = tokens.split_first()?;
        match operator_of(token.kind) {
            Operator::Assignment(op) => Some((op, token.at, rest)),
            _ => None,
        }
    }

    /// The first token, where it is a word of a type.
    pub fn specifier<'a>(self, tokens: &'a [Token]) -> Option<(Specifier, &'a [Token])>
        ensures { MatchOption result (specifier_word (first_of_all self.end tokens.now) ≡ None)
            (λ r. BeginsWithWord specifier_word tokens.now r.0 r.1.now) }
    {
        let (token, rest) = tokens.split_first()?;
        let word = specifier_word(*token)?;
        Some((Specifier { word, at: token.at }, rest))
    }

    // The first token, where it is a word of a type that may follow words of this shape.
    fn following<'a>(self, tokens: &'a [Token], shape: Shape) -> Option<(Specifier, &'a [Token])>
        ensures { MatchOption result (following_word shape (first_of_all self.end tokens.now) ≡ None)
            (λ r. BeginsWithWord (following_word shape) tokens.now r.0 r.1.now) }
    {
        let (token, rest) = tokens.split_first()?;
        let word = following_word(shape, *token)?;
        Some((Specifier { word, at: token.at }, rest))
    }

    /// The words of a type, of which the first was read, and what they are.
    pub fn specifiers<'a>(
        self,
        first: Specifier,
        tokens: &'a [Token],
    ) -> Result<(Specifiers, Shape, &'a [Token]), ParseError>
        ensures { MatchResult result (λ r. AreWords first tokens.now (specifiers_tree r.0) r.2.now
            × (r.1 ≡ shape_of (all_of (specifiers_tree r.0)))) (λ x. x ≡ ParseError.Memory) }
    {
        let mut more = Vec::new(self.alloc);
        let mut rest = tokens;
        let mut shape = with_word(Shape::Consts, first.word);
        loop {
            let Some((word, after)) = self.following(rest, shape) else {
                return Ok((Specifiers { first, more }, shape, rest));
            };
            more.push(word)?;
            shape = with_word(shape, word.word);
            rest = after;
        }
    }

    /// The words of a type, of which the first was read, where they make one: `enum` is not the last of them.
    pub fn whole_specifiers<'a>(
        self,
        first: Specifier,
        tokens: &'a [Token],
    ) -> Result<(Specifiers, &'a [Token]), ParseError>
        ensures { MatchResult result (λ r. AreWords first tokens.now (specifiers_tree r.0) r.1.now
            × (end_in_enum (specifiers_tree r.0) ≡ false)) (λ x. AreNoType self.end first tokens.now x) }
    {
        let (words, shape, rest) = self.specifiers(first, tokens)?;
        if wants_tag(shape) {
            return Err(ParseError::Syntax {
                at: self.place(rest),
            });
        }
        Ok((words, rest))
    }
}

/// How strongly a binary operator binds.
pub fn strength(op: BinaryOperator) -> u32
    ensures { result ≡ grammar.strength op }
{
    match op {
        BinaryOperator::LogicalOr => 3,
        BinaryOperator::LogicalAnd => 4,
        BinaryOperator::Or => 5,
        BinaryOperator::ExclusiveOr => 6,
        BinaryOperator::And => 7,
        BinaryOperator::Equal | BinaryOperator::NotEqual => 8,
        BinaryOperator::Less
        | BinaryOperator::Greater
        | BinaryOperator::LessOrEqual
        | BinaryOperator::GreaterOrEqual => 9,
        BinaryOperator::ShiftLeft | BinaryOperator::ShiftRight => 10,
        BinaryOperator::Add | BinaryOperator::Subtract => 11,
        BinaryOperator::Multiply | BinaryOperator::Divide | BinaryOperator::Remainder => 12,
    }
}

/// The weakest that may stand on its right: operators of one strength join from the left.
pub fn right_of(op: BinaryOperator) -> u32
    ensures { result ≡ grammar.strength op + 1 }
{
    strength(op) + 1
}
