// Expressions.

ghost use Rattle.std.specs.Prelude.{◌≡◌, ◌+◌, ◌<◌, ◌≤◌, length, MatchResult};
ghost use Rattle.pk_ast.specs.Lists.{one};
ghost use Rattle.pk_ast.specs.Trees as tree;
ghost use Rattle.pk_ast.specs.Views.{expression_tree, expression_trees};
ghost use Rattle.pk_grammar.specs.Grammar.{any_expression, assignment_expression, conditional_expression, weakest_operator, cast_expression, operators_in, commas_in};
ghost use Rattle.pk_grammar.specs.Machine.States as states;
ghost use Rattle.pk_grammar.specs.Machine.Steps as steps;
ghost use Rattle.pk_grammar.specs.Outcomes.{nesting_limit};
ghost use Rattle.pk_parse_expression.specs.Parsing.{EndsAt, IsPrimary, IsOperand, CastsIf, Anywhere, UpTo, Reads, Refuses};

use crate::kept::keeping;
use crate::parser::{Parser, identifier, nested, right_of};
use pk_ast::{Expression, Identifier, Specifier};
use pk_ctypes::Pos;
use pk_grammar::{Fixed, OperandStart, ParseError, operand_start};
use pk_lex::Token;

/// The weakest binary operator's strength.
const WEAKEST: u32 = 3;

/// Whether it may stand on the left of an assignment.
#[tactic(auto, using(pk_ast::proofs::ViewLemmas::tree_of_call), unfolding(pk_ast::specs::Views::expression_tree))]
fn is_unary(e: &Expression) -> bool
    ensures { result ≡ steps.is_unary (expression_tree e.now) }
{
    match e {
        Expression::Name(_)
        | Expression::Call(_, _)
        | Expression::Index(_, _, _)
        | Expression::Element { .. }
        | Expression::Constant(_, _, _)
        | Expression::Character(_, _)
        | Expression::Parenthesized(_, _)
        | Expression::Postfix(_, _, _)
        | Expression::Prefix(_, _, _)
        | Expression::Unary(_, _, _) => true,
        Expression::Cast(_, _, _)
        | Expression::Binary { .. }
        | Expression::Conditional { .. }
        | Expression::Assignment { .. }
        | Expression::Comma { .. } => false,
    }
}

impl Parser {
    // An operand, and the `++` and `--` after it.
    fn postfixes<'a>(
        self,
        operand: Expression,
        tokens: &'a [Token],
        outside: u32,
    ) -> Result<(Expression, &'a [Token]), ParseError>
        requires primary { IsPrimary (expression_tree operand) }
        requires limit { outside ≤ nesting_limit }
        ensures { MatchResult result
            (λ r. Reads self.end Anywhere (λ c. states.complete outside
            (expression_tree operand) c) outside tokens.now (expression_tree r.0) r.1.now
            × IsOperand self.end (expression_tree r.0) r.1.now × (length r.1.now ≤ length tokens.now))
            (λ x. Refuses self.end Anywhere (λ c. states.complete outside (expression_tree operand) c) tokens.now x) }
    {
        let mut whole = operand;
        let mut rest = tokens;
        let mut count = 0;
        loop {
            let Some((op, at, after)) = self.step_operator(rest) else {
                return Ok((whole, rest));
            };
            let (_, operand) = keeping(nested(at, outside, count + 1), whole)?;
            whole = Expression::postfix(self.alloc, op, at, operand)?;
            count += 1;
            rest = after;
        }
    }

    // What a call passes, after the `(`, and the `)`.
    #[cycle(expressions)]
    fn arguments<'a>(
        self,
        tokens: &'a [Token],
        outside: u32,
    ) -> Result<(Vec<Expression>, &'a [Token]), ParseError>
        requires { outside < nesting_limit }
        ensures { MatchResult result
            (λ r. ((id : Identifier) → Reads self.end Anywhere
            (λ c. states.arguments outside id c) outside tokens.now
            (tree.call id (expression_trees r.0.items)) r.1.now) × (length r.1.now ≤ length tokens.now))
            (λ x. (id : Identifier) → Refuses self.end Anywhere (λ c. states.arguments outside id c) tokens.now x) }
    {
        let mut list = Vec::new(self.alloc);
        if let Some((_, after)) = self.take(tokens, Fixed::CloseParenthesis) {
            return Ok((list, after));
        }
        let mut rest = tokens;
        loop {
            let (argument, after) = self.assignment(rest, outside + 1)?;
            list.push(argument)?;
            if let Some((_, last)) = self.take(after, Fixed::CloseParenthesis) {
                return Ok((list, last));
            }
            let (_, next) = self.expect(after, Fixed::Comma)?;
            rest = next;
        }
    }

    // A name that was read, a call, or an element.
    #[cycle(expressions)]
    fn named<'a>(
        self,
        name: Identifier,
        tokens: &'a [Token],
        outside: u32,
    ) -> Result<(Expression, &'a [Token]), ParseError>
        requires { outside ≤ nesting_limit }
        ensures { MatchResult result
            (λ r. Reads self.end Anywhere (λ c. states.named outside name c) outside tokens.now
            (expression_tree r.0) r.1.now × IsPrimary (expression_tree r.0)
            × (length r.1.now ≤ length tokens.now))
            (λ x. Refuses self.end Anywhere (λ c. states.named outside name c) tokens.now x) }
    {
        if let Some((open, after)) = self.take(tokens, Fixed::OpenParenthesis) {
            nested(open.at, outside, 1)?;
            let (arguments, rest) = self.arguments(after, outside)?;
            return Ok((Expression::call(name, arguments), rest));
        }
        if let Some((open, after)) = self.take(tokens, Fixed::OpenBracket) {
            let inside = nested(open.at, outside, 1)?;
            let (index, rest) = self.expression(after, inside)?;
            let ((_, last), index) = keeping(self.expect(rest, Fixed::CloseBracket), index)?;
            return self.indexed(name, open.at, index, last, outside);
        }
        Ok((Expression::name(name), tokens))
    }

    // An element by the index that was read, or by a row's and a column's, where the latter follows.
    #[cycle(expressions)]
    fn indexed<'a>(
        self,
        name: Identifier,
        at: Pos,
        index: Expression,
        tokens: &'a [Token],
        outside: u32,
    ) -> Result<(Expression, &'a [Token]), ParseError>
        requires { outside ≤ nesting_limit }
        ensures { MatchResult result
            (λ r. Reads self.end Anywhere (λ c. states.indexed outside name at (expression_tree index) c) outside
            tokens.now (expression_tree r.0) r.1.now × IsPrimary (expression_tree r.0)
            × (length r.1.now ≤ length tokens.now))
            (λ x. Refuses self.end Anywhere (λ c. states.indexed outside name at (expression_tree index) c)
            tokens.now x) }
    {
        let Some((open, after)) = self.take(tokens, Fixed::OpenBracket) else {
            let element = Expression::index(self.alloc, name, at, index)?;
            return Ok((element, tokens));
        };
        let (inside, row) = keeping(nested(open.at, outside, 1), index)?;
        let ((column, rest), row) = keeping(self.expression(after, inside), row)?;
        let ((_, last), (row, column)) = keeping(
            self.expect(rest, Fixed::CloseBracket),
            (row, column),
        )?;
        let element = Expression::element(self.alloc, name, at, row, open.at, column)?;
        Ok((element, last))
    }

    // A cast, of which the first word was read.
    #[cycle(expressions)]
    fn cast<'a>(
        self,
        at: Pos,
        first: Specifier,
        tokens: &'a [Token],
        outside: u32,
    ) -> Result<(Expression, &'a [Token]), ParseError>
        requires { outside < nesting_limit }
        ensures { MatchResult result
            (λ r. Reads self.end Anywhere (λ c. states.cast_specifiers outside at (one first) c) outside tokens.now
            (expression_tree r.0) r.1.now × IsOperand self.end (expression_tree r.0) r.1.now
            × (length r.1.now ≤ length tokens.now))
            (λ x. Refuses self.end Anywhere (λ c. states.cast_specifiers outside at (one first) c) tokens.now x) }
    {
        let (words, rest) = self.whole_specifiers(first, tokens)?;
        let (_, after) = self.expect(rest, Fixed::CloseParenthesis)?;
        let (operand, last) = self.operand(after, outside + 1, true)?;
        let whole = Expression::cast(self.alloc, at, words, operand)?;
        Ok((whole, last))
    }

    // What begins with a `(`, which was read: an expression in parentheses, or, where it may stand, a cast.
    #[cycle(expressions)]
    fn opened<'a>(
        self,
        at: Pos,
        tokens: &'a [Token],
        outside: u32,
        casts: bool,
    ) -> Result<(Expression, &'a [Token]), ParseError>
        requires { outside < nesting_limit }
        ensures { MatchResult result
            (λ r. Reads self.end (CastsIf casts) (λ c. states.opened outside at c) outside tokens.now
            (expression_tree r.0) r.1.now × IsOperand self.end (expression_tree r.0) r.1.now
            × (length r.1.now ≤ length tokens.now))
            (λ x. Refuses self.end (CastsIf casts) (λ c. states.opened outside at c) tokens.now x) }
    {
        if let Some((first, after)) = self.specifier(tokens) {
            if casts {
                return self.cast(at, first, after, outside);
            }
            return Err(ParseError::Syntax { at: first.at });
        }
        let (inner, rest) = self.expression(tokens, outside + 1)?;
        let ((_, after), inner) = keeping(self.expect(rest, Fixed::CloseParenthesis), inner)?;
        let whole = Expression::parenthesized(self.alloc, at, inner)?;
        self.postfixes(whole, after, outside)
    }

    // A unary expression or, where casts may stand, a cast.
    #[cycle(expressions)]
    fn operand<'a>(
        self,
        tokens: &'a [Token],
        outside: u32,
        casts: bool,
    ) -> Result<(Expression, &'a [Token]), ParseError>
        requires { outside ≤ nesting_limit }
        ensures { MatchResult result
            (λ r. Reads self.end (CastsIf casts) (λ c. states.operand outside c) outside tokens.now
            (expression_tree r.0) r.1.now × IsOperand self.end (expression_tree r.0) r.1.now
            × (length r.1.now ≤ length tokens.now))
            (λ x. Refuses self.end (CastsIf casts) (λ c. states.operand outside c) tokens.now x) }
    {
        let (token, rest) = self.next(tokens)?;
        match operand_start(token.kind) {
            OperandStart::Name => {
                let (whole, after) = self.named(identifier(token), rest, outside)?;
                self.postfixes(whole, after, outside)
            }
            OperandStart::Constant { ty, value } => {
                self.postfixes(Expression::constant(token.at, ty, value), rest, outside)
            }
            OperandStart::Character(value) => {
                self.postfixes(Expression::character(token.at, value), rest, outside)
            }
            OperandStart::Parenthesis => {
                nested(token.at, outside, 1)?;
                self.opened(token.at, rest, outside, casts)
            }
            OperandStart::Step(op) => {
                let inside = nested(token.at, outside, 1)?;
                let (operand, last) = self.operand(rest, inside, false)?;
                let whole = Expression::prefix(self.alloc, op, token.at, operand)?;
                Ok((whole, last))
            }
            OperandStart::Unary(op) => {
                let inside = nested(token.at, outside, 1)?;
                let (operand, last) = self.operand(rest, inside, true)?;
                let whole = Expression::unary(self.alloc, op, token.at, operand)?;
                Ok((whole, last))
            }
            OperandStart::Other => Err(ParseError::Syntax { at: token.at }),
        }
    }

    // Operands with binary operators at least so strong between them, and how many operators.
    #[cycle(expressions)]
    fn binary<'a>(
        self,
        tokens: &'a [Token],
        outside: u32,
        level: u32,
    ) -> Result<(Expression, u32, &'a [Token]), ParseError>
        requires limit { outside ≤ nesting_limit }
        requires weakest { weakest_operator ≤ level }
        requires strongest { level ≤ cast_expression }
        ensures { MatchResult result
            (λ r. Reads self.end (UpTo level) (λ c. states.operand outside c) outside tokens.now
            (expression_tree r.0) r.2.now
            × EndsAt self.end level r.2.now × (commas_in (expression_tree r.0) ≡ 0)
            × (operators_in (expression_tree r.0) ≡ r.1) × (outside + r.1 ≤ nesting_limit)
            × (length r.2.now ≤ length tokens.now))
            (λ x. Refuses self.end (UpTo level) (λ c. states.operand outside c) tokens.now x) }
    {
        let (mut left, mut rest) = self.operand(tokens, outside, true)?;
        let mut count = 0;
        loop {
            let Some((op, at, after)) = self.binary_operator(rest, level) else {
                return Ok((left, count, rest));
            };
            let (inside, before) = keeping(nested(at, outside, count + 1), left)?;
            let ((right, more, next), before) = keeping(
                self.binary(after, inside, right_of(op)),
                before,
            )?;
            left = Expression::binary(self.alloc, op, at, before, right)?;
            count += 1 + more;
            rest = next;
        }
    }

    /// A conditional expression, or one of a stronger form.
    #[cycle(expressions)]
    pub fn conditional<'a>(
        self,
        tokens: &'a [Token],
        outside: u32,
    ) -> Result<(Expression, &'a [Token]), ParseError>
        requires { outside ≤ nesting_limit }
        ensures { MatchResult result
            (λ r. Reads self.end (UpTo conditional_expression) (λ c. states.operand outside c) outside tokens.now
            (expression_tree r.0) r.1.now × EndsAt self.end conditional_expression r.1.now
            × (commas_in (expression_tree r.0) ≡ 0) × (length r.1.now ≤ length tokens.now))
            (λ x. Refuses self.end (UpTo conditional_expression) (λ c. states.operand outside c) tokens.now x) }
    {
        let (test, _, rest) = self.binary(tokens, outside, WEAKEST)?;
        let Some((at, after)) = self.question(rest) else {
            return Ok((test, rest));
        };
        let (inside, test) = keeping(nested(at, outside, 1), test)?;
        let ((yes, before_colon), test) = keeping(self.expression(after, inside), test)?;
        let ((_, after_colon), held) = keeping(
            self.expect(before_colon, Fixed::Colon),
            (test, yes),
        )?;
        let ((no, last), (test, yes)) = keeping(self.conditional(after_colon, inside), held)?;
        let whole = Expression::conditional(self.alloc, at, test, yes, no)?;
        Ok((whole, last))
    }

    /// An assignment, or an expression of a stronger form.
    #[cycle(expressions)]
    pub fn assignment<'a>(
        self,
        tokens: &'a [Token],
        outside: u32,
    ) -> Result<(Expression, &'a [Token]), ParseError>
        requires { outside ≤ nesting_limit }
        ensures { MatchResult result
            (λ r. Reads self.end (UpTo assignment_expression) (λ c. states.operand outside c) outside tokens.now
            (expression_tree r.0) r.1.now × EndsAt self.end assignment_expression r.1.now
            × (commas_in (expression_tree r.0) ≡ 0) × (length r.1.now ≤ length tokens.now))
            (λ x. Refuses self.end (UpTo assignment_expression) (λ c. states.operand outside c) tokens.now x) }
    {
        let (left, rest) = self.conditional(tokens, outside)?;
        let Some((op, at, after)) = self.assignment_operator(rest) else {
            return Ok((left, rest));
        };
        if !is_unary(&left) {
            drop(left);
            return Err(ParseError::Syntax { at });
        }
        let (inside, left) = keeping(nested(at, outside, 1), left)?;
        let ((right, last), left) = keeping(self.assignment(after, inside), left)?;
        let whole = Expression::assignment(self.alloc, op, at, left, right)?;
        Ok((whole, last))
    }

    /// An expression, with commas or without.
    #[cycle(expressions)]
    pub fn expression<'a>(
        self,
        tokens: &'a [Token],
        outside: u32,
    ) -> Result<(Expression, &'a [Token]), ParseError>
        requires { outside ≤ nesting_limit }
        ensures { MatchResult result
            (λ r. Reads self.end (UpTo any_expression) (λ c. states.operand outside c) outside tokens.now
            (expression_tree r.0) r.1.now × EndsAt self.end any_expression r.1.now
            × (length r.1.now ≤ length tokens.now))
            (λ x. Refuses self.end (UpTo any_expression) (λ c. states.operand outside c) tokens.now x) }
    {
        let (mut left, mut rest) = self.assignment(tokens, outside)?;
        let mut count = 0;
        loop {
            let Some((comma, after)) = self.take(rest, Fixed::Comma) else {
                return Ok((left, rest));
            };
            let (inside, before) = keeping(nested(comma.at, outside, count + 1), left)?;
            let ((right, next), before) = keeping(self.assignment(after, inside), before)?;
            left = Expression::comma(self.alloc, comma.at, before, right)?;
            count += 1;
            rest = next;
        }
    }
}
