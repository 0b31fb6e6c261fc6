// Statements.

ghost use Rattle.std.specs.Prelude.{◌≡◌, ◌≢◌, ◌<◌, ◌≤◌, ℕ, ◌+◌, length, MatchOption, MatchResult, option_map, true, false};
ghost use Rattle.pk_ctypes.specs.declared.places.Pos.{Pos};
ghost use Rattle.pk_ast.specs.Trees as tree;
ghost use Rattle.pk_ast.specs.Views.{expression_tree, for_start_tree, statement_tree, item_trees, block_tree};
ghost use Rattle.pk_grammar.specs.Grammar.{any_expression};
ghost use Rattle.pk_grammar.specs.Outcomes.{nesting_limit};
ghost use Rattle.pk_grammar.specs.Machine.Running.{first_of_all, run, Fails};
ghost use Rattle.pk_parse_expression.specs.Parsing.{UpTo, Refuses};
ghost use Rattle.pk_parse.specs.Parts.{IsOptional, IsTest, with_items, IsNewBlock, after_block};
ghost use Rattle.pk_grammar.specs.Machine.Signs as signs;
ghost use Rattle.pk_grammar.specs.Machine.Signs.{is_fixed};
ghost use Rattle.pk_grammar.specs.Machine.States as states;
ghost use Rattle.pk_grammar.specs.Machine.Steps as steps;

use crate::declarations::declaration;
use crate::items::block_declaration;
use pk_ast::{Block, BlockItem, Expression, ForHead, ForStart, Identifier, Statement};
use pk_ctypes::Pos;
use pk_grammar::{
    Fixed, OperandStart, ParseError, StatementStart, Testing, is, operand_start, statement_start,
};
use pk_lex::Token;
use pk_parse_expression::{Parser, identifier, keeping, nested};

// An expression, unless this token comes first.
fn optional<'a>(
    parser: Parser,
    tokens: &'a [Token],
    outside: u32,
    close: Fixed,
) -> Result<(Option<Expression>, &'a [Token]), ParseError>
    requires { outside ≤ nesting_limit }
    ensures { MatchResult result
        (λ r. IsOptional parser.end outside close tokens.now (option_map expression_tree r.0) r.1.now
        × (length r.1.now ≤ length tokens.now))
        (λ x. (is_fixed close (first_of_all parser.end tokens.now).kind ≡ false)
        × Refuses parser.end (UpTo any_expression) (λ c. states.operand outside c) tokens.now x) }
{
    if is(parser.kind(tokens), close) {
        return Ok((None, tokens));
    }
    let (whole, rest) = parser.expression(tokens, outside)?;
    Ok((Some(whole), rest))
}

// An expression in parentheses.
fn test<'a>(
    parser: Parser,
    tokens: &'a [Token],
    outside: u32,
) -> Result<(Expression, &'a [Token]), ParseError>
    requires { outside ≤ nesting_limit }
    ensures { MatchResult result
        (λ r. ((s : states.State) (p : states.Purpose) (next : tree.ExpressionTree → states.State) →
        IsTest s p outside next → run parser.end s tokens.now
        ≡ run parser.end (next (expression_tree r.0)) r.1.now) × (length r.1.now ≤ length tokens.now))
        (λ x. (s : states.State) (p : states.Purpose) (next : tree.ExpressionTree → states.State) →
        IsTest s p outside next → Fails (run parser.end s tokens.now) x) }
{
    let (open, after) = parser.expect(tokens, Fixed::OpenParenthesis)?;
    let inside = nested(open.at, outside, 1)?;
    let (whole, rest) = parser.expression(after, inside)?;
    let ((_, last), whole) = keeping(parser.expect(rest, Fixed::CloseParenthesis), whole)?;
    Ok((whole, last))
}

// What follows the statement of a `do`, with the last `;`.
fn until<'a>(
    parser: Parser,
    tokens: &'a [Token],
    inside: u32,
) -> Result<(Expression, &'a [Token]), ParseError>
    requires { inside ≤ nesting_limit }
    ensures { MatchResult result
        (λ r. ((n : ℕ) (at : Pos) (s : tree.StatementTree) (o : states.Outer) → inside ≡ n + 1 →
        run parser.end (states.after_statement s (states.in_do n at o)) tokens.now
        ≡ run parser.end (states.after_statement (tree.do_while at s (expression_tree r.0)) o) r.1.now)
        × (length r.1.now ≤ length tokens.now))
        (λ x. (n : ℕ) (at : Pos) (s : tree.StatementTree) (o : states.Outer) → inside ≡ n + 1 →
        Fails (run parser.end (states.after_statement s (states.in_do n at o)) tokens.now) x) }
{
    let (_, after) = parser.expect(tokens, Fixed::While)?;
    let (test, end) = test(parser, after, inside)?;
    let ((_, last), test) = keeping(parser.expect(end, Fixed::Semicolon), test)?;
    Ok((test, last))
}

// What the parentheses of a `for` begin with, and its `;`.
fn for_start<'a>(
    parser: Parser,
    tokens: &'a [Token],
    outside: u32,
) -> Result<(ForStart, &'a [Token]), ParseError>
    requires { outside ≤ nesting_limit }
    ensures { MatchResult result
        (λ r. ((n : ℕ) (at : Pos) (o : states.Outer) → outside ≡ n + 2 →
        run parser.end (states.for_first n at o) tokens.now
        ≡ run parser.end (states.for_second n at (for_start_tree r.0) o) r.1.now)
        × (length r.1.now ≤ length tokens.now))
        (λ x. (n : ℕ) (at : Pos) (o : states.Outer) → outside ≡ n + 2 →
        Fails (run parser.end (states.for_first n at o) tokens.now) x) }
{
    if let Some((word, after)) = parser.specifier(tokens) {
        let (declaration, rest) = declaration(parser, word, false, after, outside)?;
        return Ok((ForStart::declaration(declaration), rest));
    }
    let (first, rest) = optional(parser, tokens, outside, Fixed::Semicolon)?;
    let ((_, last), first) = keeping(parser.expect(rest, Fixed::Semicolon), first)?;
    Ok((ForStart::expression(first), last))
}

// What follows the `;` of a `for`'s start in its parentheses, and the `)`.
fn for_tests<'a>(
    parser: Parser,
    tokens: &'a [Token],
    outside: u32,
) -> Result<(Option<Expression>, Option<Expression>, &'a [Token]), ParseError>
    requires { outside ≤ nesting_limit }
    ensures { MatchResult result
        (λ r. ((n : ℕ) (at : Pos) (f : tree.ForStartTree) (o : states.Outer) → outside ≡ n + 2 →
        run parser.end (states.for_second n at f o) tokens.now
        ≡ run parser.end (states.at_statement (n + 1)
        (states.in_for n at f (option_map expression_tree r.0) (option_map expression_tree r.1) o)) r.2.now)
        × (length r.2.now ≤ length tokens.now))
        (λ x. (n : ℕ) (at : Pos) (f : tree.ForStartTree) (o : states.Outer) → outside ≡ n + 2 →
        Fails (run parser.end (states.for_second n at f o) tokens.now) x) }
{
    let (test, rest) = optional(parser, tokens, outside, Fixed::Semicolon)?;
    let ((_, third), test) = keeping(parser.expect(rest, Fixed::Semicolon), test)?;
    let ((step, close), test) = keeping(
        optional(parser, third, outside, Fixed::CloseParenthesis),
        test,
    )?;
    let ((_, last), (test, step)) = keeping(
        parser.expect(close, Fixed::CloseParenthesis),
        (test, step),
    )?;
    Ok((test, step, last))
}

// The parentheses of a `for`, after that word.
fn for_head<'a>(
    parser: Parser,
    tokens: &'a [Token],
    inside: u32,
) -> Result<(Box<ForHead>, &'a [Token]), ParseError>
    requires { inside ≤ nesting_limit }
    ensures { MatchResult result
        (λ r. ((n : ℕ) (at : Pos) (o : states.Outer) → inside ≡ n + 1 →
        run parser.end (states.for_open n at o) tokens.now
        ≡ run parser.end (states.at_statement inside
        (states.in_for n at (for_start_tree r.0.value.start) (option_map expression_tree r.0.value.condition)
        (option_map expression_tree r.0.value.step) o)) r.1.now) × (length r.1.now ≤ length tokens.now))
        (λ x. (n : ℕ) (at : Pos) (o : states.Outer) → inside ≡ n + 1 →
        Fails (run parser.end (states.for_open n at o) tokens.now) x) }
{
    let (open, after) = parser.expect(tokens, Fixed::OpenParenthesis)?;
    let head = nested(open.at, inside, 1)?;
    let (start, second) = for_start(parser, after, head)?;
    let ((condition, step, last), start) = keeping(for_tests(parser, second, head), start)?;
    let head = ForHead {
        start,
        condition,
        step,
    };
    Ok((Box::new(parser.alloc, head)?, last))
}

// A `goto`, after that word.
fn goto<'a>(
    parser: Parser,
    at: Pos,
    tokens: &'a [Token],
) -> Result<(Statement, &'a [Token]), ParseError>
    ensures { MatchResult result
        (λ r. ((n : ℕ) (o : states.Outer) → n + 1 ≤ nesting_limit →
        run parser.end (states.goto_name n at o) tokens.now
        ≡ run parser.end (states.after_statement (statement_tree r.0) o) r.1.now)
        × (length r.1.now ≤ length tokens.now))
        (λ x. (n : ℕ) (o : states.Outer) → n + 1 ≤ nesting_limit →
        Fails (run parser.end (states.goto_name n at o) tokens.now) x) }
{
    let (name, after) = parser.expect(tokens, Fixed::Name)?;
    let (_, last) = parser.expect(after, Fixed::Semicolon)?;
    Ok((Statement::goto(at, identifier(name)), last))
}

// A `return`, after that word.
fn returning<'a>(
    parser: Parser,
    at: Pos,
    tokens: &'a [Token],
    inside: u32,
) -> Result<(Statement, &'a [Token]), ParseError>
    requires { inside ≤ nesting_limit }
    ensures { MatchResult result
        (λ r. ((n : ℕ) (o : states.Outer) → inside ≡ n + 1 →
        run parser.end (states.returning n at o) tokens.now
        ≡ run parser.end (states.after_statement (statement_tree r.0) o) r.1.now)
        × (length r.1.now ≤ length tokens.now))
        (λ x. (n : ℕ) (o : states.Outer) → inside ≡ n + 1 →
        Fails (run parser.end (states.returning n at o) tokens.now) x) }
{
    let (value, rest) = optional(parser, tokens, inside, Fixed::Semicolon)?;
    let ((_, last), value) = keeping(parser.expect(rest, Fixed::Semicolon), value)?;
    Ok((Statement::return_statement(at, value), last))
}

// The name that an expression is, where it is no more than one.
fn name_alone(e: &Expression) -> Option<Identifier>
    ensures { MatchOption result ((name : Identifier) → e.now ≢ Expression.Name name)
        (λ name. e.now ≡ Expression.Name name) }
{
    match e {
        Expression::Name(name) => Some(*name),
        _ => None,
    }
}

// A statement that an expression begins, or a label.
#[cycle(statements)]
fn labelled<'a>(
    parser: Parser,
    tokens: &'a [Token],
    outside: u32,
) -> Result<(Statement, &'a [Token]), ParseError>
    requires limit { outside ≤ nesting_limit }
    requires other { signs.statement_start (first_of_all parser.end tokens.now).kind ≡ StatementStart.Other }
    ensures { MatchResult result
        (λ r. ((o : states.Outer) → run parser.end (states.at_statement outside o) tokens.now
        ≡ run parser.end (states.after_statement (statement_tree r.0) o) r.1.now)
        × (length r.1.now < length tokens.now))
        (λ x. (o : states.Outer) → Fails (run parser.end (states.at_statement outside o) tokens.now) x) }
{
    let at = parser.place(tokens);
    if operand_start(parser.kind(tokens)) == OperandStart::Other {
        return Err(ParseError::Syntax { at });
    }
    let inside = nested(at, outside, 1)?;
    let (whole, rest) = parser.expression(tokens, inside)?;
    if let Some((_, last)) = parser.take(rest, Fixed::Semicolon) {
        return Ok((Statement::expression(whole), last));
    }
    let name = name_alone(&whole);
    drop(whole);
    let Some(label) = name else {
        return Err(ParseError::Syntax {
            at: parser.place(rest),
        });
    };
    let (_, after) = parser.expect(rest, Fixed::Colon)?;
    let (body, last) = statement(parser, after, inside)?;
    let whole = Statement::label(parser.alloc, label, body)?;
    Ok((whole, last))
}

// A case, after that word.
#[cycle(statements)]
fn case<'a>(
    parser: Parser,
    at: Pos,
    tokens: &'a [Token],
    inside: u32,
) -> Result<(Statement, &'a [Token]), ParseError>
    requires { inside ≤ nesting_limit }
    ensures { MatchResult result
        (λ r. ((n : ℕ) (o : states.Outer) → inside ≡ n + 1 →
        run parser.end (states.operand inside (states.as_whole (states.as_label n at o))) tokens.now
        ≡ run parser.end (states.after_statement (statement_tree r.0) o) r.1.now)
        × (length r.1.now ≤ length tokens.now))
        (λ x. (n : ℕ) (o : states.Outer) → inside ≡ n + 1 →
        Fails (run parser.end (states.operand inside (states.as_whole (states.as_label n at o))) tokens.now) x) }
{
    let (value, rest) = parser.conditional(tokens, inside)?;
    let ((_, after), value) = keeping(parser.expect(rest, Fixed::Colon), value)?;
    let ((body, last), value) = keeping(statement(parser, after, inside), value)?;
    let whole = Statement::case(parser.alloc, at, value, body)?;
    Ok((whole, last))
}

// A default, after that word.
#[cycle(statements)]
fn default<'a>(
    parser: Parser,
    at: Pos,
    tokens: &'a [Token],
    inside: u32,
) -> Result<(Statement, &'a [Token]), ParseError>
    requires { inside ≤ nesting_limit }
    ensures { MatchResult result
        (λ r. ((n : ℕ) (o : states.Outer) → inside ≡ n + 1 →
        run parser.end (states.default_colon n at o) tokens.now
        ≡ run parser.end (states.after_statement (statement_tree r.0) o) r.1.now)
        × (length r.1.now ≤ length tokens.now))
        (λ x. (n : ℕ) (o : states.Outer) → inside ≡ n + 1 →
        Fails (run parser.end (states.default_colon n at o) tokens.now) x) }
{
    let (_, after) = parser.expect(tokens, Fixed::Colon)?;
    let (body, last) = statement(parser, after, inside)?;
    let whole = Statement::default(parser.alloc, at, body)?;
    Ok((whole, last))
}

// An if, after that word, and the else that goes with it.
#[cycle(statements)]
fn choice<'a>(
    parser: Parser,
    at: Pos,
    tokens: &'a [Token],
    inside: u32,
) -> Result<(Statement, &'a [Token]), ParseError>
    requires { inside ≤ nesting_limit }
    ensures { MatchResult result
        (λ r. ((n : ℕ) (o : states.Outer) → inside ≡ n + 1 →
        run parser.end (states.test_open Testing.If n at o) tokens.now
        ≡ run parser.end (states.after_statement (statement_tree r.0) o) r.1.now)
        × (length r.1.now ≤ length tokens.now))
        (λ x. (n : ℕ) (o : states.Outer) → inside ≡ n + 1 →
        Fails (run parser.end (states.test_open Testing.If n at o) tokens.now) x) }
{
    let (test, after) = test(parser, tokens, inside)?;
    let ((yes, rest), test) = keeping(statement(parser, after, inside), test)?;
    let Some((other, next)) = parser.take(rest, Fixed::Else) else {
        let whole = Statement::if_then(parser.alloc, at, test, yes)?;
        return Ok((whole, rest));
    };
    let (yes, test) = keeping(Box::new(parser.alloc, yes), test)?;
    let (branch, held) = keeping(nested(other.at, inside, 1), (test, yes))?;
    let ((no, last), (test, yes)) = keeping(statement(parser, next, branch), held)?;
    let whole = Statement::if_else(parser.alloc, at, test, yes, no)?;
    Ok((whole, last))
}

// A switch or a while, after that word.
#[cycle(statements)]
fn tested<'a>(
    parser: Parser,
    testing: Testing,
    at: Pos,
    tokens: &'a [Token],
    inside: u32,
) -> Result<(Statement, &'a [Token]), ParseError>
    requires limit { inside ≤ nesting_limit }
    requires no_if { testing ≢ Testing.If }
    ensures { MatchResult result
        (λ r. ((n : ℕ) (o : states.Outer) → inside ≡ n + 1 →
        run parser.end (states.test_open testing n at o) tokens.now
        ≡ run parser.end (states.after_statement (statement_tree r.0) o) r.1.now)
        × (length r.1.now ≤ length tokens.now))
        (λ x. (n : ℕ) (o : states.Outer) → inside ≡ n + 1 →
        Fails (run parser.end (states.test_open testing n at o) tokens.now) x) }
{
    let (test, after) = test(parser, tokens, inside)?;
    let ((body, last), test) = keeping(statement(parser, after, inside), test)?;
    let whole = match testing {
        Testing::Switch => Statement::switch(parser.alloc, at, test, body)?,
        _ => Statement::while_loop(parser.alloc, at, test, body)?,
    };
    Ok((whole, last))
}

// A do, after that word.
#[cycle(statements)]
fn repeated<'a>(
    parser: Parser,
    at: Pos,
    tokens: &'a [Token],
    inside: u32,
) -> Result<(Statement, &'a [Token]), ParseError>
    requires { inside ≤ nesting_limit }
    ensures { MatchResult result
        (λ r. ((n : ℕ) (o : states.Outer) → inside ≡ n + 1 →
        run parser.end (states.at_statement inside (states.in_do n at o)) tokens.now
        ≡ run parser.end (states.after_statement (statement_tree r.0) o) r.1.now)
        × (length r.1.now ≤ length tokens.now))
        (λ x. (n : ℕ) (o : states.Outer) → inside ≡ n + 1 →
        Fails (run parser.end (states.at_statement inside (states.in_do n at o)) tokens.now) x) }
{
    let (body, rest) = statement(parser, tokens, inside)?;
    let ((test, last), body) = keeping(until(parser, rest, inside), body)?;
    let whole = Statement::do_while(parser.alloc, at, body, test)?;
    Ok((whole, last))
}

// A for, after that word.
#[cycle(statements)]
fn for_loop<'a>(
    parser: Parser,
    at: Pos,
    tokens: &'a [Token],
    inside: u32,
) -> Result<(Statement, &'a [Token]), ParseError>
    requires { inside ≤ nesting_limit }
    ensures { MatchResult result
        (λ r. ((n : ℕ) (o : states.Outer) → inside ≡ n + 1 →
        run parser.end (states.for_open n at o) tokens.now
        ≡ run parser.end (states.after_statement (statement_tree r.0) o) r.1.now)
        × (length r.1.now ≤ length tokens.now))
        (λ x. (n : ℕ) (o : states.Outer) → inside ≡ n + 1 →
        Fails (run parser.end (states.for_open n at o) tokens.now) x) }
{
    let (head, rest) = for_head(parser, tokens, inside)?;
    let (body, last) = statement(parser, rest, inside)?;
    let whole = Statement::for_loop(parser.alloc, at, head, body)?;
    Ok((whole, last))
}

// The declarations and statements of a block, up to its `}`.
#[cycle(statements)]
fn block_items<'a>(
    parser: Parser,
    tokens: &'a [Token],
    inside: u32,
) -> Result<(Vec<BlockItem>, &'a [Token]), ParseError>
    requires { inside ≤ nesting_limit }
    ensures { MatchResult result
        (λ r. ((b : states.OpenBlock) → steps.block_nesting b ≡ inside →
        run parser.end (states.block_item b) tokens.now
        ≡ run parser.end (states.block_item (with_items b (item_trees r.0.items))) r.1.now)
        × (is_fixed Fixed.CloseBrace (first_of_all parser.end r.1.now).kind ≡ true)
        × (length r.1.now ≤ length tokens.now))
        (λ x. (b : states.OpenBlock) → steps.block_nesting b ≡ inside →
        Fails (run parser.end (states.block_item b) tokens.now) x) }
{
    let mut list = Vec::new(parser.alloc);
    let mut rest = tokens;
    loop {
        if is(parser.kind(rest), Fixed::CloseBrace) {
            return Ok((list, rest));
        }
        if let Some((item, next)) = block_declaration(parser, rest, inside)? {
            list.push(item)?;
            rest = next;
        } else {
            let (statement, next) = statement(parser, rest, inside)?;
            list.push(BlockItem::statement(statement))?;
            rest = next;
        }
    }
}

/// A block, of which the `{` was read.
#[cycle(statements)]
pub fn block<'a>(
    parser: Parser,
    brace: Pos,
    tokens: &'a [Token],
    inside: u32,
) -> Result<(Block, &'a [Token]), ParseError>
    requires { inside ≤ nesting_limit }
    ensures { MatchResult result
        (λ r. ((b : states.OpenBlock) → IsNewBlock b brace inside →
        run parser.end (states.block_item b) tokens.now
        ≡ run parser.end (after_block b (block_tree r.0)) r.1.now) × (length r.1.now ≤ length tokens.now))
        (λ x. (b : states.OpenBlock) → IsNewBlock b brace inside →
        Fails (run parser.end (states.block_item b) tokens.now) x) }
{
    let (items, rest) = block_items(parser, tokens, inside)?;
    let ((close, last), items) = keeping(parser.expect(rest, Fixed::CloseBrace), items)?;
    Ok((Block::new(brace, items, close.at), last))
}

/// A statement.
#[cycle(statements)]
pub fn statement<'a>(
    parser: Parser,
    tokens: &'a [Token],
    outside: u32,
) -> Result<(Statement, &'a [Token]), ParseError>
    requires { outside ≤ nesting_limit }
    ensures { MatchResult result
        (λ r. ((o : states.Outer) → run parser.end (states.at_statement outside o) tokens.now
        ≡ run parser.end (states.after_statement (statement_tree r.0) o) r.1.now)
        × (length r.1.now < length tokens.now))
        (λ x. (o : states.Outer) → Fails (run parser.end (states.at_statement outside o) tokens.now) x) }
{
    let start = statement_start(parser.kind(tokens));
    if start == StatementStart::Other {
        return labelled(parser, tokens, outside);
    }
    let (token, rest) = parser.next(tokens)?;
    let at = token.at;
    let inside = nested(at, outside, 1)?;
    match start {
        StatementStart::Block => {
            let (block, last) = block(parser, at, rest, inside)?;
            Ok((Statement::block(block), last))
        }
        StatementStart::Case => case(parser, at, rest, inside),
        StatementStart::Default => default(parser, at, rest, inside),
        StatementStart::Test(Testing::If) => choice(parser, at, rest, inside),
        StatementStart::Test(testing) => tested(parser, testing, at, rest, inside),
        StatementStart::Do => repeated(parser, at, rest, inside),
        StatementStart::For => for_loop(parser, at, rest, inside),
        StatementStart::Goto => goto(parser, at, rest),
        StatementStart::Continue => {
            let (_, last) = parser.expect(rest, Fixed::Semicolon)?;
            Ok((Statement::continue_statement(at), last))
        }
        StatementStart::Break => {
            let (_, last) = parser.expect(rest, Fixed::Semicolon)?;
            Ok((Statement::break_statement(at), last))
        }
        StatementStart::Return => returning(parser, at, rest, inside),
        StatementStart::Empty | StatementStart::Other => Ok((Statement::empty(at), rest)),
    }
}
