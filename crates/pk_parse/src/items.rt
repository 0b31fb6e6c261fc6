// The declarations of a block.

ghost use Rattle.std.specs.Prelude.{◌≡◌, ◌<◌, ◌≤◌, [], ◌∷◌, length, MatchOption, MatchResult, false};
ghost use Rattle.pk_ast.specs.Views.{item_trees};
ghost use Rattle.pk_grammar.specs.Outcomes.{nesting_limit};
ghost use Rattle.pk_grammar.specs.Machine.Running.{first_of_all, run, Fails};
ghost use Rattle.pk_grammar.specs.Machine.Signs.{is_fixed};
ghost use Rattle.pk_grammar.specs.Machine.States as states;
ghost use Rattle.pk_grammar.specs.Machine.Steps as steps;
ghost use Rattle.pk_parse.specs.Parts.{with_items, static_state, BeginsNoDeclaration};

use crate::declarations::declaration;
use pk_ast::BlockItem;
use pk_ctypes::Pos;
use pk_grammar::{Fixed, ParseError};
use pk_lex::Token;
use pk_parse_expression::Parser;

// The place of a `static`, where it comes first.
fn static_word<'a>(parser: Parser, tokens: &'a [Token]) -> (Option<Pos>, &'a [Token])
    ensures reads { (b : states.OpenBlock) → steps.block_nesting b ≤ nesting_limit →
        run parser.end (states.block_item b) tokens.now ≡ run parser.end (static_state b result.0) result.1.now }
    ensures rest { MatchOption result.0 ((is_fixed Fixed.Static (first_of_all parser.end tokens.now).kind ≡ false)
        × (result.1.now ≡ tokens.now)) (λ at. length result.1.now < length tokens.now) }
{
    match parser.take(tokens, Fixed::Static) {
        Some((token, rest)) => (Some(token.at), rest),
        None => (None, tokens),
    }
}

/// A declaration of a block, where one comes first.
pub fn block_declaration<'a>(
    parser: Parser,
    tokens: &'a [Token],
    inside: u32,
) -> Result<Option<(BlockItem, &'a [Token])>, ParseError>
    requires { inside ≤ nesting_limit }
    ensures { MatchResult result
        (λ found. MatchOption found (BeginsNoDeclaration parser.end tokens.now)
        (λ r. ((b : states.OpenBlock) → steps.block_nesting b ≡ inside →
        run parser.end (states.block_item b) tokens.now
        ≡ run parser.end (states.block_item (with_items b (item_trees (r.0 ∷ [])))) r.1.now)
        × (length r.1.now < length tokens.now)))
        (λ x. (b : states.OpenBlock) → steps.block_nesting b ≡ inside →
        Fails (run parser.end (states.block_item b) tokens.now) x) }
{
    let (static_at, after) = static_word(parser, tokens);
    let Some((word, rest)) = parser.specifier(after) else {
        if static_at.is_none() {
            return Ok(None);
        }
        return Err(ParseError::Syntax {
            at: parser.place(after),
        });
    };
    let (declaration, last) = declaration(parser, word, static_at.is_some(), rest, inside)?;
    let item = BlockItem::declaration(parser.alloc, static_at, declaration)?;
    Ok(Some((item, last)))
}
