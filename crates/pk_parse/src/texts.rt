// Texts.

ghost use Rattle.std.specs.Prelude.{◌≡◌, ◌⊎◌, List, IfOk, IfErr, MatchResult};
ghost use Rattle.pk_ast.specs.Trees.{ExternalTree};
ghost use Rattle.pk_ast.specs.Views.{unit_tree};
ghost use Rattle.pk_grammar.specs.Outcomes.{IsEnded};
ghost use Rattle.pk_parse.specs.Refusals.{IsAccepted, IsRefused};

use crate::externals::externals;
use pk_ast::Unit;
use pk_constructs::first_unsupported;
use pk_grammar::ParseError;
use pk_lex::Token;
use pk_parse_expression::Parser;
use std::alloc::Global;

/// The trees of the tokens of a text, of which the last, and no other, is End. Otherwise the first construct that isn't analysed; else
/// the place of the first token with which no text goes on, or that is nested deeper than 128, whichever comes first.
pub fn parse(alloc: Global, tokens: &[Token]) -> Result<Unit, ParseError>
    requires { IsEnded tokens.now }
    ensures accepted { IfOk result (λ u. IsAccepted tokens.now (unit_tree u)) }
    ensures refused { IfErr result (λ x. (x ≡ ParseError.Memory) ⊎ IsRefused tokens.now x) }
    ensures only { (trees : List ExternalTree) → IsAccepted tokens.now trees →
        MatchResult result (λ u. unit_tree u ≡ trees) (λ x. x ≡ ParseError.Memory) }
{
    if let Some((construct, at)) = first_unsupported(tokens) {
        return Err(ParseError::Unsupported { construct, at });
    }
    let Some((end, front)) = tokens.split_last() else {
        unreachable!("a text has its end")
    };
    let parser = Parser { alloc, end: *end };
    let list = externals(parser, front)?;
    Ok(Unit::new(list))
}
