// Laws of reading.

ghost use Rattle.pk_text_laws.specs.Names.Laws.{NamesStandInTexts};
ghost use Rattle.pk_text_laws.specs.Total.Lexing.{EveryTextIsLexedOrFails};
ghost use Rattle.pk_text_laws.specs.Total.Parsing.{EndedAreAcceptedOrRefused};
ghost use Rattle.pk_text_laws.specs.Total.Ends.{EveryTextEnds};

use pk_grammar::names_are_tokens;

/// Each name in the trees of a text has a span in the text, whose bytes are a name, and the place of its first byte.
pub fn names_stand_in_texts()
    ensures { NamesStandInTexts }
{
    names_are_tokens();
}

/// A text is some tokens, or fails at a place where no token begins.
pub fn every_text_is_lexed_or_fails()
    ensures { EveryTextIsLexedOrFails }
{}

/// Tokens that end are accepted with some trees, or refused for what they are.
pub fn ended_tokens_are_accepted_or_refused()
    ensures { EndedAreAcceptedOrRefused }
{}

/// Every text and entry lead to call paths, or are left for a cause other than want of memory.
pub fn every_text_ends()
    ensures { EveryTextEnds }
{
    pk_front::trees_lead_on();
}
