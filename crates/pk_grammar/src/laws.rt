// What follows from the grammar alone.

ghost use Rattle.pk_grammar.specs.Names.{NamesAreTokens};
ghost use Rattle.pk_grammar.specs.Outcomes.{OneUnit, NestingsAreDetermined};

/// A list of tokens is the text of one list of trees at most.
pub fn units_are_determined()
    ensures { OneUnit }
{}

/// How deep a token is nested doesn't depend on what follows it.
pub fn nestings_are_determined()
    ensures { NestingsAreDetermined }
{}

/// The names in trees are the Name tokens of their text, each with its span and place, in its order.
pub fn names_are_tokens()
    ensures { NamesAreTokens }
{}
