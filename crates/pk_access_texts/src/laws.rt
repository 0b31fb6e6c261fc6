// Laws of tokens, operators, calls, accesses and paths.

ghost use Rattle.pk_access_texts.specs.Laws.{TokensAreApart, OperatorsOfTextsAreApart, CallsOfTextsAreApart, AccessesOfTextsAreApart, PathsOfTextsAreApart, PlacesTellAccesses};

/// No two tokens of a text share a place.
pub fn tokens_are_apart()
    ensures { TokensAreApart }
{}

/// No two operators in a body of its typed unit share a place.
pub fn operators_are_apart()
    ensures { OperatorsOfTextsAreApart }
{}

/// Nor do two calls.
pub fn calls_are_apart()
    ensures { CallsOfTextsAreApart }
{}

/// No two accesses of its graph share call path, place and kind.
pub fn accesses_are_apart()
    ensures { AccessesOfTextsAreApart }
{}

/// No two paths of its graph are entered by one call.
pub fn paths_are_apart()
    ensures { PathsOfTextsAreApart }
{}

/// The places of the calls of its path, its own place and its kind tell an access.
pub fn places_tell_accesses()
    ensures { PlacesTellAccesses }
{}
