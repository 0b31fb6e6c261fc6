// Laws of loops and of where they begin again.

ghost use Rattle.pk_loop_texts.specs.Laws.{LoopsOfTextsAreApart, TurnsAreApart, TurnsOfTextsAreApart};

/// No two loops in a body of a text's typed unit share a place.
pub fn loops_are_apart()
    ensures { LoopsOfTextsAreApart }
{}

/// Where no two loops of a body share a place, a loop of a path begins again at one point of the unit's graph at most.
pub fn turns_are_apart()
    ensures { TurnsAreApart }
{}

/// A loop of a path begins again at one point of a text's graph at most.
pub fn turns_of_texts_are_apart()
    ensures { TurnsOfTextsAreApart }
{}
