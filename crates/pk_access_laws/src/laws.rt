// Laws of accesses and of call paths.

ghost use Rattle.pk_access_laws.specs.Laws.{AccessesAreApart, PathsAreApart, CallsTellPaths, PathsHaveCalls};

/// No two accesses of a graph share call path, place and kind, where no two operators of a body share a place.
pub fn accesses_are_apart()
    ensures { AccessesAreApart }
{}

/// No two paths of a graph are entered by one call, where no two calls of a body share a place.
pub fn paths_are_apart()
    ensures { PathsAreApart }
{}

/// So the places of its calls tell a path.
pub fn calls_tell_paths()
    ensures { CallsTellPaths }
{}

/// Each path of the graph of a listing has such places.
pub fn paths_have_calls()
    ensures { PathsHaveCalls }
{}
