// Laws of names, places and callers.

ghost use Rattle.pk_places_laws.specs.Laws.{PlacesAreTheUnits, NamesAreTheUnits, CallersComeFirst, AccessesAreOnPaths};

/// Each place of a graph is one of its unit's, or the one that stands for none: what holds of these holds of it.
pub fn places_are_the_units()
    ensures { PlacesAreTheUnits }
{}

/// Each name of a graph is one of its unit's.
pub fn names_are_the_units()
    ensures { NamesAreTheUnits }
{}

/// In a listing of call paths the caller of a path comes before it.
pub fn callers_come_first()
    ensures { CallersComeFirst }
{}

/// Each access of a graph is made on one of its paths.
pub fn accesses_are_on_paths()
    ensures { AccessesAreOnPaths }
{}
