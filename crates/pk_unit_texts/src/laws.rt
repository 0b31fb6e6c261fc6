// Laws of the typed units of texts.

ghost use Rattle.pk_unit_texts.specs.Laws.{EntriesAreNames, UnitsHaveNames, UnitsHavePlaces, PlacesAreBounded};

use pk_text_laws::names_stand_in_texts;

/// Each name of the typed unit of a text is a name by the lexis.
pub fn units_have_names()
    ensures { UnitsHaveNames }
{
    names_stand_in_texts();
}

/// So is the name of the function with which the runs of a text begin.
pub fn entries_are_names()
    ensures { EntriesAreNames }
{
    units_have_names();
}

/// Each place of the typed unit of a text is the place of a byte of the text, or that of its end.
pub fn units_have_places()
    ensures { UnitsHavePlaces }
{}

/// The line and the column of such a place are no greater than the length of the text and 1.
pub fn places_are_bounded()
    ensures { PlacesAreBounded }
{}
