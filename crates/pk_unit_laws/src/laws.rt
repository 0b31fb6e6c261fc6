// Laws of names and places.

ghost use Rattle.pk_unit_laws.specs.Laws.{NamesAreTheTexts, PlacesAreTheTexts, PlacesAreTheTokens};

/// Each name of a typed unit is the text of a name in its trees: what holds of these holds of it.
pub fn names_are_the_texts()
    ensures { NamesAreTheTexts }
{}

/// Each place of a typed unit is a place in its trees: what holds of these holds of it.
pub fn places_are_the_texts()
    ensures { PlacesAreTheTexts }
{}

/// Each place in the trees of a text is a token's: what holds of the place of each token holds of it.
pub fn places_are_the_tokens()
    ensures { PlacesAreTheTokens }
{}
