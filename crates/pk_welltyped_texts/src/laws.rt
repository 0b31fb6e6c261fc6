// Laws of the typed units and the drafts of texts, over their definitions.

ghost use Rattle.pk_welltyped_texts.specs.Laws.{TextsHaveConstants, TextsAreWellTyped, DraftsOfTextsAreTyped};

/// Constants of a text's trees are numbers of their types.
pub fn texts_have_constants()
    ensures { TextsHaveConstants }
{}

/// The typed unit of a text is well typed.
pub fn texts_are_well_typed()
    ensures { TextsAreWellTyped }
{}

/// The draft of a text with its call paths is typed.
pub fn drafts_of_texts_are_typed()
    ensures { DraftsOfTextsAreTyped }
{}
