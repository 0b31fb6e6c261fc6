// Laws of the lowering.

ghost use Rattle.pk_lower_laws.specs.Parts.Laws.{ExpressionsMakeAsMuch, StatementsMakeAsMuch, PartsMakeTheirSize};
ghost use Rattle.pk_lower_laws.specs.Parts.Listed.{SizesAreMeasured, PartsFillRegions, NumbersTellBehind, ListingsLeadBehind};
ghost use Rattle.pk_lower_laws.specs.Drafts.Laws.{DraftsAreTyped, DraftsHaveLabels};
ghost use Rattle.pk_lower_laws.specs.Drafts.Noted.{WellTypedCallsAreNoted};

/// An expression makes as many points and variables on every path, whatever the draft's numbers and however variables are named.
pub fn expressions_make_as_much<V, W>()
    ensures { ExpressionsMakeAsMuch V W }
{}

/// So does a statement, wherever its jumps lead.
pub fn statements_make_as_much<V, W>()
    ensures { StatementsMakeAsMuch V W }
{}

/// A part makes as many points and variables as its function's measured size says, from where its region begins.
pub fn parts_make_their_size<V>()
    ensures { PartsMakeTheirSize V }
{}

/// The size that is known of a listed function is the one that is measured with all sizes, where calls lead to paths behind.
pub fn sizes_are_measured()
    ensures { SizesAreMeasured }
{}

/// A listed function's part, made with all sizes, makes as much as is kept for it where it is called.
pub fn parts_fill_regions<V>()
    ensures { PartsFillRegions V }
{}

/// Calls lead to paths behind where they lead to paths with greater numbers.
pub fn numbers_tell_behind()
    ensures { NumbersTellBehind }
{}

/// In a listing of call paths calls lead to paths behind, if those in trees are noted.
pub fn listings_lead_behind()
    ensures { ListingsLeadBehind }
{}

/// Calls in the trees of a well-typed unit have their numbers among those that are noted of their function.
pub fn well_typed_calls_are_noted()
    ensures { WellTypedCallsAreNoted }
{}

/// The draft of a well-typed unit with its call paths is typed.
pub fn drafts_are_typed()
    ensures { DraftsAreTyped }
{}

/// It has a label for each point that is made, and one for no point.
pub fn drafts_have_labels()
    ensures { DraftsHaveLabels }
{}
