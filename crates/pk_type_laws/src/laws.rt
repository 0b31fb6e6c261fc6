// Laws of typing.

ghost use Rattle.pk_type_laws.specs.Answered.Answers.{CheckGivesTheAnswer, TextsHaveOneAnswer};
ghost use Rattle.pk_type_laws.specs.Accepted.Laws.{AcceptedUnitsAreWellTyped};
ghost use Rattle.pk_type_laws.specs.Bodies.Laws.{FunctionsHaveBodies};
ghost use Rattle.pk_type_laws.specs.Marked.Laws.{AcceptedUnitsAreMarked};

/// A text has a typed tree or a first failure, not both, and one of each at most.
pub fn texts_have_one_answer()
    ensures { TextsHaveOneAnswer }
{}

/// What `check` gives, by its contract, is that answer: the typed tree where the list of all failures is empty, else the first of that list.
pub fn check_gives_the_answer()
    ensures { CheckGivesTheAnswer }
{}

/// The typed unit of trees in which no rule fails is well typed, where their constants are numbers of their types.
pub fn accepted_units_are_well_typed()
    ensures { AcceptedUnitsAreWellTyped }
{}

/// In the typed unit of a text in which no rule fails each function that was defined has a body, and no other.
pub fn functions_have_bodies()
    ensures { FunctionsHaveBodies }
{}

/// In the typed unit of trees in which no rule fails each label stands once in its function, each case and the default once in its switch.
pub fn units_are_marked()
    ensures { AcceptedUnitsAreMarked }
{}
