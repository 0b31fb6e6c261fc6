// What follows from the definitions alone.

ghost use Rattle.pk_front.specs.Laws.{TreesLeadOn, WayIsDetermined};
ghost use Rattle.pk_front.specs.Programs.{AcceptedArePrograms, ProgramIsDetermined};

/// A text and an entry lead to one typed tree and its call paths at most, or are left in one way at most, and not both; want of memory aside.
pub fn way_is_determined()
    ensures { WayIsDetermined }
{
    pk_parse::answers_are_determined();
}

/// A text that has trees leads with each entry to call paths, or is left for a failing rule, its calls or a limit.
pub fn trees_lead_on()
    ensures { TreesLeadOn }
{}

/// A text and an entry are one program at most: its typed unit and its call paths are determined.
pub fn program_is_determined()
    ensures { ProgramIsDetermined }
{
    pk_grammar::units_are_determined();
}

/// A text that has a typed unit by all rules, and call paths, is that program, of which the definition names no rule.
pub fn accepted_are_programs()
    ensures { AcceptedArePrograms }
{}
