// Laws of states, over their definitions.

ghost use Rattle.pk_state.specs.Members.{StatesAreSound, FactsStay};
ghost use Rattle.pk_state.specs.Changes.{ChangesAreSound, ChangesStay};

/// Joins and widening steps have the stores of both, what is below has no other stores, narrowing keeps those of both, and a reduction keeps exactly the stores.
pub fn states_law()
    ensures { StatesAreSound }
{}

/// Joins, widening and narrowing steps and reductions of a layout's facts are facts of the layout.
pub fn stays_law()
    ensures { FactsStay }
{}

/// What a state knows of a number has it; what is written, assigned and guarded keeps the stores.
pub fn changes_law()
    ensures { ChangesAreSound }
{}

/// What is written to a layout's facts leaves facts of the layout.
pub fn written_law()
    ensures { ChangesStay }
{}
