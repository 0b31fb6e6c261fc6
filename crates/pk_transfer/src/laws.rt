// Laws of trees, over their definitions.

ghost use Rattle.pk_transfer.specs.Assumptions.{GuardsPass};
ghost use Rattle.pk_transfer.specs.Guards.{GuardsKeep};
ghost use Rattle.pk_transfer.specs.Assignments.{AssignmentsKeep};
ghost use Rattle.pk_transfer.specs.Linear.{FormsAreExact};
ghost use Rattle.pk_transfer.specs.Transfers.{TransfersKeep};
ghost use Rattle.pk_transfer.specs.Graphs.{GraphsAreOver};
ghost use Rattle.pk_transfer.specs.Trees.{TreesAreSound};

/// Where a typed tree has a value in a store of a state, it is one of the numbers that are known of it.
pub fn trees_law()
    ensures { TreesAreSound }
{}

/// A tree's truth is that of its condition; where a comparison holds, what is known of both operands after it has them.
pub fn guards_law()
    ensures { GuardsKeep }
{}

/// Where a tree has a linear form, its value is that of the form, and the difference of two forms is a guard of octagons.
pub fn forms_law()
    ensures { FormsAreExact }
{}

/// A store of a state in which a variable gets a tree's value is one of the state after the assignment.
pub fn assignments_law()
    ensures { AssignmentsKeep }
{}

/// A store of a state in which a tree has the wanted truth is one of the state after the guard.
pub fn passing_law()
    ensures { GuardsPass }
{}

/// Where an instruction takes a store of a state to another, that is one of the state after it.
pub fn transfers_law()
    ensures { TransfersKeep }
{}

/// A graph's layout is over the table of its variables, and its instructions may be transferred over every such layout.
pub fn graphs_law()
    ensures { GraphsAreOver }
{}
