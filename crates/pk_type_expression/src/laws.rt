// What the definitions say together.

ghost use Rattle.pk_type_expression.specs.Laws.{AcceptedExpressionsHaveTrees, AssignmentsAreTheTable};

/// An expression in which no rule fails has a type and a typed tree of that type.
pub fn tree_law()
    ensures { AcceptedExpressionsHaveTrees }
{}

/// What is unsequenced in an assignment is what the table of rules says.
pub fn assignment_law()
    ensures { AssignmentsAreTheTable }
{}
