// Laws of operators and calls.

ghost use Rattle.pk_operator_laws.specs.Laws.{OperatorsAreTheTrees, CallsAreTheTrees, OperatorsAreTheTokens};

/// Whatever places count, the operators in a typed body count no more than those in the trees of its text.
pub fn operators_are_the_trees()
    ensures { OperatorsAreTheTrees }
{}

/// Its calls don't either.
pub fn calls_are_the_trees()
    ensures { CallsAreTheTrees }
{}

/// The operators and calls in the trees of a text count no more than its tokens.
pub fn operators_are_the_tokens()
    ensures { OperatorsAreTheTokens }
{}
