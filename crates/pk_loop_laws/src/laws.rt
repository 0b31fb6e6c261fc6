// Laws of loops.

ghost use Rattle.pk_loop_laws.specs.Laws.{LoopsAreTheTrees, LoopsAreTheTokens};

/// Whatever places count, the loops in a typed body count no more than those in the trees of its text.
pub fn loops_are_the_trees()
    ensures { LoopsAreTheTrees }
{}

/// The loops in the trees of a text count no more than its tokens.
pub fn loops_are_the_tokens()
    ensures { LoopsAreTheTokens }
{}
