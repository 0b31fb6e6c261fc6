// Laws of what is folded.

ghost use Rattle.pk_folded_laws.specs.Folded.{FoldedHasNoAccess, ComputedAccessesAreEvaluated};

use pk_computed_laws::computed_is_evaluated;

/// What a run begins to evaluate, of which the lowering knows the value, has no access in the graph.
pub fn folded_has_no_access()
    ensures { FoldedHasNoAccess }
{}

/// So each operation that a run computes, of an access of the graph, is evaluated by a run of the graph.
pub fn computed_accesses_are_evaluated()
    ensures { ComputedAccessesAreEvaluated }
{
    computed_is_evaluated();
}
