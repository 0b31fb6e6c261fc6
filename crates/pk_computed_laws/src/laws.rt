// Laws of what runs compute.

ghost use Rattle.pk_computed_laws.specs.Computed.{FaultsAreComputed};
ghost use Rattle.pk_computed_laws.specs.Evaluated.{ComputedIsEvaluated};

use pk_calls::paths_are_all;
use pk_visits_laws::points_share_accesses;

/// What a step of a run computes a run of the graph evaluates at an access, but for operators on constants that don't fault.
pub fn computed_is_evaluated()
    ensures { ComputedIsEvaluated }
{
    paths_are_all();
    points_share_accesses();
}

/// Where a step fails it computes an operation at that place.
pub fn faults_are_computed()
    ensures { FaultsAreComputed }
{}
