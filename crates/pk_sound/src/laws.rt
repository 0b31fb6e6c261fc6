// Laws of the analysis, over its definitions.

ghost use Rattle.pk_sound.specs.Staying.{TransfersStay};
ghost use Rattle.pk_sound.specs.Planned.{AnalysesGoByPlan};
ghost use Rattle.pk_sound.specs.Solved.{ResultIsSolved};
ghost use Rattle.pk_sound.specs.Held.{ResultHoldsRuns};
ghost use Rattle.pk_sound.specs.Verdicts.{VerdictsHold};
ghost use Rattle.pk_sound.specs.Bounds.{BoundsHold};
ghost use Rattle.pk_sound.specs.Faults.{FaultsAreAccesses, FaultsAreUnknown};
ghost use Rattle.pk_sound.specs.Families.{FamiliesAreTested, ResultsAreFamilies};
ghost use Rattle.pk_sound.specs.FamilyRuns.{FamiliesHoldRuns, FamiliesJudge, FamiliesTellFaults, FamiliesBound};

/// What is known after an instruction are facts of the layout, where those before it are.
pub fn transfers_stay()
    ensures { TransfersStay }
{}

/// The heads and exits of an analysis are those of its plan, points read points, and what they read stands to the left in the plan's order.
pub fn analyses_go_by_plan()
    ensures { AnalysesGoByPlan }
{}

/// The result is a post-fixpoint: what the equation of a point gives on it is within what it has there.
pub fn result_is_solved()
    ensures { ResultIsSolved }
{}

/// No run of a graph leaves the result of its analysis, nor the reduced result.
pub fn result_holds_runs()
    ensures { ResultHoldsRuns }
{}

/// No run faults at an access that is safe, and none evaluates one that is unreachable.
pub fn verdicts_hold()
    ensures { VerdictsHold }
{}

/// A step that faults does so at an access of its instruction, or at an index that is none.
pub fn faults_are_accesses()
    ensures { FaultsAreAccesses }
{}

/// A run that faults does so at an access of which the verdict is unknown, or at an index that is no access.
pub fn faults_are_unknown()
    ensures { FaultsAreUnknown }
{}

/// Where the verdict on an access is unknown, what decides it lies between its bounds in every run.
pub fn bounds_hold()
    ensures { BoundsHold }
{}

/// Facts over a graph's points solve its equations exactly if the test of the order passes at each point.
pub fn families_are_tested()
    ensures { FamiliesAreTested }
{}

/// The result of an analysis solves the graph's equations.
pub fn results_are_families()
    ensures { ResultsAreFamilies }
{}

/// No run of a graph leaves facts that solve its equations, wherever they come from.
pub fn families_hold_runs()
    ensures { FamiliesHoldRuns }
{}

/// No run faults at an access that is safe by such facts, and none evaluates one that is unreachable by them.
pub fn families_judge()
    ensures { FamiliesJudge }
{}

/// A run that faults does so at an access that such facts leave unknown, or at an index that is no access.
pub fn families_tell_faults()
    ensures { FamiliesTellFaults }
{}

/// Where such facts leave an access unknown, what decides it lies between the verdict's bounds in every run.
pub fn families_bound()
    ensures { FamiliesBound }
{}
