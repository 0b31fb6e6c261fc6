// Laws of the lowering.

ghost use Rattle.pk_visits.specs.SameVisits.{ProgramsAreFollowed};
ghost use Rattle.pk_visits.specs.NeverStuck.{ProgramsAreNeverStuck};
ghost use Rattle.pk_visits_laws.specs.Ways.OneWay.{PointsHaveOneWay, PointsShareAccesses};
ghost use Rattle.pk_visits.specs.SameVisits.{GraphsHaveProgramVisits};
ghost use Rattle.pk_visits.specs.Turning.{TurnsAreFollowed};

use pk_calls::paths_are_all;

/// The visits of each run of a program, and the failure at its end, are those of a run of its graph.
pub fn programs_are_followed()
    ensures { ProgramsAreFollowed }
{
    paths_are_all();
}

/// A run of a program is never stuck: it goes on, fails, ends, or wants other numbers.
pub fn programs_are_never_stuck()
    ensures { ProgramsAreNeverStuck }
{
    paths_are_all();
}

/// Each point of the graph of a program has no edge, one, or the two guards of one test.
pub fn points_have_one_way()
    ensures { PointsHaveOneWay }
{
    paths_are_all();
}

/// So the accesses of a point's first edge are those of each of its edges.
pub fn points_share_accesses()
    ensures { PointsShareAccesses }
{
    points_have_one_way();
}

/// The visits of each run of a program, and the failure at its end, are those of a run of its graph; and those of each run of the graph are those of a run of the program.
pub fn graphs_have_program_visits()
    ensures { GraphsHaveProgramVisits }
{
    paths_are_all();
    programs_are_followed();
}

/// Where a run of a program begins a turn of a loop, a run of its graph with the same visits is where that loop begins again.
pub fn turns_are_followed()
    ensures { TurnsAreFollowed }
{
    paths_are_all();
}
