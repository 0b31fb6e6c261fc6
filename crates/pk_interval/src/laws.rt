// Laws over the definitions.

ghost use Rattle.std.specs.Prelude.{◌≤ℤ◌};
ghost use Rattle.pk_interval.specs.Widening.{Widens, Narrows, MovesAreRanks};
ghost use Rattle.pk_interval.specs.Laws.{IsLattice, IsSound, Converts, FinishIsFinished, NothingChanges, StaysInType};

use crate::interval::Interval;

/// An interval has a number: its least is at most its greatest.
pub fn ordered_law(a: &Interval)
    ensures { a.now.lo ≤ℤ a.now.hi }
{
    let _opened = a.lo;
}

/// The order of intervals is inclusion, the join is the least upper bound and the meet the intersection.
pub fn lattice_law()
    ensures { IsLattice }
{}

/// What an operator stands for at members is a member of what it gives on the intervals, and its value in the type of what that becomes there.
pub fn operator_law()
    ensures { IsSound }
{}

/// The conversion of a member is a member of the wrapped interval, and the number plus what was added.
pub fn conversion_law()
    ensures { Converts }
{}

/// A widening step holds both intervals; one that isn't below rises, and no chain of them is longer than twice the thresholds and one.
pub fn widening_law()
    ensures { Widens }
{}

/// A narrowing step holds what both intervals hold.
pub fn narrowing_law()
    ensures { Narrows }
{}

/// The number of thresholds beyond a range's bounds never rises as it is widened, and falls where the other isn't within.
pub fn rank_law()
    ensures { MovesAreRanks }
{}

/// What an operator gives is finished in its type to the range that it has there.
pub fn finish_law()
    ensures { FinishIsFinished }
{}

/// A join or a widening with an interval within, and a narrowing by the interval itself, changes nothing.
pub fn unchanged_law()
    ensures { NothingChanges }
{}

/// Joins, meets, widening and narrowing steps of intervals of a type are intervals of the type, and a widening step has both within.
pub fn types_law()
    ensures { StaysInType }
{}
