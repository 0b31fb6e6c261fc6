// What the operations mean for the numbers in a congruence, as laws over their definitions.

ghost use Rattle.pk_congr.specs.Classes.{IsReduced};
ghost use Rattle.pk_congr.specs.Laws.{EuclidIsRight, TestsAreRight, JoinIsLeast, MeetIsBoth, NarrowingKeeps, OperatorsAreSound, WrappingIsSound, WideningEnds, DivisionsAreRanks, NextMembersAreRight, NothingChanges};

use crate::congr::Congr;

/// A congruence's modulus is 0, or its rest is one of 0 to the modulus less 1, and both are below 2^127 in absolute value.
pub fn reduced_law(a: &Congr)
    ensures { IsReduced a.now.m a.now.r }
{
    let _opened = a.m;
}

/// The greatest common divisor is that.
pub fn euclid_law()
    ensures { EuclidIsRight }
{}

/// Membership, order and disjointness are decided.
pub fn tests_law()
    ensures { TestsAreRight }
{}

/// The join is the least upper bound.
pub fn join_law()
    ensures { JoinIsLeast }
{}

/// The meet is the intersection.
pub fn meet_law()
    ensures { MeetIsBoth }
{}

/// Narrowing keeps the common numbers.
pub fn narrowing_law()
    ensures { NarrowingKeeps }
{}

/// The operators are sound.
pub fn operators_law()
    ensures { OperatorsAreSound }
{}

/// Wrapping is sound.
pub fn wrapping_law()
    ensures { WrappingIsSound }
{}

/// A step of widening that isn't below rises, and at most 65 do.
pub fn widening_law()
    ensures { WideningEnds }
{}

/// The next members are next.
pub fn next_law()
    ensures { NextMembersAreRight }
{}

/// The number of divisions of its modulus never rises as a class is widened, and falls where the other isn't within.
pub fn rank_law()
    ensures { DivisionsAreRanks }
{}

/// A join or a widening with a congruence within, and a narrowing by the congruence itself, changes nothing.
pub fn unchanged_law()
    ensures { NothingChanges }
{}
