// Laws of the phases, over whatever values there are.

ghost use Rattle.pk_phases.specs.Table.{StableIsBelow};
ghost use Rattle.pk_phases.specs.Turns.{PhasesEnd};
ghost use Rattle.pk_phases.specs.Equations.{EquationsEnd};
ghost use Rattle.pk_phases.specs.Solved.{EndIsSolved};
ghost use Rattle.pk_phases.specs.Planned.{LinearOrderEnds};

use crate::equations::Equate;
use pk_iterate::System;

/// A system whose components go by the phases is iterated to its end, and each entry runs its head only so often.
pub fn phases_end<Y: System, V>(system: &Y, value: &V)
    ensures { PhasesEnd V (Y.meaning system.now) (Y.may_hold system.now) }
{}

/// Equations are iterated to their end, and each entry of a component runs its head only so often.
pub fn equations_end<E: Equate>(equations: &E)
    ensures { EquationsEnd (E.meaning equations.now) (E.held equations.now) }
{}

/// An exit is stable only where the new value is below the head's, and then goes back to the first phase.
pub fn stable_is_below()
    ensures { StableIsBelow }
{}

/// Once no run is left each point has its equation's value, and at each head that value is below the head's.
pub fn end_is_solved<E: Equate>(equations: &E)
    ensures { EndIsSolved (E.meaning equations.now) }
{}

/// Equations over a plan are iterated in its linear order to their end, and each entry of a component runs its head only so often.
pub fn linear_order_ends<E: Equate>(equations: &E)
    ensures { LinearOrderEnds (E.meaning equations.now) (E.held equations.now) }
{}
