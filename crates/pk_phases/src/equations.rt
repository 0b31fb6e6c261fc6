// Systems of equations that are iterated by the phases.

use crate::phases::Phase;
use std::alloc::{AllocError, Global};
use std::sync::Arc;

/// A point's cell is a value, an exit's is its phase.
#[derive(Drop)]
pub enum Cell<V> {
    Value(V),
    Exit(Phase),
}

/// What an element is: a point, the head of an exit's component, or the exit of a head's component.
#[derive(Clone, Copy)]
pub enum Part {
    Point,
    HeadOf(u32),
    ExitOf(u32),
}

/// Equations on values, and which values each point may hold.
pub trait Equate {
    ghost use Rattle.std.specs.Prelude.{◌≡◌, ℕ, map, true, IfOk};
    ghost use Rattle.std.specs.Arc.{arc_value};
    ghost use Rattle.pk_iterate.specs.Behaviour.{HoldEach};
    ghost use Rattle.pk_phases.specs.Equations.{Equations, KeepHeld, AreHeld, reads_in, may_hold_of, new_value};

    type Value: Drop;

    ghost meaning: { Self → Equations Self.Value };

    ghost held: { Self → ℕ → Self.Value → Type 0 };

    ghost keeps: { (s : Self) → KeepHeld (meaning s) (held s) };

    /// What an element is.
    fn part(&self, e: u32) -> Part
        ensures { result ≡ (meaning self.now).part e };

    /// The elements whose cells an element reads.
    fn reads(&self, e: u32) -> &[u32]
        ensures { result.now ≡ reads_in (meaning self.now) e ((meaning self.now).part e) };

    /// How many runs join before the first widening.
    fn delay(&self) -> u32
        ensures { result ≡ (meaning self.now).delay };

    /// How many runs narrow.
    fn narrow(&self) -> u32
        ensures { result ≡ (meaning self.now).narrow };

    /// The first value of each point.
    fn bottom(&self, alloc: Global) -> Result<Self::Value, AllocError>
        ensures { IfOk result (λ v. v ≡ (meaning self.now).bottom) };

    /// The value of a point's equation, of the cells of its sources.
    fn new_value(
        &self,
        alloc: Global,
        e: u32,
        cells: &[Arc<Cell<Self::Value>>],
    ) -> Result<Self::Value, AllocError>
        requires { HoldEach (may_hold_of (meaning self.now) (held self.now)) ((meaning self.now).sources e)
            (map arc_value cells.now) }
        ensures { IfOk result (λ v. v ≡ new_value (meaning self.now) e (map arc_value cells.now)) };

    /// Whether the new value is below the old.
    fn leq(&self, new: &Self::Value, old: &Self::Value) -> bool
        requires { AreHeld (held self.now) old.now new.now }
        ensures { result ≡ (meaning self.now).ops.leq new.now old.now };

    /// Whether two values are the same.
    fn same(&self, a: &Self::Value, b: &Self::Value) -> bool
        requires { AreHeld (held self.now) a.now b.now }
        ensures { result ≡ (meaning self.now).ops.same a.now b.now };

    /// Whether the new value is surely the old. The answer costs little, and is no where it would cost more.
    fn is_unchanged(&self, old: &Self::Value, new: &Self::Value) -> bool
        requires { AreHeld (held self.now) old.now new.now }
        ensures { result ≡ true → old.now ≡ new.now };

    /// The old value joined with the new.
    fn joined(
        &self,
        alloc: Global,
        old: &Self::Value,
        new: &Self::Value,
    ) -> Result<Self::Value, AllocError>
        requires { AreHeld (held self.now) old.now new.now }
        ensures { IfOk result (λ v. v ≡ (meaning self.now).ops.join old.now new.now) };

    /// The old value widened by the new.
    fn widen(
        &self,
        alloc: Global,
        old: &Self::Value,
        new: &Self::Value,
    ) -> Result<Self::Value, AllocError>
        requires { AreHeld (held self.now) old.now new.now }
        ensures { IfOk result (λ v. v ≡ (meaning self.now).ops.widen old.now new.now) };

    /// The old value narrowed by the new.
    fn narrowed(
        &self,
        alloc: Global,
        old: &Self::Value,
        new: &Self::Value,
    ) -> Result<Self::Value, AllocError>
        requires { AreHeld (held self.now) old.now new.now }
        ensures { IfOk result (λ v. v ≡ (meaning self.now).ops.narrow old.now new.now) };
}
