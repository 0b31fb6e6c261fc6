// What is iterated: cells, and how an element's cell follows from those that it reads.

ghost use Rattle.std.specs.Prelude.{◌≡◌, ℕ, List, map, true, IfOk};
ghost use Rattle.std.specs.Arc.{arc_value};

use std::alloc::{AllocError, Global};
use std::sync::Arc;

/// What an exit answers, with its new cell: its component is stable, or is gone through again.
#[derive(Drop)]
pub enum Decision<C> {
    Stable(C),
    Again(C),
}

/// A system of cells, one for each element of an order.
pub trait System {
    ghost use Rattle.pk_iterate.specs.Behaviour.{Behaviour, HoldEach, decided_cell};

    type Cell: Drop + Send + Sync;

    /// What the elements read, and what their cells become.
    ghost meaning: { Self → Behaviour Self.Cell };

    /// Which cells an element may hold.
    ghost may_hold: { Self → ℕ → Self.Cell → Type 0 };

    /// The elements whose cells an element reads.
    fn reads(&self, e: u32) -> &[u32]
        ensures { result.now ≡ (meaning self.now).reads e };

    /// The cell that an element has before its first run.
    fn first(&self, alloc: Global, e: u32) -> Result<Self::Cell, AllocError>
        ensures { IfOk result (λ c. c ≡ (meaning self.now).first e) };

    /// The cell that a run of a vertex or of a head gives.
    fn apply(
        &self,
        alloc: Global,
        e: u32,
        inputs: &[Arc<Self::Cell>],
    ) -> Result<Self::Cell, AllocError>
        requires { HoldEach (may_hold self.now) ((meaning self.now).reads e) (map arc_value inputs.now) }
        ensures { IfOk result (λ c. c ≡ (meaning self.now).apply e (map arc_value inputs.now)) };

    /// What a run of an exit decides.
    fn decide(
        &self,
        alloc: Global,
        x: u32,
        inputs: &[Arc<Self::Cell>],
    ) -> Result<Decision<Self::Cell>, AllocError>
        requires { HoldEach (may_hold self.now) ((meaning self.now).reads x) (map arc_value inputs.now) }
        ensures { IfOk result (λ d. d ≡ (meaning self.now).decide x (map arc_value inputs.now)) };

    /// Whether the cell that an element gets is surely the one that it had. The answer costs little, and is no where it would cost more.
    fn is_unchanged(&self, e: u32, old: &Self::Cell, new: &Self::Cell) -> bool
        requires old { may_hold self.now e old.now }
        requires new { may_hold self.now e new.now }
        ensures { result ≡ true → old.now ≡ new.now }
    {
        false
    }

    // Each first cell, and each cell made of cells that may be held, may be held.
    ghost first_held: { (s : Self) (e : ℕ) → may_hold s e ((meaning s).first e) };

    ghost apply_held: { (s : Self) (e : ℕ) (cells : List Self.Cell) →
        HoldEach (may_hold s) ((meaning s).reads e) cells → may_hold s e ((meaning s).apply e cells) };

    ghost decide_held: { (s : Self) (x : ℕ) (cells : List Self.Cell) →
        HoldEach (may_hold s) ((meaning s).reads x) cells →
        may_hold s x (decided_cell ((meaning s).decide x cells)) };
}
