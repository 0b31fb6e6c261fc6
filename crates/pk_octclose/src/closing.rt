// Closing.

ghost use Rattle.std.specs.Prelude.{◌≡◌, ◌%◌, ◌↔◌, ℕ, ℤ, ◌*◌, ◌<◌, ◌≤◌, ◌^◌, Option};
ghost use Rattle.pk_octmat.specs.Bounds.{AtMost};
ghost use Rattle.pk_octmat.specs.Octagon.{entry, top_bound, Meets};
ghost use Rattle.pk_octmat.specs.Half.{kept_at, IsHalf};
ghost use Rattle.pk_octclose.specs.Closing.{IsClosing, IsEmpty, IsClosed, IsSmall, KeepsPoints};
ghost use Rattle.pk_octclose.specs.Places.{closing_of};
ghost use Rattle.pk_octpoints.specs.Tight.{IsTight};
ghost use Rattle.pk_octmat.specs.Shapes.{left_of};
ghost use Rattle.pk_octmat.specs.declared.shape.Shape.TheVariants.{Kept, Empty};

use crate::paths::paths;
use crate::tight::tighten;
use pk_octmat::{Bound, Matrix, Shape, blank};
use pk_steps::Steps;
use std::marker::Brand;
use std::sync::ledger::{Blank, Ledger};

/// Closes the cells of a matrix in place, or finds that no integers meet them. The steps are counted over a ledger of its own.
fn close_cells<L: Ledger>(cells: &mut [Bound], d: usize, fresh: Blank) -> Shape
    requires name { fresh.name ≡ L.name }
    requires parts { fresh.parts ≡ L.parts }
    requires some { 0 < fresh.parts }
    requires whole { IsHalf d cells.old }
    requires pairs { d % 2 ≡ 0 }
    requires room { d ≤ 2 ^ 32 }
    ensures whole { IsHalf d cells.new }
    ensures kept { result ≡ Kept → IsClosing d (kept_at d cells.old) (kept_at d cells.new) }
    ensures empty { (result ≡ Empty) ↔ IsEmpty d (kept_at d cells.old) }
    ensures cleared { result ≡ Empty → (i j : ℕ) → i < d → j < d → kept_at d cells.new i j ≡ top_bound i j }
    ensures points { result ≡ Kept → KeepsPoints (kept_at d cells.old) (kept_at d cells.new) }
    ensures none { result ≡ Empty → (x : ℕ → ℤ) → Meets (kept_at d cells.old) x → ⊥ }
    ensures again { IsClosed d (kept_at d cells.old) →
        (result ≡ Kept) × ((i j : ℕ) → kept_at d cells.new i j ≡ kept_at d cells.old i j) }
{
    let mut steps = Steps::<L>::none(fresh);
    if paths(cells, d, &mut steps) && tighten(cells, d, &mut steps) {
        return Shape::Kept;
    }
    blank(cells, d);
    Shape::Empty
}

/// Closes a matrix in place, or finds that no integers meet it. What is left of an empty one is no bounds at all.
///
/// A closing keeps exactly the integers that meet the matrix, and closing it again changes nothing.
/// Where the matrix is small and over at most 64 variables, it is empty exactly where no integers meet it, and no bounds that the same integers meet are lower.
pub fn close(m: &mut Matrix) -> Shape
    ensures value { left_of result m.new ≡ closing_of m.old }
    ensures vars { m.new.vars ≡ m.old.vars }
    ensures kept { result ≡ Kept → IsClosing (2 * m.old.vars) (entry m.old) (entry m.new) }
    ensures empty { (result ≡ Empty) ↔ IsEmpty (2 * m.old.vars) (entry m.old) }
    ensures cleared { result ≡ Empty → (i j : ℕ) → i < 2 * m.old.vars → j < 2 * m.old.vars →
        entry m.new i j ≡ top_bound i j }
    ensures points { result ≡ Kept → KeepsPoints (entry m.old) (entry m.new) }
    ensures none { result ≡ Empty → (x : ℕ → ℤ) → Meets (entry m.old) x → ⊥ }
    ensures again { IsClosed (2 * m.old.vars) (entry m.old) →
        (result ≡ Kept) × ((i j : ℕ) → entry m.new i j ≡ entry m.old i j) }
    ensures tight { IsSmall m.old → m.old.vars ≤ 64 → result ≡ Kept → IsTight m.new.vars (entry m.new) }
    ensures decides { IsSmall m.old → m.old.vars ≤ 64 →
        (result ≡ Empty) ↔ ((x : ℕ → ℤ) → Meets (entry m.old) x → ⊥) }
    ensures best { IsSmall m.old → m.old.vars ≤ 64 → result ≡ Kept →
        (f : ℕ → ℕ → Option ℤ) → ((x : ℕ → ℤ) → Meets (entry m.old) x → Meets f x) →
        (i j : ℕ) → i < 2 * m.old.vars → j < 2 * m.old.vars → AtMost (entry m.new i j) (f i j) }
{
    close_cells::<Brand>(&mut m.cells, 2 * m.vars as usize, Blank::new(1))
}
