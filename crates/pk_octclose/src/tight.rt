// What integers allow beyond least sums: even bounds on one variable, and a last tightening.

ghost use Rattle.std.specs.Prelude.{◌≡◌, ◌%◌, ◌/◌, ℕ, ◌<◌, ◌≤◌, ◌*◌, ◌+◌, ◌^◌, length, pos, Some, true, false};
ghost use Rattle.pk_octmat.specs.Bounds.{capped, IsNear, AtMost, is_negative as negative};
ghost use Rattle.pk_octmat.specs.Half.{block, kept_at};
ghost use Rattle.pk_octclose.specs.Closing.{evened, there_and_back, tight};

use crate::paths::{is_below_zero, lower_cell};
use pk_octmat::{Bound, bar, cell, row_place};
use pk_steps::Steps;
use std::sync::ledger::Ledger;

/// Rounds the bounds from each place to its negative down to even.
fn even_all<L: Ledger>(cells: &mut [Bound], d: usize, steps: &mut Steps<L>)
    requires size { length cells.old ≡ block (d / 2) }
    requires pairs { d % 2 ≡ 0 }
    requires room { d ≤ 2 ^ 32 }
    ensures kept { length cells.new ≡ block (d / 2) }
    ensures value { (a b : ℕ) → a < d → b < d → kept_at d cells.new a b ≡ evened (kept_at d cells.old) a b }
    ensures steps { steps.new ≡ steps.old + d }
{
    for i in 0..d {
        let at = row_place(i, bar(i));
        steps.tick();
        cells[at] = cells[at].even_down();
    }
}

/// Whether no place's bounds to its negative and back are negative together.
fn have_halves<L: Ledger>(cells: &[Bound], d: usize, steps: &mut Steps<L>) -> bool
    requires size { length cells.now ≡ block (d / 2) }
    requires pairs { d % 2 ≡ 0 }
    requires room { d ≤ 2 ^ 32 }
    requires near { (i j : ℕ) → i < d → j < d → IsNear (2 ^ 100) (kept_at d cells.now i j) }
    ensures yes { result ≡ true → (i : ℕ) → i < d → AtMost (Some (pos 0)) (there_and_back (kept_at d cells.now) i) }
    ensures no { result ≡ false → (i : ℕ) × (i < d) × (negative (there_and_back (kept_at d cells.now) i) ≡ true) }
    ensures steps { steps.new ≤ steps.old + d }
{
    for i in 0..d {
        let both = cell(cells, d, i, bar(i)).plus(cell(cells, d, bar(i), i));
        if is_below_zero(both, steps) {
            return false;
        }
    }
    true
}

/// Lowers each bound to what the bounds on its two numbers give.
fn tighten_all<L: Ledger>(cells: &mut [Bound], d: usize, steps: &mut Steps<L>)
    requires size { length cells.old ≡ block (d / 2) }
    requires pairs { d % 2 ≡ 0 }
    requires room { d ≤ 2 ^ 32 }
    requires near { (i j : ℕ) → i < d → j < d → IsNear (2 ^ 100) (kept_at d cells.old i j) }
    ensures kept { length cells.new ≡ block (d / 2) }
    ensures value { (a b : ℕ) → a < d → b < d → kept_at d cells.new a b ≡ tight (kept_at d cells.old) a b }
    ensures steps { steps.new ≤ steps.old + d * d }
{
    for i in 0..d {
        let own = cell(cells, d, i, bar(i));
        let base = row_place(i, 0);
        for j in 0..i / 2 * 2 + 2 {
            let both = own.plus(cell(cells, d, bar(j), j));
            lower_cell(cells, d, i, j, base, both.halved(), steps);
        }
    }
}

/// Brings each bound within 2^66 of 0.
fn cap_all<L: Ledger>(cells: &mut [Bound], d: usize, steps: &mut Steps<L>)
    requires size { length cells.old ≡ block (d / 2) }
    requires pairs { d % 2 ≡ 0 }
    ensures kept { length cells.new ≡ block (d / 2) }
    ensures value { (a b : ℕ) → a < d → b < d → kept_at d cells.new a b ≡ capped (kept_at d cells.old a b) }
    ensures steps { steps.new ≡ steps.old + block (d / 2) }
{
    let _ = d;
    for cell in cells.iter_mut() {
        steps.tick();
        *cell = cell.capped();
    }
}

/// Closes a matrix of least sums. False where no integers meet it.
pub fn tighten<L: Ledger>(cells: &mut [Bound], d: usize, steps: &mut Steps<L>) -> bool
    requires size { length cells.old ≡ block (d / 2) }
    requires pairs { d % 2 ≡ 0 }
    requires room { d ≤ 2 ^ 32 }
    requires near { (i j : ℕ) → i < d → j < d → IsNear (2 ^ 100) (kept_at d cells.old i j) }
    ensures kept { length cells.new ≡ block (d / 2) }
    ensures halves { result ≡ true → (i : ℕ) → i < d →
        AtMost (Some (pos 0)) (there_and_back (evened (kept_at d cells.old)) i) }
    ensures value { result ≡ true → (i j : ℕ) → i < d → j < d →
        kept_at d cells.new i j ≡ capped (tight (evened (kept_at d cells.old)) i j) }
    ensures no { result ≡ false →
        (i : ℕ) × (i < d) × (negative (there_and_back (evened (kept_at d cells.old)) i) ≡ true) }
    ensures steps { steps.new ≤ steps.old + d * d + 2 * d + block (d / 2) }
{
    even_all(cells, d, steps);
    if !have_halves(cells, d, steps) {
        return false;
    }
    tighten_all(cells, d, steps);
    cap_all(cells, d, steps);
    true
}
