// Closing where the bounds on one variable have changed alone.
//
// Bounds between other variables obey the triangle inequality already. So the variable's own two rows are lowered to what leads over the other places, and then all bounds to what leads through its two places.
// The two rows are lowered as rows of their own, which have room for 64 variables. With more variables all is closed.

ghost use Rattle.std.specs.Prelude.{◌≡◌, ◌≢◌, ◌%◌, ◌/◌, ◌+◌, ◌*◌, ◌<◌, ◌≤◌, ◌^◌, ℕ, length, pos, Some, None, slice_index_or, true, false};
ghost use Rattle.pk_octmat.specs.Bounds.{IsNear, AtMost, lesser, plus};
ghost use Rattle.pk_octmat.specs.Octagon.{bar as other, forgotten};
ghost use Rattle.pk_octmat.specs.Half.{block, kept_at, IsHalf};
ghost use Rattle.pk_octmat.specs.Shapes.{left_of};
ghost use Rattle.pk_octmat.specs.declared.shape.Shape.TheVariants.{Kept, Empty};
ghost use Rattle.pk_octclose.specs.After.{line_through, lined, own_through};
ghost use Rattle.pk_octclose.specs.Closing.{IsClosed, IsClosing, IsEmpty, IsSmall};
ghost use Rattle.pk_octclose.specs.Places.{closing_of, IsClosedBut};
ghost use Rattle.pk_octclose.specs.Steps.{most_steps};
ghost use Rattle.pk_octclose.specs.Walks.{HasNegativeCycle, HasLeastSums};

use crate::paths::{copy_row, is_below_zero, lower_to, paths, pivot};
use crate::tight::tighten;
use pk_octmat::{Bound, Matrix, Shape, bar, blank, cell, write_pair};
use pk_steps::Steps;
use std::sync::ledger::Ledger;

/// Lowers a row of its own, of place r, to what leads over place a, unless that is one of its own variable.
fn lower_line<L: Ledger>(
    cells: &[Bound],
    d: usize,
    r: usize,
    line: &mut [Bound],
    a: usize,
    steps: &mut Steps<L>,
)
    requires size { length cells.now ≡ block (d / 2) }
    requires pairs { d % 2 ≡ 0 }
    requires few { d ≤ 128 }
    requires own { length line.old ≡ 128 }
    requires place { a < d }
    requires first { IsNear (2 ^ 100) (slice_index_or line.old a None) }
    requires then { a / 2 ≢ r / 2 → (b : ℕ) → b < d → IsNear (2 ^ 100) (kept_at d cells.now a b) }
    ensures own { length line.new ≡ 128 }
    ensures lowered { a / 2 ≢ r / 2 → (b : ℕ) → b < d → slice_index_or line.new b None ≡
        lesser (slice_index_or line.old b None) (plus (slice_index_or line.old a None) (kept_at d cells.now a b)) }
    ensures stays { a / 2 ≡ r / 2 → (b : ℕ) → slice_index_or line.new b None ≡ slice_index_or line.old b None }
    ensures steps { steps.new ≤ steps.old + d }
{
    if a / 2 == r / 2 {
        return;
    }
    let first = line[a];
    if first.is_none() {
        return;
    }
    for b in 0..d {
        line[b] = lower_to(line[b], first.plus(cell(cells, d, a, b)), steps);
    }
}

/// Lowers a row of its own, a copy of row r, to what leads over the places of other variables.
fn lower_lines<L: Ledger>(
    cells: &[Bound],
    d: usize,
    r: usize,
    line: &mut [Bound],
    steps: &mut Steps<L>,
)
    requires size { length cells.now ≡ block (d / 2) }
    requires pairs { d % 2 ≡ 0 }
    requires few { d ≤ 128 }
    requires own { length line.old ≡ 128 }
    requires row { r < d }
    requires near { (i j : ℕ) → IsNear (2 ^ 58) (kept_at d cells.now i j) }
    requires copied { (b : ℕ) → b < d → slice_index_or line.old b None ≡ kept_at d cells.now r b }
    ensures own { length line.new ≡ 128 }
    ensures lowered { (b : ℕ) → b < d → slice_index_or line.new b None ≡ line_through (kept_at d cells.now) r d b }
    ensures steps { steps.new ≤ steps.old + d * d }
{
    for a in 0..d {
        lower_line(cells, d, r, line, a, steps);
    }
}

/// Lowers the bounds of a row of its own, of place r, on its own variable to what leads over place a, unless that is one of it.
fn lower_own<L: Ledger>(
    cells: &[Bound],
    d: usize,
    r: usize,
    line: &mut [Bound],
    a: usize,
    steps: &mut Steps<L>,
)
    requires size { length cells.now ≡ block (d / 2) }
    requires pairs { d % 2 ≡ 0 }
    requires few { d ≤ 128 }
    requires own { length line.old ≡ 128 }
    requires row { r < d }
    requires place { a < d }
    requires first { a / 2 ≢ r / 2 → IsNear (2 ^ 100) (slice_index_or line.old a None) }
    requires then { a / 2 ≢ r / 2 → (b : ℕ) → b < d → IsNear (2 ^ 100) (kept_at d cells.now a b) }
    ensures own { length line.new ≡ 128 }
    ensures lowered { a / 2 ≢ r / 2 → (s : ℕ) → s / 2 ≡ r / 2 → slice_index_or line.new s None ≡
        lesser (slice_index_or line.old s None) (plus (slice_index_or line.old a None) (kept_at d cells.now a s)) }
    ensures others { (b : ℕ) → b / 2 ≢ r / 2 → slice_index_or line.new b None ≡ slice_index_or line.old b None }
    ensures stays { a / 2 ≡ r / 2 → (b : ℕ) → slice_index_or line.new b None ≡ slice_index_or line.old b None }
    ensures steps { steps.new ≤ steps.old + 2 }
{
    if a / 2 == r / 2 {
        return;
    }
    let first = line[a];
    let q = bar(r);
    line[r] = lower_to(line[r], first.plus(cell(cells, d, a, r)), steps);
    line[q] = lower_to(line[q], first.plus(cell(cells, d, a, q)), steps);
}

/// Lowers the bounds of a row of its own, of place r, on its own variable to what leads over the places of other variables.
fn lower_owns<L: Ledger>(
    cells: &[Bound],
    d: usize,
    r: usize,
    line: &mut [Bound],
    steps: &mut Steps<L>,
)
    requires size { length cells.now ≡ block (d / 2) }
    requires pairs { d % 2 ≡ 0 }
    requires few { d ≤ 128 }
    requires own { length line.old ≡ 128 }
    requires row { r < d }
    requires first { (b : ℕ) → b < d → IsNear (2 ^ 100) (slice_index_or line.old b None) }
    requires near { (i j : ℕ) → IsNear (2 ^ 58) (kept_at d cells.now i j) }
    ensures own { length line.new ≡ 128 }
    ensures lowered { (s : ℕ) → s / 2 ≡ r / 2 → slice_index_or line.new s None ≡
        own_through (kept_at d cells.now) (λ b. slice_index_or line.old b None) (r / 2) d s }
    ensures others { (b : ℕ) → b / 2 ≢ r / 2 → slice_index_or line.new b None ≡ slice_index_or line.old b None }
    ensures steps { steps.new ≤ steps.old + 2 * d }
{
    for a in 0..d {
        lower_own(cells, d, r, line, a, steps);
    }
}

/// Makes a row of its own that of place r, lowered to what leads over places of other variables.
fn line_of<L: Ledger>(cells: &[Bound], d: usize, r: usize, line: &mut [Bound], steps: &mut Steps<L>)
    requires size { length cells.now ≡ block (d / 2) }
    requires pairs { d % 2 ≡ 0 }
    requires few { d ≤ 128 }
    requires own { length line.old ≡ 128 }
    requires row { r < d }
    requires near { (i j : ℕ) → IsNear (2 ^ 58) (kept_at d cells.now i j) }
    ensures own { length line.new ≡ 128 }
    ensures lowered { (b : ℕ) → b < d → slice_index_or line.new b None ≡ lined d (kept_at d cells.now) (r / 2) r b }
    ensures steps { steps.new ≤ steps.old + d * d + 2 * d }
{
    copy_row(cells, d, r, line);
    lower_lines(cells, d, r, line, steps);
    lower_owns(cells, d, r, line, steps);
}

/// Writes the rows of place p and of its negative.
fn write_rows(cells: &mut [Bound], d: usize, p: usize, first: &[Bound], second: &[Bound])
    requires size { length cells.old ≡ block (d / 2) }
    requires pairs { d % 2 ≡ 0 }
    requires few { d ≤ 128 }
    requires place { p + 1 < d }
    requires even { p % 2 ≡ 0 }
    requires own { length first.now ≡ 128 }
    requires own_two { length second.now ≡ 128 }
    ensures kept { length cells.new ≡ block (d / 2) }
    ensures first { (b : ℕ) → b < d → kept_at d cells.new p b ≡ slice_index_or first.now b None }
    ensures second { (b : ℕ) → b < d → kept_at d cells.new (p + 1) b ≡ slice_index_or second.now b None }
    ensures others { (a b : ℕ) → a / 2 ≢ p / 2 → b / 2 ≢ p / 2 → kept_at d cells.new a b ≡ kept_at d cells.old a b }
{
    for j in 0..d {
        write_pair(cells, d, p, j, first[j], second[j]);
    }
}

/// Lowers all bounds on the variable of place p to what leads over places of other variables. False where a walk that leads back has a negative sum.
fn lower_pair<L: Ledger>(
    cells: &mut [Bound],
    d: usize,
    p: usize,
    first: &mut [Bound],
    second: &mut [Bound],
    steps: &mut Steps<L>,
) -> bool
    requires whole { IsHalf d cells.old }
    requires pairs { d % 2 ≡ 0 }
    requires few { d ≤ 128 }
    requires place { p + 1 < d }
    requires even { p % 2 ≡ 0 }
    requires small { (i j : ℕ) → IsNear (2 ^ 58) (kept_at d cells.old i j) }
    requires own { length first.old ≡ 128 }
    requires own_two { length second.old ≡ 128 }
    ensures kept { length cells.new ≡ block (d / 2) }
    ensures own { length first.new ≡ 128 }
    ensures own_two { length second.new ≡ 128 }
    ensures lowered { result ≡ true → (i j : ℕ) → i < d → j < d →
        kept_at d cells.new i j ≡ lined d (kept_at d cells.old) (p / 2) i j }
    ensures diagonal { result ≡ true → (i : ℕ) → i < d → i / 2 ≡ p / 2 →
        AtMost (Some (pos 0)) (lined d (kept_at d cells.old) (p / 2) i i) }
    ensures cycle { result ≡ false → HasNegativeCycle (kept_at d cells.old) }
    ensures steps { steps.new ≤ steps.old + 2 * (d * d) + 4 * d + 2 }
{
    line_of(cells, d, p, first, steps);
    line_of(cells, d, p + 1, second, steps);
    if is_below_zero(first[p], steps) {
        return false;
    }
    if is_below_zero(second[p + 1], steps) {
        return false;
    }
    write_rows(cells, d, p, first, second);
    true
}

/// Lowers all bounds to the least sums of walks, where those between other variables than that of place p are closed. False where a walk that leads back has a negative sum.
fn paths_after<L: Ledger>(cells: &mut [Bound], d: usize, p: usize, steps: &mut Steps<L>) -> bool
    requires whole { IsHalf d cells.old }
    requires pairs { d % 2 ≡ 0 }
    requires room { d ≤ 2 ^ 32 }
    requires place { p + 1 < d }
    requires even { p % 2 ≡ 0 }
    requires small { (i j : ℕ) → IsNear (2 ^ 58) (kept_at d cells.old i j) }
    requires closed { IsClosed d (forgotten (kept_at d cells.old) (p / 2)) }
    ensures kept { length cells.new ≡ block (d / 2) }
    ensures least { result ≡ true → HasLeastSums d (kept_at d cells.old) (kept_at d cells.new) }
    ensures near { result ≡ true → (i j : ℕ) → i < d → j < d → IsNear (2 ^ 100) (kept_at d cells.new i j) }
    ensures cycle { result ≡ false → HasNegativeCycle (kept_at d cells.old) }
    ensures steps { d ≤ 128 → steps.new ≤ steps.old + 4 * (d * d) + 7 * d + 3 }
{
    if 128 < d {
        return paths(cells, d, steps);
    }
    let mut first = [Bound::exactly(0); 128];
    let mut second = [Bound::exactly(0); 128];
    if !lower_pair(cells, d, p, &mut first, &mut second, steps) {
        return false;
    }
    pivot(cells, d, p, &mut first, &mut second, steps)
}

/// Closes the cells of a matrix in place, where those on other variables than that of place p are closed.
fn close_cells_after<L: Ledger>(
    cells: &mut [Bound],
    d: usize,
    p: usize,
    steps: &mut Steps<L>,
) -> Shape
    requires whole { IsHalf d cells.old }
    requires pairs { d % 2 ≡ 0 }
    requires room { d ≤ 2 ^ 32 }
    requires place { p + 1 < d }
    requires even { p % 2 ≡ 0 }
    requires small { (i j : ℕ) → IsNear (2 ^ 58) (kept_at d cells.old i j) }
    requires closed { IsClosed d (forgotten (kept_at d cells.old) (p / 2)) }
    ensures whole { IsHalf d cells.new }
    ensures kept { result ≡ Kept → IsClosing d (kept_at d cells.old) (kept_at d cells.new) }
    ensures empty { result ≡ Empty → IsEmpty d (kept_at d cells.old) }
    ensures steps { d ≤ 128 → steps.new ≤ steps.old + 5 * (d * d) + 9 * d + 3 + block (d / 2) }
{
    if paths_after(cells, d, p, steps) && tighten(cells, d, steps) {
        return Shape::Kept;
    }
    blank(cells, d);
    Shape::Empty
}

/// Closes a small matrix in place that is its own closing but for variable k, or finds that no integers meet it: what `close` gives, sooner.
pub fn close_after<L: Ledger>(m: &mut Matrix, k: u32, steps: &mut Steps<L>) -> Shape
    requires small { IsSmall m.old }
    requires variable { k < m.old.vars }
    requires closed { IsClosedBut m.old k }
    ensures value { left_of result m.new ≡ closing_of m.old }
    ensures vars { m.new.vars ≡ m.old.vars }
    ensures steps { m.old.vars ≤ 64 → steps.new ≤ steps.old + most_steps m.old.vars }
{
    close_cells_after(&mut m.cells, 2 * m.vars as usize, 2 * k as usize, steps)
}
