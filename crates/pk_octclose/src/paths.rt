// Least sums of walks, in place (Floyd 1962), through the two places of a variable at once.
//
// The rows of the two places lead through the columns of later variables, where they don't stand side by side. So they are copied to two rows of their own, where these have room.

ghost use Rattle.std.specs.Prelude.{◌≡◌, ◌≢◌, ◌⊎◌, ◌%◌, ◌/◌, ◌+◌, ◌-◌, ℕ, ◌<◌, ◌≤◌, ◌*◌, ◌^◌, length, pos, slice_index_or, Some, None, true, false};
ghost use Rattle.pk_octmat.specs.Bounds.{IsNear, AtMost, lesser, plus, is_negative as negative};
ghost use Rattle.pk_octmat.specs.Octagon.{bar as other};
ghost use Rattle.pk_octmat.specs.Half.{block, kept_at, row_place as row_place_of};
ghost use Rattle.pk_octclose.specs.Pairs.{over_pair, IsCopy, IsShort};
ghost use Rattle.pk_octclose.specs.Walks.{relaxed, HasNegativeCycle, HasLeastSums, IsNegativeAt};

use pk_octmat::{Bound, bar, cell, row_place, write_pair};
use pk_steps::Steps;
use std::sync::ledger::Ledger;

/// A bound, lowered to another one. It is one step, and no bound is compared with another one elsewhere but in `lower_cell`.
#[inline]
pub fn lower_to<L: Ledger>(bound: Bound, other: Bound, steps: &mut Steps<L>) -> Bound
    ensures value { result ≡ lesser bound other }
    ensures steps { steps.new ≡ steps.old + 1 }
{
    steps.tick();
    bound.lesser(other)
}

/// Whether a bound is negative, in one step.
#[inline]
pub fn is_below_zero<L: Ledger>(bound: Bound, steps: &mut Steps<L>) -> bool
    ensures value { result ≡ negative bound }
    ensures steps { steps.new ≡ steps.old + 1 }
{
    steps.tick();
    bound.is_negative()
}

/// Copies row k to a row of its own, if it has room there.
pub fn copy_row(cells: &[Bound], d: usize, k: usize, row: &mut [Bound])
    requires size { length cells.now ≡ block (d / 2) }
    requires pairs { d % 2 ≡ 0 }
    requires room { d ≤ 2 ^ 32 }
    requires place { k < d }
    requires own { length row.old ≡ 128 }
    ensures own { length row.new ≡ 128 }
    ensures copied { IsCopy d (kept_at d cells.now) k row.new }
{
    if d <= 128 {
        for j in 0..d {
            row[j] = cell(cells, d, k, j);
        }
    }
}

/// The bound in row k and a column, read in a copy of that row if there is one.
#[inline]
fn row_bound(cells: &[Bound], d: usize, k: usize, row: &[Bound], j: usize) -> Bound
    requires size { length cells.now ≡ block (d / 2) }
    requires pairs { d % 2 ≡ 0 }
    requires room { d ≤ 2 ^ 32 }
    requires place { k < d }
    requires column { j < d }
    requires own { length row.now ≡ 128 }
    requires copied { IsCopy d (kept_at d cells.now) k row.now }
    ensures { result ≡ kept_at d cells.now k j }
{
    if d <= 128 {
        let bound = row[j];
        bound
    } else {
        cell(cells, d, k, j)
    }
}

/// Writes a bound to a row of its own, if it has room for all d.
#[inline]
fn keep(row: &mut [Bound], d: usize, j: usize, bound: Bound)
    requires own { length row.old ≡ 128 }
    requires column { j < d }
    ensures own { length row.new ≡ 128 }
    ensures here { d ≤ 128 → slice_index_or row.new j None ≡ bound }
    ensures others { (b : ℕ) → b ≢ j → slice_index_or row.new b None ≡ slice_index_or row.old b None }
{
    if d <= 128 {
        row[j] = bound;
    }
}

/// Writes the rows of place p and of its negative, each lowered to what leads over the other, to the matrix and to rows of their own.
fn join_rows<L: Ledger>(
    cells: &mut [Bound],
    d: usize,
    p: usize,
    first: &mut [Bound],
    second: &mut [Bound],
    steps: &mut Steps<L>,
)
    requires size { length cells.old ≡ block (d / 2) }
    requires pairs { d % 2 ≡ 0 }
    requires room { d ≤ 2 ^ 32 }
    requires place { p + 1 < d }
    requires even { p % 2 ≡ 0 }
    requires near { (a b : ℕ) → a < d → b < d → IsNear (2 ^ 99) (kept_at d cells.old a b) }
    requires own { length first.old ≡ 128 }
    requires own_two { length second.old ≡ 128 }
    ensures kept { length cells.new ≡ block (d / 2) }
    ensures own { length first.new ≡ 128 }
    ensures own_two { length second.new ≡ 128 }
    ensures copied { IsCopy d (kept_at d cells.new) p first.new }
    ensures copied_two { IsCopy d (kept_at d cells.new) (p + 1) second.new }
    ensures first { (b : ℕ) → b < d → kept_at d cells.new p b ≡ relaxed (kept_at d cells.old) (p + 1) p b }
    ensures second { (b : ℕ) → b < d → kept_at d cells.new (p + 1) b ≡ relaxed (kept_at d cells.old) p (p + 1) b }
    ensures others { (a b : ℕ) → a / 2 ≢ p / 2 → b / 2 ≢ p / 2 → kept_at d cells.new a b ≡ kept_at d cells.old a b }
    ensures steps { steps.new ≤ steps.old + 2 * d }
{
    let there = cell(cells, d, p, p + 1);
    let back = cell(cells, d, p + 1, p);
    for j in 0..d {
        let from = cell(cells, d, p, j);
        let from_other = cell(cells, d, p + 1, j);
        let lowered = lower_to(from, there.plus(from_other), steps);
        let other = lower_to(from_other, back.plus(from), steps);
        write_pair(cells, d, p, j, lowered, other);
        keep(first, d, j, lowered);
        keep(second, d, j, other);
    }
}

/// Lowers the bound that is kept in row i and column j to another one.
#[inline]
pub fn lower_cell<L: Ledger>(
    cells: &mut [Bound],
    d: usize,
    i: usize,
    j: usize,
    base: usize,
    bound: Bound,
    steps: &mut Steps<L>,
)
    requires size { length cells.old ≡ block (d / 2) }
    requires pairs { d % 2 ≡ 0 }
    requires row { i < d }
    requires low { j / 2 ≤ i / 2 }
    requires base { base ≡ row_place_of i 0 }
    ensures kept { length cells.new ≡ block (d / 2) }
    ensures here { kept_at d cells.new i j ≡ lesser (kept_at d cells.old i j) bound }
    ensures others { (a b : ℕ) → b / 2 ≤ a / 2 → (a ≢ i) ⊎ (b ≢ j) → kept_at d cells.new a b ≡ kept_at d cells.old a b }
    ensures steps { steps.new ≡ steps.old + 1 }
{
    let at = base + j;
    steps.tick();
    if cells[at].is_at_most(bound) {
        return;
    }
    cells[at] = bound;
}

/// Lowers some bounds that are kept in row i to what a bound and row k give: those from one column to before another, none of them of k's variable.
fn lower_part<L: Ledger>(
    cells: &mut [Bound],
    d: usize,
    k: usize,
    row: &[Bound],
    i: usize,
    first: Bound,
    start: usize,
    end: usize,
    steps: &mut Steps<L>,
)
    requires size { length cells.old ≡ block (d / 2) }
    requires pairs { d % 2 ≡ 0 }
    requires room { d ≤ 2 ^ 32 }
    requires place { k < d }
    requires row { i < d }
    requires apart { i / 2 ≢ k / 2 }
    requires end { end ≤ i / 2 * 2 + 2 }
    requires beside { (b : ℕ) → start ≤ b → b < end → b / 2 ≢ k / 2 }
    requires first { IsNear (2 ^ 100) first }
    requires then { (b : ℕ) → b < d → IsNear (2 ^ 100) (kept_at d cells.old k b) }
    requires own { length row.now ≡ 128 }
    requires copied { IsCopy d (kept_at d cells.old) k row.now }
    ensures kept { length cells.new ≡ block (d / 2) }
    ensures lowered { (b : ℕ) → start ≤ b → b < end →
        kept_at d cells.new i b ≡ lesser (kept_at d cells.old i b) (plus first (kept_at d cells.old k b)) }
    ensures others { (a b : ℕ) → b / 2 ≤ a / 2 → (a ≢ i) ⊎ (b < start) ⊎ ((start ≤ end) × (end ≤ b)) →
        kept_at d cells.new a b ≡ kept_at d cells.old a b }
    ensures steps { steps.new ≤ steps.old + (end - start) }
{
    let base = row_place(i, 0);
    for j in start..end {
        let through = first.plus(row_bound(cells, d, k, row, j));
        lower_cell(cells, d, i, j, base, through, steps);
    }
}

/// The lesser of two columns.
#[inline]
fn lesser_of(a: usize, b: usize) -> usize
    ensures left { result ≤ a }
    ensures right { result ≤ b }
    ensures one { (a ≤ result) ⊎ (b ≤ result) }
{
    if a < b { a } else { b }
}

/// Lowers the bounds that are kept in row i to what a bound and row k give, but for those on the variable of place p, which is k's.
fn lower_row<L: Ledger>(
    cells: &mut [Bound],
    d: usize,
    p: usize,
    k: usize,
    row: &[Bound],
    i: usize,
    first: Bound,
    steps: &mut Steps<L>,
)
    requires size { length cells.old ≡ block (d / 2) }
    requires pairs { d % 2 ≡ 0 }
    requires room { d ≤ 2 ^ 32 }
    requires place { p + 1 < d }
    requires even { p % 2 ≡ 0 }
    requires through { k < d }
    requires variable { k / 2 ≡ p / 2 }
    requires row { i < d }
    requires apart { i / 2 ≢ p / 2 }
    requires first { IsNear (2 ^ 100) first }
    requires then { (b : ℕ) → b < d → IsNear (2 ^ 100) (kept_at d cells.old k b) }
    requires own { length row.now ≡ 128 }
    requires copied { IsCopy d (kept_at d cells.old) k row.now }
    ensures kept { length cells.new ≡ block (d / 2) }
    ensures lowered { (b : ℕ) → b / 2 ≤ i / 2 → b / 2 ≢ p / 2 →
        kept_at d cells.new i b ≡ lesser (kept_at d cells.old i b) (plus first (kept_at d cells.old k b)) }
    ensures others { (a b : ℕ) → b / 2 ≤ a / 2 → (a ≢ i) ⊎ (b / 2 ≡ p / 2) →
        kept_at d cells.new a b ≡ kept_at d cells.old a b }
    ensures steps { steps.new ≤ steps.old + d }
{
    if first.is_none() {
        return;
    }
    let end = i / 2 * 2 + 2;
    lower_part(cells, d, k, row, i, first, 0, lesser_of(end, p), steps);
    lower_part(cells, d, k, row, i, first, p + 2, end, steps);
}

/// Lowers the bounds of row i that are kept to what leads over place p and its negative, unless it is a row of these, and but for its bounds on their variable.
fn lower_over<L: Ledger>(
    cells: &mut [Bound],
    d: usize,
    p: usize,
    first: &[Bound],
    second: &[Bound],
    i: usize,
    steps: &mut Steps<L>,
)
    requires size { length cells.old ≡ block (d / 2) }
    requires pairs { d % 2 ≡ 0 }
    requires room { d ≤ 2 ^ 32 }
    requires place { p + 1 < d }
    requires even { p % 2 ≡ 0 }
    requires row { i < d }
    requires one { (b : ℕ) → b < d → IsNear (2 ^ 100) (kept_at d cells.old p b) }
    requires two { (b : ℕ) → b < d → IsNear (2 ^ 100) (kept_at d cells.old (p + 1) b) }
    requires own { length first.now ≡ 128 }
    requires own_two { length second.now ≡ 128 }
    requires copied { IsCopy d (kept_at d cells.old) p first.now }
    requires copied_two { IsCopy d (kept_at d cells.old) (p + 1) second.now }
    ensures kept { length cells.new ≡ block (d / 2) }
    ensures lowered { i / 2 ≢ p / 2 → (b : ℕ) → b / 2 ≤ i / 2 → b / 2 ≢ p / 2 →
        kept_at d cells.new i b ≡ over_pair (kept_at d cells.old) p i b }
    ensures others { (a b : ℕ) → b / 2 ≤ a / 2 → (a ≢ i) ⊎ (a / 2 ≡ p / 2) ⊎ (b / 2 ≡ p / 2) →
        kept_at d cells.new a b ≡ kept_at d cells.old a b }
    ensures steps { steps.new ≤ steps.old + 2 * d }
{
    if i / 2 == p / 2 {
        return;
    }
    let to_first = row_bound(cells, d, p + 1, second, bar(i));
    let to_second = row_bound(cells, d, p, first, bar(i));
    lower_row(cells, d, p, p, first, i, to_first, steps);
    lower_row(cells, d, p, p + 1, second, i, to_second, steps);
}

/// Lowers all bounds that are kept, but for those on the variable of place p, over copies of its rows.
fn lower_rows<L: Ledger>(
    cells: &mut [Bound],
    d: usize,
    p: usize,
    first: &[Bound],
    second: &[Bound],
    steps: &mut Steps<L>,
)
    requires size { length cells.old ≡ block (d / 2) }
    requires pairs { d % 2 ≡ 0 }
    requires room { d ≤ 2 ^ 32 }
    requires place { p + 1 < d }
    requires even { p % 2 ≡ 0 }
    requires one { (b : ℕ) → b < d → IsNear (2 ^ 100) (kept_at d cells.old p b) }
    requires two { (b : ℕ) → b < d → IsNear (2 ^ 100) (kept_at d cells.old (p + 1) b) }
    requires own { length first.now ≡ 128 }
    requires own_two { length second.now ≡ 128 }
    requires copied { IsCopy d (kept_at d cells.old) p first.now }
    requires copied_two { IsCopy d (kept_at d cells.old) (p + 1) second.now }
    ensures kept { length cells.new ≡ block (d / 2) }
    ensures lowered { (a b : ℕ) → a < d → b / 2 ≤ a / 2 → a / 2 ≢ p / 2 → b / 2 ≢ p / 2 →
        kept_at d cells.new a b ≡ over_pair (kept_at d cells.old) p a b }
    ensures own { (a b : ℕ) → a / 2 ≡ p / 2 → kept_at d cells.new a b ≡ kept_at d cells.old a b }
    ensures steps { steps.new ≤ steps.old + 2 * (d * d) }
{
    for i in 0..d {
        lower_over(cells, d, p, first, second, i, steps);
    }
}

/// Whether no number of the diagonal is negative.
fn is_nonnegative<L: Ledger>(cells: &[Bound], d: usize, steps: &mut Steps<L>) -> bool
    requires size { length cells.now ≡ block (d / 2) }
    requires pairs { d % 2 ≡ 0 }
    requires room { d ≤ 2 ^ 32 }
    ensures yes { result ≡ true → (i : ℕ) → i < d → AtMost (Some (pos 0)) (kept_at d cells.now i i) }
    ensures no { result ≡ false → IsNegativeAt d (kept_at d cells.now) }
    ensures steps { steps.new ≤ steps.old + d }
{
    for i in 0..d {
        if is_below_zero(cell(cells, d, i, i), steps) {
            return false;
        }
    }
    true
}

/// Lowers all bounds to what leads through place p and its negative. False where a walk through these that leads back is negative.
pub fn pivot<L: Ledger>(
    cells: &mut [Bound],
    d: usize,
    p: usize,
    first: &mut [Bound],
    second: &mut [Bound],
    steps: &mut Steps<L>,
) -> bool
    requires size { length cells.old ≡ block (d / 2) }
    requires pairs { d % 2 ≡ 0 }
    requires room { d ≤ 2 ^ 32 }
    requires place { p + 1 < d }
    requires even { p % 2 ≡ 0 }
    requires zero { (i : ℕ) → i < d → kept_at d cells.old i i ≡ Some (pos 0) }
    requires near { (a b : ℕ) → a < d → b < d → IsNear (2 ^ 99) (kept_at d cells.old a b) }
    requires own { length first.old ≡ 128 }
    requires own_two { length second.old ≡ 128 }
    ensures kept { length cells.new ≡ block (d / 2) }
    ensures own { length first.new ≡ 128 }
    ensures own_two { length second.new ≡ 128 }
    ensures lowered { result ≡ true → (a b : ℕ) → a < d → b < d →
        kept_at d cells.new a b ≡ relaxed (relaxed (kept_at d cells.old) p) (p + 1) a b }
    ensures yes { result ≡ true → (i : ℕ) → i < d → AtMost (Some (pos 0)) (kept_at d cells.new i i) }
    ensures no { result ≡ false → IsShort d (kept_at d cells.old) p }
    ensures steps { steps.new ≤ steps.old + 2 * (d * d) + 3 * d + 1 }
{
    let round = cell(cells, d, p, p + 1).plus(cell(cells, d, p + 1, p));
    if is_below_zero(round, steps) {
        return false;
    }
    join_rows(cells, d, p, first, second, steps);
    lower_rows(cells, d, p, first, second, steps);
    is_nonnegative(cells, d, steps)
}

/// Lowers all bounds to the least sums of walks. False where a walk that leads back has a negative sum.
pub fn paths<L: Ledger>(cells: &mut [Bound], d: usize, steps: &mut Steps<L>) -> bool
    requires size { length cells.old ≡ block (d / 2) }
    requires pairs { d % 2 ≡ 0 }
    requires room { d ≤ 2 ^ 32 }
    requires zero { (i : ℕ) → i < d → kept_at d cells.old i i ≡ Some (pos 0) }
    requires near { (i j : ℕ) → IsNear (2 ^ 66) (kept_at d cells.old i j) }
    ensures kept { length cells.new ≡ block (d / 2) }
    ensures least { result ≡ true → HasLeastSums d (kept_at d cells.old) (kept_at d cells.new) }
    ensures near { result ≡ true → (i j : ℕ) → i < d → j < d → IsNear (2 ^ 100) (kept_at d cells.new i j) }
    ensures cycle { result ≡ false → HasNegativeCycle (kept_at d cells.old) }
{
    let mut first = [Bound::exactly(0); 128];
    let mut second = [Bound::exactly(0); 128];
    for k in 0..d / 2 {
        if !pivot(cells, d, 2 * k, &mut first, &mut second, steps) {
            return false;
        }
    }
    true
}
