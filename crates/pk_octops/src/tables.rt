// Order, join, widening and narrowing.

ghost use Rattle.std.specs.Prelude.{◌≡◌, ◌%◌, ◌/◌, ℕ, ℤ, ◌<◌, ◌*◌, ◌⊎◌, ◌↔◌, IfOk, length, true, false};
ghost use Rattle.pk_octmat.specs.Bounds.{AtMost, greater as greater_of};
ghost use Rattle.pk_octmat.specs.Octagon.{entry, HasEntries, Meets};
ghost use Rattle.pk_octmat.specs.Half.{block, kept_at, IsHalf};
ghost use Rattle.pk_octops.specs.Tables.{IsBelow, widened as widened_of, narrowed as narrowed_of, join_of, widening_of, narrowing_of};
ghost use Rattle.pk_octops.specs.Chains.{IsWidening};

use pk_octmat::{Bound, Matrix};
use std::alloc::AllocError;

/// The greater of two bounds.
#[inline]
fn greater(a: Bound, b: Bound) -> Bound
    ensures { result ≡ greater_of a b }
{
    a.greater(b)
}

/// The first bound if the second is at most it, else none.
#[inline]
fn widened(h: Bound, n: Bound) -> Bound
    ensures { result ≡ widened_of h n }
{
    if n.is_at_most(h) { h } else { Bound::none() }
}

/// The first bound, or the second where the first is none.
#[inline]
fn narrowed(h: Bound, n: Bound) -> Bound
    ensures { result ≡ narrowed_of h n }
{
    if h.is_none() { n } else { h }
}

/// Raises each bound to that of another matrix, if it is less.
fn join_cells(cells: &mut [Bound], other: &[Bound], d: usize)
    requires whole { IsHalf d cells.old }
    requires other { IsHalf d other.now }
    requires pairs { d % 2 ≡ 0 }
    ensures value { (i j : ℕ) → i < d → j < d →
        kept_at d cells.new i j ≡ greater_of (kept_at d cells.old i j) (kept_at d other.now i j) }
    ensures whole { IsHalf d cells.new }
{
    let _ = d;
    for k in 0..cells.len() {
        cells[k] = greater(cells[k], other[k]);
    }
}

/// Makes each bound none that another matrix exceeds.
fn widen_cells(cells: &mut [Bound], other: &[Bound], d: usize)
    requires whole { IsHalf d cells.old }
    requires other { IsHalf d other.now }
    requires pairs { d % 2 ≡ 0 }
    ensures value { (i j : ℕ) → i < d → j < d →
        kept_at d cells.new i j ≡ widened_of (kept_at d cells.old i j) (kept_at d other.now i j) }
    ensures whole { IsHalf d cells.new }
{
    let _ = d;
    for k in 0..cells.len() {
        cells[k] = widened(cells[k], other[k]);
    }
}

/// Takes the bounds of another matrix where there are none.
fn narrow_cells(cells: &mut [Bound], other: &[Bound], d: usize)
    requires whole { IsHalf d cells.old }
    requires other { IsHalf d other.now }
    requires pairs { d % 2 ≡ 0 }
    ensures value { (i j : ℕ) → i < d → j < d →
        kept_at d cells.new i j ≡ narrowed_of (kept_at d cells.old i j) (kept_at d other.now i j) }
    ensures whole { IsHalf d cells.new }
{
    let _ = d;
    for k in 0..cells.len() {
        cells[k] = narrowed(cells[k], other[k]);
    }
}

fn joined(a: &Matrix, b: &Matrix) -> Result<Matrix, AllocError>
    requires { a.now.vars ≡ b.now.vars }
    ensures { IfOk result (HasEntries a.now.vars (λ i j. greater_of (entry a.now i j) (entry b.now i j))) }
{
    let mut m = a.copy()?;
    join_cells(&mut m.cells, &b.cells, 2 * b.vars as usize);
    Ok(m)
}

fn loosened(h: &Matrix, n: &Matrix) -> Result<Matrix, AllocError>
    requires { h.now.vars ≡ n.now.vars }
    ensures { IfOk result (HasEntries h.now.vars (λ i j. widened_of (entry h.now i j) (entry n.now i j))) }
{
    let mut m = h.copy()?;
    widen_cells(&mut m.cells, &n.cells, 2 * n.vars as usize);
    Ok(m)
}

fn filled(h: &Matrix, n: &Matrix) -> Result<Matrix, AllocError>
    requires { h.now.vars ≡ n.now.vars }
    ensures { IfOk result (HasEntries h.now.vars (λ i j. narrowed_of (entry h.now i j) (entry n.now i j))) }
{
    let mut m = h.copy()?;
    narrow_cells(&mut m.cells, &n.cells, 2 * n.vars as usize);
    Ok(m)
}

/// The greater of each two bounds: a matrix that the integers of both meet.
pub fn join(a: &Matrix, b: &Matrix) -> Result<Matrix, AllocError>
    requires { a.now.vars ≡ b.now.vars }
    ensures value { IfOk result (HasEntries a.now.vars (λ i j. greater_of (entry a.now i j) (entry b.now i j))) }
    ensures is { IfOk result (λ m. m ≡ join_of a.now b.now) }
    ensures sound { IfOk result (λ m. (x : ℕ → ℤ) → Meets (entry a.now) x ⊎ Meets (entry b.now) x → Meets (entry m) x) }
{
    let m = joined(a, b)?;
    m.is_octagon();
    Ok(m)
}

/// Each bound of `h` if that of `n` is at most it, else none: a matrix that the integers of both meet.
pub fn widen(h: &Matrix, n: &Matrix) -> Result<Matrix, AllocError>
    requires { h.now.vars ≡ n.now.vars }
    ensures value { IfOk result (IsWidening h.now n.now) }
    ensures is { IfOk result (λ m. m ≡ widening_of h.now n.now) }
    ensures sound { IfOk result (λ m. (x : ℕ → ℤ) → Meets (entry h.now) x ⊎ Meets (entry n.now) x → Meets (entry m) x) }
{
    let m = loosened(h, n)?;
    m.is_octagon();
    Ok(m)
}

/// Each bound of `h`, or that of `n` where it is none: a matrix that the integers meet which meet both.
pub fn narrow(h: &Matrix, n: &Matrix) -> Result<Matrix, AllocError>
    requires { h.now.vars ≡ n.now.vars }
    ensures value { IfOk result (HasEntries h.now.vars (λ i j. narrowed_of (entry h.now i j) (entry n.now i j))) }
    ensures is { IfOk result (λ m. m ≡ narrowing_of h.now n.now) }
    ensures sound { IfOk result (λ m. (x : ℕ → ℤ) → Meets (entry h.now) x → Meets (entry n.now) x → Meets (entry m) x) }
{
    let m = filled(h, n)?;
    m.is_octagon();
    Ok(m)
}

/// Whether each bound is at most that of another matrix.
fn leq_cells(cells: &[Bound], other: &[Bound], d: usize) -> bool
    requires size { length cells.now ≡ block (d / 2) }
    requires other { length other.now ≡ block (d / 2) }
    requires pairs { d % 2 ≡ 0 }
    ensures { result ≡ true ↔ ((i j : ℕ) → AtMost (kept_at d cells.now i j) (kept_at d other.now i j)) }
{
    let _ = d;
    for k in 0..cells.len() {
        if !cells[k].is_at_most(other[k]) {
            return false;
        }
    }
    true
}

/// Whether each bound is at most that of another matrix, so that the integers which meet `a` meet `b`.
pub fn leq(a: &Matrix, b: &Matrix) -> bool
    requires { a.now.vars ≡ b.now.vars }
    ensures value { result ≡ true ↔ IsBelow a.now b.now }
    ensures sound { result ≡ true → (x : ℕ → ℤ) → Meets (entry a.now) x → Meets (entry b.now) x }
{
    leq_cells(&a.cells, &b.cells, 2 * a.vars as usize)
}
