// Assignments.

ghost use Rattle.std.specs.Prelude.{◌≡◌, ◌≢◌, ◌+◌, ◌-◌, ◌*◌, ◌/◌, ◌%◌, ◌<◌, ◌≤◌, ◌^◌, ◌≤ℤ◌, ◌-ℤ◌, ◌==◌};
ghost use Rattle.std.specs.Prelude.{ℕ, ℤ, pos, negsuc, IfOk, IfSome, length, Some, Option};
ghost use Rattle.pk_octmat.specs.Bounds.{capped, IsNear, plus as sum_of};
ghost use Rattle.pk_octmat.specs.Octagon.{entry, HasEntries, Meets, with_number, forgotten};
ghost use Rattle.pk_octmat.specs.Half.{block, kept_at, IsHalf};
ghost use Rattle.pk_octops.specs.Assigns.{assigned as assigned_of, assignment_of, moved, bound_to, gain as gain_of, source as source_of, Gives};

use pk_octmat::{Bound, Matrix, bar, cell, write_pair};
use std::alloc::AllocError;

/// A number brought within 2^68 of 0, beyond which no bound stays a number.
fn brought_near(c: i128) -> i128
    ensures low { negsuc (2 ^ 68 - 1) ≤ℤ result }
    ensures high { result ≤ℤ pos (2 ^ 68) }
    ensures near { negsuc (2 ^ 68 - 1) ≤ℤ c → c ≤ℤ pos (2 ^ 68) → result ≡ c }
    ensures above { pos (2 ^ 68) ≤ℤ c → result ≡ pos (2 ^ 68) }
    ensures below { c ≤ℤ negsuc (2 ^ 68 - 1) → result ≡ negsuc (2 ^ 68 - 1) }
{
    if 1 << 68 < c {
        1 << 68
    } else if c < -(1 << 68) {
        -(1 << 68)
    } else {
        c
    }
}

/// What V(i) gains where x_k gains c.
fn gain(k: usize, c: i128, i: usize) -> i128
    requires variable { k < 2 ^ 32 }
    requires low { negsuc (2 ^ 68 - 1) ≤ℤ c }
    requires high { c ≤ℤ pos (2 ^ 68) }
    ensures value { result ≡ gain_of k c i }
    ensures low { negsuc (2 ^ 68 - 1) ≤ℤ result }
    ensures high { result ≤ℤ pos (2 ^ 68) }
{
    if i == 2 * k {
        c
    } else if i == 2 * k + 1 {
        -c
    } else {
        0
    }
}

/// The place that V(i) is taken from.
fn source(k: usize, t: usize, i: usize) -> usize
    requires { i < 2 ^ 63 }
    ensures { result ≡ source_of k t i }
{
    if i / 2 == k && t % 2 == 1 { bar(i) } else { i }
}

/// What V(j) - V(i) gains where x_k gains c.
fn change(k: usize, c: i128, i: usize, j: usize) -> Bound
    requires variable { k < 2 ^ 32 }
    requires low { negsuc (2 ^ 68 - 1) ≤ℤ c }
    requires high { c ≤ℤ pos (2 ^ 68) }
    ensures value { result ≡ Some (gain_of k c j -ℤ gain_of k c i) }
    ensures near { IsNear (2 ^ 100) result }
{
    Bound::exactly(gain(k, c, j) - gain(k, c, i))
}

/// A bound on V(j) - V(i) where x_k gains c.
fn gained(bound: Bound, k: usize, c: i128, i: usize, j: usize) -> Bound
    requires near { IsNear (2 ^ 66) bound }
    requires variable { k < 2 ^ 32 }
    ensures value { result ≡ capped (sum_of bound (Some (gain_of k c j -ℤ gain_of k c i))) }
{
    let near = brought_near(c);
    bound.plus(change(k, near, i, j)).capped()
}

/// One bound of a matrix with c added along, after an exchange where t is the negative of x_k.
fn moved_bound(old: &[Bound], d: usize, k: usize, t: usize, c: i128, i: usize, j: usize) -> Bound
    requires old { IsHalf d old.now }
    requires pairs { d % 2 ≡ 0 }
    requires room { d ≤ 2 ^ 32 }
    requires variable { 2 * k < d }
    requires row { i < d }
    requires column { j < d }
    ensures { result ≡ moved (kept_at d old.now) k t c i j }
{
    let bound = cell(old, d, source(k, t, i), source(k, t, j));
    gained(bound, k, c, i, j)
}

/// Writes the bounds of a matrix with c added along, over a copy of it: those on x_k alone change.
fn move_cells(cells: &mut [Bound], old: &[Bound], d: usize, k: usize, t: usize, c: i128)
    requires size { length cells.old ≡ block (d / 2) }
    requires old { IsHalf d old.now }
    requires same { cells.old ≡ old.now }
    requires pairs { d % 2 ≡ 0 }
    requires room { d ≤ 2 ^ 32 }
    requires variable { 2 * k < d }
    ensures value { (i j : ℕ) → i < d → j < d → kept_at d cells.new i j ≡ moved (kept_at d old.now) k t c i j }
    ensures whole { IsHalf d cells.new }
{
    for j in 0..d {
        let first = moved_bound(old, d, k, t, c, 2 * k, j);
        write_pair(
            cells,
            d,
            2 * k,
            j,
            first,
            moved_bound(old, d, k, t, c, 2 * k + 1, j),
        );
    }
}

/// x_k := V(t) + c, where V(t) is x_k or its negative.
fn move_along(m: &Matrix, k: u32, t: u32, c: i128) -> Result<Matrix, AllocError>
    requires variable { k < m.now.vars }
    ensures value { IfOk result (HasEntries m.now.vars (moved (entry m.now) k t c)) }
{
    let mut r = m.copy()?;
    let d = 2 * m.vars as usize;
    move_cells(&mut r.cells, &m.cells, d, k as usize, t as usize, c);
    Ok(r)
}

/// x_k := V(t) + c, where V(t) is another variable or its negative.
fn bind_to(m: &Matrix, k: u32, t: u32, c: i128) -> Result<Matrix, AllocError>
    requires variable { k < m.now.vars }
    requires term { t < 2 * m.now.vars }
    requires apart { (t / 2) ≢ k }
    ensures value { IfOk result (HasEntries m.now.vars (bound_to (entry m.now) k t c)) }
{
    m.is_octagon();
    let mut r = m.copy()?;
    r.forget(k);
    r.set(t, 2 * k, Some(c));
    r.set(2 * k, t, c.checked_neg());
    Ok(r)
}

/// x_k := anything.
fn set_free(m: &Matrix, k: u32) -> Result<Matrix, AllocError>
    requires variable { k < m.now.vars }
    ensures value { IfOk result (HasEntries m.now.vars (forgotten (entry m.now) k)) }
{
    let mut r = m.copy()?;
    r.forget(k);
    Ok(r)
}

/// The four cases of an assignment.
fn assigned(m: &Matrix, k: u32, term: Option<u32>, c: i128) -> Result<Matrix, AllocError>
    requires variable { k < m.now.vars }
    requires term { IfSome term (λ t. t < 2 * m.now.vars) }
    ensures { IfOk result (HasEntries m.now.vars (assigned_of (entry m.now) k term c)) }
{
    match term {
        None => set_free(m, k),
        Some(t) => {
            if t / 2 == k {
                move_along(m, k, t, c)
            } else {
                bind_to(m, k, t, c)
            }
        }
    }
}

/// x_k := V(t) + c, or anything where there is no term. Place 2k is x_k, place 2k + 1 its negative.
pub fn assign(m: &Matrix, k: u32, term: Option<u32>, c: i128) -> Result<Matrix, AllocError>
    requires variable { k < m.now.vars }
    requires term { IfSome term (λ t. t < 2 * m.now.vars) }
    ensures value { IfOk result (HasEntries m.now.vars (assigned_of (entry m.now) k term c)) }
    ensures is { IfOk result (λ r. r ≡ assignment_of m.now k term c) }
    ensures sound { IfOk result
        (λ r. (x : ℕ → ℤ) (v : ℤ) → Gives x term c v → Meets (entry m.now) x → Meets (entry r) (with_number x k v)) }
{
    let r = assigned(m, k, term, c)?;
    r.is_octagon();
    Ok(r)
}
