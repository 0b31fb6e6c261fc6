// Matrices of bounds.

ghost use Rattle.std.specs.Prelude.{◌≡◌, ◌≢◌, ◌<◌, ◌≤◌, ◌↔◌, ◌+◌, ◌*◌, ◌/◌, ◌%◌, ◌^◌, ◌==◌, ◌||◌, if◌then◌else◌};
ghost use Rattle.std.specs.Prelude.{ℕ, ℤ, pos, Some, IfOk, length, slice_set, true};
ghost use Rattle.pk_octmat.specs.Bounds.{capped, IsNear};
ghost use Rattle.pk_octmat.specs.Octagon.{entry, bar as other, written, top_bound, forgotten, HasEntries, IsOctagon, Meets, with_number};
ghost use Rattle.pk_octmat.specs.Half.{block, kept_at, row_place as row_place_of, spot as spot_of, IsHalf};

use crate::bound::Bound;
use std::alloc::{AllocError, Global};
use std::marker::Model;

/// Bounds on the differences of some variables and their negatives. Place 2k is variable k, place 2k + 1 its negative.
///
/// Half of the bounds are kept: those from each place to the places of its own variable and of earlier ones.
/// The fields are for `pk_octops` and its like, which rewrite many bounds in place.
#[derive(Drop)]
pub struct Matrix {
    pub vars: u32,
    pub cells: Vec<Bound>,
}

impl Model for Matrix {
    ghost use Rattle.pk_octmat.specs.Octagon.{Octagon};
    ghost use Rattle.pk_octmat.specs.Half.{octagon_in, IsKept};

    ghost Value = { Octagon };

    ghost view = { λ m. octagon_in m.vars m.cells.items };

    ghost invariant = { λ m. IsKept m.vars m.cells.items };
}

/// The place of the negative.
#[inline]
pub fn bar(i: usize) -> usize
    requires { i < 2 ^ 63 }
    ensures { result ≡ other i }
{
    i ^ 1
}

/// The place of the bound in row i and column j, of those that are kept: a row begins at half of the square of i + 1.
#[inline]
pub fn row_place(i: usize, j: usize) -> usize
    requires row { i < 2 ^ 32 }
    requires column { j ≤ 2 ^ 32 }
    ensures { result ≡ row_place_of i j }
{
    (i * i + 1) / 2 + i + j
}

/// The place of the bound on V(j) - V(i), kept or coherent.
#[inline]
pub fn spot(i: usize, j: usize) -> usize
    requires row { i < 2 ^ 32 }
    requires column { j < 2 ^ 32 }
    ensures { result ≡ spot_of i j }
{
    if i / 2 < j / 2 {
        row_place(bar(j), bar(i))
    } else {
        row_place(i, j)
    }
}

/// The bound in a row and a column, kept or coherent.
#[inline]
pub fn cell(cells: &[Bound], d: usize, i: usize, j: usize) -> Bound
    requires size { length cells.now ≡ block (d / 2) }
    requires pairs { d % 2 ≡ 0 }
    requires room { d ≤ 2 ^ 32 }
    requires row { i < d }
    requires column { j < d }
    ensures { result ≡ kept_at d cells.now i j }
{
    let bound = cells[spot(i, j)];
    bound
}

/// The bound between two places of which nothing is known.
fn unbounded(i: usize, j: usize) -> Bound
    ensures { result ≡ top_bound i j }
{
    if i == j {
        Bound::of(Some(0))
    } else {
        Bound::none()
    }
}

/// Takes away all bounds.
pub fn blank(cells: &mut [Bound], d: usize)
    requires size { length cells.old ≡ block (d / 2) }
    requires pairs { d % 2 ≡ 0 }
    requires room { d ≤ 2 ^ 32 }
    ensures value { (a b : ℕ) → a < d → b < d → kept_at d cells.new a b ≡ top_bound a b }
    ensures whole { IsHalf d cells.new }
{
    for cell in cells.iter_mut() {
        *cell = Bound::none();
    }
    for i in 0..d {
        cells[spot(i, i)] = unbounded(i, i);
    }
}

/// Writes one bound that is kept.
#[inline]
fn put(cells: &mut [Bound], d: usize, i: usize, j: usize, bound: Bound)
    requires size { length cells.old ≡ block (d / 2) }
    requires pairs { d % 2 ≡ 0 }
    requires room { d ≤ 2 ^ 32 }
    requires row { i < d }
    requires column { j < d }
    ensures { cells.new ≡ slice_set cells.old (spot_of i j) bound }
{
    cells[spot(i, j)] = bound;
}

/// Writes a bound, which is its coherent one too.
fn write(cells: &mut [Bound], d: usize, i: usize, j: usize, bound: Bound)
    requires whole { IsHalf d cells.old }
    requires pairs { d % 2 ≡ 0 }
    requires room { d ≤ 2 ^ 32 }
    requires row { i < d }
    requires column { j < d }
    requires apart { i ≢ j }
    requires near { IsNear (2 ^ 66) bound }
    ensures value { (a b : ℕ) → kept_at d cells.new a b ≡ written (kept_at d cells.old) i j bound a b }
    ensures whole { IsHalf d cells.new }
{
    put(cells, d, i, j, bound);
}

/// Writes the bounds from place p and from its negative to one place.
#[inline]
pub fn write_pair(cells: &mut [Bound], d: usize, p: usize, j: usize, first: Bound, second: Bound)
    requires size { length cells.old ≡ block (d / 2) }
    requires pairs { d % 2 ≡ 0 }
    requires room { d ≤ 2 ^ 32 }
    requires place { p + 1 < d }
    requires even { p % 2 ≡ 0 }
    requires column { j < d }
    ensures kept { length cells.new ≡ block (d / 2) }
    ensures first { kept_at d cells.new p j ≡ first }
    ensures second { kept_at d cells.new (p + 1) j ≡ second }
    ensures own { (a b : ℕ) → a / 2 ≡ p / 2 → b ≢ j → kept_at d cells.new a b ≡ kept_at d cells.old a b }
    ensures others { (a b : ℕ) → a / 2 ≢ p / 2 → b / 2 ≢ p / 2 → kept_at d cells.new a b ≡ kept_at d cells.old a b }
{
    put(cells, d, p, j, first);
    put(cells, d, p + 1, j, second);
}

/// Takes away the bounds from one place, and so those to its negative.
fn clear(cells: &mut [Bound], d: usize, p: usize)
    requires size { length cells.old ≡ block (d / 2) }
    requires pairs { d % 2 ≡ 0 }
    requires room { d ≤ 2 ^ 32 }
    requires place { p < d }
    requires zero { (i : ℕ) → i < d → kept_at d cells.old i i ≡ Some (pos 0) }
    ensures kept { length cells.new ≡ block (d / 2) }
    ensures value { (a b : ℕ) → a < d → b < d → kept_at d cells.new a b ≡
        (if (a == p) || (b == other p) then top_bound a b else kept_at d cells.old a b) }
{
    for j in 0..d {
        cells[spot(p, j)] = unbounded(p, j);
    }
}

/// Takes away the bounds of one variable.
fn forget_cells(cells: &mut [Bound], d: usize, k: usize)
    requires whole { IsHalf d cells.old }
    requires pairs { d % 2 ≡ 0 }
    requires room { d ≤ 2 ^ 32 }
    requires variable { 2 * k < d }
    ensures value { (a b : ℕ) → kept_at d cells.new a b ≡ forgotten (kept_at d cells.old) k a b }
    ensures sound { (x : ℕ → ℤ) (v : ℤ) → Meets (kept_at d cells.old) x →
        Meets (kept_at d cells.new) (with_number x k v) }
    ensures whole { IsHalf d cells.new }
{
    clear(cells, d, 2 * k);
    clear(cells, d, 2 * k + 1);
}

/// Whether two lists of cells are the same.
fn same_cells(cells: &[Bound], other: &[Bound]) -> bool
    requires { length cells.now ≡ length other.now }
    ensures { (result ≡ true) ↔ (cells.now ≡ other.now) }
{
    for k in 0..cells.len() {
        if !cells[k].equals(other[k]) {
            return false;
        }
    }
    true
}

/// How many bounds of a matrix are kept.
pub fn stored(m: &Matrix) -> usize
    ensures { result ≡ block m.now.vars }
{
    m.cells.len()
}

impl Matrix {
    /// No bounds on n variables. There is no memory for 2^31 variables or more.
    pub fn top(alloc: Global, n: u32) -> Result<Matrix, AllocError>
        ensures { IfOk result (HasEntries n top_bound) }
    {
        if n < 1 << 31 {
            let d = 2 * n as usize;
            let mut cells = vec![in alloc; Bound::none(); row_place(d, 0)]?;
            blank(&mut cells, d);
            Ok(Matrix { vars: n, cells })
        } else {
            Err(AllocError)
        }
    }

    /// The same bounds again.
    pub fn copy(&self) -> Result<Matrix, AllocError>
        ensures { IfOk result (λ m. m ≡ self.now) }
    {
        let cells = self.cells.clone()?;
        Ok(Matrix {
            vars: self.vars,
            cells,
        })
    }

    /// Whether two matrices are the same.
    pub fn equals(&self, other: &Matrix) -> bool
        ensures { (result ≡ true) ↔ (self.now ≡ other.now) }
    {
        self.vars == other.vars && same_cells(&self.cells, &other.cells)
    }

    /// What every matrix is: coherent, its diagonal 0, each bound none or within 2^66 of 0, and its places counted in 32 bits.
    pub fn is_octagon(&self)
        ensures { IsOctagon self.now }
    {
        let _ = &self.cells;
    }

    /// The bound on V(j) - V(i).
    pub fn bound(&self, i: u32, j: u32) -> Bound
        requires row { i < 2 * self.now.vars }
        requires column { j < 2 * self.now.vars }
        ensures value { result ≡ entry self.now i j }
        ensures near { IsNear (2 ^ 66) result }
    {
        let bound = self.cells[spot(i as usize, j as usize)];
        bound
    }

    /// The bound on V(j) - V(i) as a number, if there is one.
    pub fn get(&self, i: u32, j: u32) -> Option<i128>
        requires row { i < 2 * self.now.vars }
        requires column { j < 2 * self.now.vars }
        ensures value { result ≡ entry self.now i j }
        ensures near { IsNear (2 ^ 66) result }
    {
        self.bound(i, j).number()
    }

    /// Writes the bound on V(j) - V(i), and its coherent one: above 2^66 none, below -2^66 that number.
    pub fn set(&mut self, i: u32, j: u32, bound: Option<i128>)
        requires row { i < 2 * self.old.vars }
        requires column { j < 2 * self.old.vars }
        requires apart { i ≢ j }
        ensures vars { self.new.vars ≡ self.old.vars }
        ensures value { (a b : ℕ) → entry self.new a b ≡ written (entry self.old) i j (capped bound) a b }
    {
        write(
            &mut self.cells,
            2 * self.vars as usize,
            i as usize,
            j as usize,
            Bound::of(bound),
        );
    }

    /// Takes away the bounds of variable k.
    pub fn forget(&mut self, k: u32)
        requires { k < self.old.vars }
        ensures vars { self.new.vars ≡ self.old.vars }
        ensures value { (a b : ℕ) → entry self.new a b ≡ forgotten (entry self.old) k a b }
        ensures sound { (x : ℕ → ℤ) (v : ℤ) → Meets (entry self.old) x → Meets (entry self.new) (with_number x k v) }
    {
        forget_cells(&mut self.cells, 2 * self.vars as usize, k as usize);
    }
}
