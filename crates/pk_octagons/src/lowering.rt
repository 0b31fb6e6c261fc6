// Lowering an octagon by the ranges of its variables.

ghost use Rattle.std.specs.Prelude.{◌≡◌, ◌<◌, ◌*◌, ◌+ℤ◌, ℕ, true, Some, length};
ghost use Rattle.pk_octmat.specs.Bounds.{lesser, capped};
ghost use Rattle.pk_octmat.specs.Octagon.{entry, bar as other};
ghost use Rattle.pk_octops.specs.Guards.{IsGuard, guard_of};
ghost use Rattle.pk_octmarks.specs.Marks.{IsMarked};
ghost use Rattle.pk_octagons.specs.Packs.{chosen_at, IsPack};
ghost use Rattle.pk_octagons.specs.Values.{known_at, HasType, HaveTypes};
ghost use Rattle.pk_octagons.specs.Reduced.{by_range, by_ranges};

use crate::packs::Pack;
use pk_blocks::Blocks;
use pk_interval::Interval;
use pk_octmarks::Mark;
use pk_octmat::{Bound, Matrix, bar};
use pk_octops::guard;
use pk_value::Value;

// Lowers the bounds on one variable to its range.
fn lower(m: &mut Matrix, k: u32, range: &Interval)
    requires place { k < m.old.vars }
    requires inside { HasType range.now }
    ensures value { m.new ≡ by_range m.old k range.now }
    ensures vars { m.new.vars ≡ m.old.vars }
{
    m.is_octagon();
    guard(m, Some(2 * k), None, range.hi);
    guard(m, Some(2 * k + 1), None, -range.lo);
}

// Twice a number, or one past the cap on its side.
fn twice(c: i128) -> i128
    ensures { capped (Some result) ≡ capped (Some (c +ℤ c)) }
{
    c.saturating_add(c)
}

// Whether a bound is at most twice a number already.
fn is_within(m: &Matrix, i: u32, j: u32, c: i128) -> bool
    requires row { i < 2 * m.now.vars }
    requires column { j < 2 * m.now.vars }
    ensures { result ≡ true → lesser (entry m.now i j) (capped (Some (c +ℤ c))) ≡ entry m.now i j }
{
    let bound = m.bound(i, j);
    bound.lesser(Bound::of(Some(twice(c)))).equals(bound)
}

// Whether a bound is at most a number already.
fn is_at_most(m: &Matrix, i: u32, j: u32, c: i128) -> bool
    requires row { i < 2 * m.now.vars }
    requires column { j < 2 * m.now.vars }
    ensures { result ≡ true → lesser (entry m.now i j) (capped (Some c)) ≡ entry m.now i j }
{
    let bound = m.bound(i, j);
    bound.lesser(Bound::of(Some(c))).equals(bound)
}

// The place of the negative.
fn opposite(i: u32) -> u32
    ensures { result ≡ other i }
{
    bar(i as usize) as u32
}

/// Whether a guard lowers no bound.
pub(crate) fn is_obeyed(m: &Matrix, a: Option<u32>, b: Option<u32>, c: i128) -> bool
    requires { IsGuard m.now.vars a b }
    ensures { result ≡ true → guard_of m.now a b c ≡ Some m.now }
{
    m.is_octagon();
    match (a, b) {
        (None, _) => 0 <= c,
        (Some(a), None) => is_within(m, opposite(a), a, c),
        (Some(a), Some(b)) => is_at_most(m, opposite(b), a, c),
    }
}

/// Whether the bounds on one variable are within its range already.
pub(crate) fn is_lowered(m: &Matrix, k: u32, range: &Interval) -> bool
    requires place { k < m.now.vars }
    requires inside { HasType range.now }
    ensures { result ≡ true → by_range m.now k range.now ≡ m.now }
{
    m.is_octagon();
    is_within(m, 2 * k + 1, 2 * k, range.hi) && is_within(m, 2 * k, 2 * k + 1, -range.lo)
}

/// Lowers the bounds on one variable to its range, and says what is known of the octagon then.
pub(crate) fn lower_marked(m: &mut Matrix, k: u32, range: &Interval, mark: Mark) -> Mark
    requires place { k < m.old.vars }
    requires inside { HasType range.now }
    ensures value { m.new ≡ by_range m.old k range.now }
    ensures vars { m.new.vars ≡ m.old.vars }
    ensures marked { IsMarked mark m.old → IsMarked result m.new }
{
    if is_lowered(m, k, range) {
        return mark;
    }
    m.is_octagon();
    lower(m, k, range);
    mark.guarded(Some(2 * k), None)
        .guarded(Some(2 * k + 1), None)
}

/// Lowers the bounds on the octagon's variables to their ranges.
pub(crate) fn lower_all(m: &mut Matrix, mark: Mark, values: &Blocks<Value>, pack: &Pack) -> Mark
    requires vars { m.old.vars ≡ length pack.now }
    requires pack { IsPack (length values.now) pack.now }
    requires values { HaveTypes values.now }
    ensures value { m.new ≡ by_ranges pack.now values.now (length pack.now) m.old }
    ensures vars { m.new.vars ≡ m.old.vars }
    ensures marked { IsMarked mark m.old → IsMarked result m.new }
{
    let mut known = mark;
    for k in 0..pack.len() {
        let x = pack.variable(k);
        let value = values.get(x);
        known = lower_marked(m, k as u32, &value.interval, known);
    }
    known
}

/// Whether the bounds on all variables are within their ranges already.
pub(crate) fn are_lowered(m: &Matrix, values: &Blocks<Value>, pack: &Pack) -> bool
    requires vars { m.now.vars ≡ length pack.now }
    requires pack { IsPack (length values.now) pack.now }
    requires values { HaveTypes values.now }
    ensures { result ≡ true → (k : ℕ) → k < length pack.now →
        by_range m.now k (known_at values.now (chosen_at pack.now k)).range ≡ m.now }
{
    for k in 0..pack.len() {
        let x = pack.variable(k);
        let value = values.get(x);
        if !is_lowered(m, k as u32, &value.interval) {
            return false;
        }
    }
    true
}
