// Lowering an octagon by ranges, one variable after the other, closed after each before the next.

ghost use Rattle.std.specs.Prelude.{◌≡◌, ◌<◌, ◌≤◌, true, IfSome, length};
ghost use Rattle.pk_octmat.specs.Shapes.{left_of};
ghost use Rattle.pk_octclose.specs.Closing.{IsSmall};
ghost use Rattle.pk_octclose.specs.Places.{closing_of};
ghost use Rattle.pk_octmarks.specs.Marks.{IsMarked};
ghost use Rattle.pk_octagons.specs.Packs.{IsPack};
ghost use Rattle.pk_octagons.specs.Values.{HasType, HaveTypes};
ghost use Rattle.pk_octagons.specs.Reduced.{by_range, by_ranges};
ghost use Rattle.pk_octagons.specs.Turns.{IsTurn};

use crate::lowering::{is_lowered, lower_marked};
use crate::packs::Pack;
use pk_blocks::Blocks;
use pk_interval::Interval;
use pk_octclose::small;
use pk_octmarks::{Ahead, Mark, close_ahead, close_small};
use pk_octmat::{Matrix, Shape};
use pk_value::Value;

// How many variables the ranges lower the bounds on.
fn lowered_count(m: &Matrix, values: &Blocks<Value>, pack: &Pack) -> usize
    requires vars { m.now.vars ≡ length pack.now }
    requires pack { IsPack (length values.now) pack.now }
    requires values { HaveTypes values.now }
    ensures { result ≤ length pack.now }
{
    let mut count = 0;
    for k in 0..pack.len() {
        let x = pack.variable(k);
        let value = values.get(x);
        if !is_lowered(m, k as u32, &value.interval) {
            count += 1;
        }
    }
    count
}

// Whether so few variables have lowered bounds that an octagon is sooner closed after each of them in turn than once from nothing: a closing after one variable costs
// a quarter of that over 16 variables, and a tenth over 64.
fn are_few(m: &Matrix, values: &Blocks<Value>, pack: &Pack) -> bool
    requires vars { m.now.vars ≡ length pack.now }
    requires pack { IsPack (length values.now) pack.now }
    requires values { HaveTypes values.now }
    ensures { result ≡ true → m.now.vars ≤ 64 }
{
    m.vars <= 64 && lowered_count(m, values, pack) <= 2 + m.vars as usize / 16
}

/// Whether an octagon, of which this mark was known before its ranges lowered it, is to be closed in turn.
pub(crate) fn pays_in_turn(
    m: &Matrix,
    lowered: &Matrix,
    mark: Mark,
    values: &Blocks<Value>,
    pack: &Pack,
) -> bool
    requires vars { m.now.vars ≡ length pack.now }
    requires pack { IsPack (length values.now) pack.now }
    requires values { HaveTypes values.now }
    ensures { result ≡ true → (m.now.vars ≤ 64) × IsSmall lowered.now }
{
    !mark.is_unknown() && are_few(m, values, pack) && small(lowered)
}

// Lowers the bounds on one variable to its range, closed before where those on another have changed.
fn lower_ahead(m: &mut Matrix, k: u32, range: &Interval, mark: Mark) -> Ahead
    requires place { k < m.old.vars }
    requires inside { HasType range.now }
    requires marked { IsMarked mark m.old }
    ensures value { IsTurn result (by_range m.old k range.now) m.new }
    ensures vars { m.new.vars ≡ m.old.vars }
{
    if is_lowered(m, k, range) {
        return Ahead::Known(mark);
    }
    m.is_octagon();
    match close_ahead(m, mark, k) {
        Ahead::Known(next) => Ahead::Known(lower_marked(m, k, range, next)),
        Ahead::Empty => Ahead::Empty,
        Ahead::Large => Ahead::Large,
    }
}

/// Lowers the bounds on the octagon's variables to their ranges, and closes it after each before the next. None where it isn't small in between.
pub(crate) fn close_in_turn(
    m: &mut Matrix,
    mark: Mark,
    values: &Blocks<Value>,
    pack: &Pack,
) -> Option<Shape>
    requires few { m.old.vars ≤ 64 }
    requires vars { m.old.vars ≡ length pack.now }
    requires pack { IsPack (length values.now) pack.now }
    requires values { HaveTypes values.now }
    requires marked { IsMarked mark m.old }
    requires small { IsSmall (by_ranges pack.now values.now (length pack.now) m.old) }
    ensures value { IfSome result (λ s. left_of s m.new
        ≡ closing_of (by_ranges pack.now values.now (length pack.now) m.old)) }
    ensures vars { m.new.vars ≡ m.old.vars }
{
    m.is_octagon();
    let mut known = mark;
    for k in 0..pack.len() {
        let x = pack.variable(k);
        let value = values.get(x);
        m.is_octagon();
        match lower_ahead(m, k as u32, &value.interval, known) {
            Ahead::Known(next) => known = next,
            Ahead::Empty => return Some(Shape::Empty),
            Ahead::Large => return None,
        }
    }
    m.is_octagon();
    close_small(m, known)
}
