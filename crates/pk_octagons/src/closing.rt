// Closing octagons that ranges have lowered, and joins, widening and narrowing steps of shared ones.

ghost use Rattle.std.specs.Prelude.{◌≡◌, IfOk, length, option_map};
ghost use Rattle.std.specs.Arc.{arc_value};
ghost use Rattle.pk_octmat.specs.Shapes.{left_of};
ghost use Rattle.pk_octclose.specs.Places.{closing_of};
ghost use Rattle.pk_octops.specs.Tables.{join_of, widening_of, narrowing_of};
ghost use Rattle.pk_octmarks.specs.Marks.{IsMarked};
ghost use Rattle.pk_octagons.specs.Packs.{IsPack};
ghost use Rattle.pk_octagons.specs.Values.{HaveTypes};
ghost use Rattle.pk_octagons.specs.Reduced.{by_ranges, closed_in};

use crate::lowering::lower_all;
use crate::packs::Pack;
use crate::turns::{close_in_turn, pays_in_turn};
use pk_blocks::Blocks;
use pk_octmarks::{Mark, close_marked};
use pk_octmat::{Matrix, Shape};
use pk_octops::{join, leq, narrow, widen};
use pk_value::Value;
use std::alloc::{AllocError, Global};
use std::sync::Arc;

/// An octagon of these bounds: the old one, shared, where it has them.
pub(crate) fn shared(
    alloc: Global,
    old: &Arc<Matrix>,
    new: Matrix,
) -> Result<Arc<Matrix>, AllocError>
    ensures { IfOk result (λ m. arc_value m ≡ new) }
{
    if new.equals(old) {
        return Arc::try_clone(old);
    }
    Ok(Arc::new(alloc, new)?)
}

// Closes an octagon in place that its ranges have lowered, or finds that no integers meet it: in turn from what it was before, where that is sooner done.
fn close_from(
    m: &mut Matrix,
    known: Mark,
    octagon: &Matrix,
    mark: Mark,
    values: &Blocks<Value>,
    pack: &Pack,
) -> Result<Shape, AllocError>
    requires vars { octagon.now.vars ≡ length pack.now }
    requires pack { IsPack (length values.now) pack.now }
    requires values { HaveTypes values.now }
    requires marked { IsMarked mark octagon.now }
    requires known { IsMarked known m.old }
    requires lowered { m.old ≡ by_ranges pack.now values.now (length pack.now) octagon.now }
    ensures { IfOk result (λ s. left_of s m.new ≡ closing_of m.old) }
{
    if known.is_unknown() && pays_in_turn(octagon, m, mark, values, pack) {
        let mut turned = octagon.copy()?;
        match close_in_turn(&mut turned, mark, values, pack) {
            Some(shape) => {
                *m = turned;
                return Ok(shape);
            }
            None => {}
        }
    }
    Ok(close_marked(m, known))
}

/// The closing of an octagon lowered by the ranges, if it has one.
pub(crate) fn close_lowered(
    alloc: Global,
    octagon: &Arc<Matrix>,
    mark: Mark,
    values: &Blocks<Value>,
    pack: &Pack,
) -> Result<Option<Arc<Matrix>>, AllocError>
    requires vars { (arc_value octagon.now).vars ≡ length pack.now }
    requires pack { IsPack (length values.now) pack.now }
    requires values { HaveTypes values.now }
    requires marked { IsMarked mark (arc_value octagon.now) }
    ensures { IfOk result (λ o. option_map arc_value o ≡ closed_in pack.now values.now (arc_value octagon.now)) }
{
    let mut m = octagon.copy()?;
    let known = lower_all(&mut m, mark, values, pack);
    match close_from(&mut m, known, octagon, mark, values, pack)? {
        Shape::Empty => Ok(None),
        Shape::Kept => Ok(Some(shared(alloc, octagon, m)?)),
    }
}

/// The join of two octagons: the first one, shared, where the other is below it.
pub(crate) fn join_shared(
    alloc: Global,
    a: &Arc<Matrix>,
    b: &Arc<Matrix>,
) -> Result<Arc<Matrix>, AllocError>
    requires { (arc_value b.now).vars ≡ (arc_value a.now).vars }
    ensures { IfOk result (λ m. arc_value m ≡ join_of (arc_value a.now) (arc_value b.now)) }
{
    a.is_octagon();
    if leq(b, a) {
        return Arc::try_clone(a);
    }
    Ok(Arc::new(alloc, join(a, b)?)?)
}

/// The widening of an octagon by another: itself, shared, where the other is below it.
pub(crate) fn widen_shared(
    alloc: Global,
    h: &Arc<Matrix>,
    n: &Arc<Matrix>,
) -> Result<Arc<Matrix>, AllocError>
    requires { (arc_value n.now).vars ≡ (arc_value h.now).vars }
    ensures { IfOk result (λ m. arc_value m ≡ widening_of (arc_value h.now) (arc_value n.now)) }
{
    h.is_octagon();
    if leq(n, h) {
        return Arc::try_clone(h);
    }
    Ok(Arc::new(alloc, widen(h, n)?)?)
}

/// The narrowing of an octagon by another: itself, shared, where that adds no bounds.
pub(crate) fn narrow_shared(
    alloc: Global,
    h: &Arc<Matrix>,
    n: &Arc<Matrix>,
) -> Result<Arc<Matrix>, AllocError>
    requires { (arc_value n.now).vars ≡ (arc_value h.now).vars }
    ensures { IfOk result (λ m. arc_value m ≡ narrowing_of (arc_value h.now) (arc_value n.now)) }
{
    let m = narrow(h, n)?;
    shared(alloc, h, m)
}
