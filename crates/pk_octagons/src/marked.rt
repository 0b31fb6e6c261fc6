// One octagon, shared, with what is known of it.

ghost use Rattle.std.specs.Prelude.{◌≡◌, ◌↔◌, ◌<◌, ◌*◌, ◌+◌, ◌^◌, ℕ, true, IfOk, IfSome, Some, length, option_map};
ghost use Rattle.pk_octmat.specs.Octagon.{entry, octagon_of, top_bound, IsOctagon};
ghost use Rattle.pk_octmat.specs.Bounds.{halved};
ghost use Rattle.pk_octops.specs.Values.{least_of};
ghost use Rattle.pk_octops.specs.Assigns.{assignment_of};
ghost use Rattle.pk_octops.specs.Guards.{IsGuard, guard_of};
ghost use Rattle.pk_octops.specs.Tables.{join_of, widening_of, narrowing_of, IsBelow};
ghost use Rattle.pk_octagons.specs.Packs.{IsPack};
ghost use Rattle.pk_octagons.specs.Values.{HaveTypes};
ghost use Rattle.pk_octagons.specs.Reduced.{IsResting, closed_in};

use crate::closing::{close_lowered, join_shared, narrow_shared, shared, widen_shared};
use crate::lowering::{are_lowered, is_obeyed};
use crate::packs::Pack;
use pk_blocks::Blocks;
use pk_octmarks::Mark;
use pk_octmat::{Matrix, Shape};
use pk_octops::{assign, bounds, guard, leq};
use pk_value::Value;
use std::alloc::{AllocError, Global};
use std::marker::Model;
use std::sync::Arc;

#[derive(Drop)]
pub(crate) struct Marked {
    octagon: Arc<Matrix>,
    mark: Mark,
}

impl Model for Marked {
    ghost use Rattle.std.specs.Arc.{arc_value};
    ghost use Rattle.pk_octmat.specs.Octagon.{Octagon};
    ghost use Rattle.pk_octmarks.specs.Marks.{IsMarked};

    ghost Value = { Octagon };

    ghost view = { λ o. arc_value o.octagon };

    ghost invariant = { λ o. IsMarked o.mark (arc_value o.octagon) };
}

// No bounds on n variables.
fn top_octagon(alloc: Global, n: usize) -> Result<Matrix, AllocError>
    requires { n < 2 ^ 31 }
    ensures { IfOk result (λ m. m ≡ octagon_of n top_bound) }
{
    let m = Matrix::top(alloc, n as u32)?;
    m.is_octagon();
    Ok(m)
}

impl Marked {
    /// An octagon of which nothing is known.
    pub(crate) fn unknown(alloc: Global, octagon: Matrix) -> Result<Marked, AllocError>
        ensures { IfOk result (λ o. o ≡ octagon) }
    {
        Ok(Marked {
            octagon: Arc::new(alloc, octagon)?,
            mark: Mark::Unknown,
        })
    }

    /// No bounds on n variables.
    pub(crate) fn top(alloc: Global, n: usize) -> Result<Marked, AllocError>
        requires { n < 2 ^ 31 }
        ensures { IfOk result (λ o. o ≡ octagon_of n top_bound) }
    {
        Marked::unknown(alloc, top_octagon(alloc, n)?)
    }

    /// The same octagon, shared.
    pub(crate) fn copy(&self) -> Result<Marked, AllocError>
        ensures { IfOk result (λ o. o ≡ self.now) }
    {
        Ok(Marked {
            octagon: Arc::try_clone(&self.octagon)?,
            mark: self.mark,
        })
    }

    /// What every octagon is.
    pub(crate) fn is_octagon(&self)
        ensures { IsOctagon self.now }
    {
        self.octagon.is_octagon();
    }

    pub(crate) fn join(&self, alloc: Global, other: &Marked) -> Result<Marked, AllocError>
        requires { other.now.vars ≡ self.now.vars }
        ensures { IfOk result (λ o. o ≡ join_of self.now other.now) }
    {
        self.octagon.is_octagon();
        other.octagon.is_octagon();
        Ok(Marked {
            octagon: join_shared(alloc, &self.octagon, &other.octagon)?,
            mark: self.mark.joined(other.mark),
        })
    }

    pub(crate) fn widen(&self, alloc: Global, next: &Marked) -> Result<Marked, AllocError>
        requires { next.now.vars ≡ self.now.vars }
        ensures { IfOk result (λ o. o ≡ widening_of self.now next.now) }
    {
        Ok(Marked {
            octagon: widen_shared(alloc, &self.octagon, &next.octagon)?,
            mark: Mark::Unknown,
        })
    }

    pub(crate) fn narrow(&self, alloc: Global, next: &Marked) -> Result<Marked, AllocError>
        requires { next.now.vars ≡ self.now.vars }
        ensures { IfOk result (λ o. o ≡ narrowing_of self.now next.now) }
    {
        Ok(Marked {
            octagon: narrow_shared(alloc, &self.octagon, &next.octagon)?,
            mark: Mark::Unknown,
        })
    }

    /// Whether each bound is at most the other's.
    pub(crate) fn leq(&self, other: &Marked) -> bool
        requires { self.now.vars ≡ other.now.vars }
        ensures { result ≡ true ↔ IsBelow self.now other.now }
    {
        leq(&self.octagon, &other.octagon)
    }

    /// Whether both have the same bounds.
    pub(crate) fn equals(&self, other: &Marked) -> bool
        ensures { result ≡ true ↔ self.now ≡ other.now }
    {
        self.octagon.equals(&other.octagon)
    }

    /// The bound on V(j) - V(i), if there is one.
    pub(crate) fn bound(&self, i: u32, j: u32) -> Option<i128>
        requires row { i < 2 * self.now.vars }
        requires column { j < 2 * self.now.vars }
        ensures { result ≡ entry self.now i j }
    {
        self.octagon.get(i, j)
    }

    /// The least and the greatest number that variable k may be by its bounds.
    pub(crate) fn range(&self, k: u32) -> (Option<i128>, Option<i128>)
        requires { k < self.now.vars }
        ensures least { result.0 ≡ least_of (entry self.now (2 * k) (2 * k + 1)) }
        ensures greatest { result.1 ≡ halved (entry self.now (2 * k + 1) (2 * k)) }
    {
        bounds(&self.octagon, k)
    }

    /// Variable k gets V(term) + c, or any number.
    pub(crate) fn assigned(
        &self,
        alloc: Global,
        k: u32,
        term: Option<u32>,
        c: i128,
    ) -> Result<Marked, AllocError>
        requires variable { k < self.now.vars }
        requires term { IfSome term (λ t. t < 2 * self.now.vars) }
        ensures { IfOk result (λ o. o ≡ assignment_of self.now k term c) }
    {
        let m = assign(&self.octagon, k, term, c)?;
        let mark = self.mark.assigned(&self.octagon, k, term);
        Ok(Marked {
            octagon: shared(alloc, &self.octagon, m)?,
            mark,
        })
    }

    /// Whether V(a) + V(b) is at most c already.
    pub(crate) fn obeys(&self, a: Option<u32>, b: Option<u32>, c: i128) -> bool
        requires { IsGuard self.now.vars a b }
        ensures { result ≡ true → guard_of self.now a b c ≡ Some self.now }
    {
        is_obeyed(&self.octagon, a, b, c)
    }

    /// V(a) + V(b) is at most c; none where no term is left, and c is negative.
    pub(crate) fn guarded(
        &self,
        alloc: Global,
        a: Option<u32>,
        b: Option<u32>,
        c: i128,
    ) -> Result<Option<Marked>, AllocError>
        requires { IsGuard self.now.vars a b }
        ensures { IfOk result (λ o. o ≡ guard_of self.now a b c) }
    {
        self.octagon.is_octagon();
        if self.obeys(a, b, c) {
            return Ok(Some(self.copy()?));
        }
        let mut m = self.octagon.copy()?;
        match guard(&mut m, a, b, c) {
            Shape::Empty => Ok(None),
            Shape::Kept => Ok(Some(Marked {
                mark: self.mark.guarded(a, b),
                octagon: Arc::new(alloc, m)?,
            })),
        }
    }

    /// Whether it is known to be closed, and the values lower none of its bounds.
    pub(crate) fn rests(&self, values: &Blocks<Value>, pack: &Pack) -> bool
        requires vars { self.now.vars ≡ length pack.now }
        requires pack { IsPack (length values.now) pack.now }
        requires values { HaveTypes values.now }
        ensures { result ≡ true → IsResting pack.now values.now self.now }
    {
        self.mark.is_closed() && are_lowered(&self.octagon, values, pack)
    }

    /// Lowered by the ranges of its variables, and closed; none where it has no closing then.
    pub(crate) fn closed(
        &self,
        alloc: Global,
        values: &Blocks<Value>,
        pack: &Pack,
    ) -> Result<Option<Marked>, AllocError>
        requires vars { self.now.vars ≡ length pack.now }
        requires pack { IsPack (length values.now) pack.now }
        requires values { HaveTypes values.now }
        ensures { IfOk result (λ o. o ≡ closed_in pack.now values.now self.now) }
    {
        self.octagon.is_octagon();
        if self.rests(values, pack) {
            return Ok(Some(self.copy()?));
        }
        match close_lowered(alloc, &self.octagon, self.mark, values, pack)? {
            None => Ok(None),
            Some(octagon) => Ok(Some(Marked {
                octagon,
                mark: Mark::Closed,
            })),
        }
    }
}
