// Octagons lowered by ranges and closed, and values bounded by them.

ghost use Rattle.std.specs.Prelude.{◌≡◌, ◌<◌, ℕ, [], true, IfOk, List, length, map, option_map};
ghost use Rattle.std.specs.declared.vec.Vec.{Vec};
ghost use Rattle.pk_ctypes.specs.declared.types.IntType.{IntType};
ghost use Rattle.pk_octmat.specs.Octagon.{Octagon};
ghost use Rattle.pk_octagons.specs.Packs.{ArePacks};
ghost use Rattle.pk_octagons.specs.Values.{HaveTypes, AreValues, AreMarked};
ghost use Rattle.pk_octagons.specs.Octagons.{widths};
ghost use Rattle.pk_octagons.specs.Reduced.{closed_octagons, bounded_values, kept_if, AreResting, BoundNone};

use crate::marked::Marked;
use crate::octagons::Octagons;
use crate::packs::PlacedPacks;
use crate::values::bound_values;
use pk_blocks::Blocks;
use pk_value::Value;
use std::alloc::{AllocError, Global};

// Whether all are known to be closed, and the values lower none of their bounds.
fn rest_all(all: &[Marked], values: &Blocks<Value>, packs: &PlacedPacks) -> bool
    requires packs { ArePacks (length values.now) packs.now }
    requires values { HaveTypes values.now }
    requires widths { widths all.now ≡ map length packs.now }
    ensures { result ≡ true → AreResting packs.now values.now all.now }
{
    for p in 0..all.len() {
        if !all[p].rests(values, packs.pack(p)) {
            return false;
        }
    }
    true
}

// Each octagon lowered by the ranges and closed; none where one has no closing.
fn close_all(
    alloc: Global,
    all: &[Marked],
    values: &Blocks<Value>,
    packs: &PlacedPacks,
) -> Result<Option<Octagons>, AllocError>
    requires packs { ArePacks (length values.now) packs.now }
    requires values { HaveTypes values.now }
    requires widths { widths all.now ≡ map length packs.now }
    ensures { IfOk result (λ o. o ≡ closed_octagons packs.now values.now all.now) }
{
    let mut out = Vec::with_capacity(alloc, all.len())?;
    for p in 0..all.len() {
        match all[p].closed(alloc, values, packs.pack(p))? {
            None => return Ok(None),
            Some(octagon) => out.push(octagon)?,
        }
    }
    Ok(Some(Octagons { all: out }))
}

impl Octagons {
    /// Whether all are known to be closed, and the values lower none of their bounds.
    pub fn rest(&self, values: &Blocks<Value>, packs: &PlacedPacks) -> bool
        requires packs { ArePacks (length values.now) packs.now }
        requires values { HaveTypes values.now }
        requires widths { widths self.now ≡ map length packs.now }
        ensures { result ≡ true → AreResting packs.now values.now self.now }
    {
        rest_all(&self.all, values, packs)
    }

    /// Each lowered by the ranges of its variables, and closed: those that rest are shared, and cost no closing. None where one has no closing.
    pub fn closed(
        &self,
        alloc: Global,
        values: &Blocks<Value>,
        packs: &PlacedPacks,
    ) -> Result<Option<Octagons>, AllocError>
        requires packs { ArePacks (length values.now) packs.now }
        requires values { HaveTypes values.now }
        requires widths { widths self.now ≡ map length packs.now }
        ensures { IfOk result (λ o. o ≡ closed_octagons packs.now values.now self.now) }
    {
        close_all(alloc, &self.all, values, packs)
    }

    /// Bounds the values of the octagons' variables by each octagon in order, and lists those that may be loose then. False where nothing is left of one.
    pub fn bound_values(
        &self,
        alloc: Global,
        values: &mut Blocks<Value>,
        loose: &mut Vec<usize>,
        packs: &PlacedPacks,
    ) -> Result<bool, AllocError>
        requires packs { ArePacks (length values.old) packs.now }
        requires widths { widths self.now ≡ map length packs.now }
        requires marked { AreMarked values.old loose.old.items }
        ensures value { IfOk result (λ b. kept_if b values.new ≡ bounded_values packs.now self.now values.old) }
        ensures stays { IfOk result (λ b. b ≡ true →
            (types : List IntType) → AreValues types values.old → AreValues types values.new) }
        ensures marked { IfOk result (λ b. b ≡ true → AreMarked values.new loose.new.items) }
        ensures still { IfOk result (λ b. b ≡ true → loose.new.items ≡ [] →
            (values.new ≡ values.old) × BoundNone packs.now values.old self.now) }
    {
        bound_values(alloc, values, loose, &self.all, packs)
    }
}
