// Values bounded by octagons.

ghost use Rattle.std.specs.Prelude.{◌≡◌, ◌<◌, ◌*◌, ℕ, [], true, IfOk, OnOk, List, length, map, slice_set};
ghost use Rattle.pk_ctypes.specs.declared.types.IntType.{IntType};
ghost use Rattle.pk_interval.specs.Ranges.{range_from};
ghost use Rattle.pk_octmat.specs.Octagon.{Octagon};
ghost use Rattle.pk_octagons.specs.Packs.{IsPack, ArePacks};
ghost use Rattle.pk_octagons.specs.Values.{known_at, AreValues, AreMarked};
ghost use Rattle.pk_octagons.specs.Octagons.{widths};
ghost use Rattle.pk_octagons.specs.Reduced.{with_range, raised_low, lowered_high, bounded_by, bounded_all, bounded_values, kept_if, BoundsNone, BoundNone};

use crate::marked::Marked;
use crate::packs::{Pack, PlacedPacks};
use pk_blocks::Blocks;
use pk_interval::{Interval, between};
use pk_value::Value;
use std::alloc::{AllocError, Global};

// The greater of a bound and one that may be there.
fn raised(bound: Option<i128>, z: i128) -> i128
    ensures { result ≡ raised_low bound z }
{
    match bound {
        None => z,
        Some(bound) => bound.max(z),
    }
}

// The lesser of a bound and one that may be there.
fn lowered(bound: Option<i128>, z: i128) -> i128
    ensures { result ≡ lowered_high bound z }
{
    match bound {
        None => z,
        Some(bound) => bound.min(z),
    }
}

// A value with another interval, if there is one.
fn with_interval(value: &Value, interval: Option<Interval>) -> Option<Value>
    ensures { result ≡ with_range value.now interval }
{
    match interval {
        None => None,
        Some(interval) => Some(Value {
            interval,
            congr: value.congr,
        }),
    }
}

// The bounds of a range, or those that are given where they are tighter.
fn tighter(value: &Value, low: Option<i128>, high: Option<i128>) -> Option<Value>
    ensures { result ≡ with_range value.now
        (range_from (raised_low low value.now.range.lo) (lowered_high high value.now.range.hi)) }
{
    let interval = between(
        raised(low, value.interval.lo),
        lowered(high, value.interval.hi),
    );
    with_interval(value, interval)
}

// What is left of a value by an octagon's bounds on its variable k.
fn bound(m: &Marked, k: u32, value: &Value) -> Option<Value>
    requires { k < m.now.vars }
    ensures { result ≡ bounded_by m.now k value.now }
{
    let (low, high) = m.range(k);
    tighter(value, low, high)
}

/// Writes a value that may be loose, if it isn't there.
pub fn put_loose(
    alloc: Global,
    values: &mut Blocks<Value>,
    loose: &mut Vec<usize>,
    x: usize,
    old: &Value,
    new: Value,
) -> Result<(), AllocError>
    requires place { x < length values.old }
    requires old { known_at values.old x ≡ old.now }
    requires marked { AreMarked values.old loose.old.items }
    ensures value { OnOk result (values.new ≡ slice_set values.old x new) }
    ensures marked { OnOk result (AreMarked values.new loose.new.items) }
    ensures still { OnOk result (loose.new.items ≡ [] → (loose.old.items ≡ []) × (new ≡ old.now)) }
{
    if new.equals(old) {
        return Ok(());
    }
    values.set(alloc, x, new)?;
    loose.push(x)?;
    Ok(())
}

// Bounds the values of an octagon's variables by it. False where nothing is left of one.
fn bound_by_one(
    alloc: Global,
    values: &mut Blocks<Value>,
    loose: &mut Vec<usize>,
    m: &Marked,
    pack: &Pack,
) -> Result<bool, AllocError>
    requires pack { IsPack (length values.old) pack.now }
    requires vars { m.now.vars ≡ length pack.now }
    requires marked { AreMarked values.old loose.old.items }
    ensures value { IfOk result
        (λ b. kept_if b values.new ≡ bounded_all pack.now m.now (length pack.now) values.old) }
    ensures stays { IfOk result (λ b. b ≡ true →
        (types : List IntType) → AreValues types values.old → AreValues types values.new) }
    ensures marked { IfOk result (λ b. b ≡ true → AreMarked values.new loose.new.items) }
    ensures size { IfOk result (λ b. b ≡ true → length values.new ≡ length values.old) }
    ensures still { IfOk result (λ b. b ≡ true → loose.new.items ≡ [] →
        (loose.old.items ≡ []) × (values.new ≡ values.old) × BoundsNone pack.now values.old m.now) }
{
    for k in 0..pack.len() {
        let x = pack.variable(k);
        let old = values.get(x);
        match bound(m, k as u32, &old) {
            None => return Ok(false),
            Some(new) => put_loose(alloc, values, loose, x, &old, new)?,
        }
    }
    Ok(true)
}

/// Bounds the values of the octagons' variables by each octagon in order. False where nothing is left of one.
pub(crate) fn bound_values(
    alloc: Global,
    values: &mut Blocks<Value>,
    loose: &mut Vec<usize>,
    all: &[Marked],
    packs: &PlacedPacks,
) -> Result<bool, AllocError>
    requires packs { ArePacks (length values.old) packs.now }
    requires widths { widths all.now ≡ map length packs.now }
    requires marked { AreMarked values.old loose.old.items }
    ensures value { IfOk result (λ b. kept_if b values.new ≡ bounded_values packs.now all.now values.old) }
    ensures stays { IfOk result (λ b. b ≡ true →
        (types : List IntType) → AreValues types values.old → AreValues types values.new) }
    ensures marked { IfOk result (λ b. b ≡ true → AreMarked values.new loose.new.items) }
    ensures still { IfOk result (λ b. b ≡ true → loose.new.items ≡ [] →
        (values.new ≡ values.old) × BoundNone packs.now values.old all.now) }
{
    for p in 0..all.len() {
        if !bound_by_one(alloc, values, loose, &all[p], packs.pack(p))? {
            return Ok(false);
        }
    }
    Ok(true)
}
