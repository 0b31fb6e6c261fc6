// What is known where a run may come: a value of each variable, and an octagon for each pack.

ghost use Rattle.std.specs.Prelude.{◌≡◌, ◌↔◌, ◌<◌, ◌≤◌, ◌+◌, ◌%◌, ℕ, true, [], IfOk, length, map};
ghost use Rattle.std.specs.List.Sorted.{IsSorted};
ghost use Rattle.std.specs.Ordering.{int_cmp};
ghost use Rattle.pk_value.specs.Known.{any_of};
ghost use Rattle.pk_octagons.specs.Values.{known_at, AreValues, AreMarked};
ghost use Rattle.pk_octagons.specs.Octagons.{AreOctagons, widths, joined_octagons, widened_octagons, narrowed_octagons};
ghost use Rattle.pk_octagons.specs.Reduced.{AreResting};
ghost use Rattle.pk_state.specs.Facts.{AreFacts, AreWithin, joined_values, widened_values, narrowed_values, top_facts as top_of};
ghost use Rattle.pk_state.specs.Marks.{IsSettledIf};
ghost use Rattle.pk_state.specs.Reduced.{reduced_facts, with_closed};

use crate::frame::Frame;
use crate::marks::{at_most, either, is_none_listed};
use crate::values::{
    join_values, leq_values, narrow_values, reduce_values, same_row_values, same_values,
    widen_values,
};
use pk_blocks::Blocks;
use pk_ctypes::IntType;
use pk_octagons::Octagons;
use pk_value::Value;
use std::alloc::{AllocError, Global};
use std::marker::Model;

#[derive(Drop)]
pub(crate) struct Facts {
    pub(crate) values: Blocks<Value>,
    pub(crate) octagons: Octagons,
    // The values that may be loose: every other one is tight.
    pub(crate) loose: Vec<usize>,
}

impl Model for Facts {
    ghost use Rattle.pk_octagons.specs.Values.{AreMarked};
    ghost use Rattle.pk_state.specs.Facts.{Facts};

    ghost Value = { Facts };

    ghost view = { λ f. record { values = f.values; octagons = f.octagons } };

    ghost invariant = { λ f. AreMarked f.values f.loose.items };
}

// Any number of each variable's type.
fn top_values(alloc: Global, frame: &Frame) -> Result<Blocks<Value>, AllocError>
    ensures { IfOk result (λ v. v ≡ map any_of frame.now.types) }
{
    let mut values = Blocks::filled(alloc, Value::any(IntType::Int), frame.len())?;
    for x in 0..frame.len() {
        values.set(alloc, x, Value::any(frame.int_type(x)))?;
    }
    Ok(values)
}

/// Any number of each variable's type, and no bound.
pub(crate) fn top_facts(alloc: Global, frame: &Frame) -> Result<Facts, AllocError>
    ensures { IfOk result (λ f. f ≡ top_of frame.now) }
{
    Ok(Facts {
        values: top_values(alloc, frame)?,
        octagons: Octagons::top(alloc, frame.packs())?,
        loose: Vec::new(alloc),
    })
}

/// The same facts, shared.
pub(crate) fn copy_facts(alloc: Global, f: &Facts) -> Result<Facts, AllocError>
    ensures { IfOk result (λ g. g ≡ f.now) }
{
    Ok(Facts {
        values: f.values.copy(alloc)?,
        octagons: f.octagons.copy(alloc)?,
        loose: Vec::from_slice(alloc, &f.loose)?,
    })
}

pub(crate) fn join_facts(
    alloc: Global,
    a: &Facts,
    b: &Facts,
    frame: &Frame,
) -> Result<Facts, AllocError>
    requires left { AreFacts frame.now a.now }
    requires right { AreFacts frame.now b.now }
    ensures { IfOk result
        (λ f. f ≡ record {
          values = joined_values a.now.values b.now.values;
          octagons = joined_octagons a.now.octagons b.now.octagons;
        }) }
{
    Ok(Facts {
        values: join_values(alloc, &a.values, &b.values)?,
        octagons: a.octagons.join(alloc, &b.octagons)?,
        loose: either(alloc, &a.loose, &b.loose, frame.len())?,
    })
}

pub(crate) fn widen_facts(
    alloc: Global,
    held: &Facts,
    next: &Facts,
    frame: &Frame,
    thresholds: &[i128],
) -> Result<Facts, AllocError>
    requires held { AreFacts frame.now held.now }
    requires next { AreFacts frame.now next.now }
    requires rising { IsSorted int_cmp thresholds.now }
    ensures { IfOk result
        (λ f. f ≡ record {
          values = widened_values frame.now thresholds.now held.now.values next.now.values;
          octagons = widened_octagons held.now.octagons next.now.octagons;
        }) }
{
    let mut loose = Vec::from_slice(alloc, &held.loose)?;
    Ok(Facts {
        values: widen_values(
            alloc,
            &held.values,
            &next.values,
            frame,
            thresholds,
            &mut loose,
        )?,
        octagons: held.octagons.widen(alloc, &next.octagons)?,
        loose: at_most(alloc, loose, frame.len())?,
    })
}

pub(crate) fn narrow_facts(
    alloc: Global,
    held: &Facts,
    next: &Facts,
    frame: &Frame,
) -> Result<Facts, AllocError>
    requires held { AreFacts frame.now held.now }
    requires next { AreFacts frame.now next.now }
    ensures { IfOk result
        (λ f. f ≡ record {
          values = narrowed_values frame.now held.now.values next.now.values;
          octagons = narrowed_octagons held.now.octagons next.now.octagons;
        }) }
{
    let mut loose = Vec::from_slice(alloc, &held.loose)?;
    Ok(Facts {
        values: narrow_values(alloc, &held.values, &next.values, frame, &mut loose)?,
        octagons: held.octagons.narrow(alloc, &next.octagons)?,
        loose: at_most(alloc, loose, frame.len())?,
    })
}

/// Whether each part is within that of the other.
pub(crate) fn leq_facts(a: &Facts, b: &Facts) -> bool
    requires size { length a.now.values ≡ length b.now.values }
    requires widths { widths b.now.octagons ≡ widths a.now.octagons }
    ensures { result ≡ true ↔ AreWithin a.now b.now }
{
    leq_values(&a.values, &b.values) && a.octagons.leq(&b.octagons)
}

/// Whether both know the same.
pub(crate) fn same_facts(a: &Facts, b: &Facts) -> bool
    requires size { length a.now.values ≡ length b.now.values }
    requires widths { widths b.now.octagons ≡ widths a.now.octagons }
    ensures { result ≡ true ↔ a.now ≡ b.now }
{
    same_values(&a.values, &b.values) && a.octagons.equals(&b.octagons)
}

/// Whether both know the same of the sixteen variables from one on, or of as many as there are.
pub(crate) fn same_row_facts(a: &Facts, b: &Facts, x: usize) -> bool
    requires size { length a.now.values ≡ length b.now.values }
    requires place { x < length a.now.values }
    requires first { x % 16 ≡ 0 }
    ensures { result ≡ true ↔ ((y : ℕ) → x ≤ y → y < x + 16 → y < length a.now.values →
        known_at a.now.values y ≡ known_at b.now.values y) }
{
    same_row_values(&a.values, &b.values, x)
}

// The values that closed octagons leave, reduced once more, with these, and whether what is left is marked as settled: where the octagons rest, and bound none of the
// values.
fn with_octagons(
    alloc: Global,
    mut values: Blocks<Value>,
    octagons: Octagons,
    rest: bool,
    frame: &Frame,
) -> Result<(Option<Facts>, bool), AllocError>
    requires values { AreValues frame.now.types values }
    requires octagons { AreOctagons frame.now.packs octagons }
    requires tight { AreMarked values [] }
    requires rest { rest ≡ true → AreResting frame.now.packs values octagons }
    ensures value { IfOk result (λ r. r.0 ≡ with_closed frame.now values octagons) }
    ensures settled { IfOk result (λ r. IsSettledIf r.1 frame.now r.0) }
{
    frame.is_layout();
    let mut loose = Vec::new(alloc);
    if !octagons.bound_values(alloc, &mut values, &mut loose, frame.packs())? {
        return Ok((None, true));
    }
    if rest && is_none_listed(&loose) {
        return Ok((
            Some(Facts {
                values,
                octagons,
                loose,
            }),
            true,
        ));
    }
    if !reduce_values(alloc, &mut values, &loose, frame)? {
        return Ok((None, true));
    }
    Ok((
        Some(Facts {
            values,
            octagons,
            loose: Vec::new(alloc),
        }),
        false,
    ))
}

/// The reduction, or none where nothing is left; and whether it is marked as settled.
pub(crate) fn reduce_facts(
    alloc: Global,
    f: Facts,
    frame: &Frame,
) -> Result<(Option<Facts>, bool), AllocError>
    requires { AreFacts frame.now f }
    ensures value { IfOk result (λ r. r.0 ≡ reduced_facts frame.now f) }
    ensures settled { IfOk result (λ r. IsSettledIf r.1 frame.now r.0) }
{
    let mut values = f.values;
    if !reduce_values(alloc, &mut values, &f.loose, frame)? {
        return Ok((None, true));
    }
    frame.is_layout();
    if f.octagons.rest(&values, frame.packs()) {
        return with_octagons(alloc, values, f.octagons, true, frame);
    }
    match f.octagons.closed(alloc, &values, frame.packs())? {
        None => Ok((None, true)),
        Some(octagons) => with_octagons(alloc, values, octagons, false, frame),
    }
}
