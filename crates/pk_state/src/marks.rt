// Which values may be loose: the others are their own reductions.

ghost use Rattle.std.specs.Prelude.{◌≡◌, ◌≢◌, ◌⊎◌, ◌<◌, ℕ, true, [], IfOk, OnOk, IfSome, length, slice_set, slice_index_or};
ghost use Rattle.pk_value.specs.Laws.{IsTight};
ghost use Rattle.pk_octagons.specs.Values.{IsValue, IsListed, AreMarked};

use pk_blocks::Blocks;
use pk_ctypes::IntType;
use pk_value::Value;
use std::alloc::{AllocError, Global};

/// All of so many.
pub(crate) fn every(alloc: Global, n: usize) -> Result<Vec<usize>, AllocError>
    ensures { IfOk result (λ r. (y : ℕ) → y < n → IsListed r.items y) }
{
    let mut out = Vec::with_capacity(alloc, n)?;
    for x in 0..n {
        out.push(x)?;
    }
    Ok(out)
}

/// Those of a list; all of so many, where it is longer.
pub(crate) fn at_most(alloc: Global, list: Vec<usize>, n: usize) -> Result<Vec<usize>, AllocError>
    ensures { IfOk result (λ r. (y : ℕ) → y < n → IsListed list.items y → IsListed r.items y) }
{
    if n < list.len() {
        return every(alloc, n);
    }
    Ok(list)
}

/// Those of both lists.
pub(crate) fn either(
    alloc: Global,
    a: &[usize],
    b: &[usize],
    n: usize,
) -> Result<Vec<usize>, AllocError>
    ensures { IfOk result (λ r. (y : ℕ) → y < n → IsListed a.now y ⊎ IsListed b.now y → IsListed r.items y) }
{
    let mut out = Vec::from_slice(alloc, a)?;
    out.extend_from_slice(b)?;
    at_most(alloc, out, n)
}

/// Whether none is listed.
pub(crate) fn is_none_listed(loose: &[usize]) -> bool
    ensures { result ≡ true → loose.now ≡ [] }
{
    matches!(loose, [])
}

/// Whether a value is its own reduction.
pub(crate) fn is_tight(value: &Value, t: IntType) -> bool
    requires { IsValue t value.now }
    ensures { result ≡ true → IsTight value.now }
{
    match value.reduced(t) {
        None => false,
        Some(reduced) => reduced.equals(value),
    }
}

// Where a place is listed, if it is.
fn index_of(loose: &[usize], x: usize) -> Option<usize>
    ensures { IfSome result (λ k. (k < length loose.now) × (slice_index_or loose.now k 0 ≡ x)) }
{
    for k in 0..loose.len() {
        if loose[k] == x {
            return Some(k);
        }
    }
    None
}

// Lists a place, if it isn't listed.
fn list(loose: &mut Vec<usize>, x: usize) -> Result<(), AllocError>
    ensures listed { OnOk result (IsListed loose.new.items x) }
    ensures others { OnOk result ((y : ℕ) → IsListed loose.old.items y → IsListed loose.new.items y) }
{
    match index_of(loose, x) {
        None => {
            loose.push(x)?;
            Ok(())
        }
        Some(_) => Ok(()),
    }
}

// Takes a place off a list once, if it is listed.
fn unlist(loose: &mut Vec<usize>, x: usize)
    ensures { (y : ℕ) → y ≢ x → IsListed loose.old.items y → IsListed loose.new.items y }
{
    match index_of(loose, x) {
        None => {}
        Some(k) => {
            loose.swap_remove(k);
        }
    }
}

/// Writes a value, which is listed where it may be loose, and taken off the list where it isn't.
pub(crate) fn put_marked(
    alloc: Global,
    values: &mut Blocks<Value>,
    loose: &mut Vec<usize>,
    x: usize,
    new: Value,
    tight: bool,
) -> Result<(), AllocError>
    requires place { x < length values.old }
    requires marked { AreMarked values.old loose.old.items }
    requires tight { tight ≡ true → IsTight new }
    ensures value { OnOk result (values.new ≡ slice_set values.old x new) }
    ensures marked { OnOk result (AreMarked values.new loose.new.items) }
{
    values.set(alloc, x, new)?;
    if tight {
        unlist(loose, x);
        return Ok(());
    }
    list(loose, x)?;
    Ok(())
}
