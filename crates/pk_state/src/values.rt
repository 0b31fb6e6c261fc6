// The values of all variables: joined, widened, narrowed, compared, reduced.

ghost use Rattle.std.specs.Prelude.{◌≡◌, ◌↔◌, ◌<◌, ◌≤◌, ◌+◌, ◌/◌, ◌%◌, ◌^◌, ℕ, true, IfOk, OnOk, [], length, slice_set};
ghost use Rattle.std.specs.List.Sorted.{IsSorted};
ghost use Rattle.std.specs.Ordering.{int_cmp};
ghost use Rattle.pk_value.specs.Known.{is_within};
ghost use Rattle.pk_octagons.specs.Values.{known_at, AreValues, AreMarked};
ghost use Rattle.pk_octagons.specs.Reduced.{kept_if};
ghost use Rattle.pk_state.specs.Facts.{joined_values, widened_values, narrowed_values};
ghost use Rattle.pk_state.specs.Reduced.{red_all};

use crate::frame::Frame;
use pk_blocks::{Blocks, Merge};
use pk_congr::reduced_law;
use pk_octagons::put_loose;
use pk_value::Value;
use std::alloc::{AllocError, Global};

// Joins values.
struct Joining;

impl Merge<Value> for Joining {
    ghost use Rattle.pk_value.specs.Known.{joined};

    ghost merged = { λ s i a b. joined a b };

    fn merge(&self, _: usize, a: &Value, b: &Value) -> Value {
        a.join(b)
    }

    fn keeps(&self, _: usize, a: &Value, b: &Value) -> bool {
        reduced_law(&a.congr);
        b.leq(a)
    }
}

/// The values joined, each with its own.
pub(crate) fn join_values(
    alloc: Global,
    a: &Blocks<Value>,
    b: &Blocks<Value>,
) -> Result<Blocks<Value>, AllocError>
    requires { length a.now ≡ length b.now }
    ensures { IfOk result (λ v. v ≡ joined_values a.now b.now) }
{
    a.merge(alloc, b, &Joining)
}

/// Writes a value, if it isn't there.
pub(crate) fn put(
    alloc: Global,
    values: &mut Blocks<Value>,
    x: usize,
    old: &Value,
    new: Value,
) -> Result<(), AllocError>
    requires place { x < length values.old }
    requires old { known_at values.old x ≡ old.now }
    ensures { OnOk result (values.new ≡ slice_set values.old x new) }
{
    if new.equals(old) {
        return Ok(());
    }
    values.set(alloc, x, new)
}

/// The values widened.
pub(crate) fn widen_values(
    alloc: Global,
    held: &Blocks<Value>,
    next: &Blocks<Value>,
    frame: &Frame,
    thresholds: &[i128],
    loose: &mut Vec<usize>,
) -> Result<Blocks<Value>, AllocError>
    requires held { AreValues frame.now.types held.now }
    requires next { AreValues frame.now.types next.now }
    requires rising { IsSorted int_cmp thresholds.now }
    requires marked { AreMarked held.now loose.old.items }
    ensures value { IfOk result (λ v. v ≡ widened_values frame.now thresholds.now held.now next.now) }
    ensures marked { IfOk result (λ v. AreMarked v loose.new.items) }
{
    let mut out = held.copy(alloc)?;
    for x in 0..frame.len() {
        let old = held.get(x);
        let new = old.widen(&next.get(x), frame.int_type(x), thresholds);
        put_loose(alloc, &mut out, loose, x, &old, new)?;
    }
    Ok(out)
}

/// The values narrowed.
pub(crate) fn narrow_values(
    alloc: Global,
    held: &Blocks<Value>,
    next: &Blocks<Value>,
    frame: &Frame,
    loose: &mut Vec<usize>,
) -> Result<Blocks<Value>, AllocError>
    requires held { AreValues frame.now.types held.now }
    requires next { AreValues frame.now.types next.now }
    requires marked { AreMarked held.now loose.old.items }
    ensures value { IfOk result (λ v. v ≡ narrowed_values frame.now held.now next.now) }
    ensures marked { IfOk result (λ v. AreMarked v loose.new.items) }
{
    let mut out = held.copy(alloc)?;
    for x in 0..frame.len() {
        let old = held.get(x);
        let new = old.narrow(&next.get(x), frame.int_type(x));
        put_loose(alloc, &mut out, loose, x, &old, new)?;
    }
    Ok(out)
}

// How many values a row of them has.
const ROW: usize = 16;

// How many rows so many values stand in.
fn rows(n: usize) -> usize
    requires { n < 2 ^ 60 }
    ensures { result ≡ (n + 15) / 16 }
{
    (n + ROW - 1) / ROW
}

// Whether each of the first values of a row is within the other's.
fn leq_row(a: &[Value], b: &[Value], n: usize) -> bool
    requires left { length a.now ≡ 16 }
    requires right { length b.now ≡ 16 }
    ensures { result ≡ true ↔ ((r : ℕ) → r < 16 → r < n → is_within (known_at a.now r) (known_at b.now r) ≡ true) }
{
    for r in 0..n.min(ROW) {
        if !a[r].leq(&b[r]) {
            return false;
        }
    }
    true
}

/// Whether each value is within the other's.
pub(crate) fn leq_values(a: &Blocks<Value>, b: &Blocks<Value>) -> bool
    requires { length a.now ≡ length b.now }
    ensures { result ≡ true ↔ ((x : ℕ) → x < length a.now → is_within (known_at a.now x) (known_at b.now x) ≡ true) }
{
    let n = a.len();
    for k in 0..rows(n) {
        let x = k * ROW;
        if !leq_row(a.row(x), b.row(x), n - x) {
            return false;
        }
    }
    true
}

// Whether the first values of two rows are the same.
fn same_row(a: &[Value], b: &[Value], n: usize) -> bool
    requires left { length a.now ≡ 16 }
    requires right { length b.now ≡ 16 }
    ensures { result ≡ true ↔ ((r : ℕ) → r < 16 → r < n → known_at a.now r ≡ known_at b.now r) }
{
    for r in 0..n.min(ROW) {
        if !a[r].equals(&b[r]) {
            return false;
        }
    }
    true
}

/// Whether the sixteen values from one on are the same, or as many as there are.
pub(crate) fn same_row_values(a: &Blocks<Value>, b: &Blocks<Value>, x: usize) -> bool
    requires size { length a.now ≡ length b.now }
    requires place { x < length a.now }
    requires first { x % 16 ≡ 0 }
    ensures { result ≡ true ↔ ((y : ℕ) → x ≤ y → y < x + 16 → y < length a.now → known_at a.now y ≡ known_at b.now y) }
{
    same_row(a.row(x), b.row(x), a.len() - x)
}

/// Whether the values are the same.
pub(crate) fn same_values(a: &Blocks<Value>, b: &Blocks<Value>) -> bool
    requires { length a.now ≡ length b.now }
    ensures { result ≡ true ↔ a.now ≡ b.now }
{
    let n = a.len();
    for k in 0..rows(n) {
        let x = k * ROW;
        if !same_row(a.row(x), b.row(x), n - x) {
            return false;
        }
    }
    true
}

/// Reduces each value; those that aren't listed are their own reductions. False where one is empty.
pub(crate) fn reduce_values(
    alloc: Global,
    values: &mut Blocks<Value>,
    loose: &[usize],
    frame: &Frame,
) -> Result<bool, AllocError>
    requires values { AreValues frame.now.types values.old }
    requires marked { AreMarked values.old loose.now }
    ensures value { IfOk result (λ b. kept_if b values.new ≡ red_all values.old) }
    ensures stays { IfOk result (λ b. b ≡ true → AreValues frame.now.types values.new) }
    ensures tight { IfOk result (λ b. b ≡ true → AreMarked values.new []) }
{
    for k in 0..loose.len() {
        let x = loose[k];
        if x < frame.len() {
            let old = values.get(x);
            match old.reduced(frame.int_type(x)) {
                None => return Ok(false),
                Some(new) => put(alloc, values, x, &old, new)?,
            }
        }
    }
    Ok(true)
}
