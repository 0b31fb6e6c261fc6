// Lines of octagons.

ghost use Rattle.std.specs.Prelude.{◌≡◌, ◌<◌, ◌^◌, ◌++◌, ◌∷◌, [], if◌then◌else◌, ◌≤ℤ◌, ◌+ℤ◌, ◌-ℤ◌, pos, negsuc, OnOk, IfOk, Some, All, codes, length};
ghost use Rattle.std.specs.Fmt.{signed_decimal};
ghost use Rattle.std.specs.List.{flat_map};
ghost use Rattle.pk_graph.specs.Shown.{graph_view};
ghost use Rattle.pk_octagons.specs.Packs.{is_chosen};
ghost use Rattle.pk_state.specs.Changes.{bound_in};
ghost use Rattle.pk_report.specs.Values.{related, bound_text, bounds_of, pair_text, of_pairs, pair_lines_if, IsSmall};

use crate::texts::{write_number, write_text};
use crate::values::name_of;
use pk_graph::Graph;
use pk_state::State;
use pk_value::Value;
use std::alloc::{AllocError, Global};

// A variable, if an octagon is over it.
fn push_if(list: &mut Vec<usize>, state: &State, x: usize) -> Result<(), AllocError>
    ensures value { OnOk result (list.new.items
        ≡ list.old.items ++ (if is_chosen state.now.layout.packs x then x ∷ [] else [])) }
    ensures small { OnOk result (All (λ y. y < 2 ^ 63) list.old.items → All (λ y. y < 2 ^ 63) list.new.items) }
{
    if !state.is_chosen(x) {
        return Ok(());
    }
    list.push(x)?;
    Ok(())
}

// Those of these variables that an octagon is over.
fn all_related(alloc: Global, state: &State, visible: &[usize]) -> Result<Vec<usize>, AllocError>
    ensures value { IfOk result (λ list. list.items ≡ related state.now.layout visible.now) }
    ensures small { IfOk result (λ list. All (λ x. x < 2 ^ 63) list.items) }
{
    let mut list = Vec::new(alloc);
    for k in 0..visible.len() {
        push_if(&mut list, state, visible[k])?;
    }
    Ok(list)
}

fn write_names(
    bytes: &mut Vec<u8>,
    front: &str,
    x: &str,
    sign: &str,
    y: &str,
) -> Result<(), AllocError>
    ensures { OnOk result (bytes.new.items ≡ bytes.old.items ++ (front.now ++ x.now ++ sign.now ++ y.now)) }
{
    write_text(bytes, front)?;
    write_text(bytes, x)?;
    write_text(bytes, sign)?;
    write_text(bytes, y)
}

// `  FORM <= c`
fn write_bound(
    alloc: Global,
    bytes: &mut Vec<u8>,
    front: &str,
    x: &str,
    sign: &str,
    y: &str,
    bound: i128,
) -> Result<(), AllocError>
    ensures { OnOk result (bytes.new.items ≡ bytes.old.items
        ++ (codes "  " ++ (front.now ++ x.now ++ sign.now ++ y.now) ++ codes " <= " ++ signed_decimal bound
        ++ codes "\n")) }
{
    write_text(bytes, "  ")?;
    write_names(bytes, front, x, sign, y)?;
    write_text(bytes, " <= ")?;
    write_number(alloc, bytes, bound)?;
    write_text(bytes, "\n")
}

// Only where c is less than the limit.
fn write_below(
    alloc: Global,
    bytes: &mut Vec<u8>,
    front: &str,
    x: &str,
    sign: &str,
    y: &str,
    limit: i128,
    bound: i128,
) -> Result<(), AllocError>
    ensures { OnOk result (bytes.new.items
        ≡ bytes.old.items ++ bound_text (front.now ++ x.now ++ sign.now ++ y.now) limit (Some bound)) }
{
    if bound < limit {
        write_bound(alloc, bytes, front, x, sign, y, bound)
    } else {
        Ok(())
    }
}

fn write_form(
    alloc: Global,
    bytes: &mut Vec<u8>,
    front: &str,
    x: &str,
    sign: &str,
    y: &str,
    limit: i128,
    bound: Option<i128>,
) -> Result<(), AllocError>
    ensures { OnOk result
        (bytes.new.items ≡ bytes.old.items ++ bound_text (front.now ++ x.now ++ sign.now ++ y.now) limit bound) }
{
    match bound {
        Some(bound) => write_below(alloc, bytes, front, x, sign, y, limit, bound),
        None => Ok(()),
    }
}

fn difference(a: i128, b: i128) -> i128
    requires left_from { negsuc (2 ^ 65) ≤ℤ a }
    requires left_to { a ≤ℤ pos (2 ^ 65) }
    requires right_from { negsuc (2 ^ 65) ≤ℤ b }
    requires right_to { b ≤ℤ pos (2 ^ 65) }
    ensures { result ≡ a -ℤ b }
{
    a - b
}

fn sum(a: i128, b: i128) -> i128
    requires left_from { negsuc (2 ^ 65) ≤ℤ a }
    requires left_to { a ≤ℤ pos (2 ^ 65) }
    requires right_from { negsuc (2 ^ 65) ≤ℤ b }
    requires right_to { b ≤ℤ pos (2 ^ 65) }
    ensures { result ≡ a +ℤ b }
{
    a + b
}

fn negated(a: i128, b: i128) -> i128
    requires left_from { negsuc (2 ^ 65) ≤ℤ a }
    requires left_to { a ≤ℤ pos (2 ^ 65) }
    requires right_from { negsuc (2 ^ 65) ≤ℤ b }
    requires right_to { b ≤ℤ pos (2 ^ 65) }
    ensures { result ≡ (pos 0 -ℤ a) -ℤ b }
{
    0 - a - b
}

// What the intervals give for the form x - y, and for the others.
fn difference_limit(kx: Value, ky: Value) -> i128
    requires left { IsSmall kx }
    requires right { IsSmall ky }
    ensures { result ≡ kx.range.hi -ℤ ky.range.lo }
{
    difference(kx.interval.hi, ky.interval.lo)
}

fn sum_limit(kx: Value, ky: Value) -> i128
    requires left { IsSmall kx }
    requires right { IsSmall ky }
    ensures { result ≡ kx.range.hi +ℤ ky.range.hi }
{
    sum(kx.interval.hi, ky.interval.hi)
}

fn negated_limit(kx: Value, ky: Value) -> i128
    requires left { IsSmall kx }
    requires right { IsSmall ky }
    ensures { result ≡ (pos 0 -ℤ kx.range.lo) -ℤ ky.range.lo }
{
    negated(kx.interval.lo, ky.interval.lo)
}

/// The least bounds on x - y, y - x, x + y and -x - y.
#[derive(Clone, Copy)]
pub(crate) struct Bounds {
    pub minus: Option<i128>,
    pub turned: Option<i128>,
    pub plus: Option<i128>,
    pub negated: Option<i128>,
}

fn bounds_between(state: &State, x: usize, y: usize) -> Bounds
    requires first { x < 2 ^ 63 }
    requires second { y < 2 ^ 63 }
    ensures { result ≡ bounds_of (bound_in state.now.layout state.now.facts) x y }
{
    let a = 2 * x;
    let b = 2 * y;
    Bounds {
        minus: state.bound(b, a),
        turned: state.bound(a, b),
        plus: state.bound(b + 1, a),
        negated: state.bound(b, a + 1),
    }
}

// The forms of two variables.
fn write_forms(
    alloc: Global,
    bytes: &mut Vec<u8>,
    x: &str,
    y: &str,
    kx: Value,
    ky: Value,
    bounds: Bounds,
) -> Result<(), AllocError>
    requires left { IsSmall kx }
    requires right { IsSmall ky }
    ensures { OnOk result (bytes.new.items ≡ bytes.old.items ++ pair_text x.now y.now kx ky bounds) }
{
    let limit = difference_limit(kx, ky);
    write_form(alloc, bytes, "", x, " - ", y, limit, bounds.minus)?;
    let limit = difference_limit(ky, kx);
    write_form(alloc, bytes, "", y, " - ", x, limit, bounds.turned)?;
    let limit = sum_limit(kx, ky);
    write_form(alloc, bytes, "", x, " + ", y, limit, bounds.plus)?;
    let limit = negated_limit(kx, ky);
    write_form(alloc, bytes, "-", x, " - ", y, limit, bounds.negated)?;
    Ok(())
}

// The lines of two variables.
fn write_pair(
    alloc: Global,
    bytes: &mut Vec<u8>,
    graph: &Graph,
    state: &State,
    x: usize,
    y: usize,
) -> Result<(), AllocError>
    requires first { x < length state.now.layout.types }
    requires second { y < length state.now.layout.types }
    requires first_small { x < 2 ^ 63 }
    requires second_small { y < 2 ^ 63 }
    ensures { OnOk result (bytes.new.items
        ≡ bytes.old.items ++ pair_lines_if (graph_view graph.now) state.now.layout state.now.facts x y) }
{
    match state.value(x) {
        Some(kx) => match state.value(y) {
            Some(ky) => {
                let bounds = bounds_between(state, x, y);
                let left = name_of(graph, x);
                let right = name_of(graph, y);
                write_forms(alloc, bytes, left, right, kx, ky, bounds)?;
                Ok(())
            }
            None => Ok(()),
        },
        None => Ok(()),
    }
}

// The lines of a variable with each of others.
fn write_pairs(
    alloc: Global,
    bytes: &mut Vec<u8>,
    graph: &Graph,
    state: &State,
    x: usize,
    others: &[usize],
) -> Result<(), AllocError>
    requires first { x < length state.now.layout.types }
    requires others { All (λ y. y < length state.now.layout.types) others.now }
    requires first_small { x < 2 ^ 63 }
    requires small { All (λ y. y < 2 ^ 63) others.now }
    ensures { OnOk result (bytes.new.items ≡ bytes.old.items
        ++ flat_map (pair_lines_if (graph_view graph.now) state.now.layout state.now.facts x) others.now) }
{
    for k in 0..others.len() {
        write_pair(alloc, bytes, graph, state, x, others[k])?;
    }
    Ok(())
}

fn write_all_pairs(
    alloc: Global,
    bytes: &mut Vec<u8>,
    graph: &Graph,
    state: &State,
    list: &[usize],
) -> Result<(), AllocError>
    requires variables { All (λ y. y < length state.now.layout.types) list.now }
    requires small { All (λ y. y < 2 ^ 63) list.now }
    ensures { OnOk result (bytes.new.items ≡ bytes.old.items
        ++ of_pairs (pair_lines_if (graph_view graph.now) state.now.layout state.now.facts) list.now) }
{
    for k in 0..list.len() {
        write_pairs(alloc, bytes, graph, state, list[k], &list[k + 1..])?;
    }
    Ok(())
}

/// The lines of each pair of these variables that octagons are over.
pub(crate) fn write_octagons(
    alloc: Global,
    bytes: &mut Vec<u8>,
    graph: &Graph,
    state: &State,
    visible: &[usize],
) -> Result<(), AllocError>
    requires { All (λ x. x < length state.now.layout.types) visible.now }
    ensures { OnOk result (bytes.new.items ≡ bytes.old.items
        ++ of_pairs (pair_lines_if (graph_view graph.now) state.now.layout state.now.facts)
        (related state.now.layout visible.now)) }
{
    let list = all_related(alloc, state, visible)?;
    write_all_pairs(alloc, bytes, graph, state, &list)?;
    Ok(())
}
