// The values of a line.

ghost use Rattle.std.specs.Prelude.{◌≡◌, ◌<◌, ◌+◌, IfOk, MatchOption, List, length};
ghost use Rattle.pk_cert.specs.declared.rows.Symbol.{Symbol};
ghost use Rattle.pk_value.specs.Known.{Known};
ghost use Rattle.pk_octagons.specs.Values.{IsValue};
ghost use Rattle.pk_cert_states.specs.Parts.{AreIn, AreFirst, AreFilledTo, AreFilled};

use crate::numbers::first_value;
use crate::orders::Order;
use pk_cert::Symbol;
use pk_congr::reduced_law;
use pk_ctypes::IntType;
use pk_interval::{ordered_law, types_law};
use pk_state::Frame;
use pk_value::Value;
use std::alloc::{AllocError, Global};

// Any number of a type.
fn any_in(t: IntType) -> Value
    ensures { IsValue t result }
{
    let value = Value::any(t);
    types_law();
    ordered_law(&value.interval);
    reduced_law(&value.congr);
    value
}

/// Any number of each slot's type.
pub(crate) fn any_values(alloc: Global, frame: &Frame) -> Result<Vec<Value>, AllocError>
    ensures { IfOk result (λ vs. AreIn frame.now vs.items) }
{
    let mut values = Vec::with_capacity(alloc, frame.len())?;
    for j in 0..frame.len() {
        values.push(any_in(frame.int_type(j)))?;
    }
    Ok(values)
}

// Gives the slot at a place the value of which the first symbols are the numbers, and answers the symbols behind them,
// if they are such.
fn fill_one<'s>(
    values: &mut Vec<Value>,
    frame: &Frame,
    order: &Order,
    symbols: &'s [Symbol],
    p: usize,
) -> Option<&'s [Symbol]>
    requires place { p < length order.now }
    requires many { length frame.now.types ≡ length order.now }
    requires values { AreIn frame.now values.old.items }
    ensures { MatchOption result
        ((all : List Symbol) (vs : List Known) →
        AreFilledTo frame.now order.now all symbols.now values.old.items p →
        AreFirst frame.now order.now all vs → ⊥)
        (λ rest. (all : List Symbol) →
        AreFilledTo frame.now order.now all symbols.now values.old.items p →
        AreFilledTo frame.now order.now all rest.now values.new.items (p + 1)) }
{
    order.is_order();
    let slot = order.slot(p);
    match first_value(symbols, frame.int_type(slot)) {
        None => None,
        Some(found) => {
            values[slot] = found.0;
            Some(found.1)
        }
    }
}

/// Gives the slots the values of which the first symbols are the numbers, and answers the symbols behind them, if they
/// are such.
pub(crate) fn fill<'s>(
    values: &mut Vec<Value>,
    frame: &Frame,
    order: &Order,
    symbols: &'s [Symbol],
) -> Option<&'s [Symbol]>
    requires many { length frame.now.types ≡ length order.now }
    requires values { AreIn frame.now values.old.items }
    ensures { MatchOption result ((vs : List Known) → AreFirst frame.now order.now symbols.now vs → ⊥)
        (λ rest. AreFilled frame.now order.now symbols.now rest.now values.new.items) }
{
    let mut rest = symbols;
    for p in 0..order.len() {
        match fill_one(values, frame, order, rest, p) {
            None => return None,
            Some(behind) => rest = behind,
        }
    }
    Some(rest)
}
