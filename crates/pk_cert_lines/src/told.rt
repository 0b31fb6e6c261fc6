// A state and its symbols as a text.

ghost use Rattle.std.specs.Prelude.{◌≡◌, ◌++◌, ◌∷◌, [], ◌+◌, ◌*◌, ◌<◌, ℕ, List, IfOk, OnOk, Some, None, length, slice_set, if◌then◌else◌, true};
ghost use Rattle.pk_value.specs.Known.{Known};
ghost use Rattle.pk_octagons.specs.Values.{type_at, IsValue};
ghost use Rattle.pk_state.specs.Facts.{Facts};
ghost use Rattle.pk_state.specs.Changes.{known_in, with_known};
ghost use Rattle.pk_cert_states.specs.Lines.{HasOne, four_of};
ghost use Rattle.pk_cert_lines.specs.Symbols.{spaced, four_in, values_in, cells_in};
ghost use Rattle.pk_cert_lines.specs.Told.{texts_at, parts_in, AreParts, IsToldIn, IsTextOf};

use crate::parts::put;
use crate::symbols::write_value;
use crate::values::{write_bounds, write_one};
use pk_cert_states::{Order, octagon_size};
use pk_state::{Frame, State};
use pk_value::Value;
use std::alloc::{AllocError, Global};

/// A state, its values, its symbols as a text with a space behind each, and how many bytes of it are those of each
/// value in the order of a line, and of the octagon's bounds.
#[derive(Drop)]
pub struct Told<'f> {
    pub state: State<'f>,
    pub values: Vec<Value>,
    pub text: Vec<u8>,
    pub sizes: Vec<usize>,
}

// Adds the numbers of a slot's value.
fn add_value(
    text: &mut Vec<u8>,
    sizes: &mut Vec<usize>,
    state: &State,
    j: usize,
) -> Result<(), AllocError>
    requires { j < length state.now.layout.types }
    ensures text { OnOk result (text.new.items ≡ text.old.items
        ++ spaced (four_in (known_in state.now.facts j))) }
    ensures sizes { OnOk result (sizes.new.items ≡ sizes.old.items
        ++ length (spaced (four_in (known_in state.now.facts j))) ∷ []) }
{
    let start = text.len();
    write_one(text, state, j)?;
    let end = text.len();
    sizes.push(end - start)?;
    Ok(())
}

// Adds the numbers of all values in this order.
fn add_values(
    text: &mut Vec<u8>,
    sizes: &mut Vec<usize>,
    order: &Order,
    state: &State,
) -> Result<(), AllocError>
    requires many { length state.now.layout.types ≡ length order.now }
    requires some { state.now.facts ≡ None → ⊥ }
    ensures { OnOk result ((parts : List (List ℕ)) → AreParts parts text.old.items sizes.old.items →
        AreParts (parts ++ texts_at order.now (values_in state.now.facts)) text.new.items sizes.new.items) }
{
    state.is_stated();
    for p in 0..order.len() {
        add_value(text, sizes, state, order.slot(p))?;
    }
    Ok(())
}

// Adds the octagon's bounds.
fn add_bounds(
    text: &mut Vec<u8>,
    sizes: &mut Vec<usize>,
    frame: &Frame,
    state: &State,
) -> Result<(), AllocError>
    requires layout { state.now.layout ≡ frame.now }
    requires one { HasOne frame.now }
    requires some { state.now.facts ≡ None → ⊥ }
    ensures text { OnOk result (text.new.items ≡ text.old.items ++ spaced (cells_in state.now.facts)) }
    ensures sizes { OnOk result (sizes.new.items ≡ sizes.old.items
        ++ length (spaced (cells_in state.now.facts)) ∷ []) }
{
    let start = text.len();
    write_bounds(text, state, octagon_size(frame))?;
    let end = text.len();
    sizes.push(end - start)?;
    Ok(())
}

// The text of a state where some run comes.
fn text_of(
    alloc: Global,
    frame: &Frame,
    order: &Order,
    state: &State,
) -> Result<(Vec<u8>, Vec<usize>), AllocError>
    requires layout { state.now.layout ≡ frame.now }
    requires many { length frame.now.types ≡ length order.now }
    requires one { HasOne frame.now }
    requires some { state.now.facts ≡ None → ⊥ }
    ensures { IfOk result (λ p. (f : Facts) → state.now.facts ≡ Some f →
        AreParts (parts_in order.now f) p.0.items p.1.items) }
{
    let mut text = Vec::new(alloc);
    let mut sizes = Vec::new(alloc);
    add_values(&mut text, &mut sizes, order, state)?;
    add_bounds(&mut text, &mut sizes, frame, state)?;
    Ok((text, sizes))
}

// Adds what is known of a slot.
fn add_known(values: &mut Vec<Value>, state: &State, x: usize) -> Result<(), AllocError>
    requires place { x < length state.now.layout.types }
    ensures { OnOk result ((v : Known) → known_in state.now.facts x ≡ Some v →
        values.new.items ≡ values.old.items ++ v ∷ []) }
{
    match state.value(x) {
        None => Ok(()),
        Some(value) => {
            values.push(value)?;
            Ok(())
        }
    }
}

// What is known of each slot.
fn values_of(alloc: Global, state: &State, n: usize) -> Result<Vec<Value>, AllocError>
    requires many { length state.now.layout.types ≡ n }
    requires some { state.now.facts ≡ None → ⊥ }
    ensures { IfOk result (λ vs. vs.items ≡ values_in state.now.facts) }
{
    state.is_stated();
    let mut values = Vec::with_capacity(alloc, n)?;
    for x in 0..n {
        add_known(&mut values, state, x)?;
    }
    Ok(values)
}

/// A state, and its text if some run comes there.
pub(crate) fn told_in<'f>(
    alloc: Global,
    frame: &Frame,
    order: &Order,
    state: State<'f>,
) -> Result<Told<'f>, AllocError>
    requires layout { state.layout ≡ frame.now }
    requires many { length frame.now.types ≡ length order.now }
    requires one { HasOne frame.now }
    ensures { IfOk result (λ t. (t.state ≡ state.entry) × IsToldIn order.now frame.now t) }
{
    if state.is_bottom() {
        return Ok(Told {
            state,
            values: Vec::new(alloc),
            text: Vec::new(alloc),
            sizes: Vec::new(alloc),
        });
    }
    let values = values_of(alloc, &state, order.len())?;
    let (text, sizes) = text_of(alloc, frame, order, &state)?;
    Ok(Told {
        state,
        values,
        text,
        sizes,
    })
}

// The numbers of a value.
fn value_text(alloc: Global, value: &Value) -> Result<Vec<u8>, AllocError>
    ensures { IfOk result (λ v. v.items ≡ spaced (four_of value.now)) }
{
    let mut text = Vec::new(alloc);
    write_value(&mut text, value)?;
    Ok(text)
}

// The bounds of a state's octagon.
fn bounds_text(alloc: Global, frame: &Frame, state: &State) -> Result<Vec<u8>, AllocError>
    requires layout { state.now.layout ≡ frame.now }
    requires one { HasOne frame.now }
    requires some { state.now.facts ≡ None → ⊥ }
    ensures { IfOk result (λ v. v.items ≡ spaced (cells_in state.now.facts)) }
{
    let mut text = Vec::new(alloc);
    write_bounds(&mut text, state, octagon_size(frame))?;
    Ok(text)
}

// Writes what is known of a slot.
fn put_known(values: &mut Vec<Value>, x: usize, value: Value)
    requires { x < length values.old.items }
    ensures { values.new.items ≡ slice_set values.old.items x value }
{
    values[x] = value;
}

/// What is known of a slot.
pub(crate) fn value_in(told: &Told, frame: &Frame, order: &Order, x: usize) -> Value
    requires told { IsTextOf order.now frame.now told.now }
    requires place { x < length frame.now.types }
    ensures { known_in told.now.state.facts x ≡ Some result }
{
    let _ = frame;
    let _ = order;
    told.state.is_stated();
    told.values[x]
}

// The same state, but for what is known of a slot.
fn with_value<'f>(
    alloc: Global,
    state: &State<'f>,
    x: usize,
    value: Value,
) -> Result<State<'f>, AllocError>
    requires place { x < length state.now.layout.types }
    requires value { IsValue (type_at state.now.layout.types x) value }
    ensures layout { IfOk result (λ s. s.layout ≡ state.now.layout) }
    ensures facts { IfOk result (λ s. s.facts ≡ with_known state.now.facts x value) }
{
    state.copy(alloc)?.with_value(alloc, x, value)
}

/// Another value of a slot.
pub(crate) fn put_value(
    alloc: Global,
    told: &mut Told,
    frame: &Frame,
    order: &Order,
    x: usize,
    value: Value,
) -> Result<(), AllocError>
    requires told { IsTextOf order.now frame.now told.old }
    requires many { length frame.now.types ≡ length order.now }
    requires place { x < length order.now }
    requires value { IsValue (type_at frame.now.types x) value }
    ensures told { OnOk result (IsTextOf order.now frame.now told.new) }
    ensures state { OnOk result (told.new.state.facts ≡ with_known told.old.state.facts x value) }
{
    told.state.is_stated();
    order.is_order();
    let part = value_text(alloc, &value)?;
    let state = with_value(alloc, &told.state, x, value)?;
    let p = order.place(x);
    put(alloc, &mut told.text, &mut told.sizes, p, &part)?;
    put_known(&mut told.values, x, value);
    told.state = state;
    let _ = frame;
    Ok(())
}

/// Another state with the same values.
pub(crate) fn put_bounds<'f>(
    alloc: Global,
    told: &mut Told<'f>,
    frame: &Frame,
    order: &Order,
    state: State<'f>,
) -> Result<(), AllocError>
    requires told { IsTextOf order.now frame.now told.old }
    requires many { length frame.now.types ≡ length order.now }
    requires layout { state.layout ≡ frame.now }
    requires some { state.facts ≡ None → ⊥ }
    requires same { values_in state.facts ≡ values_in told.old.state.facts }
    ensures told { OnOk result (IsTextOf order.now frame.now told.new) }
    ensures state { OnOk result (told.new.state ≡ state.entry) }
{
    told.state.is_stated();
    let part = bounds_text(alloc, frame, &state)?;
    put(alloc, &mut told.text, &mut told.sizes, order.len(), &part)?;
    told.state = state;
    Ok(())
}
