// The line of a state, written beside the one before it.

ghost use Rattle.std.specs.Prelude.{◌≡◌, ◌++◌, ◌+◌, ◌*◌, ◌%◌, ◌^◌, ◌<◌, ◌≤◌, ℕ, ℤ, List, Option, OnOk, IfOk, IfSome, MatchOption, length, None, Some, true};
ghost use Rattle.pk_octagons.specs.Values.{type_at, IsValue};
ghost use Rattle.pk_state.specs.Changes.{known_in, entry_in};
ghost use Rattle.pk_cert.specs.Rows.{symbols_text, line_text};
ghost use Rattle.pk_cert_states.specs.Lines.{own_pack, HasOne, line_in};
ghost use Rattle.pk_cert_lines.specs.Symbols.{spaced, values_in};
ghost use Rattle.pk_cert_lines.specs.Told.{IsToldIn, IsTextOf};

use crate::told::{Told, put_bounds, put_value, told_in, value_in};
use pk_cert_states::{Order, octagon_size};
use pk_octmat::octagons_are_entries;
use pk_state::{Frame, State};
use pk_value::Value;
use std::alloc::{AllocError, Global};

// How many values are written in place at most.
const MOST: usize = 8;

// Ends a line whose symbols stand from `start` on, with a space behind each.
fn end_line(bytes: &mut Vec<u8>, start: usize) -> Result<(), AllocError>
    ensures { OnOk result ((before : List ℕ) (zs : List (Option ℤ)) → length before ≡ start →
        bytes.old.items ≡ before ++ spaced zs → bytes.new.items ≡ before ++ symbols_text zs) }
{
    if bytes.len() <= start {
        bytes.push(b'\n')?;
        return Ok(());
    }
    let last = bytes.len() - 1;
    bytes[last] = b'\n';
    Ok(())
}

// Writes a text of symbols, and ends the line.
fn end_with(bytes: &mut Vec<u8>, text: &[u8]) -> Result<(), AllocError>
    ensures { OnOk result ((zs : List (Option ℤ)) → text.now ≡ spaced zs →
        bytes.new.items ≡ bytes.old.items ++ symbols_text zs) }
{
    let start = bytes.len();
    bytes.extend_from_slice(text)?;
    end_line(bytes, start)?;
    Ok(())
}

// What a state knows of a slot, if it is something else.
fn other_value(state: &State, old: &Value, x: usize) -> Option<Value>
    requires place { x < length state.now.layout.types }
    requires some { state.now.facts ≡ None → ⊥ }
    ensures { MatchOption result (known_in state.now.facts x ≡ Some old.now)
        (λ v. (known_in state.now.facts x ≡ Some v) × IsValue (type_at state.now.layout.types x) v) }
{
    match state.value(x) {
        None => None,
        Some(value) => { if value.equals(old) { None } else { Some(value) } }
    }
}

// Writes the value of a slot in place, if it differs, and answers how many more may; none where none may.
fn tell_value(
    alloc: Global,
    told: &mut Told,
    frame: &Frame,
    order: &Order,
    state: &State,
    x: usize,
    left: usize,
) -> Result<Option<usize>, AllocError>
    requires told { IsTextOf order.now frame.now told.old }
    requires many { length frame.now.types ≡ length order.now }
    requires state { state.now.layout ≡ frame.now }
    requires some { state.now.facts ≡ None → ⊥ }
    requires place { x < length order.now }
    ensures told { OnOk result (IsTextOf order.now frame.now told.new) }
    ensures others { OnOk result ((y : ℕ) → (y ≡ x → ⊥) →
        known_in told.new.state.facts y ≡ known_in told.old.state.facts y) }
    ensures value { IfOk result (λ o. IfSome o (λ _.
        known_in told.new.state.facts x ≡ known_in state.now.facts x)) }
{
    told.state.is_stated();
    match other_value(state, &value_in(told, frame, order, x), x) {
        None => Ok(Some(left)),
        Some(value) => {
            if left == 0 {
                return Ok(None);
            }
            put_value(alloc, told, frame, order, x, value)?;
            Ok(Some(left - 1))
        }
    }
}

// How many slots are looked at together.
const ROW: usize = 16;

// Writes the values of sixteen slots in place, where they differ, and answers how many more may; none where none may.
fn tell_row(
    alloc: Global,
    told: &mut Told,
    frame: &Frame,
    order: &Order,
    state: &State,
    x: usize,
    left: usize,
) -> Result<Option<usize>, AllocError>
    requires told { IsTextOf order.now frame.now told.old }
    requires many { length frame.now.types ≡ length order.now }
    requires state { state.now.layout ≡ frame.now }
    requires some { state.now.facts ≡ None → ⊥ }
    requires place { x < length order.now }
    requires first { x % 16 ≡ 0 }
    ensures told { OnOk result (IsTextOf order.now frame.now told.new) }
    ensures before { OnOk result ((y : ℕ) → y < x →
        known_in told.new.state.facts y ≡ known_in told.old.state.facts y) }
    ensures values { IfOk result (λ o. IfSome o (λ _. (y : ℕ) → x ≤ y → y < x + 16 → y < length order.now →
        known_in told.new.state.facts y ≡ known_in state.now.facts y)) }
{
    told.state.is_stated();
    if state.same_row(&told.state, x) {
        return Ok(Some(left));
    }
    let mut fewer = left;
    for y in x..order.len().min(x.saturating_add(ROW)) {
        match tell_value(alloc, told, frame, order, state, y, fewer)? {
            None => return Ok(None),
            Some(next) => fewer = next,
        }
    }
    Ok(Some(fewer))
}

// Writes the values that differ in place, if these are few.
fn tell_values(
    alloc: Global,
    told: &mut Told,
    frame: &Frame,
    order: &Order,
    state: &State,
) -> Result<bool, AllocError>
    requires told { IsTextOf order.now frame.now told.old }
    requires many { length frame.now.types ≡ length order.now }
    requires state { state.now.layout ≡ frame.now }
    requires some { state.now.facts ≡ None → ⊥ }
    ensures told { OnOk result (IsTextOf order.now frame.now told.new) }
    ensures values { IfOk result (λ b. b ≡ true → values_in state.now.facts ≡ values_in told.new.state.facts) }
{
    let mut left = MOST;
    for k in 0..order.len().div_ceil(ROW) {
        match tell_row(alloc, told, frame, order, state, k * ROW, left)? {
            None => return Ok(false),
            Some(fewer) => left = fewer,
        }
    }
    state.is_stated();
    told.state.is_stated();
    Ok(true)
}

// Whether two bounds are the same.
fn is_same(a: Option<i128>, b: Option<i128>) -> bool
    ensures { result ≡ true → a ≡ b }
{
    match (a, b) {
        (None, None) => true,
        (Some(a), Some(b)) => a == b,
        (None, Some(_)) => false,
        (Some(_), None) => false,
    }
}

// Whether two states have the same bounds.
fn are_same(a: &State, b: &State, n: u32) -> bool
    requires few { n < 2 ^ 31 }
    requires left { length (own_pack a.now.layout) ≡ n }
    requires right { length (own_pack b.now.layout) ≡ n }
    requires left_one { HasOne a.now.layout }
    requires right_one { HasOne b.now.layout }
    ensures { result ≡ true → (i j : ℕ) → i < 2 * n → j < 2 * n →
        entry_in a.now.facts 0 i j ≡ entry_in b.now.facts 0 i j }
{
    for i in 0..2 * n {
        for j in 0..2 * n {
            if !is_same(a.entry(0, i, j), b.entry(0, i, j)) {
                return false;
            }
        }
    }
    true
}

// Writes the bounds in place, if they differ.
fn tell_bounds<'f>(
    alloc: Global,
    told: &mut Told<'f>,
    frame: &Frame,
    order: &Order,
    state: &State<'f>,
) -> Result<(), AllocError>
    requires told { IsTextOf order.now frame.now told.old }
    requires many { length frame.now.types ≡ length order.now }
    requires state { state.now.layout ≡ frame.now }
    requires some { state.now.facts ≡ None → ⊥ }
    requires values { values_in state.now.facts ≡ values_in told.old.state.facts }
    ensures told { OnOk result (IsTextOf order.now frame.now told.new) }
    ensures state { OnOk result (told.new.state.facts ≡ state.now.facts) }
{
    state.is_stated();
    told.state.is_stated();
    octagons_are_entries();
    if are_same(&told.state, state, octagon_size(frame)) {
        return Ok(());
    }
    put_bounds(alloc, told, frame, order, state.copy(alloc)?)?;
    Ok(())
}

// Has another state told.
fn tell<'f>(
    alloc: Global,
    told: &mut Told<'f>,
    frame: &Frame,
    order: &Order,
    state: &State<'f>,
) -> Result<(), AllocError>
    requires told { IsToldIn order.now frame.now told.old }
    requires many { length frame.now.types ≡ length order.now }
    requires state { state.now.layout ≡ frame.now }
    requires some { state.now.facts ≡ None → ⊥ }
    ensures told { OnOk result (IsTextOf order.now frame.now told.new) }
    ensures state { OnOk result (told.new.state.facts ≡ state.now.facts) }
{
    if told.state.is_bottom() {
        *told = told_in(alloc, frame, order, state.copy(alloc)?)?;
        return Ok(());
    }
    if tell_values(alloc, told, frame, order, state)? {
        return tell_bounds(alloc, told, frame, order, state);
    }
    *told = told_in(alloc, frame, order, state.copy(alloc)?)?;
    Ok(())
}

/// Writes the line of a state, which takes the place of the one that was told last if some run comes there.
pub(crate) fn write_in<'f>(
    alloc: Global,
    bytes: &mut Vec<u8>,
    told: &mut Told<'f>,
    frame: &Frame,
    order: &Order,
    state: &State<'f>,
) -> Result<(), AllocError>
    requires told { IsToldIn order.now frame.now told.old }
    requires many { length frame.now.types ≡ length order.now }
    requires state { state.now.layout ≡ frame.now }
    ensures told { OnOk result (IsToldIn order.now frame.now told.new) }
    ensures bytes { OnOk result (bytes.new.items ≡ bytes.old.items
        ++ line_text (line_in order.now state.now.facts)) }
{
    if state.is_bottom() {
        return bytes.extend_from_slice(b"bot\n");
    }
    tell(alloc, told, frame, order, state)?;
    end_with(bytes, &told.text)?;
    Ok(())
}
