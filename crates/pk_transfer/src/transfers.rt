// What is known after an instruction.

ghost use Rattle.std.specs.Prelude.{◌≡◌, ◌<◌, ◌-◌, length, if◌then◌else◌, IfOk, IfSome, Some, None};
ghost use Rattle.pk_ctypes.specs.Types.{Represents};
ghost use Rattle.pk_graph.specs.Kinds.{IsTyped, type_of};
ghost use Rattle.pk_graph.specs.Views.{tree_view, array_view, instr_view};
ghost use Rattle.pk_value.specs.Known.{joined};
ghost use Rattle.pk_value.specs.Values.{is_constant};
ghost use Rattle.pk_octagons.specs.Values.{type_at, IsValue};
ghost use Rattle.pk_state.specs.Layouts.{slot_of};
ghost use Rattle.pk_state.specs.Changes.{known_in};
ghost use Rattle.pk_transfer.specs.Slots.{HasSlots};
ghost use Rattle.pk_transfer.specs.Trees.{kinds_of, tree_known};
ghost use Rattle.pk_transfer.specs.Linear.{variables_of};
ghost use Rattle.pk_transfer.specs.Places.{places_of};
ghost use Rattle.pk_transfer.specs.Assignments.{HasFacts, term_of, with_form, set_in, with_known_if};
ghost use Rattle.pk_transfer.specs.Transfers.{misses as misses_all, at_index};
ghost use Rattle.pk_transfer.specs.Transfers.{may_be, may_be_below, either as either_of, known_below, stored_at, stored_below, known_each};
ghost use Rattle.pk_transfer.specs.Transfers.{all_known, forgotten_in, all_forgotten, loaded, stored};
ghost use Rattle.pk_transfer.specs.Transfers.{IsInstrOver, applied, transferred, IsKept};

use crate::assumptions::{guard, written};
use crate::linear::{Form, Places};
use crate::telling::tell;
use crate::trees::value;
use crate::variables::variables;
use pk_congr::reduced_law;
use pk_ctypes::IntType;
use pk_graph::{Array, Instr, Tree};
use pk_interval::{ordered_law, types_law};
use pk_state::State;
use pk_value::Value;
use std::alloc::{AllocError, Global};

// ---- the octagons

fn term(places: Places) -> Option<usize>
    ensures { result ≡ term_of (places_of places) }
{
    match places {
        Places::Zero => None,
        Places::One(a) => Some(a),
        Places::Two(_, _) => None,
    }
}

// A variable gets the number of a tree's form, or any, in each octagon that is over it.
fn assigned<'f>(
    alloc: Global,
    state: State<'f>,
    x: usize,
    form: Option<Form>,
    e: &Tree,
) -> Result<State<'f>, AllocError>
    ensures { IfOk result (HasFacts state.entry
        (with_form state.entry.layout state.entry.facts x form (variables_of (tree_view e.now)))) }
{
    match form {
        None => state.with_assignment(alloc, x, None, 0, &[]),
        Some(form) => {
            let over = variables(alloc, e)?;
            state.with_assignment(alloc, x, term(form.places), form.constant, &over)
        }
    }
}

// Nothing is known of a variable by octagons, and this by itself.
fn forgotten<'f>(
    alloc: Global,
    state: State<'f>,
    x: usize,
    known: Option<Value>,
) -> Result<State<'f>, AllocError>
    requires place { x < length state.layout.types }
    requires value { IfSome known (IsValue (type_at state.layout.types x)) }
    ensures { IfOk result (HasFacts state.entry (forgotten_in state.entry.layout state.entry.facts x known)) }
{
    let state = state.with_assignment(alloc, x, None, 0, &[])?;
    written(alloc, state, x, known)
}

// ---- instructions

// A variable gets a tree's value, and octagons its form.
fn set_chosen<'f>(
    alloc: Global,
    state: State<'f>,
    x: usize,
    e: &Tree,
) -> Result<State<'f>, AllocError>
    requires place { x < length state.layout.types }
    requires typed { IsTyped (kinds_of state.layout) (tree_view e.now) }
    requires fits { Represents (type_at state.layout.types x) (type_of (kinds_of state.layout) (tree_view e.now)) }
    ensures { IfOk result (HasFacts state.entry (set_in state.entry.layout state.entry.facts x (tree_view e.now))) }
{
    let d = tell(e, &state);
    let state = assigned(alloc, state, x, d.form, e)?;
    written(alloc, state, x, d.known)
}

fn set<'f>(alloc: Global, state: State<'f>, x: usize, e: &Tree) -> Result<State<'f>, AllocError>
    requires place { x < length state.layout.types }
    requires typed { IsTyped (kinds_of state.layout) (tree_view e.now) }
    requires fits { Represents (type_at state.layout.types x) (type_of (kinds_of state.layout) (tree_view e.now)) }
    ensures { IfOk result (HasFacts state.entry (set_in state.entry.layout state.entry.facts x (tree_view e.now))) }
{
    if state.is_chosen(x) {
        return set_chosen(alloc, state, x, e);
    }
    state.is_stated();
    let known = value(e, &state);
    written(alloc, state, x, known)
}

// Whether no number of a value is an index.
fn misses(n: usize, k: &Value) -> bool
    ensures { result ≡ misses_all n k.now }
{
    k.interval.hi < 0 || n as i128 <= k.interval.lo
}

// Either, of numbers of a type.
fn joined(old: &Value, value: &Value, t: IntType) -> Value
    requires left { IsValue t old.now }
    requires right { IsValue t value.now }
    ensures value { result ≡ joined old.now value.now }
    ensures inside { IsValue t result }
{
    let _ = t;
    let new = old.join(value);
    types_law();
    ordered_law(&new.interval);
    reduced_law(&new.congr);
    new
}

// ---- a variable each of whose numbers has a slot

// Whether an index that is known so may be i.
fn may_be(k: &Value, i: usize) -> bool
    ensures { result ≡ may_be k.now i }
{
    Value::exactly(i as i128).leq(k)
}

// Whether it may be one of 0 to n - 1.
fn may_be_below(k: &Value, n: usize) -> bool
    ensures { result ≡ may_be_below k.now n }
{
    let mut found = false;
    for i in 0..n {
        found = found || may_be(k, i);
    }
    found
}

// Either of what is known, of numbers of a type; nothing is known of none.
fn either(known: Option<Value>, value: Option<Value>, t: IntType) -> Option<Value>
    requires left { IfSome known (IsValue t) }
    requires right { IfSome value (IsValue t) }
    ensures value { result ≡ either_of known value }
    ensures inside { IfSome result (IsValue t) }
{
    match known {
        None => value,
        Some(known) => match value {
            None => Some(known),
            Some(value) => Some(joined(&known, &value, t)),
        },
    }
}

// What is known of a variable's number i.
fn number(state: &State, x: usize, i: usize, n: usize) -> Option<Value>
    requires slots { HasSlots state.now.layout x n }
    requires place { i < n }
    ensures value { result ≡ known_in state.now.facts (slot_of state.now.layout x i) }
    ensures inside { IfSome result (IsValue (type_at state.now.layout.types x)) }
{
    let _ = n;
    state.value(state.slot(x, i))
}

// What is known of the element at an index, if it is one of the first n.
fn known_below(state: &State, x: usize, k: &Value, n: usize) -> Option<Value>
    requires { HasSlots state.now.layout x n }
    ensures value { result ≡ known_below state.now.layout state.now.facts x k.now n }
    ensures inside { IfSome result (IsValue (type_at state.now.layout.types x)) }
{
    let t = state.int_type(x);
    let mut known = None;
    for i in 0..n {
        if may_be(k, i) {
            known = either(known, number(state, x, i, n), t);
        }
    }
    known
}

// The numbers of a slot get what is known, surely or maybe.
fn stored_at<'f>(
    alloc: Global,
    state: State<'f>,
    j: usize,
    surely: bool,
    value: Value,
) -> Result<State<'f>, AllocError>
    requires place { j < length state.layout.types }
    requires value { IsValue (type_at state.layout.types j) value }
    ensures { IfOk result (HasFacts state.entry (stored_at state.entry.facts j surely value)) }
{
    match state.value(j) {
        None => Ok(state.emptied()),
        Some(old) => {
            let t = state.int_type(j);
            let new = if surely {
                value
            } else {
                joined(&old, &value, t)
            };
            state.with_value(alloc, j, new)
        }
    }
}

// Where the index may be i, number i of a variable does: surely where the index is constant.
fn stored_if<'f>(
    alloc: Global,
    state: State<'f>,
    x: usize,
    i: usize,
    k: &Value,
    value: Value,
) -> Result<State<'f>, AllocError>
    requires variable { x < length state.layout.further }
    requires there { slot_of state.layout x i < length state.layout.types }
    requires value { IsValue (type_at state.layout.types (slot_of state.layout x i)) value }
    ensures { IfOk result
        (HasFacts state.entry (if may_be k.now i then
        stored_at state.entry.facts (slot_of state.entry.layout x i) (is_constant k.now) value
        else state.entry.facts)) }
{
    if may_be(k, i) {
        let j = state.slot(x, i);
        stored_at(alloc, state, j, k.interval.lo == k.interval.hi, value)
    } else {
        Ok(state)
    }
}

// The element at an index does, if it is one of the first n.
fn stored_below<'f>(
    alloc: Global,
    state: State<'f>,
    x: usize,
    k: &Value,
    value: Value,
    n: usize,
) -> Result<State<'f>, AllocError>
    requires slots { HasSlots state.layout x n }
    requires value { IsValue (type_at state.layout.types x) value }
    ensures { IfOk result
        (HasFacts state.entry (stored_below state.entry.layout state.entry.facts x k.now value n)) }
{
    let mut state = state;
    for i in 0..n {
        state = stored_if(alloc, state, x, i, k, value)?;
    }
    Ok(state)
}

// Each of the n numbers of a variable is known so.
fn known_each<'f>(
    alloc: Global,
    state: State<'f>,
    x: usize,
    known: Value,
    n: usize,
) -> Result<State<'f>, AllocError>
    requires slots { HasSlots state.layout x n }
    requires value { IsValue (type_at state.layout.types x) known }
    ensures { IfOk result
        (HasFacts state.entry (known_each state.entry.layout state.entry.facts x known (n - 1))) }
{
    let mut state = state.with_value(alloc, x, known)?;
    for i in 1..n {
        let j = state.slot(x, i);
        state = state.with_value(alloc, j, known)?;
    }
    Ok(state)
}

// ---- arrays

// The n numbers of a variable are known so.
fn all_known<'f>(
    alloc: Global,
    state: State<'f>,
    x: usize,
    n: usize,
    known: Value,
) -> Result<State<'f>, AllocError>
    requires slots { HasSlots state.layout x n }
    requires value { IsValue (type_at state.layout.types x) known }
    ensures { IfOk result (HasFacts state.entry (all_known state.entry.layout state.entry.facts x n known)) }
{
    if state.is_spread(x) {
        known_each(alloc, state, x, known, n)
    } else {
        state.with_value(alloc, x, known)
    }
}

// So are those that it gets, and no octagon says anything of them.
fn all_forgotten<'f>(
    alloc: Global,
    state: State<'f>,
    x: usize,
    n: usize,
    known: Value,
) -> Result<State<'f>, AllocError>
    requires slots { HasSlots state.layout x n }
    requires value { IsValue (type_at state.layout.types x) known }
    ensures { IfOk result (HasFacts state.entry (all_forgotten state.entry.layout state.entry.facts x n known)) }
{
    if state.is_spread(x) {
        known_each(alloc, state, x, known, n)
    } else {
        forgotten(alloc, state, x, Some(known))
    }
}

// What is known of an array's element at an index.
fn loaded(state: &State, array: &Array, k: &Value) -> Option<Value>
    requires { HasSlots state.now.layout array.now.variable array.now.length }
    ensures value { result ≡ loaded state.now.layout state.now.facts (array_view array.now) k.now }
    ensures inside { IfSome result (IsValue (type_at state.now.layout.types array.now.variable)) }
{
    if state.is_spread(array.variable) {
        known_below(state, array.variable, k, array.length)
    } else {
        state.value(array.variable)
    }
}

fn load<'f>(
    alloc: Global,
    state: State<'f>,
    x: usize,
    array: &Array,
    index: &Tree,
) -> Result<State<'f>, AllocError>
    requires place { x < length state.layout.types }
    requires slots { HasSlots state.layout array.now.variable array.now.length }
    requires types { type_at state.layout.types x ≡ type_at state.layout.types array.now.variable }
    requires typed { IsTyped (kinds_of state.layout) (tree_view index.now) }
    ensures { IfOk result
        (HasFacts state.entry (at_index array.now.length (tree_known (known_in state.entry.facts) (tree_view index.now))
        (λ k. forgotten_in state.entry.layout state.entry.facts x
        (loaded state.entry.layout state.entry.facts (array_view array.now) k)))) }
{
    match value(index, &state) {
        None => Ok(state.emptied()),
        Some(k) => {
            if misses(array.length, &k) {
                Ok(state.emptied())
            } else {
                let element = loaded(&state, array, &k);
                forgotten(alloc, state, x, element)
            }
        }
    }
}

// An array's element at an index gets what is known.
fn stored<'f>(
    alloc: Global,
    state: State<'f>,
    array: &Array,
    k: &Value,
    value: Value,
) -> Result<State<'f>, AllocError>
    requires slots { HasSlots state.layout array.now.variable array.now.length }
    requires value { IsValue (type_at state.layout.types array.now.variable) value }
    ensures { IfOk result
        (HasFacts state.entry (stored state.entry.layout state.entry.facts (array_view array.now) k.now (Some value))) }
{
    if state.is_spread(array.variable) {
        if may_be_below(k, array.length) {
            stored_below(alloc, state, array.variable, k, value, array.length)
        } else {
            Ok(state.emptied())
        }
    } else {
        stored_at(alloc, state, array.variable, false, value)
    }
}

// What is known of a tree, of which an array gets the number.
fn given(state: &State, array: usize, e: &Tree) -> Option<Value>
    requires typed { IsTyped (kinds_of state.now.layout) (tree_view e.now) }
    requires fits { Represents (type_at state.now.layout.types array)
        (type_of (kinds_of state.now.layout) (tree_view e.now)) }
    ensures value { result ≡ tree_known (known_in state.now.facts) (tree_view e.now) }
    ensures inside { IfSome result (IsValue (type_at state.now.layout.types array)) }
{
    let _ = array;
    value(e, state)
}

fn store<'f>(
    alloc: Global,
    state: State<'f>,
    array: &Array,
    index: &Tree,
    e: &Tree,
) -> Result<State<'f>, AllocError>
    requires slots { HasSlots state.layout array.now.variable array.now.length }
    requires index { IsTyped (kinds_of state.layout) (tree_view index.now) }
    requires typed { IsTyped (kinds_of state.layout) (tree_view e.now) }
    requires fits { Represents (type_at state.layout.types array.now.variable)
        (type_of (kinds_of state.layout) (tree_view e.now)) }
    ensures { IfOk result
        (HasFacts state.entry (at_index array.now.length (tree_known (known_in state.entry.facts) (tree_view index.now))
        (λ k. stored state.entry.layout state.entry.facts (array_view array.now) k
        (tree_known (known_in state.entry.facts) (tree_view e.now))))) }
{
    match value(index, &state) {
        None => Ok(state.emptied()),
        Some(k) => {
            if misses(array.length, &k) {
                Ok(state.emptied())
            } else {
                match given(&state, array.variable, e) {
                    None => Ok(state.emptied()),
                    Some(value) => stored(alloc, state, array, &k, value),
                }
            }
        }
    }
}

#[tactic(auto, unfolding(pk_graph::specs::Views::instr_view))]
fn apply<'f>(alloc: Global, state: State<'f>, instr: &Instr) -> Result<State<'f>, AllocError>
    requires { IsInstrOver state.layout (instr_view instr.now) }
    ensures { IfOk result (HasFacts state.entry (applied state.entry.layout state.entry.facts (instr_view instr.now))) }
{
    match instr {
        Instr::Skip => Ok(state),
        Instr::Set(x, e) => set(alloc, state, *x, e),
        Instr::Havoc {
            variable,
            int_type,
            count,
        } => all_forgotten(alloc, state, *variable, *count, Value::any(*int_type)),
        Instr::Clear(array) => {
            all_known(
                alloc,
                state,
                array.variable,
                array.length,
                Value::exactly(0),
            )
        }
        Instr::Load {
            variable,
            array,
            index,
            ..
        } => load(alloc, state, *variable, array, index),
        Instr::Store {
            array,
            index,
            value,
            ..
        } => store(alloc, state, array, index, value),
        Instr::Guard(e, sense) => guard(alloc, state, e, *sense),
        Instr::Check(_, e) => guard(alloc, state, e, true),
    }
}

/// What is known after an instruction, which is typed in a table of the state's variables: the state reduced, the instruction applied, and that reduced.
pub fn transfer<'f>(
    alloc: Global,
    instr: &Instr,
    state: &State<'f>,
) -> Result<State<'f>, AllocError>
    requires { IsInstrOver state.now.layout (instr_view instr.now) }
    ensures value { IfOk result
        (λ s. s ≡ record {
          layout = state.now.layout;
          facts = transferred state.now.layout state.now.facts (instr_view instr.now);
        }) }
    ensures sound { IfOk result (λ s. IsKept state.now.layout state.now.facts (instr_view instr.now) s.facts) }
{
    state.is_stated();
    let before = state.reduce(alloc)?;
    let after = apply(alloc, before, instr)?;
    after.is_stated();
    after.into_reduced(alloc)
}
