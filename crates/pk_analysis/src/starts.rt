// The start state.

ghost use Rattle.std.specs.Prelude.{◌≡◌, ◌++◌, pos, if◌then◌else◌, IfOk, OnOk, Some, All, map, slice_index_or};
ghost use Rattle.pk_ctypes.specs.Types.{InType};
ghost use Rattle.pk_graph.specs.Kinds.{count_of};
ghost use Rattle.pk_graph.specs.Graphs.{variable_view};
ghost use Rattle.pk_graph.specs.WellMade.{IsStartOf};
ghost use Rattle.pk_graph.specs.Shown.{graph_view};
ghost use Rattle.pk_octagons.specs.Values.{IsValue};
ghost use Rattle.pk_transfer.specs.Slots.{further_types, slot_types};
ghost use Rattle.pk_transfer.specs.Graphs.{kinds_shown, layout_over};
ghost use Rattle.pk_value.specs.Known.{any_of, exactly, joined as joined_of};
ghost use Rattle.pk_analysis.specs.Starts.{known_of_numbers, joined_with, start_known, known_of_number, own_known, further_known, start_values, AreTyped, start_facts};
ghost use Rattle.pk_analysis.specs.Flows.{stated};

use pk_congr::reduced_law;
use pk_ctypes::IntType;
use pk_graph::{Graph, Start, Variable};
use pk_interval::{ordered_law, types_law};
use pk_state::{Frame, State};
use pk_transfer::{further_count, is_small};
use pk_value::Value;
use std::alloc::{AllocError, Global};

// Facts on a value: it is in the type, has a number, and its class is reduced.
fn exactly_in(t: IntType, number: i128) -> Value
    requires { InType t number }
    ensures value { result ≡ exactly number }
    ensures inside { IsValue t result }
{
    let _ = t;
    let value = Value::exactly(number);
    reduced_law(&value.congr);
    value
}

fn any_in(t: IntType) -> Value
    ensures value { result ≡ any_of t }
    ensures inside { IsValue t result }
{
    let value = Value::any(t);
    types_law();
    ordered_law(&value.interval);
    reduced_law(&value.congr);
    value
}

fn join_in(t: IntType, a: &Value, b: &Value) -> Value
    requires left { IsValue t a.now }
    requires right { IsValue t b.now }
    ensures value { result ≡ joined_of a.now b.now }
    ensures inside { IsValue t result }
{
    let _ = t;
    let value = a.join(b);
    types_law();
    ordered_law(&value.interval);
    reduced_law(&value.congr);
    value
}

// The join of these numbers with what is known.
fn joined(t: IntType, known: Value, numbers: &[i128]) -> Value
    requires known { IsValue t known }
    requires numbers { All (InType t) numbers.now }
    ensures value { result ≡ joined_with known numbers.now }
    ensures inside { IsValue t result }
{
    let mut all = known;
    for number in numbers {
        all = join_in(t, &all, &exactly_in(t, *number));
    }
    all
}

// The join of a value with 0, where there are fewer numbers than the variable has.
fn filled(t: IntType, short: bool, value: Value) -> Value
    requires { IsValue t value }
    ensures value { result ≡ if short then joined_of value (exactly (pos 0)) else value }
    ensures inside { IsValue t result }
{
    if short {
        join_in(t, &value, &exactly_in(t, 0))
    } else {
        value
    }
}

// What is known of a variable with these first numbers.
fn of_numbers(t: IntType, short: bool, numbers: &[i128]) -> Value
    requires { All (InType t) numbers.now }
    ensures value { result ≡ known_of_numbers short numbers.now }
    ensures inside { IsValue t result }
{
    match numbers {
        [] => exactly_in(t, 0),
        [first, rest @ ..] => filled(t, short, joined(t, exactly_in(t, *first), rest)),
    }
}

// How many numbers a variable has.
#[tactic(auto, unfolding(pk_graph::specs::Graphs::variable_view))]
fn count(variable: &Variable) -> usize
    ensures { result ≡ count_of (variable_view variable.now).kind.length }
{
    match variable.length {
        None => 1,
        Some(length) => length,
    }
}

// What is known of a variable when a run begins.
#[tactic(auto, unfolding(pk_graph::specs::Graphs::variable_view, pk_graph::specs::Graphs::start_view))]
fn known(variable: &Variable) -> Value
    requires { IsStartOf (variable_view variable.now) (variable_view variable.now).start }
    ensures value { result ≡ start_known (variable_view variable.now) }
    ensures inside { IsValue (variable_view variable.now).kind.int_type result }
{
    let count = count(variable);
    match &variable.start {
        Start::Any => any_in(variable.int_type),
        Start::Numbers(numbers) => of_numbers(variable.int_type, numbers.len() < count, numbers),
    }
}

// A number, or 0 where there are fewer.
fn number_or_zero(t: IntType, numbers: &[i128], i: usize) -> i128
    requires { All (InType t) numbers.now }
    ensures value { result ≡ slice_index_or numbers.now i (pos 0) }
    ensures inside { InType t result }
{
    let _ = t;
    match numbers.get(i) {
        None => 0,
        Some(number) => *number,
    }
}

// What is known of a variable's number i.
#[tactic(auto, unfolding(pk_graph::specs::Graphs::variable_view, pk_graph::specs::Graphs::start_view))]
fn number_known(variable: &Variable, i: usize) -> Value
    requires { IsStartOf (variable_view variable.now) (variable_view variable.now).start }
    ensures value { result ≡ known_of_number (variable_view variable.now) (variable_view variable.now).start i }
    ensures inside { IsValue (variable_view variable.now).kind.int_type result }
{
    match &variable.start {
        Start::Any => any_in(variable.int_type),
        Start::Numbers(numbers) => {
            let t = variable.int_type;
            exactly_in(t, number_or_zero(t, numbers, i))
        }
    }
}

// What is known of a variable's own slot.
#[tactic(auto, unfolding(pk_graph::specs::Graphs::variable_view))]
fn own(variable: &Variable) -> Value
    requires { IsStartOf (variable_view variable.now) (variable_view variable.now).start }
    ensures value { result ≡ own_known (variable_view variable.now) }
    ensures inside { IsValue (variable_view variable.now).kind.int_type result }
{
    if is_small(variable.length) {
        number_known(variable, 0)
    } else {
        known(variable)
    }
}

// What is known of the slots behind it.
#[tactic(auto, unfolding(pk_graph::specs::Graphs::variable_view))]
fn push_further(values: &mut Vec<Value>, variable: &Variable) -> Result<(), AllocError>
    requires { IsStartOf (variable_view variable.now) (variable_view variable.now).start }
    ensures values { OnOk result (values.new.items ≡ values.old.items ++ further_known (variable_view variable.now)) }
    ensures inside { OnOk result
        (AreTyped (further_known (variable_view variable.now)) (further_types (variable_view variable.now).kind)) }
{
    for i in 0..further_count(variable.length) {
        values.push(number_known(variable, i + 1))?;
    }
    Ok(())
}

// What is known of each slot.
fn values(alloc: Global, variables: &[Variable]) -> Result<Vec<Value>, AllocError>
    requires { All (λ v. IsStartOf (variable_view v) (variable_view v).start) variables.now }
    ensures values { IfOk result (λ v. v.items ≡ start_values (map variable_view variables.now)) }
    ensures inside { IfOk result (λ v. AreTyped v.items (slot_types (kinds_shown variables.now))) }
{
    let mut values = Vec::with_capacity(alloc, variables.len())?;
    for variable in variables {
        values.push(own(variable))?;
    }
    for variable in variables {
        push_further(&mut values, variable)?;
    }
    Ok(values)
}

/// What is known when a run begins.
pub fn start<'g>(alloc: Global, graph: &Graph, frame: &'g Frame) -> Result<State<'g>, AllocError>
    requires { frame.now ≡ layout_over (graph_view graph.now) frame.now.packs }
    ensures { IfOk result
        (λ s. s ≡ stated frame.now (Some (start_facts (graph_view graph.now) frame.now))) }
{
    graph.well_made();
    let values = values(alloc, graph.variables())?;
    let mut state = State::top(alloc, frame)?;
    for j in 0..values.len() {
        state = state.with_value(alloc, j, values[j])?;
    }
    Ok(state)
}
