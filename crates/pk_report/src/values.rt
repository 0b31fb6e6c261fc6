// Lines of values.

ghost use Rattle.std.specs.Prelude.{◌≡◌, ◌<◌, ◌++◌, OnOk, All, codes, length};
ghost use Rattle.std.specs.Fmt.{decimal};
ghost use Rattle.std.specs.List.{flat_map};
ghost use Rattle.pk_graph.specs.Graphs.{variable_at};
ghost use Rattle.pk_graph.specs.Shown.{graph_view};
ghost use Rattle.pk_state.specs.Layouts.{slot_of};
ghost use Rattle.pk_report.specs.Values.{name_of, mark_of, range_text, class_text, value_text, subject_of, numbers_of, HasSlots, value_text_if, whole_line_if, element_line_if, elements_lines_if, value_lines_if};

use crate::texts::{write_count, write_number, write_text};
use pk_congr::Congr;
use pk_graph::Graph;
use pk_interval::Interval;
use pk_state::State;
use pk_value::Value;
use std::alloc::{AllocError, Global};

/// The name of a variable.
#[tactic(auto, unfolding(pk_graph::specs::Graphs::variable_view))]
pub(crate) fn name_of(graph: &Graph, x: usize) -> &str
    ensures { result.now ≡ name_of (graph_view graph.now) x }
{
    match graph.variables().get(x) {
        Some(variable) => match &variable.name {
            Some(name) => name.as_str(),
            None => "",
        },
        None => "",
    }
}

#[tactic(auto, unfolding(pk_graph::specs::Graphs::variable_view))]
fn length_of(graph: &Graph, x: usize) -> Option<usize>
    ensures { result ≡ (variable_at (graph_view graph.now) x).kind.length }
{
    match graph.variables().get(x) {
        Some(variable) => variable.length,
        None => None,
    }
}

fn numbers_of(graph: &Graph, x: usize) -> usize
    ensures { result ≡ numbers_of (graph_view graph.now) x }
{
    match length_of(graph, x) {
        Some(length) => length,
        None => 1,
    }
}

/// What a line tells of: a variable that is no array, each element of an array, or one element.
#[derive(Clone, Copy)]
pub(crate) enum Subject {
    Scalar,
    Array,
    Element(usize),
}

fn subject_of(graph: &Graph, x: usize) -> Subject
    ensures { result ≡ subject_of (variable_at (graph_view graph.now) x).kind.length }
{
    match length_of(graph, x) {
        Some(_) => Subject::Array,
        None => Subject::Scalar,
    }
}

fn write_element_mark(alloc: Global, bytes: &mut Vec<u8>, i: usize) -> Result<(), AllocError>
    ensures { OnOk result (bytes.new.items ≡ bytes.old.items ++ (codes "[" ++ decimal i ++ codes "]")) }
{
    write_text(bytes, "[")?;
    write_count(alloc, bytes, i)?;
    write_text(bytes, "]")
}

fn write_mark(alloc: Global, bytes: &mut Vec<u8>, subject: Subject) -> Result<(), AllocError>
    ensures { OnOk result (bytes.new.items ≡ bytes.old.items ++ mark_of subject) }
{
    match subject {
        Subject::Scalar => Ok(()),
        Subject::Array => write_text(bytes, "[]"),
        Subject::Element(i) => write_element_mark(alloc, bytes, i),
    }
}

fn write_range(alloc: Global, bytes: &mut Vec<u8>, range: Interval) -> Result<(), AllocError>
    ensures { OnOk result (bytes.new.items ≡ bytes.old.items ++ range_text range) }
{
    write_text(bytes, " [")?;
    write_number(alloc, bytes, range.lo)?;
    write_text(bytes, ",")?;
    write_number(alloc, bytes, range.hi)?;
    write_text(bytes, "] ")
}

fn write_class(alloc: Global, bytes: &mut Vec<u8>, class: Congr) -> Result<(), AllocError>
    ensures { OnOk result (bytes.new.items ≡ bytes.old.items ++ class_text class) }
{
    write_number(alloc, bytes, class.m)?;
    write_text(bytes, "Z+")?;
    write_number(alloc, bytes, class.r)?;
    write_text(bytes, "\n")
}

fn write_value(
    alloc: Global,
    bytes: &mut Vec<u8>,
    name: &str,
    subject: Subject,
    value: Value,
) -> Result<(), AllocError>
    ensures { OnOk result (bytes.new.items ≡ bytes.old.items ++ value_text name.now subject value) }
{
    write_text(bytes, "  ")?;
    write_text(bytes, name)?;
    write_mark(alloc, bytes, subject)?;
    write_range(alloc, bytes, value.interval)?;
    write_class(alloc, bytes, value.congr)
}

fn write_value_if(
    alloc: Global,
    bytes: &mut Vec<u8>,
    name: &str,
    subject: Subject,
    value: Option<Value>,
) -> Result<(), AllocError>
    ensures { OnOk result (bytes.new.items ≡ bytes.old.items ++ value_text_if name.now subject value) }
{
    match value {
        Some(value) => write_value(alloc, bytes, name, subject, value),
        None => Ok(()),
    }
}

// The line of a variable.
fn write_whole(
    alloc: Global,
    bytes: &mut Vec<u8>,
    graph: &Graph,
    state: &State,
    x: usize,
) -> Result<(), AllocError>
    requires { x < length state.now.layout.types }
    ensures { OnOk result
        (bytes.new.items ≡ bytes.old.items ++ whole_line_if (graph_view graph.now) state.now.facts x) }
{
    write_value_if(
        alloc,
        bytes,
        name_of(graph, x),
        subject_of(graph, x),
        state.value(x),
    )
}

// The line of an element.
fn write_element(
    alloc: Global,
    bytes: &mut Vec<u8>,
    graph: &Graph,
    state: &State,
    x: usize,
    i: usize,
) -> Result<(), AllocError>
    requires variable { x < length state.now.layout.further }
    requires there { slot_of state.now.layout x i < length state.now.layout.types }
    ensures { OnOk result (bytes.new.items
        ≡ bytes.old.items ++ element_line_if (graph_view graph.now) state.now.layout state.now.facts x i) }
{
    let value = state.value(state.slot(x, i));
    write_value_if(alloc, bytes, name_of(graph, x), Subject::Element(i), value)
}

// The line of each element.
fn write_elements(
    alloc: Global,
    bytes: &mut Vec<u8>,
    graph: &Graph,
    state: &State,
    x: usize,
) -> Result<(), AllocError>
    requires slots { HasSlots (graph_view graph.now) state.now.layout }
    requires variable { x < length (graph_view graph.now).variables }
    ensures { OnOk result (bytes.new.items
        ≡ bytes.old.items ++ elements_lines_if (graph_view graph.now) state.now.layout state.now.facts x) }
{
    for i in 0..numbers_of(graph, x) {
        write_element(alloc, bytes, graph, state, x, i)?;
    }
    Ok(())
}

// The lines of a variable.
fn write_variable(
    alloc: Global,
    bytes: &mut Vec<u8>,
    graph: &Graph,
    state: &State,
    x: usize,
) -> Result<(), AllocError>
    requires slots { HasSlots (graph_view graph.now) state.now.layout }
    requires variable { x < length (graph_view graph.now).variables }
    ensures { OnOk result (bytes.new.items
        ≡ bytes.old.items ++ value_lines_if (graph_view graph.now) state.now.layout state.now.facts x) }
{
    if state.is_spread(x) {
        write_elements(alloc, bytes, graph, state, x)
    } else {
        write_whole(alloc, bytes, graph, state, x)
    }
}

/// The lines of variables.
pub(crate) fn write_values(
    alloc: Global,
    bytes: &mut Vec<u8>,
    graph: &Graph,
    state: &State,
    visible: &[usize],
) -> Result<(), AllocError>
    requires slots { HasSlots (graph_view graph.now) state.now.layout }
    requires visible { All (λ x. x < length (graph_view graph.now).variables) visible.now }
    ensures { OnOk result (bytes.new.items ≡ bytes.old.items
        ++ flat_map (value_lines_if (graph_view graph.now) state.now.layout state.now.facts) visible.now) }
{
    for k in 0..visible.len() {
        write_variable(alloc, bytes, graph, state, visible[k])?;
    }
    Ok(())
}
