// What is known of the variables, as a report prints it.

ghost use Rattle.std.specs.Prelude.{◌≡◌, ◌<◌, ◌^◌, length};

use pk_ctypes::{IntType, Name};
use pk_graph::Graph;
use pk_interval::{Interval, whole};
use pk_state::{Frame, State};
use pk_transfer::is_small;
use pk_value::Value;
use std::alloc::{AllocError, Global};

// The text so far goes on.
fn part(text: &mut String) -> Result<(), AllocError> {
    if !text.is_empty() {
        text.push_str(", ")?;
    }
    Ok(())
}

fn print_value(
    text: &mut String,
    name: &Name,
    elements: Option<usize>,
    known: Value,
) -> Result<(), AllocError> {
    part(text)?;
    let brackets = if is_small(elements) {
        "[0]"
    } else if elements.is_some() {
        "[]"
    } else {
        ""
    };
    write!(
        text,
        "{name}{brackets} [{},{}] {}Z+{}",
        known.interval.lo, known.interval.hi, known.congr.m, known.congr.r
    )?;
    Ok(())
}

// A variable, if it has a name; of a small array the first element.
fn print_variable(
    text: &mut String,
    graph: &Graph,
    state: &State,
    x: usize,
) -> Result<(), AllocError>
    requires { x < length state.now.layout.types }
{
    let known = match state.value(x) {
        Some(known) => known,
        None => return Ok(()),
    };
    match graph.variables().get(x) {
        Some(variable) => match &variable.name {
            Some(name) => print_value(text, name, variable.length, known),
            None => Ok(()),
        },
        None => Ok(()),
    }
}

// A bound of octagons, where it is less than what the intervals give.
fn print_bound(
    text: &mut String,
    sign: &str,
    x: &Name,
    between: &str,
    y: &Name,
    bound: Option<i128>,
    most: i128,
) -> Result<(), AllocError> {
    match bound {
        None => Ok(()),
        Some(bound) => {
            if bound < most {
                part(text)?;
                write!(text, "{sign}{x} {between} {y} <= {bound}")?;
            }
            Ok(())
        }
    }
}

fn name_of(graph: &Graph, x: usize) -> Option<&Name> {
    match graph.variables().get(x) {
        Some(variable) => variable.name.as_ref(),
        None => None,
    }
}

// The four forms of octagons over the variables a and b.
fn print_pair(
    text: &mut String,
    state: &State,
    x: &Name,
    a: usize,
    known: &Interval,
    y: &Name,
    b: usize,
    other: &Interval,
) -> Result<(), AllocError>
    requires left { a < 2 ^ 63 }
    requires right { b < 2 ^ 63 }
{
    let most = known.hi.wrapping_sub(other.lo);
    print_bound(text, "", x, "-", y, state.bound(2 * b, 2 * a), most)?;
    let most = other.hi.wrapping_sub(known.lo);
    print_bound(text, "", y, "-", x, state.bound(2 * a, 2 * b), most)?;
    let most = known.hi.wrapping_add(other.hi);
    print_bound(text, "", x, "+", y, state.bound(2 * b + 1, 2 * a), most)?;
    let most = 0i128.wrapping_sub(known.lo.wrapping_add(other.lo));
    print_bound(text, "-", x, "-", y, state.bound(2 * b, 2 * a + 1), most)
}

// The interval of a variable; every number where no run comes there.
fn interval_of(state: &State, x: usize) -> Interval
    requires { x < length state.now.layout.types }
{
    match state.value(x) {
        None => whole(IntType::Int),
        Some(known) => known.interval,
    }
}

// The bounds of octagons on two variables that have names.
fn print_named(
    text: &mut String,
    graph: &Graph,
    state: &State,
    a: usize,
    b: usize,
) -> Result<(), AllocError>
    requires left { a < length state.now.layout.types }
    requires right { b < length state.now.layout.types }
    requires left_few { a < 2 ^ 63 }
    requires right_few { b < 2 ^ 63 }
{
    let known = interval_of(state, a);
    let other = interval_of(state, b);
    match name_of(graph, a) {
        None => Ok(()),
        Some(x) => match name_of(graph, b) {
            None => Ok(()),
            Some(y) => print_pair(text, state, x, a, &known, y, b, &other),
        },
    }
}

// The bounds of octagons on two of their variables.
fn print_both(
    text: &mut String,
    graph: &Graph,
    state: &State,
    a: usize,
    b: usize,
) -> Result<(), AllocError>
    requires left { a < length state.now.layout.types }
    requires right { b < length state.now.layout.types }
{
    if state.is_chosen(a) && state.is_chosen(b) {
        return print_named(text, graph, state, a, b);
    }
    Ok(())
}

/// The variables that have a name, by number, and the bounds of octagons that say more.
pub fn print(
    alloc: Global,
    graph: &Graph,
    frame: &Frame,
    state: &State,
) -> Result<String, AllocError>
    requires { state.now.layout ≡ frame.now }
{
    let mut text = String::new(alloc);
    if state.is_bottom() {
        text.push_str("unreachable")?;
        return Ok(text);
    }
    for x in 0..frame.len() {
        print_variable(&mut text, graph, state, x)?;
    }
    for y in 0..frame.len() {
        for x in 0..y {
            print_both(&mut text, graph, state, x, y)?;
        }
    }
    Ok(text)
}
