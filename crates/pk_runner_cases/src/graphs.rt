// Runs of a graph.

ghost use Rattle.std.specs.Prelude.{◌≡◌, ◌<◌, length, map, IsTrue};
ghost use Rattle.std.proofs.Props.{props};
ghost use Rattle.pk_ctypes.specs.Types.{InType};
ghost use Rattle.pk_graph.specs.Graphs.{kinds_of, variable_view};
ghost use Rattle.pk_graph.specs.Shown.{graph_view};
ghost use Rattle.pk_graph.specs.Stores.{IsStore};
ghost use Rattle.pk_graph.specs.Kinds.{count_of};
ghost use Rattle.pk_runner_cases.specs.Places.{AreNumbers, IsAt};

use crate::choices::taken;
use pk_ctypes::{IntType, fits};
use pk_graph::{Graph, Instr, Start, Variable};
use pk_graph_step::{GraphStep, Store, graph_step, step_law};
use pk_runner::{Answer, Visit};
use std::alloc::{AllocError, Global};

/// Where a run is.
#[derive(Drop)]
pub struct Run<'g> {
    pub graph: &'g Graph,
    pub point: usize,
    store: Store,
    ghost there: { IsAt (graph_view graph.now) point store } by { Prim.hlevel props },
}

// How many numbers a variable has.
#[tactic(auto, unfolding(pk_graph::specs::Graphs::variable_view))]
fn count(variable: &Variable) -> usize
    ensures { result ≡ count_of (variable_view variable.now).kind.length }
{
    match variable.length {
        None => 1,
        Some(length) => length,
    }
}

fn fit(int_type: IntType, number: &i128) -> bool
    ensures { IsTrue result → InType int_type number.now }
{
    fits(int_type, *number)
}

fn are_numbers(int_type: IntType, count: usize, numbers: &[i128]) -> bool
    ensures { IsTrue result → AreNumbers int_type count numbers.now }
{
    if numbers.len() != count {
        return false;
    }
    for place in 0..numbers.len() {
        if !fit(int_type, &numbers[place]) {
            return false;
        }
    }
    true
}

// Whether these are numbers of the variable.
#[tactic(auto, unfolding(pk_graph::specs::Graphs::variable_view))]
fn is_row(variable: &Variable, numbers: &[i128]) -> bool
    ensures { IsTrue result → AreNumbers (variable_view variable.now).kind.int_type
        (count_of (variable_view variable.now).kind.length) numbers.now }
{
    are_numbers(variable.int_type, count(variable), numbers)
}

// Whether these are numbers of the graph's variables.
fn are_rows(graph: &Graph, rows: &[Vec<i128>]) -> bool
    ensures { IsTrue result → IsStore (kinds_of (graph_view graph.now)) (map (λ row. row.items) rows.now) }
{
    let variables = graph.variables();
    if rows.len() != variables.len() {
        return false;
    }
    for number in 0..variables.len() {
        if !is_row(&variables[number], &rows[number]) {
            return false;
        }
    }
    true
}

// The numbers of a variable as a run begins: those that it holds first, and 0 behind them.
fn first_numbers(alloc: Global, variable: &Variable) -> Result<Vec<i128>, AllocError> {
    let mut numbers = match &variable.start {
        Start::Any => Vec::new(alloc),
        Start::Numbers(first) => Vec::from_slice(alloc, first)?,
    };
    for _ in numbers.len()..count(variable) {
        numbers.push(0)?;
    }
    Ok(numbers)
}

/// The begin of a run.
pub fn begun<'g>(alloc: Global, graph: &'g Graph) -> Result<Option<Run<'g>>, AllocError> {
    graph.well_made();
    let mut rows = Vec::new(alloc);
    for variable in graph.variables() {
        rows.push(first_numbers(alloc, variable)?)?;
    }
    if are_rows(graph, &rows) {
        Ok(Some(Run {
            graph,
            point: 0,
            store: Store::new(rows),
        }))
    } else {
        Ok(None)
    }
}

// The variable that an instruction writes.
fn written(instr: &Instr) -> Option<usize> {
    match instr {
        Instr::Skip => None,
        Instr::Set(variable, _) => Some(*variable),
        Instr::Havoc { variable, .. } => Some(*variable),
        Instr::Clear(array) => Some(array.variable),
        Instr::Load { variable, .. } => Some(*variable),
        Instr::Store { array, .. } => Some(array.variable),
        Instr::Guard(_, _) => None,
        Instr::Check(_, _) => None,
    }
}

// The variables whose names are in scope where a run is, newest first.
fn names(alloc: Global, run: &Run<'_>) -> Result<Vec<usize>, AllocError> {
    let scope = run.graph.scope(alloc, run.point)?;
    let mut list = Vec::new(alloc);
    for entry in &scope {
        if !entry.hides {
            list.push(entry.variable)?;
        }
    }
    Ok(list)
}

// Whether a run that has written this variable is at a visit.
fn is_seen(alloc: Global, run: &Run<'_>, variable: Option<usize>) -> Result<bool, AllocError> {
    match variable {
        None => Ok(true),
        Some(variable) => Ok(names(alloc, run)?.contains(&variable)),
    }
}

// A step over an edge, with the numbers that are chosen where some are: `Next` to a visit, and `Stuck` to what is no visit; `Returned` where the point has no such edge.
fn over(
    alloc: Global,
    run: &mut Run<'_>,
    edge: usize,
    chosen: &[i128],
) -> Result<Answer, AllocError> {
    let edges = run.graph.edges(run.point);
    if edges.len() <= edge {
        return Ok(Answer::Returned(None));
    }
    let variable = written(&edges[edge].instr);
    run.graph.well_made();
    step_law();
    match graph_step(alloc, run.graph, run.point, &run.store, edge, chosen)? {
        GraphStep::To(point, store) => {
            run.point = point;
            run.store = store;
        }
        GraphStep::Faulted(failure) => return Ok(Answer::Faulted(failure.fault, failure.site)),
        GraphStep::Blocked => return Ok(Answer::Assumed),
        GraphStep::Wants(int_type, count) => return Ok(Answer::Wants(int_type, count)),
    }
    Ok(if is_seen(alloc, run, variable)? {
        Answer::Next
    } else {
        Answer::Stuck
    })
}

// A step over the first edge that lets the run pass. A point has one edge, or the two guards of a test.
fn moved(alloc: Global, run: &mut Run<'_>, chosen: &[i128]) -> Result<Answer, AllocError> {
    let first = over(alloc, run, 0, chosen)?;
    match first {
        Answer::Assumed => {
            let second = over(alloc, run, 1, chosen)?;
            match second {
                Answer::Returned(_) => Ok(first),
                _ => Ok(second),
            }
        }
        _ => Ok(first),
    }
}

/// The run goes on to the next visit, or to its end, with numbers where it wants some.
pub fn advance(
    alloc: Global,
    run: &mut Run<'_>,
    lists: &[Vec<i128>],
    seed: u64,
    times: &mut usize,
) -> Result<Answer, AllocError> {
    for _ in 0..5000 {
        let mut answer = moved(alloc, run, &[])?;
        if let Answer::Wants(int_type, count) = answer {
            let numbers = taken(alloc, lists, seed, times, int_type, count)?;
            answer = moved(alloc, run, &numbers)?;
        }
        match answer {
            Answer::Stuck => {}
            _ => return Ok(answer),
        }
    }
    Ok(Answer::Stuck)
}

// What a variable holds.
fn numbers<'r>(run: &'r Run<'_>, variable: usize) -> &'r [i128] {
    if variable < run.graph.variables().len() {
        run.store.numbers(variable)
    } else {
        &[]
    }
}

/// Whether a visit of the program is where the run is.
pub fn is_at(alloc: Global, run: &Run<'_>, visit: &Visit<'_>) -> Result<bool, AllocError> {
    let scope = names(alloc, run)?;
    if run.graph.path(run.point) != visit.path
        || run.graph.position(run.point) != visit.at
        || scope.len() != visit.known.len()
    {
        return Ok(false);
    }
    for place in 0..scope.len() {
        let known = &visit.known[place];
        let name = match run.graph.variables().get(scope[place]) {
            None => "",
            Some(variable) => match &variable.name {
                None => "",
                Some(name) => name.as_str(),
            },
        };
        if name != known.name || numbers(run, scope[place]) != known.numbers.as_slice() {
            return Ok(false);
        }
    }
    Ok(true)
}

/// What the entry has returned: its result is the first variable of its path without a name.
pub fn returned(run: &Run<'_>) -> Option<i128> {
    let variables = run.graph.variables();
    for number in 0..variables.len() {
        let variable = &variables[number];
        if variable.path == Some(0) && variable.name.is_none() {
            return numbers(run, number).first().copied();
        }
    }
    None
}
