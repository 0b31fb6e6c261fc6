// One step.

ghost use Rattle.std.specs.Prelude.{◌≡◌, ◌<◌, ◌∷◌, [], true, IfOk, length, slice_set};
ghost use Rattle.pk_ctypes.specs.Types.{is_in_type};
ghost use Rattle.pk_graph.specs.Trees as trees;
ghost use Rattle.pk_graph.specs.Views.{tree_view, array_view, instr_view};
ghost use Rattle.pk_graph.specs.Kinds.{IsScalar, IsArray, IsTyped, IsTypedInstr};
ghost use Rattle.pk_graph.specs.Steps.{is_true, all_in_type, are_any, effect};
ghost use Rattle.pk_graph.specs.Graphs.{edge_view, kinds_of, point_at};
ghost use Rattle.pk_graph.specs.Shown.{graph_view};
ghost use Rattle.pk_graph.specs.Stores.{IsStore, storing, numbers_of};
ghost use Rattle.pk_graph_step.specs.GraphSteps.{edge_at, answer_of, step_over};
ghost use Rattle.pk_graph_step.specs.declared.answers.GraphStep.TheVariants as answers;

use crate::answers::GraphStep;
use crate::stores::Store;
use crate::values::{Failure, place_of, value};
use pk_ctypes::{Fault, IntType, fits};
use pk_graph::{Array, Edge, Graph, Instr, Site, Tree};
use std::alloc::{AllocError, Global};

// On with the same store.
fn same(alloc: Global, store: &Store, to: usize) -> Result<GraphStep, AllocError>
    ensures { IfOk result (λ r. r ≡ answers.To to store.now) }
{
    let copy = store.copy(alloc)?;
    Ok(GraphStep::To(to, copy))
}

// On with other numbers of a variable.
fn written(
    alloc: Global,
    store: &Store,
    variable: usize,
    numbers: Vec<i128>,
    to: usize,
) -> Result<GraphStep, AllocError>
    requires { variable < length store.now }
    ensures { IfOk result (λ r. r ≡ answers.To to (slice_set store.now variable numbers.items)) }
{
    let changed = store.with(alloc, variable, numbers)?;
    Ok(GraphStep::To(to, changed))
}

// On with another number of a scalar.
fn written_one(
    alloc: Global,
    store: &Store,
    variable: usize,
    number: &i128,
    to: usize,
) -> Result<GraphStep, AllocError>
    requires { variable < length store.now }
    ensures { IfOk result (λ r. r ≡ answers.To to (slice_set store.now variable (number.now ∷ []))) }
{
    let mut numbers = Vec::new(alloc);
    numbers.push(*number)?;
    written(alloc, store, variable, numbers, to)
}

fn set(
    alloc: Global,
    graph: &Graph,
    store: &Store,
    variable: usize,
    tree: &Tree,
    to: usize,
) -> Result<GraphStep, AllocError>
    requires store { IsStore (kinds_of (graph_view graph.now)) store.now }
    requires scalar { IsScalar (kinds_of (graph_view graph.now)) variable }
    requires typed { IsTyped (kinds_of (graph_view graph.now)) (tree_view tree.now) }
    ensures { IfOk result
        (λ r. r ≡ answer_of to (effect storing [] (trees.Set variable (tree_view tree.now)) store.now)) }
{
    match value(graph, store, tree) {
        Ok(number) => written_one(alloc, store, variable, &number, to),
        Err(failure) => Ok(GraphStep::Faulted(failure)),
    }
}

fn fit(int_type: IntType, number: &i128) -> bool
    ensures { result ≡ is_in_type int_type number.now }
{
    fits(int_type, *number)
}

// Whether these are numbers of the type.
fn all_fit(int_type: IntType, numbers: &[i128]) -> bool
    ensures { result ≡ all_in_type int_type numbers.now }
{
    for k in 0..numbers.len() {
        if !fit(int_type, &numbers[k]) {
            return false;
        }
    }
    true
}

fn are_chosen(int_type: IntType, count: usize, numbers: &[i128]) -> bool
    ensures { result ≡ are_any int_type count numbers.now }
{
    if numbers.len() == count {
        all_fit(int_type, numbers)
    } else {
        false
    }
}

fn havoc(
    alloc: Global,
    graph: &Graph,
    store: &Store,
    variable: usize,
    int_type: IntType,
    count: usize,
    chosen: &[i128],
    to: usize,
) -> Result<GraphStep, AllocError>
    requires store { IsStore (kinds_of (graph_view graph.now)) store.now }
    requires there { variable < length (kinds_of (graph_view graph.now)) }
    ensures { IfOk result
        (λ r. r ≡ answer_of to (effect storing chosen.now (trees.Havoc variable int_type count) store.now)) }
{
    let _ = graph;
    if are_chosen(int_type, count, chosen) {
        let numbers = Vec::from_slice(alloc, chosen)?;
        written(alloc, store, variable, numbers, to)
    } else {
        Ok(GraphStep::Wants(int_type, count))
    }
}

fn clear(
    alloc: Global,
    graph: &Graph,
    store: &Store,
    array: Array,
    to: usize,
) -> Result<GraphStep, AllocError>
    requires store { IsStore (kinds_of (graph_view graph.now)) store.now }
    requires array { IsArray (kinds_of (graph_view graph.now)) (array_view array) }
    ensures { IfOk result (λ r. r ≡ answer_of to (effect storing [] (trees.Clear (array_view array)) store.now)) }
{
    let _ = graph;
    let numbers = vec![in alloc; 0i128; array.length]?;
    written(alloc, store, array.variable, numbers, to)
}

fn load(
    alloc: Global,
    graph: &Graph,
    store: &Store,
    variable: usize,
    array: Array,
    site: Site,
    index: &Tree,
    to: usize,
) -> Result<GraphStep, AllocError>
    requires store { IsStore (kinds_of (graph_view graph.now)) store.now }
    requires scalar { IsScalar (kinds_of (graph_view graph.now)) variable }
    requires array { IsArray (kinds_of (graph_view graph.now)) (array_view array) }
    requires typed { IsTyped (kinds_of (graph_view graph.now)) (tree_view index.now) }
    ensures { IfOk result (λ r. r ≡ answer_of to
        (effect storing [] (trees.Load variable (array_view array) site true (tree_view index.now)) store.now)) }
{
    match value(graph, store, index) {
        Ok(number) => match place_of(site, array.length, &number) {
            Ok(place) => {
                let element = store.numbers(array.variable)[place];
                written_one(alloc, store, variable, &element, to)
            }
            Err(failure) => Ok(GraphStep::Faulted(failure)),
        },
        Err(failure) => Ok(GraphStep::Faulted(failure)),
    }
}

// An element gets a number.
fn put(
    alloc: Global,
    store: &Store,
    array: Array,
    place: usize,
    number: &i128,
    to: usize,
) -> Result<GraphStep, AllocError>
    requires variable { array.variable < length store.now }
    requires place { place < length (numbers_of store.now array.variable) }
    ensures { IfOk result (λ r. r ≡ answers.To to
        (slice_set store.now array.variable (slice_set (numbers_of store.now array.variable) place number.now))) }
{
    let mut numbers = Vec::from_slice(alloc, store.numbers(array.variable))?;
    numbers[place] = *number;
    written(alloc, store, array.variable, numbers, to)
}

fn store_in(
    alloc: Global,
    graph: &Graph,
    store: &Store,
    array: Array,
    site: Site,
    index: &Tree,
    tree: &Tree,
    to: usize,
) -> Result<GraphStep, AllocError>
    requires store { IsStore (kinds_of (graph_view graph.now)) store.now }
    requires array { IsArray (kinds_of (graph_view graph.now)) (array_view array) }
    requires index { IsTyped (kinds_of (graph_view graph.now)) (tree_view index.now) }
    requires typed { IsTyped (kinds_of (graph_view graph.now)) (tree_view tree.now) }
    ensures { IfOk result
        (λ r. r ≡ answer_of to (effect storing []
        (trees.Store (array_view array) site true (tree_view index.now) (tree_view tree.now)) store.now)) }
{
    match value(graph, store, index) {
        Ok(index) => match value(graph, store, tree) {
            Ok(number) => match place_of(site, array.length, &index) {
                Ok(place) => put(alloc, store, array, place, &number, to),
                Err(failure) => Ok(GraphStep::Faulted(failure)),
            },
            Err(failure) => Ok(GraphStep::Faulted(failure)),
        },
        Err(failure) => Ok(GraphStep::Faulted(failure)),
    }
}

fn is_true(number: &i128) -> bool
    ensures { result ≡ is_true number.now }
{
    *number != 0
}

fn guard(
    alloc: Global,
    graph: &Graph,
    store: &Store,
    tree: &Tree,
    sense: bool,
    to: usize,
) -> Result<GraphStep, AllocError>
    requires store { IsStore (kinds_of (graph_view graph.now)) store.now }
    requires typed { IsTyped (kinds_of (graph_view graph.now)) (tree_view tree.now) }
    ensures { IfOk result
        (λ r. r ≡ answer_of to (effect storing [] (trees.Guard (tree_view tree.now) sense) store.now)) }
{
    match value(graph, store, tree) {
        Ok(number) => {
            if is_true(&number) == sense {
                same(alloc, store, to)
            } else {
                Ok(GraphStep::Blocked)
            }
        }
        Err(failure) => Ok(GraphStep::Faulted(failure)),
    }
}

fn check(
    alloc: Global,
    graph: &Graph,
    store: &Store,
    site: Site,
    tree: &Tree,
    to: usize,
) -> Result<GraphStep, AllocError>
    requires store { IsStore (kinds_of (graph_view graph.now)) store.now }
    requires typed { IsTyped (kinds_of (graph_view graph.now)) (tree_view tree.now) }
    ensures { IfOk result
        (λ r. r ≡ answer_of to (effect storing [] (trees.Check site (tree_view tree.now)) store.now)) }
{
    match value(graph, store, tree) {
        Ok(number) => {
            if is_true(&number) {
                same(alloc, store, to)
            } else {
                Ok(GraphStep::Faulted(Failure {
                    fault: Fault::Assert,
                    site,
                }))
            }
        }
        Err(failure) => Ok(GraphStep::Faulted(failure)),
    }
}

// A step over an edge.
#[tactic(auto, unfolding(pk_graph::specs::Views::instr_view, pk_graph::specs::Graphs::edge_view))]
fn stepped(
    alloc: Global,
    graph: &Graph,
    store: &Store,
    edge: &Edge,
    chosen: &[i128],
) -> Result<GraphStep, AllocError>
    requires store { IsStore (kinds_of (graph_view graph.now)) store.now }
    requires typed { IsTypedInstr (kinds_of (graph_view graph.now)) (edge_view edge.now).instr }
    ensures { IfOk result (λ r. r ≡ step_over (edge_view edge.now) chosen.now store.now) }
{
    let to = edge.to;
    match &edge.instr {
        Instr::Skip => same(alloc, store, to),
        Instr::Set(variable, tree) => set(alloc, graph, store, *variable, tree, to),
        Instr::Havoc {
            variable,
            int_type,
            count,
        } => havoc(
            alloc, graph, store, *variable, *int_type, *count, chosen, to,
        ),
        Instr::Clear(array) => clear(alloc, graph, store, *array, to),
        Instr::Load {
            variable,
            array,
            site,
            is_access: _,
            index,
        } => load(alloc, graph, store, *variable, *array, *site, index, to),
        Instr::Store {
            array,
            site,
            is_access: _,
            index,
            value,
        } => store_in(alloc, graph, store, *array, *site, index, value, to),
        Instr::Guard(tree, sense) => guard(alloc, graph, store, tree, *sense, to),
        Instr::Check(site, tree) => check(alloc, graph, store, *site, tree, to),
    }
}

/// One step of a graph run from a point with a store, over an edge of the point: `To` the edge's end, `Blocked` exactly where a guard doesn't pass, `Wants` exactly where any numbers
/// are taken and those chosen aren't as many of the type, and else `Faulted` with the first fault. Numbers are chosen for these instructions alone.
/// Tests alone call it.
pub fn graph_step(
    alloc: Global,
    graph: &Graph,
    point: usize,
    store: &Store,
    edge: usize,
    chosen: &[i128],
) -> Result<GraphStep, AllocError>
    requires store { IsStore (kinds_of (graph_view graph.now)) store.now }
    requires point { point < length (graph_view graph.now).points }
    requires edge { edge < length (point_at (graph_view graph.now) point).edges }
    ensures { IfOk result (λ r. r ≡ step_over (edge_at (graph_view graph.now) point edge) chosen.now store.now) }
{
    graph.well_made();
    let edges = graph.edges(point);
    stepped(alloc, graph, store, &edges[edge], chosen)
}
