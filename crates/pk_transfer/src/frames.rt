// The frame of a graph's states.

ghost use Rattle.std.specs.Prelude.{◌≡◌, ◌<◌, ◌+◌, ◌++◌, ◌∷◌, [], ◌^◌, if◌then◌else◌, IfOk, OnOk, Some, None, All, length, map, replicate};
ghost use Rattle.std.specs.List.{flat_map};
ghost use Rattle.pk_graph.specs.Graphs.{variable_view};
ghost use Rattle.pk_graph.specs.Shown.{graph_view};
ghost use Rattle.pk_transfer.specs.Slots.{is_small as small, further_count as count_of, further_types, further_from};
ghost use Rattle.pk_transfer.specs.Graphs.{layout_of, layout_over, IsPackOfGraph, own_types, kinds_shown};

use crate::laws::graphs_law;
use pk_ctypes::IntType;
use pk_graph::{Graph, Variable, octagon_variables};
use pk_octagons::Pack;
use pk_state::Frame;
use std::alloc::{AllocError, Global};

/// Whether a variable of so many elements has a slot for each: an array of at most eight.
pub fn is_small(elements: Option<usize>) -> bool
    ensures { result ≡ small elements }
{
    match elements {
        None => false,
        Some(n) => n <= 8,
    }
}

/// How many slots a variable of so many elements has behind its own.
pub fn further_count(elements: Option<usize>) -> usize
    ensures { result ≡ count_of elements }
{
    match elements {
        None => 0,
        Some(n) => { if n <= 8 && 0 < n { n - 1 } else { 0 } }
    }
}

// Where a variable's further slots begin, if it is small.
fn where_small(elements: Option<usize>, first: usize) -> Option<usize>
    ensures { result ≡ if small elements then Some first else None }
{
    if is_small(elements) {
        Some(first)
    } else {
        None
    }
}

// The types of the variables' own slots.
#[tactic(auto, unfolding(pk_graph::specs::Graphs::variable_view))]
fn own_slots(alloc: Global, variables: &[Variable]) -> Result<Vec<IntType>, AllocError>
    ensures { IfOk result (λ v. v.items ≡ own_types variables.now) }
{
    let mut types = Vec::with_capacity(alloc, variables.len())?;
    for variable in variables {
        types.push(variable.int_type)?;
    }
    Ok(types)
}

// A type for each of so many slots.
fn push_types(types: &mut Vec<IntType>, int_type: IntType, count: usize) -> Result<(), AllocError>
    ensures { OnOk result (types.new.items ≡ types.old.items ++ replicate count int_type) }
{
    for made in 0..count {
        types.push(int_type)?;
    }
    Ok(())
}

// The types of the variables' further slots, behind those that there are, and where they begin.
#[tactic(auto, unfolding(pk_graph::specs::Graphs::variable_view))]
fn further_slots(
    alloc: Global,
    variables: &[Variable],
    types: &mut Vec<IntType>,
) -> Result<Vec<Option<usize>>, AllocError>
    ensures types { OnOk result
        (types.new.items ≡ types.old.items ++ flat_map further_types (kinds_shown variables.now)) }
    ensures from { IfOk result
        (λ v. v.items ≡ further_from (length types.old.items) (kinds_shown variables.now)) }
{
    let mut further = Vec::with_capacity(alloc, variables.len())?;
    for variable in variables {
        let first = types.len();
        push_types(types, variable.int_type, further_count(variable.length))?;
        further.push(where_small(variable.length, first))?;
    }
    Ok(further)
}

// One pack.
fn one_pack(alloc: Global, variables: Vec<usize>) -> Result<Vec<Pack>, AllocError>
    ensures { IfOk result (λ p. p.items ≡ variables.items ∷ []) }
{
    let mut packs = Vec::with_capacity(alloc, 1)?;
    packs.push(Pack::new(variables))?;
    Ok(packs)
}

/// The slots of a graph's variables, with an octagon over each of these packs of the graph.
pub fn frame_over(alloc: Global, graph: &Graph, packs: Vec<Pack>) -> Result<Frame, AllocError>
    requires { All (IsPackOfGraph (graph_view graph.now)) packs.items }
    ensures { IfOk result (λ f. f ≡ layout_over (graph_view graph.now) packs.items) }
{
    graphs_law();
    let variables = graph.variables();
    let mut types = own_slots(alloc, variables)?;
    let further = further_slots(alloc, variables, &mut types)?;
    Frame::new(alloc, types, packs, further)
}

/// With one octagon, over the first variables: at most `oct`.
pub fn frame(alloc: Global, graph: &Graph, oct: usize) -> Result<Frame, AllocError>
    requires { oct < 2 ^ 31 }
    ensures { IfOk result (λ f. f ≡ layout_of (graph_view graph.now) oct) }
{
    graphs_law();
    let chosen = octagon_variables(alloc, graph, oct)?;
    let packs = one_pack(alloc, chosen)?;
    frame_over(alloc, graph, packs)
}
