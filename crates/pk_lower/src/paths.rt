// The call paths of a graph.

ghost use Rattle.std.specs.Prelude.{◌≡◌, map, option_map, IfOk};
ghost use Rattle.pk_typed.specs.Views.{unit_tree};
ghost use Rattle.pk_graph.specs.Graphs.{path_view};
ghost use Rattle.pk_lower.specs.Paths as places;

use pk_calls::{CallPath, Caller, Paths, calls, name};
use pk_ctypes::Pos;
use pk_graph::{Path, Site};
use pk_typed::Unit;
use std::alloc::{AllocError, Global};

const NOWHERE: Pos = Pos { line: 0, column: 0 };

// The place of the name at a call of a function.
fn place_of(unit: &Unit, function: usize, call: usize) -> Pos
    ensures { result ≡ places.place_of (unit_tree unit.now) function call }
{
    let calls = calls(unit, function);
    if call < calls.len() {
        calls[call].at
    } else {
        NOWHERE
    }
}

// A call, by its path and the place of the name there.
fn site_of_call(unit: &Unit, paths: &Paths, caller: Caller) -> Site
    ensures { result ≡ places.site_of_call (unit_tree unit.now) paths.now caller }
{
    let at = if caller.path < paths.len() {
        place_of(unit, paths.path(caller.path).function, caller.call)
    } else {
        NOWHERE
    };
    Site {
        path: caller.path,
        at,
    }
}

fn call_of(unit: &Unit, paths: &Paths, caller: Option<Caller>) -> Option<Site>
    ensures { result ≡ option_map (places.site_of_call (unit_tree unit.now) paths.now) caller }
{
    match caller {
        None => None,
        Some(caller) => Some(site_of_call(unit, paths, caller)),
    }
}

#[tactic(auto, unfolding(pk_graph::specs::Graphs::path_view))]
fn path_of(alloc: Global, unit: &Unit, paths: &Paths, path: CallPath) -> Result<Path, AllocError>
    ensures { IfOk result (λ p. path_view p ≡ places.path_of (unit_tree unit.now) paths.now path) }
{
    let name = name(alloc, unit, path.function)?;
    Ok(Path {
        name,
        call: call_of(unit, paths, path.caller),
    })
}

/// The call paths of a unit as those of a graph, in order.
pub fn graph_paths(alloc: Global, unit: &Unit, paths: &Paths) -> Result<Vec<Path>, AllocError>
    ensures { IfOk result
        (λ list. map path_view list.items ≡ map (places.path_of (unit_tree unit.now) paths.now) paths.now) }
{
    let mut list = Vec::with_capacity(alloc, paths.len())?;
    for number in 0..paths.len() {
        list.push(path_of(alloc, unit, paths, paths.path(number))?)?;
    }
    Ok(list)
}
