// The numbers at which widening stops, and how long that lets a chain of widening steps become.

ghost use Rattle.std.specs.Prelude.{◌≡◌, ◌++◌, ◌+◌, ◌*◌, IfOk, IfSome, OnOk, All};
ghost use Rattle.pk_graph.specs.Shown.{graph_view};
ghost use Rattle.pk_thresh.specs.Thresholds.{around, numbers_around, AreThresholds};
ghost use Rattle.pk_thresh.specs.Near.{IsNear};
ghost use Rattle.pk_thresh.specs.Chains.{IsChainBound, chain_bound_of};

use crate::constants::constants;
use pk_graph::{Graph, octagon_variables};
use pk_transfer::frame;
use std::alloc::{AllocError, Global};

// Adds a constant and the numbers next to it.
fn add_around(all: &mut Vec<i128>, constant: i128) -> Result<(), AllocError>
    requires { IsNear constant }
    ensures { OnOk result (all.new.items ≡ all.old.items ++ around constant) }
{
    all.push(constant - 1)?;
    all.push(constant)?;
    all.push(constant + 1)?;
    Ok(())
}

// The constants and the numbers next to them.
fn around_all(alloc: Global, constants: &[i128]) -> Result<Vec<i128>, AllocError>
    requires { All IsNear constants.now }
    ensures { IfOk result (λ all. all.items ≡ numbers_around constants.now) }
{
    let mut all = Vec::new(alloc);
    for constant in constants {
        add_around(&mut all, *constant)?;
    }
    Ok(all)
}

/// Each constant of the graph's trees and the numbers next to it, rising, each once.
pub fn thresholds(alloc: Global, graph: &Graph) -> Result<Vec<i128>, AllocError>
    ensures { IfOk result (λ all. AreThresholds (graph_view graph.now) all.items) }
{
    graph.well_made();
    let found = constants(alloc, graph)?;
    let mut all = around_all(alloc, &found)?;
    all.sort_unstable();
    all.dedup();
    Ok(all)
}

// The bound for so many, where it is below 2^64.
fn bound(slots: usize, thresholds: usize, octagon: usize) -> Option<u64>
    ensures { IfSome result (λ n. n ≡ chain_bound_of slots thresholds octagon) }
{
    let moves = (thresholds as u64)
        .checked_add(1)?
        .checked_mul(2)?
        .checked_add(66)?;
    let entries = (octagon as u64)
        .checked_mul(4)?
        .checked_mul(octagon as u64)?;
    let values = (slots as u64).checked_mul(moves)?;
    values.checked_add(1)?.checked_add(entries)
}

/// How long a chain of widening steps over the graph can be (tests alone call it), with the octagon over its first `oct` variables. A bound of 2^64 or more is answered by want of memory.
pub fn chain_bound(alloc: Global, graph: &Graph, oct: usize) -> Result<u64, AllocError>
    ensures { IfOk result (λ n. IsChainBound (graph_view graph.now) oct n) }
{
    let stops = thresholds(alloc, graph)?;
    let octagon = octagon_variables(alloc, graph, oct)?;
    let slots = frame(alloc, graph, 0)?.len();
    match bound(slots, stops.len(), octagon.len()) {
        Some(n) => Ok(n),
        None => Err(AllocError),
    }
}
