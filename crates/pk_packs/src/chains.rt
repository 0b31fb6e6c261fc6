// How long a chain of widening steps can be, with an octagon over each pack.

ghost use Rattle.std.specs.Prelude.{◌≡◌, ◌+◌, ◌*◌, IfOk, IfSome};
ghost use Rattle.pk_graph.specs.Shown.{graph_view};
ghost use Rattle.pk_packs.specs.Chains.{IsChainBound, entries_of};

use crate::listings::Packs;
use pk_graph::Graph;
use pk_thresh::chain_bound;
use std::alloc::{AllocError, Global};

// How many bounds an octagon over so many variables has, where they are below 2^64.
fn entries(variables: usize) -> Option<u64>
    ensures { IfSome result (λ n. n ≡ 4 * variables * variables) }
{
    (variables as u64)
        .checked_mul(4)?
        .checked_mul(variables as u64)
}

// A bound with those of the octagons, where that is below 2^64.
fn with_octagons(values: u64, packs: &Packs) -> Option<u64>
    ensures { IfSome result (λ n. n ≡ values + entries_of packs.now) }
{
    let mut bound = values;
    for number in 0..packs.count() {
        bound = bound.checked_add(entries(packs.pack(number).len())?)?;
    }
    Some(bound)
}

/// How long a chain of widening steps over the graph can be, with an octagon over each pack (tests alone call it): this bounds the
/// recursion of an analysis with packs. A bound of 2^64 or more is answered by want of memory.
pub fn chain_bound_packs(alloc: Global, graph: &Graph, packs: &Packs) -> Result<u64, AllocError>
    ensures { IfOk result (λ n. IsChainBound (graph_view graph.now) packs.now n) }
{
    let values = chain_bound(alloc, graph, 0)?;
    match with_octagons(values, packs) {
        Some(bound) => Ok(bound),
        None => Err(AllocError),
    }
}
