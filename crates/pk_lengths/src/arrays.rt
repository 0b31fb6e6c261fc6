// The lengths of the arrays that a graph's accesses are of.

ghost use Rattle.std.specs.Prelude.{◌≡◌, IfOk, OnOk, ℕ, nat_eq};
ghost use Rattle.std.specs.HashMap.{get};
ghost use Rattle.pk_graph.specs.AccessViews.{access_view};
ghost use Rattle.pk_graph.specs.Accesses.{accesses_of};
ghost use Rattle.pk_graph.specs.Shown.{graph_view};
ghost use Rattle.pk_lengths.specs.Lengths.{length_by, AreLengths};

use pk_findings::{Lengths, place_number};
use pk_graph::{Access, Graph, Operation, accesses};
use std::alloc::{AllocError, Global};
use std::collections::HashMap;

// Adds the length of the array, where the access is an index.
#[tactic(auto, unfolding(pk_graph::specs::AccessViews::access_view, pk_graph::specs::AccessViews::operation_view))]
fn add(lengths: &mut Lengths, access: &Access<'_>) -> Result<(), AllocError>
    ensures { OnOk result ((place : ℕ) →
        get nat_eq lengths.new place ≡ length_by place (get nat_eq lengths.old place) (access_view access.now)) }
{
    match access.operation {
        Operation::Index(length, _) => {
            lengths.insert(place_number(access.site.at), length as u64)?;
            Ok(())
        }
        _ => Ok(()),
    }
}

/// The lengths of the arrays that are accessed, by the numbers of the places of their indices.
pub fn lengths(alloc: Global, graph: &Graph) -> Result<Lengths, AllocError>
    ensures { IfOk result (AreLengths (accesses_of (graph_view graph.now))) }
{
    let accesses = accesses(alloc, graph)?;
    let mut lengths = HashMap::new(alloc);
    for access in &accesses {
        add(&mut lengths, access)?;
    }
    Ok(lengths)
}
