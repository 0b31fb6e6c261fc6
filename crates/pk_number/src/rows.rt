// The edges of each point of a draft.

ghost use Rattle.std.specs.Prelude.{◌≡◌, ◌<◌, ◌∷◌, [], ◌++◌, All, IfOk, OnOk, length, map, replicate};
ghost use Rattle.pk_draft.specs.Answers.{edge_view};
ghost use Rattle.pk_number.specs.Rows.{rows_view, with_edge, AreRows};

use pk_draft::DraftEdge;
use pk_graph::Edge;
use std::alloc::{AllocError, Global};

// Where an edge that isn't made leads to.
const NOWHERE: usize = 0;

// So many items get room one by one: few points have more edges.
const FEW: usize = 2;

// One item more. It is generic, so that what is dropped where memory ends is one value to the prover, and not each variant.
fn push<T: Drop>(row: &mut Vec<T>, item: T) -> Result<(), AllocError>
    ensures { OnOk result (row.new.items ≡ row.old.items ++ item ∷ []) }
{
    if row.len() < FEW {
        row.reserve_exact(1)?;
    }
    row.push(item)?;
    Ok(())
}

fn let_go<T: Drop>(_value: T) {}

// As many empty rows.
fn empty_rows(alloc: Global, count: usize) -> Result<Vec<Vec<Edge>>, AllocError>
    ensures { IfOk result (λ rows. rows_view rows.items ≡ replicate count []) }
{
    let mut rows = Vec::with_capacity(alloc, count)?;
    for _row in 0..count {
        rows.push(Vec::new(alloc))?;
    }
    Ok(rows)
}

// Adds an edge to the row of its point.
fn add(rows: &mut [Vec<Edge>], edge: DraftEdge) -> Result<(), AllocError>
    requires { edge.from < length rows.old }
    ensures { OnOk result (rows_view rows.new ≡ with_edge (edge_view edge) (rows_view rows.old)) }
{
    if edge.to == NOWHERE {
        let_go(edge);
        return Ok(());
    }
    let from = edge.from;
    push(
        &mut rows[from],
        Edge {
            instr: edge.instr,
            to: edge.to,
        },
    )?;
    Ok(())
}

/// For each of so many points its edges, in the order in which they were made.
pub(crate) fn rows_of(
    alloc: Global,
    count: usize,
    edges: Vec<DraftEdge>,
) -> Result<Vec<Vec<Edge>>, AllocError>
    requires { All (λ e. e.from < count) (map edge_view edges.items) }
    ensures { IfOk result (λ rows. AreRows count (map edge_view edges.items) (rows_view rows.items)) }
{
    let mut rows = empty_rows(alloc, count)?;
    for edge in edges {
        add(&mut rows, edge)?;
    }
    Ok(rows)
}
