// The walk from the entry, and the numbers that it gives.

ghost use Rattle.std.specs.Prelude.{◌≡◌, ◌<◌, ◌∷◌, [], ◌++◌, ℕ, IfOk, OnOk, length, map, reverse};
ghost use Rattle.pk_graph.specs.Graphs.{EdgeOf, edge_view};
ghost use Rattle.pk_number.specs.Preorders.{preorder};
ghost use Rattle.pk_number.specs.Rows.{rows_view, ends_in, AreBelow, AreNumbers};

use pk_graph::Edge;
use std::alloc::{AllocError, Global};

// The point where a draft begins.
const ENTRY: usize = 1;

// The ends of a point's edges wait, the first on top.
fn push_ends(waiting: &mut Vec<usize>, row: &[Edge]) -> Result<(), AllocError>
    ensures { OnOk result (reverse waiting.new.items
        ≡ map (λ (e : EdgeOf). e.to) (map edge_view row.now) ++ reverse waiting.old.items) }
{
    for past in 0..row.len() {
        waiting.push(row[row.len() - 1 - past].to)?;
    }
    Ok(())
}

/// The points in the order of the first visit, in so many turns.
pub(crate) fn walked(
    alloc: Global,
    rows: &[Vec<Edge>],
    turns: usize,
) -> Result<Vec<usize>, AllocError>
    requires entry { 1 < length rows.now }
    requires ends { (p : ℕ) → AreBelow (length rows.now) (ends_in (rows_view rows.now) p) }
    ensures { IfOk result (λ order. order.items ≡ preorder (ends_in (rows_view rows.now)) turns (1 ∷ []) []) }
{
    let mut marks = vec![in alloc; false; rows.len()]?;
    let mut order = Vec::new(alloc);
    let mut waiting = Vec::new(alloc);
    waiting.push(ENTRY)?;
    for _turn in 0..turns {
        let Some(point) = waiting.pop() else {
            return Ok(order);
        };
        if marks[point] {
            continue;
        }
        marks[point] = true;
        order.push(point)?;
        push_ends(&mut waiting, &rows[point])?;
    }
    Ok(order)
}

/// The place of each point in the order.
pub(crate) fn numbers_of(
    alloc: Global,
    count: usize,
    order: &[usize],
) -> Result<Vec<usize>, AllocError>
    requires { AreBelow count order.now }
    ensures { IfOk result (λ numbers. AreNumbers count order.now numbers.items) }
{
    let mut numbers = vec![in alloc; 0; count]?;
    for past in 0..order.len() {
        let place = order.len() - 1 - past;
        numbers[order[place]] = place;
    }
    Ok(numbers)
}
