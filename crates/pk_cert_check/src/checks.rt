// The first point whose equation isn't solved.

ghost use Rattle.std.specs.Prelude.{◌≡◌, ◌<◌, true, Option, None, IfOk, OnOk, MatchOption, length, map, slice_index_or};
ghost use Rattle.std.specs.Arc.{arc_value};
ghost use Rattle.pk_graph.specs.Shown.{graph_view};
ghost use Rattle.pk_state.specs.Layouts.{Layout};
ghost use Rattle.pk_state.specs.Facts.{Facts, Stated, AreFactsIf};
ghost use Rattle.pk_transfer.specs.Graphs.{layout_of};
ghost use Rattle.pk_phases.specs.Equations.{value_of};
ghost use Rattle.pk_phases.specs.declared.equations.Cell.{Cell as CellOf};
ghost use Rattle.pk_phases.specs.declared.equations.Cell.TheVariants.{Value};
ghost use Rattle.pk_analysis.specs.Flows.{stated};
ghost use Rattle.pk_analysis.specs.Orders.{is_below};
ghost use Rattle.pk_sound.specs.Families.{given_on, FailsFirstAt};
ghost use Rattle.pk_cert_check.specs.Checked.{known_by, HoldsState, HoldStates, IsChecked, HasPointsAlone, HavePassed};

use crate::runs::run;
use pk_analysis::Analysis;
use pk_graph::Graph;
use pk_phases::Cell;
use pk_sound::families_are_tested;
use pk_state::{Frame, State};
use pk_transfer::graphs_law;
use std::alloc::{AllocError, Global};
use std::sync::Arc;

// Whether the state of a cell is within that of another.
fn is_within(given: &Cell<State>, known: &Cell<State>) -> bool
    requires { (l : Layout) × HoldsState l given.now × HoldsState l known.now }
    ensures below { (l : Layout) → result
        ≡ is_below (value_of (stated l None) given.now).facts (value_of (stated l None) known.now).facts }
    ensures facts { (l : Layout) (f : Option Facts) → known.now ≡ Value (stated l f) → AreFactsIf l f }
{
    match known {
        Cell::Exit(_) => false,
        Cell::Value(old) => match given {
            Cell::Exit(_) => true,
            Cell::Value(new) => {
                old.is_stated();
                new.is_stated();
                new.leq(old)
            }
        },
    }
}

// Whether two cells hold the same state.
fn is_same(given: &Cell<State>, known: &Cell<State>) -> bool
    requires { (l : Layout) × HoldsState l given.now × HoldsState l known.now }
    ensures same { result ≡ true → given.now ≡ known.now }
    ensures facts { (l : Layout) (f : Option Facts) → known.now ≡ Value (stated l f) → AreFactsIf l f }
{
    match known {
        Cell::Exit(_) => false,
        Cell::Value(old) => {
            old.is_stated();
            match given {
                Cell::Exit(_) => false,
                Cell::Value(new) => new.equals(old),
            }
        }
    }
}

// Puts a cell in place of one that holds the same state: of one that was computed more is known, so that less is left to do where it is read.
fn put_same<'f>(
    alloc: Global,
    cells: &mut [Arc<Cell<State<'f>>>],
    v: u32,
    given: Cell<State<'f>>,
) -> Result<(), AllocError>
    requires place { v < length cells.old }
    requires same { (d : CellOf Stated) → slice_index_or (map arc_value cells.old) v d ≡ given }
    ensures { OnOk result (map arc_value cells.new ≡ map arc_value cells.old) }
{
    cells[v as usize] = Arc::new(alloc, given)?;
    Ok(())
}

// Whether what the equation of a point gives is within what the cells know there.
fn passes<'f>(
    alloc: Global,
    analysis: &Analysis<'f>,
    cells: &mut [Arc<Cell<State<'f>>>],
    inputs: &mut Vec<Arc<Cell<State<'f>>>>,
    v: u32,
) -> Result<bool, AllocError>
    requires points { HasPointsAlone analysis.now }
    requires cells { HoldStates analysis.now.layout (length (graph_view analysis.now.graph).points)
        (map arc_value cells.old) }
    requires point { v < length (graph_view analysis.now.graph).points }
    ensures test { let a = analysis.now in let known = known_by a.layout (map arc_value cells.old) in
        IfOk result (λ b. b ≡ is_below (given_on (graph_view a.graph) a.layout known v) (known v)) }
    ensures facts { IfOk result (λ _.
        AreFactsIf analysis.now.layout (known_by analysis.now.layout (map arc_value cells.old) v)) }
    ensures same { OnOk result (map arc_value cells.new ≡ map arc_value cells.old) }
{
    let given = run(alloc, analysis, cells, inputs, v)?;
    if is_same(&given, &cells[v as usize]) {
        put_same(alloc, cells, v, given)?;
        return Ok(true);
    }
    Ok(is_within(&given, &cells[v as usize]))
}

// The first point whose equation isn't solved, of so many.
fn first_of<'f>(
    alloc: Global,
    analysis: &Analysis<'f>,
    cells: &mut [Arc<Cell<State<'f>>>],
    points: u32,
) -> Result<Option<u32>, AllocError>
    requires alone { HasPointsAlone analysis.now }
    requires cells { HoldStates analysis.now.layout (length (graph_view analysis.now.graph).points)
        (map arc_value cells.old) }
    requires points { points ≡ length (graph_view analysis.now.graph).points }
    ensures first { let a = analysis.now in IfOk result (λ o. MatchOption o
        (HavePassed (graph_view a.graph) a.layout (map arc_value cells.old) points)
        (FailsFirstAt (graph_view a.graph) a.layout (known_by a.layout (map arc_value cells.old)))) }
    ensures same { OnOk result (map arc_value cells.new ≡ map arc_value cells.old) }
{
    let mut inputs = Vec::new(alloc);
    for v in 0..points {
        if !passes(alloc, analysis, cells, &mut inputs, v)? {
            return Ok(Some(v));
        }
    }
    Ok(None)
}

/// The first point at which what the equation gives on the states of all points is not within the state of that point,
/// if there is one. The cells hold the same states afterwards.
pub fn first_failing<'f>(
    alloc: Global,
    graph: &'f Graph,
    frame: &'f Frame,
    oct: usize,
    cells: &mut [Arc<Cell<State<'f>>>],
) -> Result<Option<u32>, AllocError>
    requires frame { frame.now ≡ layout_of (graph_view graph.now) oct }
    requires cells { HoldStates (layout_of (graph_view graph.now) oct) (length (graph_view graph.now).points)
        (map arc_value cells.old) }
    ensures first { IfOk result
        (IsChecked (graph_view graph.now) (layout_of (graph_view graph.now) oct) (map arc_value cells.old)) }
    ensures same { OnOk result (map arc_value cells.new ≡ map arc_value cells.old) }
{
    families_are_tested();
    graphs_law();
    graph.well_made();
    frame.is_layout();
    let analysis = Analysis::of_points(alloc, graph, frame, oct)?;
    let found = first_of(alloc, &analysis, cells, graph.points() as u32)?;
    Ok(found)
}
