// What the equation of a point gives on cells.

ghost use Rattle.std.specs.Prelude.{◌≡◌, ◌<◌, IfOk, OnOk, length, map, slice_index_or, All};
ghost use Rattle.std.specs.Arc.{arc_value};
ghost use Rattle.pk_graph.specs.Shown.{graph_view};
ghost use Rattle.pk_state.specs.Facts.{Stated};
ghost use Rattle.pk_phases.specs.declared.equations.Cell.{Cell as CellOf};
ghost use Rattle.pk_phases.specs.declared.equations.Cell.TheVariants.{Value};
ghost use Rattle.pk_analysis.specs.Flows.{stated};
ghost use Rattle.pk_sound.specs.Families.{given_on};
ghost use Rattle.pk_cert_check.specs.Checked.{cell_in, known_by, HoldStates, HasPointsAlone};

use pk_analysis::Analysis;
use pk_iterate::System;
use pk_phases::Cell;
use pk_state::State;
use std::alloc::{AllocError, Global};
use std::sync::Arc;

// Puts the cells of these points in place of what the vector has, each shared once more.
fn share<'f>(
    out: &mut Vec<Arc<Cell<State<'f>>>>,
    cells: &[Arc<Cell<State<'f>>>],
    points: &[u32],
) -> Result<(), AllocError>
    requires { All (λ u. u < length cells.now) points.now }
    ensures { (d : CellOf Stated) → OnOk result (map arc_value out.new.items
        ≡ map (λ u. slice_index_or (map arc_value cells.now) u d) points.now) }
{
    out.clear();
    for u in points {
        out.push(cells[*u as usize].clone()?)?;
    }
    Ok(())
}

/// What the equation of a point gives on the cells. The vector of inputs is there so that none is made for each point.
pub(crate) fn run<'f>(
    alloc: Global,
    analysis: &Analysis<'f>,
    cells: &[Arc<Cell<State<'f>>>],
    inputs: &mut Vec<Arc<Cell<State<'f>>>>,
    v: u32,
) -> Result<Cell<State<'f>>, AllocError>
    requires points { HasPointsAlone analysis.now }
    requires cells { HoldStates analysis.now.layout (length (graph_view analysis.now.graph).points)
        (map arc_value cells.now) }
    ensures { let a = analysis.now in IfOk result (λ c. c ≡ Value (stated a.layout
        (given_on (graph_view a.graph) a.layout (known_by a.layout (map arc_value cells.now)) v))) }
{
    share(inputs, cells, analysis.reads(v))?;
    analysis.apply(alloc, v, inputs)
}
