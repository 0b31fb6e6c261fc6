// The report of a graph by what is kept of items.

ghost use Rattle.std.specs.Prelude.{◌≡◌, ℕ, IfOk, List, length, map};
ghost use Rattle.std.specs.Arc.{arc_value};
ghost use Rattle.pk_graph.specs.Accesses.{accesses_of};
ghost use Rattle.pk_graph.specs.AccessViews.{access_views};
ghost use Rattle.pk_graph.specs.Graphs.{kinds_of};
ghost use Rattle.pk_graph.specs.Shown.{graph_view};
ghost use Rattle.pk_state.specs.Facts.{Stated};
ghost use Rattle.pk_transfer.specs.Trees.{IsOver};
ghost use Rattle.pk_iterate.specs.Behaviour.{HoldEach};
ghost use Rattle.pk_phases.specs.declared.equations.Cell.{Cell};
ghost use Rattle.pk_phases.specs.Equations.{may_hold_of};
ghost use Rattle.pk_analysis.specs.Flows.{equations_of, IsOverFlow};
ghost use Rattle.pk_report.specs.Reports.{AreHeads, report_text, unknown_in};
ghost use Rattle.pk_pieces.specs.Joined.{verdicts_of};
ghost use Rattle.pk_parts.specs.Kept.{AreKept, graph_in, part_of, states_by};

use crate::cells::pieces_by_cells;
use crate::kept::{Kept, put_kept};
use pk_analysis::Analysis;
use pk_graph::{Access, Graph, accesses};
use pk_phases::Cell;
use pk_pieces::{Pieces, any_order_is_put, join, reports_are_joined};
use pk_report::head_marks;
use pk_state::{Frame, State};
use std::alloc::{AllocError, Global};
use std::marker::Model;
use std::sync::Arc;

/// An analysis of a graph of which a report is told, of all points or of its heads.
#[derive(Drop)]
pub struct Reporting<'f> {
    analysis: Analysis<'f>,
    graph: &'f Graph,
    frame: &'f Frame,
    accesses: Vec<Access<'f>>,
    heads: Vec<u32>,
    marks: Vec<bool>,
    all: bool,
}

impl<'f> Model for Reporting<'f> {
    ghost use Rattle.std.specs.Coded.{codes};
    ghost use Rattle.pk_graph.specs.contracts.graphs.Graph as made;
    ghost use Rattle.pk_parts.specs.Kept.{ReportingOf, IsReady};

    ghost Value = { ReportingOf };

    ghost coded = { Prim.hlevel (codes, made.the_row.coded) };

    ghost view = { λ r. record { flow = r.analysis; all = r.all; heads = r.heads.items } };

    ghost invariant = { λ r. IsReady (record { flow = r.analysis; all = r.all; heads = r.heads.items }) r.graph.now
        r.frame.now r.accesses.items r.marks.items };
}

// The accesses of a graph, and the marks of these heads.
fn accesses_and_marks<'f>(
    alloc: Global,
    graph: &'f Graph,
    heads: &[u32],
) -> Result<(Vec<Access<'f>>, Vec<bool>), AllocError>
    ensures accesses { IfOk result (λ r. access_views r.0.items ≡ accesses_of (graph_view graph.now)) }
    ensures marks { IfOk result (λ r. AreHeads (length (graph_view graph.now).points) heads.now r.1.items) }
{
    let accesses = accesses(alloc, graph)?;
    let marks = head_marks(alloc, heads, graph.points())?;
    Ok((accesses, marks))
}

impl<'f> Reporting<'f> {
    /// The report of a graph by its analysis, with these heads.
    pub fn new(
        alloc: Global,
        graph: &'f Graph,
        frame: &'f Frame,
        analysis: Analysis<'f>,
        heads: Vec<u32>,
        all: bool,
    ) -> Result<Reporting<'f>, AllocError>
        requires graph { graph_view graph.now ≡ graph_view analysis.graph }
        requires layout { frame.now ≡ analysis.layout }
        requires over { IsOver (kinds_of (graph_view graph.now)) frame.now }
        ensures { IfOk result (λ r. r ≡ record { flow = analysis.entry; all = all; heads = heads.items }) }
    {
        let (accesses, marks) = accesses_and_marks(alloc, graph, &heads)?;
        Ok(Reporting {
            analysis,
            graph,
            frame,
            accesses,
            heads,
            marks,
            all,
        })
    }

    /// The analysis that is iterated.
    pub fn analysis(&self) -> &Analysis<'f>
        ensures { result.now ≡ self.now.flow }
    {
        &self.analysis
    }

    /// What is kept of an item, by its points and their cells.
    pub fn part_of(
        &self,
        alloc: Global,
        points: &[u32],
        cells: &[Arc<Cell<State<'f>>>],
    ) -> Result<Kept, AllocError>
        requires { HoldEach (may_hold_of (equations_of self.now.flow) (IsOverFlow self.now.flow)) points.now
            (map arc_value cells.now) }
        ensures { IfOk result (λ kept. kept ≡ part_of self.now points.now (map arc_value cells.now)) }
    {
        let pieces = pieces_by_cells(
            alloc,
            self.graph,
            self.frame,
            &self.accesses,
            &self.heads,
            &self.marks,
            self.all,
            points,
            cells,
        )?;
        Ok(Kept::new(pieces))
    }

    /// The report, by what is kept of all items, and its number of unknown verdicts.
    pub fn report(
        &self,
        alloc: Global,
        elements: usize,
        kept: Vec<Kept>,
    ) -> Result<(Vec<u8>, usize), AllocError>
        requires kept { (cell : ℕ → Cell Stated) × (items : List (List ℕ)) × AreKept self.now cell items kept.items }
        ensures bytes { IfOk result (λ r. (cell : ℕ → Cell Stated) (items : List (List ℕ)) →
            AreKept self.now cell items kept.items →
            r.0.items ≡ report_text self.now.all (graph_in self.now) self.now.heads elements (states_by self.now cell)
            (accesses_of (graph_in self.now)) (verdicts_of (graph_in self.now) (states_by self.now cell))) }
        ensures unknown { IfOk result (λ r. (cell : ℕ → Cell Stated) (items : List (List ℕ)) →
            AreKept self.now cell items kept.items →
            r.1 ≡ unknown_in (verdicts_of (graph_in self.now) (states_by self.now cell))) }
    {
        any_order_is_put();
        reports_are_joined();
        let mut pieces = Pieces::new(alloc, self.graph.points())?;
        put_kept(&mut pieces, kept);
        let told = join(alloc, self.graph, &self.accesses, elements, &pieces)?;
        Ok(told)
    }
}
