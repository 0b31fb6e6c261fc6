// The report, piece by piece.

ghost use Rattle.std.specs.Prelude.{◌≡◌, ◌++◌, [], IfOk, OnOk, length};
ghost use Rattle.std.specs.List.{flat_map, zip};
ghost use Rattle.std.specs.Option.{option_to_list};
ghost use Rattle.pk_graph.specs.Accesses.{accesses_of};
ghost use Rattle.pk_graph.specs.AccessViews.{access_views};
ghost use Rattle.pk_graph.specs.Shown.{graph_view};
ghost use Rattle.pk_report.specs.Reports.{access_line, last_line, unknown_in};
ghost use Rattle.pk_pieces.specs.Joined.{joined};
ghost use Rattle.pk_pieces.specs.Pieces.{found_in, lines_in, verdicts_in};

use crate::pieces::Piece;
use crate::places::Pieces;
use pk_graph::{Access, Graph, Verdict};
use pk_report::{unknown_count, write_accesses, write_first, write_last};
use std::alloc::{AllocError, Global};

/// A report so far: its first line and the lines of pieces, whose verdicts are kept for the lines of the accesses.
#[derive(Drop)]
pub struct Report {
    bytes: Vec<u8>,
    verdicts: Vec<Verdict>,
}

impl Report {
    /// A report with this first line.
    pub fn new(alloc: Global, first: Vec<u8>) -> Report
        ensures bytes { result.bytes.items ≡ first.items }
        ensures verdicts { result.verdicts.items ≡ [] }
    {
        Report {
            bytes: first,
            verdicts: Vec::new(alloc),
        }
    }

    /// The verdicts of the pieces.
    pub fn verdicts(&self) -> &[Verdict]
        ensures { result.now ≡ self.now.verdicts.items }
    {
        &self.verdicts
    }

    /// The lines and the verdicts of the next point's piece.
    pub fn add(&mut self, piece: &Piece) -> Result<(), AllocError>
        ensures bytes { OnOk result (self.new.bytes.items ≡ self.old.bytes.items ++ piece.now.lines) }
        ensures verdicts { OnOk result (self.new.verdicts.items ≡ self.old.verdicts.items ++ piece.now.verdicts) }
    {
        self.bytes.extend_from_slice(piece.lines())?;
        self.verdicts.extend_from_slice(piece.verdicts())
    }

    /// The whole, with the lines of the graph's accesses and the last line, and the number of unknown verdicts.
    pub fn end(
        self,
        alloc: Global,
        graph: &Graph,
        accesses: &[Access<'_>],
    ) -> Result<(Vec<u8>, usize), AllocError>
        requires accesses { access_views accesses.now ≡ accesses_of (graph_view graph.now) }
        requires verdicts { length self.verdicts.items ≡ length (accesses_of (graph_view graph.now)) }
        ensures bytes { IfOk result (λ r. r.0.items ≡ self.bytes.items
            ++ flat_map (access_line (graph_view graph.now).paths)
            (zip (accesses_of (graph_view graph.now)) self.verdicts.items)
            ++ last_line self.verdicts.items) }
        ensures unknown { IfOk result (λ r. r.1 ≡ unknown_in self.verdicts.items) }
    {
        let Report {
            mut bytes,
            verdicts,
        } = self;
        write_accesses(alloc, &mut bytes, graph.paths(), accesses, &verdicts)?;
        write_last(alloc, &mut bytes, &verdicts)?;
        Ok((bytes, unknown_count(&verdicts)))
    }
}

// A piece, if there is one.
fn add_if(report: &mut Report, piece: &Option<Piece>) -> Result<(), AllocError>
    ensures bytes { OnOk result
        (report.new.bytes.items ≡ report.old.bytes.items ++ lines_in (option_to_list piece.now)) }
    ensures verdicts { OnOk result
        (report.new.verdicts.items ≡ report.old.verdicts.items ++ verdicts_in (option_to_list piece.now)) }
{
    match piece {
        Some(piece) => report.add(piece),
        None => Ok(()),
    }
}

/// The report that pieces make which were put in any order, and its number of unknown verdicts.
pub fn join(
    alloc: Global,
    graph: &Graph,
    accesses: &[Access<'_>],
    elements: usize,
    pieces: &Pieces,
) -> Result<(Vec<u8>, usize), AllocError>
    requires accesses { access_views accesses.now ≡ accesses_of (graph_view graph.now) }
    requires verdicts { length (verdicts_in (found_in pieces.now)) ≡ length (accesses_of (graph_view graph.now)) }
    ensures bytes { IfOk result (λ r. r.0.items ≡ joined (graph_view graph.now) elements (found_in pieces.now)) }
    ensures unknown { IfOk result (λ r. r.1 ≡ unknown_in (verdicts_in (found_in pieces.now))) }
{
    let places = pieces.places();
    let mut first = Vec::new(alloc);
    write_first(alloc, &mut first, graph, elements)?;
    let mut report = Report::new(alloc, first);
    for k in 0..places.len() {
        add_if(&mut report, &places[k])?;
    }
    let told = report.end(alloc, graph, accesses)?;
    Ok(told)
}
