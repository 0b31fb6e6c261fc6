// The marks of a text: one for each of its bytes where an operation stands.

ghost use Rattle.std.specs.Prelude.{◌≡◌, IfOk, None, map, replicate};
ghost use Rattle.pk_page.specs.Source.{mark_of, joined, joined_to_safe, joined_with};
ghost use Rattle.pk_page.specs.Marks.{blank, marked, marked_in, marked_by, marks_of, AreMarks};

use pk_findings::{Operation, verdict_of};
use pk_show::Verdict;
use std::alloc::{AllocError, Global};
use std::marker::Model;

/// What is shown of the operations of a place.
#[derive(Clone, Copy)]
pub(crate) enum Mark {
    Safe,
    Unknown,
    Unreachable,
}

/// The marks of a line's bytes.
#[derive(Drop)]
pub(crate) struct Row {
    pub(crate) marks: Vec<Option<Mark>>,
}

impl Model for Row {
    ghost use Rattle.std.specs.Prelude.{List, Option};
    ghost use Rattle.pk_page.specs.declared.marks.Mark.{Mark};

    ghost Value = { List (Option Mark) };

    ghost view = { λ r. r.marks.items };
}

fn mark_of(verdict: Verdict) -> Mark
    ensures { result ≡ mark_of verdict }
{
    match verdict {
        Verdict::Safe => Mark::Safe,
        Verdict::Unknown(_, _) => Mark::Unknown,
        Verdict::Unreachable => Mark::Unreachable,
    }
}

fn joined_to_safe(mark: Mark) -> Mark
    ensures { result ≡ joined_to_safe mark }
{
    match mark {
        Mark::Safe => Mark::Safe,
        Mark::Unknown => Mark::Unknown,
        Mark::Unreachable => Mark::Safe,
    }
}

// Of two operations at one place: unknown where one is, else safe where one is.
fn joined(mark: Mark, other: Mark) -> Mark
    ensures { result ≡ joined mark other }
{
    match mark {
        Mark::Safe => joined_to_safe(other),
        Mark::Unknown => Mark::Unknown,
        Mark::Unreachable => other,
    }
}

fn joined_with(seen: Option<Mark>, mark: Mark) -> Mark
    ensures { result ≡ joined_with seen mark }
{
    match seen {
        Some(seen) => joined(seen, mark),
        None => mark,
    }
}

fn blank_row(alloc: Global, size: usize) -> Result<Row, AllocError>
    ensures { IfOk result (λ row. row ≡ replicate size None) }
{
    let marks = vec![in alloc; None; size]?;
    Ok(Row { marks })
}

fn blank_rows(alloc: Global, lines: &[&[u8]]) -> Result<Vec<Row>, AllocError>
    ensures { IfOk result (λ rows. rows.items ≡ blank (map (λ line. line.now) lines.now)) }
{
    let mut rows = Vec::new(alloc);
    for k in 0..lines.len() {
        let row = blank_row(alloc, lines[k].len())?;
        rows.push(row)?;
    }
    Ok(rows)
}

#[tactic(auto, using(std::proofs::lemmas::List::set_past), unfolding(crate::specs::Marks::marked))]
fn mark_row(row: &mut Row, k: usize, mark: Mark)
    ensures { row.new ≡ marked row.old k mark }
{
    if k < row.marks.len() {
        row.marks[k] = Some(joined_with(row.marks[k], mark));
    }
}

#[tactic(auto, using(std::proofs::lemmas::List::set_past), unfolding(crate::specs::Marks::marked_in))]
fn mark_rows(rows: &mut Vec<Row>, line: usize, k: usize, mark: Mark)
    ensures { rows.new.items ≡ marked_in rows.old.items line k mark }
{
    if line < rows.len() {
        mark_row(&mut rows[line], k, mark);
    }
}

#[tactic(auto, unfolding(crate::specs::Marks::marked_by))]
fn mark_operation(rows: &mut Vec<Row>, operation: &Operation<'_>)
    ensures { rows.new.items ≡ marked_by rows.old.items operation.now }
{
    let at = operation.at;
    if at.line > 0 && at.column > 0 {
        let mark = mark_of(verdict_of(operation));
        mark_rows(rows, (at.line - 1) as usize, (at.column - 1) as usize, mark);
    }
}

fn marked(
    alloc: Global,
    lines: &[&[u8]],
    operations: &[Operation<'_>],
) -> Result<Vec<Row>, AllocError>
    ensures { IfOk result (λ rows. rows.items ≡ marks_of (map (λ line. line.now) lines.now) operations.now) }
{
    let mut rows = blank_rows(alloc, lines)?;
    for k in 0..operations.len() {
        mark_operation(&mut rows, &operations[k]);
    }
    Ok(rows)
}

/// The marks of each line's bytes.
pub(crate) fn marks(
    alloc: Global,
    lines: &[&[u8]],
    operations: &[Operation<'_>],
) -> Result<Vec<Row>, AllocError>
    ensures { IfOk result (λ rows. AreMarks (map (λ line. line.now) lines.now) operations.now rows.items) }
{
    marked(alloc, lines, operations)
}
