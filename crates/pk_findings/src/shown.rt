// A report and the text that it is on.

ghost use Rattle.std.specs.Prelude.{◌≡◌, IfOk, IfErr, MatchOption, false};
ghost use Rattle.std.specs.List.{list_all};
ghost use Rattle.pk_show.specs.Paths.{path_in};
ghost use Rattle.pk_findings.specs.declared.shown.ShowError.TheVariants.{Memory};
ghost use Rattle.pk_findings.specs.Shown.{are_calls_within, is_place_within, is_row_within, ArePlaced, IsShown, IsNone};

use crate::grouping::operations;
use crate::operations::{Operation, cases};
use crate::texts::{Text, is_within, text_of};
use pk_ctypes::Pos;
use pk_show::{Call, ReadError, Row, read, read_path};
use std::alloc::{AllocError, Global};
use std::marker::Model;

/// A text and the report on it: the report's rows, and the operations that they tell, in the order of their places.
#[derive(Drop)]
pub struct Shown<'t> {
    pub text: Text<'t>,
    pub rows: Vec<Row<'t>>,
    pub operations: Vec<Operation<'t>>,
}

impl<'t> Model for Shown<'t> {
    ghost use Rattle.pk_findings.specs.Shown.{ShownOf};

    ghost Value = { ShownOf };

    ghost view = { λ s. record { text = s.text; rows = s.rows.items; operations = s.operations.items } };
}

/// Why there is nothing to show.
#[derive(Clone, Copy)]
pub enum ShowError {
    /// This line of the report, counted from 0, is the first that is none, can't stand there, or is missing.
    NoReport(usize),
    /// The report tells a place that isn't in the text.
    OtherText,
    Memory,
}

impl From<AllocError> for ShowError {
    ghost from_gives = { λ _ e. e ≡ Memory };

    fn from(_: AllocError) -> Self {
        ShowError::Memory
    }
}

fn are_calls_within(text: &Text<'_>, calls: &[Call<'_>]) -> bool
    ensures { result ≡ are_calls_within text.now calls.now }
{
    for k in 0..calls.len() {
        let call = &calls[k];
        if !is_within(text, call.at) {
            return false;
        }
    }
    true
}

// Whether a place and each call of a path stand in the text.
fn is_place_within(alloc: Global, text: &Text<'_>, at: Pos, path: &[u8]) -> Result<bool, AllocError>
    ensures { IfOk result (λ b. b ≡ is_place_within text.now at (path_in path.now)) }
{
    if !is_within(text, at) {
        return Ok(false);
    }
    match read_path(alloc, path)? {
        Some(path) => Ok(are_calls_within(text, &path.calls)),
        None => Ok(false),
    }
}

// Whether each place that a row tells stands in the text.
#[tactic(auto, unfolding(crate::specs::Shown::is_row_within))]
fn is_row_within(alloc: Global, text: &Text<'_>, row: &Row<'_>) -> Result<bool, AllocError>
    ensures { IfOk result (λ b. b ≡ is_row_within text.now row.now) }
{
    match row {
        Row::Opening(_) => Ok(true),
        Row::Heading(heading) => is_place_within(alloc, text, heading.at, heading.path),
        Row::NoRun => Ok(true),
        Row::Value(_) => Ok(true),
        Row::Bound(_) => Ok(true),
        Row::Access(access) => is_place_within(alloc, text, access.at, access.path),
        Row::Counts(_) => Ok(true),
    }
}

fn are_rows_within(alloc: Global, text: &Text<'_>, rows: &[Row<'_>]) -> Result<bool, AllocError>
    ensures { IfOk result (λ b. b ≡ list_all (is_row_within text.now) rows.now) }
{
    for k in 0..rows.len() {
        if !is_row_within(alloc, text, &rows[k])? {
            return Ok(false);
        }
    }
    Ok(true)
}

// The operations of rows, where each place that they tell stands in the text.
fn operations_within<'t>(
    alloc: Global,
    text: &Text<'_>,
    rows: &[Row<'t>],
) -> Result<Option<Vec<Operation<'t>>>, AllocError>
    ensures { IfOk result (λ found. MatchOption found (list_all (is_row_within text.now) rows.now ≡ false)
        (λ operations. ArePlaced text.now rows.now operations.items)) }
{
    let within = are_rows_within(alloc, text, rows)?;
    if within {
        let cases = cases(alloc, rows)?;
        let operations = operations(alloc, cases)?;
        Ok(Some(operations))
    } else {
        Ok(None)
    }
}

/// A report and the text that it is on, whose name is that of what no marker names.
#[tactic(auto, using(crate::proofs::WithinLemmas::other_text))]
pub fn look<'t>(
    alloc: Global,
    name: &'t [u8],
    bytes: &'t [u8],
    report: &'t [u8],
) -> Result<Shown<'t>, ShowError>
    ensures shown { IfOk result (λ shown. IsShown name.now bytes.now report.now shown) }
    ensures refused { IfErr result (IsNone bytes.now report.now) }
{
    let rows = match read(alloc, report) {
        Ok(rows) => rows,
        Err(ReadError::Refused(line)) => return Err(ShowError::NoReport(line)),
        Err(ReadError::Memory) => return Err(ShowError::Memory),
    };
    let text = text_of(alloc, name, bytes)?;
    match operations_within(alloc, &text, &rows)? {
        Some(operations) => Ok(Shown {
            text,
            rows,
            operations,
        }),
        None => Err(ShowError::OtherText),
    }
}
