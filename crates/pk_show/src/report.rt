// The whole report.

ghost use Rattle.std.specs.Prelude.{◌≡◌, ◌-◌, ◌≤◌, [], ◌∷◌, ◌++◌, IfOk, IfErr, OnOk, None, Some, length, map, is_some, slice_index_or};
ghost use Rattle.pk_show.specs.declared.report.ReadError.TheVariants.{Memory};
ghost use Rattle.pk_show.specs.Paths.{path_in};
ghost use Rattle.pk_show.specs.Reports as reports;

use crate::paths::read_path;
use crate::pieces::is_same;
use crate::reading::{access, bound, counts, heading, opening, value};
use crate::rows::{Access, Bound, Counts, Heading, Opening, Value};
use pk_origin::lines;
use std::alloc::{AllocError, Global};

/// A line of a report.
#[derive(Drop)]
pub enum Row<'t> {
    Opening(Opening<'t>),
    Heading(Heading<'t>),
    /// In place of what is known at a point: no run comes there.
    NoRun,
    Value(Value<'t>),
    Bound(Bound<'t>),
    Access(Access<'t>),
    Counts(Counts),
}

/// Of what kind a line is.
#[derive(Clone, Copy)]
pub enum Kind {
    Opening,
    Heading,
    NoRun,
    Value,
    Bound,
    Access,
    Counts,
}

/// The kind of a row.
pub fn kind_of(row: &Row<'_>) -> Kind
    ensures { result ≡ reports.kind_of row.now }
{
    match row {
        Row::Opening(_) => Kind::Opening,
        Row::Heading(_) => Kind::Heading,
        Row::NoRun => Kind::NoRun,
        Row::Value(_) => Kind::Value,
        Row::Bound(_) => Kind::Bound,
        Row::Access(_) => Kind::Access,
        Row::Counts(_) => Kind::Counts,
    }
}

// The row of a point that a line is.
#[tactic(auto, unfolding(crate::specs::Reports::point_row_in))]
fn point_row(line: &[u8]) -> Option<Row<'_>>
    ensures { result ≡ reports.point_row_in line.now }
{
    if let Some(heading) = heading(true, line) {
        return Some(Row::Heading(heading));
    }
    if let Some(heading) = heading(false, line) {
        return Some(Row::Heading(heading));
    }
    if is_same(line, b"  unreachable") {
        return Some(Row::NoRun);
    }
    if let Some(value) = value(line) {
        return Some(Row::Value(value));
    }
    match bound(line) {
        Some(bound) => Some(Row::Bound(bound)),
        None => None,
    }
}

// The row that a line is.
#[tactic(auto, unfolding(crate::specs::Reports::row_in))]
fn row_of(line: &[u8]) -> Option<Row<'_>>
    ensures { result ≡ reports.row_in line.now }
{
    if let Some(opening) = opening(line) {
        return Some(Row::Opening(opening));
    }
    if let Some(row) = point_row(line) {
        return Some(row);
    }
    if let Some(access) = access(line) {
        return Some(Row::Access(access));
    }
    match counts(line) {
        Some(counts) => Some(Row::Counts(counts)),
        None => None,
    }
}

fn goes_on(next: Kind) -> bool
    ensures { result ≡ reports.goes_on next }
{
    matches!(next, Kind::Heading | Kind::Access | Kind::Counts)
}

fn follows_heading(next: Kind) -> bool
    ensures { result ≡ reports.follows_heading next }
{
    matches!(
        next,
        Kind::Heading | Kind::NoRun | Kind::Value | Kind::Access | Kind::Counts
    )
}

fn follows_value(next: Kind) -> bool
    ensures { result ≡ reports.follows_value next }
{
    matches!(
        next,
        Kind::Heading | Kind::Value | Kind::Bound | Kind::Access | Kind::Counts
    )
}

fn follows_bound(next: Kind) -> bool
    ensures { result ≡ reports.follows_bound next }
{
    matches!(
        next,
        Kind::Heading | Kind::Bound | Kind::Access | Kind::Counts
    )
}

fn follows_access(next: Kind) -> bool
    ensures { result ≡ reports.follows_access next }
{
    matches!(next, Kind::Access | Kind::Counts)
}

// Whether a line may stand right behind another.
fn may_follow(before: Kind, next: Kind) -> bool
    ensures { result ≡ reports.may_follow before next }
{
    match before {
        Kind::Opening => goes_on(next),
        Kind::Heading => follows_heading(next),
        Kind::NoRun => goes_on(next),
        Kind::Value => follows_value(next),
        Kind::Bound => follows_bound(next),
        Kind::Access => follows_access(next),
        Kind::Counts => false,
    }
}

fn is_opening(kind: Kind) -> bool
    ensures { result ≡ reports.is_opening kind }
{
    matches!(kind, Kind::Opening)
}

fn is_counts(kind: Kind) -> bool
    ensures { result ≡ reports.is_counts kind }
{
    matches!(kind, Kind::Counts)
}

/// Whether a line is the first, or may follow the one before it.
pub fn may_stand(before: Option<Kind>, next: Kind) -> bool
    ensures { result ≡ reports.may_stand before next }
{
    match before {
        Some(before) => may_follow(before, next),
        None => is_opening(next),
    }
}

fn is_end(before: Option<Kind>) -> bool
    ensures { result ≡ reports.is_end before }
{
    match before {
        Some(before) => is_counts(before),
        None => false,
    }
}

fn is_path(alloc: Global, text: &[u8]) -> Result<bool, AllocError>
    ensures { IfOk result (λ b. b ≡ is_some (path_in text.now)) }
{
    let path = read_path(alloc, text)?;
    Ok(path.is_some())
}

// Whether what tells a call path tells one.
#[tactic(auto, unfolding(crate::specs::Reports::has_path))]
fn has_path(alloc: Global, row: &Row<'_>) -> Result<bool, AllocError>
    ensures { IfOk result (λ b. b ≡ reports.has_path row.now) }
{
    match row {
        Row::Opening(_) => Ok(true),
        Row::Heading(heading) => is_path(alloc, heading.path),
        Row::NoRun => Ok(true),
        Row::Value(_) => Ok(true),
        Row::Bound(_) => Ok(true),
        Row::Access(access) => is_path(alloc, access.path),
        Row::Counts(_) => Ok(true),
    }
}

#[tactic(auto, unfolding(crate::specs::Reports::fits))]
fn fits(alloc: Global, before: Option<Kind>, row: &Row<'_>) -> Result<bool, AllocError>
    ensures { IfOk result (λ b. b ≡ reports.fits before row.now) }
{
    if may_stand(before, kind_of(row)) {
        has_path(alloc, row)
    } else {
        Ok(false)
    }
}

/// Why there are no rows.
#[derive(Clone, Copy)]
pub enum ReadError {
    /// The bytes are no report: this line, counted from 0, is the first that is none, can't stand there, or is missing.
    Refused(usize),
    Memory,
}

impl From<AllocError> for ReadError {
    ghost from_gives = { λ _ e. e ≡ Memory };

    fn from(_: AllocError) -> Self {
        ReadError::Memory
    }
}

/// The row that a line is, where it may stand behind the one before it.
#[tactic(auto, unfolding(crate::specs::Reports::next_in))]
pub fn next_row<'t>(
    alloc: Global,
    before: Option<Kind>,
    line: &'t [u8],
) -> Result<Option<Row<'t>>, AllocError>
    ensures { IfOk result (λ row. row ≡ reports.next_in before line.now) }
{
    let Some(row) = row_of(line) else {
        return Ok(None);
    };
    match fits(alloc, before, &row) {
        Ok(true) => Ok(Some(row)),
        Ok(false) => Ok(None),
        Err(error) => Err(error),
    }
}

pub(crate) fn add<T: Drop>(list: &mut Vec<T>, item: T) -> Result<(), AllocError>
    ensures { OnOk result (list.new.items ≡ list.old.items ++ item ∷ []) }
{
    match list.push(item) {
        Ok(()) => Ok(()),
        Err(error) => Err(error.into()),
    }
}

// The rows that lines are, or the first line that can't stand there.
fn rows<'t>(alloc: Global, lines: &[&'t [u8]]) -> Result<Vec<Row<'t>>, ReadError>
    ensures rows { IfOk result (λ rows. reports.rows_in (map (λ line. line.now) lines.now) None ≡ Some rows.items) }
    ensures refused { IfErr result (reports.AreNoRows (map (λ line. line.now) lines.now)) }
{
    let mut rows = Vec::new(alloc);
    let mut before = None;
    for k in 0..lines.len() {
        let Some(row) = next_row(alloc, before, lines[k])? else {
            return Err(ReadError::Refused(k));
        };
        before = Some(kind_of(&row));
        add(&mut rows, row)?;
    }
    if is_end(before) {
        Ok(rows)
    } else {
        Err(ReadError::Refused(lines.len()))
    }
}

// How many of a text's pieces end with a newline.
fn ended_count(pieces: &[&[u8]]) -> usize
    ensures value { result ≡ length (map (λ piece. piece.now) pieces.now) - 1 }
    ensures within { result ≤ length pieces.now }
{
    pieces.len().saturating_sub(1)
}

// What stands behind the last newline.
fn behind<'t>(pieces: &[&'t [u8]]) -> &'t [u8]
    ensures { result.now ≡ slice_index_or (map (λ piece. piece.now) pieces.now)
        (length (map (λ piece. piece.now) pieces.now) - 1) [] }
{
    if pieces.is_empty() {
        b""
    } else {
        pieces[pieces.len() - 1]
    }
}

/// The rows of a report, or the first line that can't stand where it does.
#[tactic(auto, unfolding(crate::specs::Reports::report_in, crate::specs::Reports::first_wrong))]
pub fn read<'t>(alloc: Global, text: &'t [u8]) -> Result<Vec<Row<'t>>, ReadError>
    ensures rows { IfOk result (λ rows. reports.report_in text.now ≡ Some rows.items) }
    ensures refused { IfErr result (reports.IsRefusal text.now) }
{
    let pieces = lines(alloc, text)?;
    let ended = pieces.split_at(ended_count(&pieces)).0;
    let rows = rows(alloc, ended)?;
    if is_same(behind(&pieces), b"") {
        Ok(rows)
    } else {
        Err(ReadError::Refused(ended.len()))
    }
}
