// Findings as a compiler writes its warnings.

ghost use Rattle.std.specs.Prelude.{◌≡◌, ◌++◌, IfOk, OnOk};
ghost use Rattle.std.specs.Option.{option_map};
ghost use Rattle.pk_ctypes.specs.Words.{fault_text};
ghost use Rattle.pk_findings.specs.Words.{is_unknown};
ghost use Rattle.pk_listing.specs.Listing as listing;
ghost use Rattle.pk_listing.specs.Sources.{own_line};

use crate::invariants::write_invariants;
use crate::places::{write, write_count, write_excerpt_with, write_head, write_path};
use crate::sources::{Source, is_own, own_line};
use pk_ctypes::{Fault, Pos};
use pk_findings::{
    Operation, Refused, Shown, Text, Way, counts_of, line_of, verdict_of, write_message,
    write_range,
};
use pk_show::{Counts, Path, Verdict};
use std::alloc::{AllocError, Global};

fn write_way_range(
    bytes: &mut Vec<u8>,
    is_one_of_many: bool,
    lo: i128,
    hi: i128,
) -> Result<(), AllocError>
    ensures { OnOk result (bytes.new.items ≡ bytes.old.items ++ listing.way_range is_one_of_many lo hi) }
{
    if is_one_of_many {
        write(bytes, b": ")?;
        write_range(bytes, lo, hi)
    } else {
        Ok(())
    }
}

#[tactic(auto, unfolding(crate::specs::Listing::way_line))]
fn write_way_line(
    alloc: Global,
    bytes: &mut Vec<u8>,
    text: &Text<'_>,
    is_one_of_many: bool,
    path: &Path<'_>,
    lo: i128,
    hi: i128,
) -> Result<(), AllocError>
    ensures { OnOk result (
        bytes.new.items ≡ bytes.old.items ++ listing.way_line text.now is_one_of_many path.now lo hi) }
{
    write_path(alloc, bytes, text, path)?;
    write_way_range(bytes, is_one_of_many, lo, hi)?;
    write(bytes, b"\n")
}

fn write_way(
    alloc: Global,
    bytes: &mut Vec<u8>,
    text: &Text<'_>,
    is_one_of_many: bool,
    way: &Way<'_>,
) -> Result<(), AllocError>
    ensures { OnOk result (
        bytes.new.items ≡ bytes.old.items ++ listing.way_text text.now is_one_of_many way.now.path way.now.verdict) }
{
    match way.verdict {
        Verdict::Safe => Ok(()),
        Verdict::Unknown(lo, hi) => {
            write_way_line(alloc, bytes, text, is_one_of_many, &way.path, lo, hi)
        }
        Verdict::Unreachable => Ok(()),
    }
}

fn write_ways(
    alloc: Global,
    bytes: &mut Vec<u8>,
    text: &Text<'_>,
    is_one_of_many: bool,
    ways: &[Way<'_>],
) -> Result<(), AllocError>
    ensures { OnOk result (bytes.new.items ≡ bytes.old.items ++ listing.ways_text text.now is_one_of_many ways.now) }
{
    for k in 0..ways.len() {
        write_way(alloc, bytes, text, is_one_of_many, &ways[k])?;
    }
    Ok(())
}

fn is_unknown(way: &Way<'_>) -> bool
    ensures { result ≡ is_unknown way.now.verdict }
{
    matches!(way.verdict, Verdict::Unknown(_, _))
}

fn unknown_ways(ways: &[Way<'_>]) -> usize
    ensures { result ≡ listing.unknown_ways ways.now }
{
    ways.iter().filter(|way| is_unknown(way)).count()
}

fn write_fault(alloc: Global, bytes: &mut Vec<u8>, fault: Fault) -> Result<(), AllocError>
    ensures { OnOk result (bytes.new.items ≡ bytes.old.items ++ fault_text fault) }
{
    let text = format!(in alloc; "{fault}")?;
    write(bytes, text.as_bytes())
}

fn write_fault_of(
    alloc: Global,
    bytes: &mut Vec<u8>,
    operation: &Operation<'_>,
) -> Result<(), AllocError>
    ensures { OnOk result (bytes.new.items ≡ bytes.old.items ++ fault_text operation.now.fault) }
{
    write_fault(alloc, bytes, operation.fault)
}

fn write_said_end(
    bytes: &mut Vec<u8>,
    text: &Text<'_>,
    operation: &Operation<'_>,
    lo: i128,
    hi: i128,
) -> Result<(), AllocError>
    ensures { OnOk result (bytes.new.items ≡ bytes.old.items ++ listing.said_end text.now operation.now lo hi) }
{
    write_message(bytes, text, operation, lo, hi)?;
    write(bytes, b"\n")
}

#[tactic(auto, unfolding(crate::specs::Listing::said_text))]
fn write_said(
    alloc: Global,
    bytes: &mut Vec<u8>,
    text: &Text<'_>,
    operation: &Operation<'_>,
    lo: i128,
    hi: i128,
) -> Result<(), AllocError>
    ensures { OnOk result (bytes.new.items ≡ bytes.old.items ++ listing.said_text text.now operation.now lo hi) }
{
    write(bytes, b": unknown [")?;
    write_fault_of(alloc, bytes, operation)?;
    write(bytes, b"]: ")?;
    write_said_end(bytes, text, operation, lo, hi)
}

fn write_head_at(
    alloc: Global,
    bytes: &mut Vec<u8>,
    own: Option<&[u8]>,
    text: &Text<'_>,
    at: Pos,
) -> Result<(), AllocError>
    ensures { OnOk result (
        bytes.new.items ≡ bytes.old.items ++ listing.head_at (option_map (λ own. own.now) own.entry) text.now at) }
{
    let has_column = is_own(own, line_of(text, at), at.column);
    write_head(alloc, bytes, has_column, text, at)
}

fn write_excerpt_at(
    bytes: &mut Vec<u8>,
    own: Option<&[u8]>,
    text: &Text<'_>,
    at: Pos,
) -> Result<(), AllocError>
    ensures { OnOk result (
        bytes.new.items ≡ bytes.old.items ++ listing.excerpt_at (option_map (λ own. own.now) own.entry) text.now at) }
{
    let line = line_of(text, at);
    write_excerpt_with(bytes, is_own(own, line, at.column), own, line, at.column)
}

fn write_all_ways(
    alloc: Global,
    bytes: &mut Vec<u8>,
    text: &Text<'_>,
    ways: &[Way<'_>],
) -> Result<(), AllocError>
    ensures { OnOk result (bytes.new.items ≡ bytes.old.items ++ listing.all_ways text.now ways.now) }
{
    let is_one_of_many = 1 < unknown_ways(ways);
    write_ways(alloc, bytes, text, is_one_of_many, ways)
}

// Where an operation is.
fn write_head_of(
    alloc: Global,
    bytes: &mut Vec<u8>,
    own: Option<&[u8]>,
    text: &Text<'_>,
    operation: &Operation<'_>,
) -> Result<(), AllocError>
    ensures { OnOk result (bytes.new.items
        ≡ bytes.old.items ++ listing.head_at (option_map (λ own. own.now) own.entry) text.now operation.now.at) }
{
    write_head_at(alloc, bytes, own, text, operation.at)
}

// Its line.
fn write_excerpt_of(
    bytes: &mut Vec<u8>,
    own: Option<&[u8]>,
    text: &Text<'_>,
    operation: &Operation<'_>,
) -> Result<(), AllocError>
    ensures { OnOk result (bytes.new.items
        ≡ bytes.old.items ++ listing.excerpt_at (option_map (λ own. own.now) own.entry) text.now operation.now.at) }
{
    write_excerpt_at(bytes, own, text, operation.at)
}

// The calls that lead to it.
fn write_ways_of(
    alloc: Global,
    bytes: &mut Vec<u8>,
    text: &Text<'_>,
    operation: &Operation<'_>,
) -> Result<(), AllocError>
    ensures { OnOk result (bytes.new.items ≡ bytes.old.items ++ listing.all_ways text.now operation.now.ways) }
{
    write_all_ways(alloc, bytes, text, &operation.ways)
}

fn write_finding_at(
    alloc: Global,
    bytes: &mut Vec<u8>,
    own: Option<&[u8]>,
    text: &Text<'_>,
    operation: &Operation<'_>,
    lo: i128,
    hi: i128,
) -> Result<(), AllocError>
    ensures { OnOk result (bytes.new.items ≡ bytes.old.items
        ++ listing.finding_at (option_map (λ own. own.now) own.entry) text.now operation.now lo hi) }
{
    write_head_of(alloc, bytes, own, text, operation)?;
    write_said(alloc, bytes, text, operation, lo, hi)?;
    write_excerpt_of(bytes, own, text, operation)?;
    write_ways_of(alloc, bytes, text, operation)
}

fn write_finding_with(
    alloc: Global,
    bytes: &mut Vec<u8>,
    sources: &[Source<'_>],
    text: &Text<'_>,
    operation: &Operation<'_>,
    lo: i128,
    hi: i128,
) -> Result<(), AllocError>
    ensures { OnOk result (
        bytes.new.items ≡ bytes.old.items ++ listing.finding_with sources.now text.now operation.now lo hi) }
{
    let own = own_line(alloc, sources, text, operation.at)?;
    write_finding_at(alloc, bytes, own, text, operation, lo, hi)
}

fn write_unreachable_words(bytes: &mut Vec<u8>) -> Result<(), AllocError>
    ensures { OnOk result (bytes.new.items ≡ bytes.old.items ++ listing.unreachable_words) }
{
    write(
        bytes,
        b"]: no run comes here: what stands before it always fails, never ends or leads elsewhere\n",
    )
}

fn write_fault_end(alloc: Global, bytes: &mut Vec<u8>, fault: Fault) -> Result<(), AllocError>
    ensures { OnOk result (bytes.new.items ≡ bytes.old.items ++ listing.fault_end fault) }
{
    write_fault(alloc, bytes, fault)?;
    write_unreachable_words(bytes)
}

#[tactic(auto, unfolding(crate::specs::Listing::unreachable_at))]
fn write_unreachable_at(
    alloc: Global,
    bytes: &mut Vec<u8>,
    own: Option<&[u8]>,
    text: &Text<'_>,
    at: Pos,
    fault: Fault,
) -> Result<(), AllocError>
    ensures { OnOk result (bytes.new.items ≡ bytes.old.items
        ++ listing.unreachable_at (option_map (λ own. own.now) own.entry) text.now at fault) }
{
    write_head_at(alloc, bytes, own, text, at)?;
    write(bytes, b": unreachable [")?;
    write_fault_end(alloc, bytes, fault)
}

fn write_unreachable_of(
    alloc: Global,
    bytes: &mut Vec<u8>,
    sources: &[Source<'_>],
    text: &Text<'_>,
    operation: &Operation<'_>,
) -> Result<(), AllocError>
    ensures { OnOk result (bytes.new.items ≡ bytes.old.items
        ++ listing.unreachable_at (own_line sources.now text.now operation.now.at) text.now operation.now.at
        operation.now.fault) }
{
    let own = own_line(alloc, sources, text, operation.at)?;
    write_unreachable_at(alloc, bytes, own, text, operation.at, operation.fault)
}

fn write_finding(
    alloc: Global,
    bytes: &mut Vec<u8>,
    sources: &[Source<'_>],
    text: &Text<'_>,
    operation: &Operation<'_>,
) -> Result<(), AllocError>
    ensures { OnOk result (bytes.new.items
        ≡ bytes.old.items ++ listing.finding_text sources.now text.now operation.now) }
{
    match verdict_of(operation) {
        Verdict::Safe => Ok(()),
        Verdict::Unknown(lo, hi) => {
            write_finding_with(alloc, bytes, sources, text, operation, lo, hi)
        }
        Verdict::Unreachable => write_unreachable_of(alloc, bytes, sources, text, operation),
    }
}

fn write_findings(
    alloc: Global,
    bytes: &mut Vec<u8>,
    sources: &[Source<'_>],
    text: &Text<'_>,
    operations: &[Operation<'_>],
) -> Result<(), AllocError>
    ensures { OnOk result (bytes.new.items
        ≡ bytes.old.items ++ listing.findings_text sources.now text.now operations.now) }
{
    for k in 0..operations.len() {
        write_finding(alloc, bytes, sources, text, &operations[k])?;
    }
    Ok(())
}

fn write_unreachable(bytes: &mut Vec<u8>, count: u64) -> Result<(), AllocError>
    ensures { OnOk result (bytes.new.items ≡ bytes.old.items ++ listing.unreachable_text count) }
{
    write_count(bytes, count)?;
    write(bytes, b" unreachable\n")
}

fn write_counts(bytes: &mut Vec<u8>, counts: Counts) -> Result<(), AllocError>
    ensures { OnOk result (bytes.new.items ≡ bytes.old.items ++ listing.counts_text counts) }
{
    write_count(bytes, counts.safe)?;
    write(bytes, b" safe, ")?;
    write_count(bytes, counts.unknown)?;
    write(bytes, b" unknown, ")?;
    write_unreachable(bytes, counts.unreachable)?;
    Ok(())
}

fn write_summary(
    bytes: &mut Vec<u8>,
    name: &[u8],
    operations: usize,
    counts: Counts,
) -> Result<(), AllocError>
    ensures { OnOk result (bytes.new.items ≡ bytes.old.items ++ listing.summary_line name.now operations counts) }
{
    write(bytes, name)?;
    write(bytes, b": ")?;
    write_count(bytes, operations as u64)?;
    write(bytes, b" operations: ")?;
    write_counts(bytes, counts)?;
    Ok(())
}

fn write_shown(
    alloc: Global,
    bytes: &mut Vec<u8>,
    sources: &[Source<'_>],
    with_invariants: bool,
    shown: &Shown<'_>,
) -> Result<(), AllocError>
    ensures { OnOk result (
        bytes.new.items ≡ bytes.old.items ++ listing.shown_text sources.now with_invariants shown.now) }
{
    write_findings(alloc, bytes, sources, &shown.text, &shown.operations)?;
    write_invariants(alloc, bytes, with_invariants, &shown.text, &shown.rows)?;
    write_summary(
        bytes,
        shown.text.name,
        shown.operations.len(),
        counts_of(&shown.operations),
    )
}

/// The findings of some reports, one report after the other, each with its counts, and with what holds at its heads
/// where that is asked for. The files' own lines are shown, where the sources have them.
pub fn listing(
    alloc: Global,
    sources: &[Source<'_>],
    with_invariants: bool,
    shown: &[Shown<'_>],
) -> Result<Vec<u8>, AllocError>
    ensures { IfOk result (λ bytes. bytes.items ≡ listing.listing_text sources.now with_invariants shown.now) }
{
    let mut bytes = Vec::new(alloc);
    for k in 0..shown.len() {
        write_shown(alloc, &mut bytes, sources, with_invariants, &shown[k])?;
    }
    Ok(bytes)
}

fn write_said_line(bytes: &mut Vec<u8>, said: &[u8]) -> Result<(), AllocError>
    ensures { OnOk result (bytes.new.items ≡ bytes.old.items ++ listing.said_line said.now) }
{
    write(bytes, b": ")?;
    write(bytes, said)?;
    write(bytes, b"\n")
}

#[tactic(auto, unfolding(crate::specs::Listing::refusal_at))]
fn write_refusal_at(
    alloc: Global,
    bytes: &mut Vec<u8>,
    own: Option<&[u8]>,
    text: &Text<'_>,
    said: &[u8],
    at: Pos,
) -> Result<(), AllocError>
    ensures { OnOk result (bytes.new.items ≡ bytes.old.items
        ++ listing.refusal_at (option_map (λ own. own.now) own.entry) text.now said.now at) }
{
    write_head_at(alloc, bytes, own, text, at)?;
    write_said_line(bytes, said)?;
    write_excerpt_at(bytes, own, text, at)
}

fn write_refusal_with(
    alloc: Global,
    bytes: &mut Vec<u8>,
    sources: &[Source<'_>],
    refused: &Refused<'_>,
    at: Pos,
) -> Result<(), AllocError>
    ensures { OnOk result (bytes.new.items ≡ bytes.old.items ++ listing.refusal_by sources.now refused.now (Some at)) }
{
    let own = own_line(alloc, sources, &refused.text, at)?;
    write_refusal_at(alloc, bytes, own, &refused.text, refused.said, at)
}

fn write_refusal(
    alloc: Global,
    bytes: &mut Vec<u8>,
    sources: &[Source<'_>],
    refused: &Refused<'_>,
) -> Result<(), AllocError>
    ensures { OnOk result (bytes.new.items ≡ bytes.old.items ++ listing.refusal_text sources.now refused.now) }
{
    match refused.at {
        Some(at) => write_refusal_with(alloc, bytes, sources, refused, at),
        None => {
            write(bytes, refused.text.name)?;
            write_said_line(bytes, refused.said)
        }
    }
}

/// What was said of texts that have no report, each at its place, with the files' own lines where the sources have them.
pub fn refusals(
    alloc: Global,
    sources: &[Source<'_>],
    refused: &[Refused<'_>],
) -> Result<Vec<u8>, AllocError>
    ensures { IfOk result (λ bytes. bytes.items ≡ listing.refusals_text sources.now refused.now) }
{
    let mut bytes = Vec::new(alloc);
    for k in 0..refused.len() {
        write_refusal(alloc, &mut bytes, sources, &refused[k])?;
    }
    Ok(bytes)
}
