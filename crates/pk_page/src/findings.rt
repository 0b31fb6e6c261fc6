// The findings of a text.

ghost use Rattle.std.specs.Prelude.{◌≡◌, ◌++◌, IfOk, OnOk};
ghost use Rattle.pk_findings.specs.Words.{verdict_of};
ghost use Rattle.pk_findings.specs.Messages.{message, range_text};
ghost use Rattle.pk_html.specs.Parts.{parts_text};
ghost use Rattle.pk_page.specs.Findings.{range_parts, way_with, way_by, ways_parts, said_parts, told_parts, finding_with, finding_by, each_finding, findings_parts};

use crate::places::{write_path, write_place};
use pk_findings::{Operation, Text as Source, Way, verdict_of, write_message, write_range};
use pk_html::{Part, Tag, Text, write};
use pk_show::Verdict;
use std::alloc::{AllocError, Global};

fn range_text(alloc: Global, lo: i128, hi: i128) -> Result<Vec<u8>, AllocError>
    ensures { IfOk result (λ range. range.items ≡ range_text lo hi) }
{
    let mut range = Vec::new(alloc);
    write_range(&mut range, lo, hi)?;
    Ok(range)
}

fn write_range_of(alloc: Global, bytes: &mut Vec<u8>, lo: i128, hi: i128) -> Result<(), AllocError>
    ensures { OnOk result (bytes.new.items ≡ bytes.old.items ++ parts_text (range_parts lo hi)) }
{
    let range = range_text(alloc, lo, hi)?;
    write(
        bytes,
        &[
            Part::Tag(Tag::WayRange),
            Part::Text(Text { bytes: &range }),
            Part::Tag(Tag::WayEnd),
        ],
    )
}

#[tactic(auto, unfolding(crate::specs::Findings::way_with))]
fn write_way_with(
    alloc: Global,
    bytes: &mut Vec<u8>,
    number: u64,
    text: &Source<'_>,
    way: &Way<'_>,
    lo: i128,
    hi: i128,
) -> Result<(), AllocError>
    ensures { OnOk result (bytes.new.items ≡ bytes.old.items ++ parts_text (way_with number text.now way.now lo hi)) }
{
    write(bytes, &[Part::Tag(Tag::WayOpen)])?;
    write_path(alloc, bytes, number, text, &way.path)?;
    write_range_of(alloc, bytes, lo, hi)
}

fn write_way(
    alloc: Global,
    bytes: &mut Vec<u8>,
    number: u64,
    text: &Source<'_>,
    way: &Way<'_>,
) -> Result<(), AllocError>
    ensures { OnOk result (
        bytes.new.items ≡ bytes.old.items ++ parts_text (way_by number text.now way.now way.now.verdict)) }
{
    match way.verdict {
        Verdict::Safe => Ok(()),
        Verdict::Unknown(lo, hi) => write_way_with(alloc, bytes, number, text, way, lo, hi),
        Verdict::Unreachable => Ok(()),
    }
}

fn write_ways(
    alloc: Global,
    bytes: &mut Vec<u8>,
    number: u64,
    text: &Source<'_>,
    ways: &[Way<'_>],
) -> Result<(), AllocError>
    ensures { OnOk result (
        bytes.new.items ≡ bytes.old.items ++ parts_text (ways_parts number text.now ways.now)) }
{
    for k in 0..ways.len() {
        write_way(alloc, bytes, number, text, &ways[k])?;
    }
    Ok(())
}

fn message_text(
    alloc: Global,
    text: &Source<'_>,
    operation: &Operation<'_>,
    lo: i128,
    hi: i128,
) -> Result<Vec<u8>, AllocError>
    ensures { IfOk result (λ said. said.items ≡ message text.now operation.now lo hi) }
{
    let mut said = Vec::new(alloc);
    write_message(&mut said, text, operation, lo, hi)?;
    Ok(said)
}

fn write_said(
    alloc: Global,
    bytes: &mut Vec<u8>,
    text: &Source<'_>,
    operation: &Operation<'_>,
    lo: i128,
    hi: i128,
) -> Result<(), AllocError>
    ensures { OnOk result (
        bytes.new.items ≡ bytes.old.items ++ parts_text (said_parts text.now operation.now lo hi)) }
{
    let said = message_text(alloc, text, operation, lo, hi)?;
    write(
        bytes,
        &[
            Part::Tag(Tag::FindingSaid),
            Part::Text(Text { bytes: &said }),
            Part::Tag(Tag::WaysOpen),
        ],
    )
}

fn write_told(
    alloc: Global,
    bytes: &mut Vec<u8>,
    number: u64,
    text: &Source<'_>,
    operation: &Operation<'_>,
    lo: i128,
    hi: i128,
) -> Result<(), AllocError>
    ensures { OnOk result (bytes.new.items
        ≡ bytes.old.items ++ parts_text (told_parts number text.now operation.now lo hi)) }
{
    write_said(alloc, bytes, text, operation, lo, hi)?;
    write_ways(alloc, bytes, number, text, &operation.ways)?;
    write(bytes, &[Part::Tag(Tag::FindingEnd)])?;
    Ok(())
}

fn write_finding_with(
    alloc: Global,
    bytes: &mut Vec<u8>,
    number: u64,
    text: &Source<'_>,
    operation: &Operation<'_>,
    lo: i128,
    hi: i128,
) -> Result<(), AllocError>
    ensures { OnOk result (bytes.new.items
        ≡ bytes.old.items ++ parts_text (finding_with number text.now operation.now lo hi)) }
{
    write(bytes, &[Part::Tag(Tag::FindingOpen)])?;
    write_place(alloc, bytes, number, text, operation.at)?;
    write_told(alloc, bytes, number, text, operation, lo, hi)?;
    Ok(())
}

fn write_finding(
    alloc: Global,
    bytes: &mut Vec<u8>,
    number: u64,
    text: &Source<'_>,
    operation: &Operation<'_>,
) -> Result<(), AllocError>
    ensures { OnOk result (bytes.new.items
        ≡ bytes.old.items ++ parts_text (finding_by number text.now operation.now (verdict_of operation.now))) }
{
    match verdict_of(operation) {
        Verdict::Safe => Ok(()),
        Verdict::Unknown(lo, hi) => {
            write_finding_with(alloc, bytes, number, text, operation, lo, hi)
        }
        Verdict::Unreachable => Ok(()),
    }
}

fn write_each(
    alloc: Global,
    bytes: &mut Vec<u8>,
    number: u64,
    text: &Source<'_>,
    operations: &[Operation<'_>],
) -> Result<(), AllocError>
    ensures { OnOk result (
        bytes.new.items ≡ bytes.old.items ++ parts_text (each_finding number text.now operations.now)) }
{
    for k in 0..operations.len() {
        write_finding(alloc, bytes, number, text, &operations[k])?;
    }
    Ok(())
}

/// Writes the findings of a text: its operations that are unknown.
#[tactic(auto, unfolding(crate::specs::Findings::findings_parts))]
pub(crate) fn write_findings(
    alloc: Global,
    bytes: &mut Vec<u8>,
    number: u64,
    text: &Source<'_>,
    operations: &[Operation<'_>],
) -> Result<(), AllocError>
    ensures { OnOk result (
        bytes.new.items ≡ bytes.old.items ++ parts_text (findings_parts number text.now operations.now)) }
{
    write(bytes, &[Part::Tag(Tag::FindingsOpen)])?;
    write_each(alloc, bytes, number, text, operations)?;
    write(bytes, &[Part::Tag(Tag::FindingsEnd)])
}
