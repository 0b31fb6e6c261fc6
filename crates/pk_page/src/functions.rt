// The functions of a text, with how many of their operations have each verdict.

ghost use Rattle.std.specs.Prelude.{◌≡◌, ◌++◌, ◌<◌, ◌≤◌, ◌^◌, OnOk};
ghost use Rattle.pk_lex.specs.Bytes.{same};
ghost use Rattle.pk_findings.specs.Words.{verdict_of};
ghost use Rattle.pk_html.specs.Parts.{parts_text};
ghost use Rattle.pk_page.specs.Functions.{last_called, function_of, none, counted, row_parts, rows_from, rows_of, table_parts, AreBelow};

use pk_findings::{Operation, verdict_of};
use pk_html::{Part, Tag, Text, write};
use pk_show::{Counts, Path, Verdict};
use std::alloc::AllocError;

fn is_same(text: &[u8], other: &[u8]) -> bool
    ensures { result ≡ same text.now other.now }
{
    text == other
}

// The function that the last call of a path calls, or the one that runs begin with.
fn last_called<'t>(path: &Path<'t>) -> &'t [u8]
    ensures { result.now ≡ last_called path.now.entry path.now.calls }
{
    let mut name = path.entry;
    for k in 0..path.calls.len() {
        name = path.calls[k].name;
    }
    name
}

/// The function that an operation stands in.
fn function_of<'t>(operation: &Operation<'t>) -> &'t [u8]
    ensures { result.now ≡ function_of operation.now }
{
    if operation.ways.is_empty() {
        b""
    } else {
        last_called(&operation.ways[0].path)
    }
}

fn none() -> Counts
    ensures { result ≡ none }
{
    Counts {
        safe: 0,
        unknown: 0,
        unreachable: 0,
    }
}

// One more of a verdict.
fn counted(counts: Counts, verdict: Verdict) -> Counts
    requires { AreBelow (2 ^ 63) counts }
    ensures { result ≡ counted counts verdict }
{
    let Counts {
        safe,
        unknown,
        unreachable,
    } = counts;
    match verdict {
        Verdict::Safe => Counts {
            safe: safe + 1,
            unknown,
            unreachable,
        },
        Verdict::Unknown(_, _) => Counts {
            safe,
            unknown: unknown + 1,
            unreachable,
        },
        Verdict::Unreachable => Counts {
            safe,
            unknown,
            unreachable: unreachable + 1,
        },
    }
}

#[tactic(auto, unfolding(crate::specs::Functions::row_parts))]
fn write_row(bytes: &mut Vec<u8>, name: &[u8], counts: Counts) -> Result<(), AllocError>
    ensures { OnOk result (bytes.new.items ≡ bytes.old.items ++ parts_text (row_parts name.now counts)) }
{
    write(
        bytes,
        &[
            Part::Tag(Tag::TableRow),
            Part::Text(Text { bytes: name }),
            Part::Tag(Tag::TableFirst),
            Part::Count(counts.safe),
            Part::Tag(Tag::TableNext),
            Part::Count(counts.unknown),
            Part::Tag(Tag::TableNext),
            Part::Count(counts.unreachable),
            Part::Tag(Tag::TableRowEnd),
        ],
    )
}

fn write_rows(bytes: &mut Vec<u8>, operations: &[Operation<'_>]) -> Result<(), AllocError>
    ensures { OnOk result (bytes.new.items ≡ bytes.old.items ++ parts_text (rows_of operations.now)) }
{
    if operations.is_empty() {
        return Ok(());
    }
    let mut name = function_of(&operations[0]);
    let mut counts = none();
    for k in 0..operations.len() {
        let next = function_of(&operations[k]);
        if !is_same(next, name) {
            write_row(bytes, name, counts)?;
            name = next;
            counts = none();
        }
        counts = counted(counts, verdict_of(&operations[k]));
    }
    write_row(bytes, name, counts)
}

/// Writes the table of a text's functions.
#[tactic(auto, unfolding(crate::specs::Functions::table_parts))]
pub(crate) fn write_table(
    bytes: &mut Vec<u8>,
    operations: &[Operation<'_>],
) -> Result<(), AllocError>
    ensures { OnOk result (bytes.new.items ≡ bytes.old.items ++ parts_text (table_parts operations.now)) }
{
    write(
        bytes,
        &[Part::Tag(Tag::TableOpen), Part::Tag(Tag::TableColumns)],
    )?;
    write_rows(bytes, operations)?;
    write(bytes, &[Part::Tag(Tag::TableEnd)])
}
