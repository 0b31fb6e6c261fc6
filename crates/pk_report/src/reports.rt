// The first and the last line, and the summary of a made text.

ghost use Rattle.std.specs.Prelude.{◌≡◌, ◌++◌, OnOk, IfOk, codes, count_by};
ghost use Rattle.pk_graph.specs.Shown.{graph_view};
ghost use Rattle.pk_report.specs.Paths.{path_text};
ghost use Rattle.pk_report.specs.Reports.{is_safe as is_safe_verdict, is_unknown as is_unknown_verdict, is_unreachable as is_unreachable_verdict, counted, first_line, last_line, summary_text, unknown_in, valid_line};

use crate::paths::write_path;
use crate::texts::{write_count, write_text};
use pk_graph::{Graph, Verdict};
use std::alloc::{AllocError, Global};

fn is_safe(verdict: Verdict) -> bool
    ensures { result ≡ is_safe_verdict verdict }
{
    match verdict {
        Verdict::Safe => true,
        Verdict::Unknown { lo: _, hi: _ } => false,
        Verdict::Unreachable => false,
    }
}

fn is_unknown(verdict: Verdict) -> bool
    ensures { result ≡ is_unknown_verdict verdict }
{
    match verdict {
        Verdict::Safe => false,
        Verdict::Unknown { lo: _, hi: _ } => true,
        Verdict::Unreachable => false,
    }
}

fn is_unreachable(verdict: Verdict) -> bool
    ensures { result ≡ is_unreachable_verdict verdict }
{
    match verdict {
        Verdict::Safe => false,
        Verdict::Unknown { lo: _, hi: _ } => false,
        Verdict::Unreachable => true,
    }
}

fn safe_count(verdicts: &[Verdict]) -> usize
    ensures { result ≡ count_by is_safe_verdict verdicts.now }
{
    verdicts.iter().filter(|v| is_safe(**v)).count()
}

/// How many verdicts are unknown.
pub fn unknown_count(verdicts: &[Verdict]) -> usize
    ensures { result ≡ unknown_in verdicts.now }
{
    verdicts.iter().filter(|v| is_unknown(**v)).count()
}

fn unreachable_count(verdicts: &[Verdict]) -> usize
    ensures { result ≡ count_by is_unreachable_verdict verdicts.now }
{
    verdicts.iter().filter(|v| is_unreachable(**v)).count()
}

fn write_counted(
    alloc: Global,
    bytes: &mut Vec<u8>,
    label: &str,
    count: usize,
) -> Result<(), AllocError>
    ensures { OnOk result (bytes.new.items ≡ bytes.old.items ++ counted label.now count) }
{
    write_text(bytes, label)?;
    write_count(alloc, bytes, count)
}

fn write_entry(alloc: Global, bytes: &mut Vec<u8>, graph: &Graph) -> Result<(), AllocError>
    ensures { OnOk result
        (bytes.new.items ≡ bytes.old.items ++ (codes "pikos 1 entry " ++ path_text (graph_view graph.now).paths 0)) }
{
    write_text(bytes, "pikos 1 entry ")?;
    write_path(alloc, bytes, graph.paths(), 0)?;
    Ok(())
}

/// The first line. `elements` is how many elements the graph's plan has.
pub fn write_first(
    alloc: Global,
    bytes: &mut Vec<u8>,
    graph: &Graph,
    elements: usize,
) -> Result<(), AllocError>
    ensures { OnOk result (bytes.new.items ≡ bytes.old.items ++ first_line (graph_view graph.now) elements) }
{
    write_entry(alloc, bytes, graph)?;
    write_counted(alloc, bytes, " points ", graph.points())?;
    write_counted(alloc, bytes, " elements ", elements)?;
    write_text(bytes, "\n")?;
    Ok(())
}

/// The last line, which counts the verdicts.
pub fn write_last(
    alloc: Global,
    bytes: &mut Vec<u8>,
    verdicts: &[Verdict],
) -> Result<(), AllocError>
    ensures { OnOk result (bytes.new.items ≡ bytes.old.items ++ last_line verdicts.now) }
{
    write_counted(alloc, bytes, "result safe ", safe_count(verdicts))?;
    write_counted(alloc, bytes, " unknown ", unknown_count(verdicts))?;
    write_counted(alloc, bytes, " unreachable ", unreachable_count(verdicts))?;
    write_text(bytes, "\n")?;
    Ok(())
}

/// The line that says of how many points the states were checked.
pub fn write_valid(alloc: Global, bytes: &mut Vec<u8>, graph: &Graph) -> Result<(), AllocError>
    ensures { OnOk result (bytes.new.items ≡ bytes.old.items ++ valid_line (graph_view graph.now)) }
{
    write_counted(alloc, bytes, "valid points ", graph.points())?;
    write_text(bytes, "\n")?;
    Ok(())
}

fn write_generated(
    alloc: Global,
    bytes: &mut Vec<u8>,
    seed: usize,
    size: usize,
    text_length: usize,
) -> Result<(), AllocError>
    ensures { OnOk result (bytes.new.items ≡ bytes.old.items
        ++ (counted (codes "gen seed ") seed ++ counted (codes " size ") size
        ++ counted (codes " bytes ") text_length ++ codes "\n")) }
{
    write_counted(alloc, bytes, "gen seed ", seed)?;
    write_counted(alloc, bytes, " size ", size)?;
    write_counted(alloc, bytes, " bytes ", text_length)?;
    write_text(bytes, "\n")?;
    Ok(())
}

/// Of a made text its seed, size and length in bytes, and the first and the last line of its report.
pub fn summary(
    alloc: Global,
    seed: usize,
    size: usize,
    text_length: usize,
    graph: &Graph,
    elements: usize,
    verdicts: &[Verdict],
) -> Result<Vec<u8>, AllocError>
    ensures { IfOk result
        (λ bytes. bytes.items ≡ summary_text seed size text_length (graph_view graph.now) elements verdicts.now) }
{
    let mut bytes = Vec::new(alloc);
    write_generated(alloc, &mut bytes, seed, size, text_length)?;
    write_first(alloc, &mut bytes, graph, elements)?;
    write_last(alloc, &mut bytes, verdicts)?;
    Ok(bytes)
}
