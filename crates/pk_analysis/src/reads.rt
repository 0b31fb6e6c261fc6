// What each element reads.

ghost use Rattle.std.specs.Prelude.{◌≡◌, ◌<◌, ◌^◌, ◌++◌, IfOk, OnOk, length};
ghost use Rattle.pk_analysis.specs.Arrows.{origins, rows_of, row_at};
ghost use Rattle.pk_analysis.specs.Reading.{read_by, AreReads};

use crate::arrows::Arrow;
use pk_phases::Part;
use std::alloc::{AllocError, Global};

// Adds the points where these edges begin.
fn add_origins(list: &mut Vec<u32>, row: &[Arrow]) -> Result<(), AllocError>
    ensures { OnOk result (list.new.items ≡ list.old.items ++ origins row.now) }
{
    for arrow in row {
        list.push(arrow.from)?;
    }
    Ok(())
}

// Adds those of the edges that lead to a point.
fn add_sources(list: &mut Vec<u32>, arrows: &[Vec<Arrow>], v: u32) -> Result<(), AllocError>
    ensures { OnOk result (list.new.items ≡ list.old.items ++ origins (row_at (rows_of arrows.now) v)) }
{
    match arrows.get(v as usize) {
        None => Ok(()),
        Some(row) => add_origins(list, row),
    }
}

// What an element reads.
fn element_reads(
    alloc: Global,
    arrows: &[Vec<Arrow>],
    e: u32,
    part: Part,
) -> Result<Vec<u32>, AllocError>
    ensures { IfOk result (λ list. list.items ≡ read_by (rows_of arrows.now) e part) }
{
    let mut list = Vec::new(alloc);
    match part {
        Part::Point => add_sources(&mut list, arrows, e)?,
        Part::HeadOf(exit) => {
            list.push(exit)?;
            list.push(e)?;
            add_sources(&mut list, arrows, e)?;
        }
        Part::ExitOf(head) => {
            list.push(e)?;
            list.push(head)?;
            add_sources(&mut list, arrows, head)?;
        }
    }
    Ok(list)
}

/// What each element reads.
pub fn reads(
    alloc: Global,
    arrows: &[Vec<Arrow>],
    parts: &[Part],
) -> Result<Vec<Vec<u32>>, AllocError>
    requires { length parts.now < 2 ^ 32 }
    ensures { IfOk result (λ lists. AreReads (rows_of arrows.now) parts.now (rows_of lists.items)) }
{
    let mut lists = Vec::with_capacity(alloc, parts.len())?;
    for e in 0..parts.len() {
        lists.push(element_reads(alloc, arrows, e as u32, parts[e])?)?;
    }
    Ok(lists)
}
