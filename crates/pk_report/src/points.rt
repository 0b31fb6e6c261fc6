// Lines of points.

ghost use Rattle.std.specs.Prelude.{◌≡◌, ◌<◌, ◌++◌, ◌||◌, OnOk, IfOk, All, codes, length};
ghost use Rattle.std.specs.Fmt.{decimal};
ghost use Rattle.pk_graph.specs.Shown.{graph_view};
ghost use Rattle.pk_report.specs.Values.{facts_lines, HasSlots};
ghost use Rattle.pk_report.specs.Reports.{point_word, place_end, heading, point_lines, AreHeads};

use crate::octagons::write_octagons;
use crate::paths::write_path;
use crate::texts::{write_count, write_place, write_text};
use crate::values::write_values;
use pk_ctypes::Pos;
use pk_graph::{Graph, visible};
use pk_state::State;
use std::alloc::{AllocError, Global};

// What is known of visible variables.
fn write_facts(
    alloc: Global,
    bytes: &mut Vec<u8>,
    graph: &Graph,
    state: &State,
    visible: &[usize],
) -> Result<(), AllocError>
    requires slots { HasSlots (graph_view graph.now) state.now.layout }
    requires visible { All (λ x. x < length (graph_view graph.now).variables) visible.now }
    ensures { OnOk result (bytes.new.items
        ≡ bytes.old.items ++ facts_lines (graph_view graph.now) state.now.layout state.now.facts visible.now) }
{
    if state.is_bottom() {
        write_text(bytes, "  unreachable\n")?;
        return Ok(());
    }
    write_values(alloc, bytes, graph, state, visible)?;
    write_octagons(alloc, bytes, graph, state, visible)?;
    Ok(())
}

fn write_kind_of_point(bytes: &mut Vec<u8>, is_head: bool) -> Result<(), AllocError>
    ensures { OnOk result (bytes.new.items ≡ bytes.old.items ++ point_word is_head) }
{
    if is_head {
        write_text(bytes, "head ")
    } else {
        write_text(bytes, "point ")
    }
}

fn write_number_of_point(
    alloc: Global,
    bytes: &mut Vec<u8>,
    point: usize,
    is_head: bool,
) -> Result<(), AllocError>
    ensures { OnOk result (bytes.new.items ≡ bytes.old.items ++ (point_word is_head ++ decimal point ++ codes " ")) }
{
    write_kind_of_point(bytes, is_head)?;
    write_count(alloc, bytes, point)?;
    write_text(bytes, " ")
}

fn write_end(alloc: Global, bytes: &mut Vec<u8>, at: Pos) -> Result<(), AllocError>
    ensures { OnOk result (bytes.new.items ≡ bytes.old.items ++ place_end at) }
{
    write_text(bytes, " ")?;
    write_place(alloc, bytes, at)?;
    write_text(bytes, "\n")
}

fn write_heading(
    alloc: Global,
    bytes: &mut Vec<u8>,
    graph: &Graph,
    point: usize,
    is_head: bool,
) -> Result<(), AllocError>
    requires { point < length (graph_view graph.now).points }
    ensures { OnOk result (bytes.new.items ≡ bytes.old.items ++ heading (graph_view graph.now) is_head point) }
{
    write_number_of_point(alloc, bytes, point, is_head)?;
    write_path(alloc, bytes, graph.paths(), graph.path(point))?;
    write_end(alloc, bytes, graph.position(point))?;
    Ok(())
}

/// The lines of a point, with what is known there in its reduced state.
pub fn write_point(
    alloc: Global,
    bytes: &mut Vec<u8>,
    graph: &Graph,
    state: &State,
    point: usize,
    is_head: bool,
) -> Result<(), AllocError>
    requires point { point < length (graph_view graph.now).points }
    requires slots { HasSlots (graph_view graph.now) state.now.layout }
    ensures { OnOk result
        (bytes.new.items ≡ bytes.old.items ++ point_lines (graph_view graph.now) state.now is_head point) }
{
    graph.well_made();
    let visible = visible(alloc, graph, point)?;
    write_heading(alloc, bytes, graph, point, is_head)?;
    write_facts(alloc, bytes, graph, state, &visible)?;
    Ok(())
}

/// Whether a point is told: a head is, and any where all are.
pub fn is_told(is_head: bool, all: bool) -> bool
    ensures { result ≡ (is_head || all) }
{
    is_head || all
}

/// For each of so many points whether it is a head.
pub fn head_marks(alloc: Global, heads: &[u32], points: usize) -> Result<Vec<bool>, AllocError>
    ensures { IfOk result (λ marks. AreHeads points heads.now marks.items) }
{
    let mut marks = vec![in alloc; false; points]?;
    for k in 0..heads.len() {
        let head = heads[k] as usize;
        if head < points {
            marks[head] = true;
        }
    }
    Ok(marks)
}
