// Texts of call paths.

ghost use Rattle.std.specs.Prelude.{◌≡◌, ◌<◌, ◌++◌, OnOk, IfOk, IfSome, map};
ghost use Rattle.pk_graph.specs.Graphs.{path_view};
ghost use Rattle.pk_report.specs.Paths.{call_text, segment_of, path_text, path_at, before, caller_of, segments};

use crate::texts::{write_place, write_text};
use pk_graph::{Path, Site};
use std::alloc::{AllocError, Global};

fn before(path: usize, call: Option<Site>) -> Option<usize>
    ensures value { result ≡ before path call }
    ensures smaller { IfSome result (λ k. k < path) }
{
    match call {
        Some(site) => {
            if site.path < path {
                Some(site.path)
            } else {
                None
            }
        }
        None => None,
    }
}

// The caller of a path.
#[tactic(auto, unfolding(pk_graph::specs::Graphs::path_view))]
fn caller(paths: &[Path], path: usize) -> Option<usize>
    ensures value { result ≡ caller_of (map path_view paths.now) path }
    ensures smaller { IfSome result (λ k. k < path) }
{
    match paths.get(path) {
        Some(at) => before(path, at.call),
        None => None,
    }
}

// The paths from the entry's to this one, call by call.
fn line_of(alloc: Global, paths: &[Path], path: usize) -> Result<Vec<usize>, AllocError>
    ensures { IfOk result
        (λ line. segments (map path_view paths.now) line.items ≡ path_text (map path_view paths.now) path) }
{
    let mut line = Vec::new(alloc);
    line.push(path)?;
    let mut current = path;
    while let Some(next) = caller(paths, current) {
        line.push(next)?;
        current = next;
    }
    line.reverse();
    Ok(line)
}

fn write_call(
    alloc: Global,
    bytes: &mut Vec<u8>,
    name: &str,
    call: Option<Site>,
) -> Result<(), AllocError>
    ensures { OnOk result (bytes.new.items ≡ bytes.old.items ++ call_text name.now call) }
{
    match call {
        Some(site) => {
            write_text(bytes, ">")?;
            write_text(bytes, name)?;
            write_text(bytes, "@")?;
            write_place(alloc, bytes, site.at)
        }
        None => write_text(bytes, name),
    }
}

#[tactic(auto, unfolding(pk_graph::specs::Graphs::path_view))]
fn write_segment(
    alloc: Global,
    bytes: &mut Vec<u8>,
    paths: &[Path],
    path: usize,
) -> Result<(), AllocError>
    ensures { OnOk result (bytes.new.items ≡ bytes.old.items ++ segment_of (path_at (map path_view paths.now) path)) }
{
    match paths.get(path) {
        Some(at) => write_call(alloc, bytes, at.name.as_str(), at.call),
        None => Ok(()),
    }
}

fn write_segments(
    alloc: Global,
    bytes: &mut Vec<u8>,
    paths: &[Path],
    line: &[usize],
) -> Result<(), AllocError>
    ensures { OnOk result (bytes.new.items ≡ bytes.old.items ++ segments (map path_view paths.now) line.now) }
{
    for k in 0..line.len() {
        write_segment(alloc, bytes, paths, line[k])?;
    }
    Ok(())
}

/// Writes a call path.
pub(crate) fn write_path(
    alloc: Global,
    bytes: &mut Vec<u8>,
    paths: &[Path],
    path: usize,
) -> Result<(), AllocError>
    ensures { OnOk result (bytes.new.items ≡ bytes.old.items ++ path_text (map path_view paths.now) path) }
{
    let line = line_of(alloc, paths, path)?;
    write_segments(alloc, bytes, paths, &line)
}
