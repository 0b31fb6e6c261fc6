// The origins of lines.

ghost use Rattle.std.specs.Prelude.{◌≡◌, ◌<◌, ◌^◌, IfOk, IfSome, map};
ghost use Rattle.std.specs.Option.{option_map};
ghost use Rattle.pk_origin.specs.Origins.{marker_unless, origin_behind, AreOrigins, file_at};

use crate::comments::is_open_behind;
use crate::markers::{Marker, read_marker};
use std::alloc::{AllocError, Global};

/// Where a line of a text comes from: the line of the text, counted from 0, whose marker names the file, or none where
/// it is the text itself; and the number of the line there.
#[derive(Clone, Copy)]
pub struct Origin {
    pub marker: Option<usize>,
    pub line: u64,
}

// What a line says, where it is a line marker and stands in no comment.
fn marker_unless(alloc: Global, is_open: bool, line: &[u8]) -> Result<Option<Marker>, AllocError>
    ensures value { IfOk result (λ marker. marker ≡ marker_unless is_open line.now) }
    ensures small { IfOk result (λ marker. IfSome marker (λ m. m.line < 2 ^ 31)) }
{
    if is_open {
        Ok(None)
    } else {
        read_marker(alloc, line)
    }
}

// The origin of the line behind line k.
fn behind(k: usize, marker: &Option<Marker>, before: Origin) -> Origin
    requires { before.line < 2 ^ 63 }
    ensures { result ≡ origin_behind k marker.now before }
{
    match marker {
        Some(marker) => Origin {
            marker: Some(k),
            line: marker.line,
        },
        None => Origin {
            marker: before.marker,
            line: before.line + 1,
        },
    }
}

/// Where each line of a text comes from.
pub fn origins(alloc: Global, lines: &[&[u8]]) -> Result<Vec<Origin>, AllocError>
    ensures { IfOk result (λ origins. AreOrigins (map (λ line. line.now) lines.now) origins.items) }
{
    let mut origins = Vec::new(alloc);
    let mut is_open = false;
    let mut next = Origin {
        marker: None,
        line: 1,
    };
    for k in 0..lines.len() {
        origins.push(next)?;
        let marker = marker_unless(alloc, is_open, lines[k])?;
        next = behind(k, &marker, next);
        is_open = is_open_behind(is_open, lines[k]);
    }
    Ok(origins)
}

/// The name of the file that a line comes from, or none where it is the text itself.
pub fn file_name(
    alloc: Global,
    lines: &[&[u8]],
    origin: Origin,
) -> Result<Option<Vec<u8>>, AllocError>
    ensures { IfOk result (λ name.
        option_map (λ n. n.items) name ≡ file_at (map (λ line. line.now) lines.now) origin) }
{
    let Some(k) = origin.marker else {
        return Ok(None);
    };
    if k < lines.len() {
        match read_marker(alloc, lines[k])? {
            Some(marker) => Ok(Some(marker.file)),
            None => Ok(None),
        }
    } else {
        Ok(None)
    }
}
