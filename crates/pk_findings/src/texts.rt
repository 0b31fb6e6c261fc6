// A preprocessed text, and where its places come from.

ghost use Rattle.std.specs.Prelude.{◌≡◌, IfOk, map};
ghost use Rattle.pk_findings.specs.Texts.{origin_at, file_of, line_of, is_small, is_in_line, is_among, is_within, IsText};

use pk_ctypes::Pos;
use pk_origin::{Origin, file_name, lines, origins};
use std::alloc::{AllocError, Global};
use std::marker::Model;

/// A preprocessed text: its name, which is that of what no marker names; its lines; where each comes from.
#[derive(Drop)]
pub struct Text<'t> {
    pub name: &'t [u8],
    pub lines: Vec<&'t [u8]>,
    pub origins: Vec<Origin>,
}

impl<'t> Model for Text<'t> {
    ghost use Rattle.std.specs.Prelude.{map};
    ghost use Rattle.pk_findings.specs.Texts.{TextOf};

    ghost Value = { TextOf };

    ghost view = { λ t. record {
      name = t.name.now;
      lines = map (λ line. line.now) t.lines.items;
      origins = t.origins.items;
    } };
}

/// The text of this name and these bytes.
pub fn text_of<'t>(alloc: Global, name: &'t [u8], bytes: &'t [u8]) -> Result<Text<'t>, AllocError>
    ensures { IfOk result (λ t. IsText name.now bytes.now t) }
{
    let lines = lines(alloc, bytes)?;
    let origins = origins(alloc, &lines)?;
    Ok(Text {
        name,
        lines,
        origins,
    })
}

/// Where a place's line comes from.
#[tactic(auto, unfolding(crate::specs::Texts::origin_at), using(std::proofs::lemmas::List::get_or_past))]
pub fn origin_at(text: &Text<'_>, at: Pos) -> Origin
    ensures { result ≡ origin_at text.now at }
{
    let k = at.line.saturating_sub(1) as usize;
    if k < text.origins.len() {
        text.origins[k]
    } else {
        Origin {
            marker: None,
            line: 1,
        }
    }
}

/// The name of the file that an origin tells.
#[tactic(auto, unfolding(crate::specs::Texts::file_of))]
pub fn file_of(alloc: Global, text: &Text<'_>, origin: Origin) -> Result<Vec<u8>, AllocError>
    ensures { IfOk result (λ name. name.items ≡ file_of text.now origin) }
{
    match file_name(alloc, &text.lines, origin)? {
        Some(name) => Ok(name),
        None => Vec::from_slice(alloc, text.name),
    }
}

/// The line of a place.
#[tactic(auto, using(std::proofs::lemmas::List::get_or_past))]
pub fn line_of<'t>(text: &Text<'t>, at: Pos) -> &'t [u8]
    ensures { result.now ≡ line_of text.now at }
{
    let k = at.line.saturating_sub(1) as usize;
    if k < text.lines.len() {
        text.lines[k]
    } else {
        b""
    }
}

fn is_small(at: Pos) -> bool
    ensures { result ≡ is_small at }
{
    at.line < 1073741824 && at.column < 1073741824
}

fn is_in_line(line: &[u8], column: u64) -> bool
    ensures { result ≡ is_in_line line.now column }
{
    0 < column && column <= line.len() as u64
}

fn is_among(lines: &[&[u8]], at: Pos) -> bool
    ensures { result ≡ is_among (map (λ line. line.now) lines.now) at }
{
    0 < at.line
        && at.line <= lines.len() as u64
        && is_in_line(lines[(at.line - 1) as usize], at.column)
}

/// Whether one of the text's bytes stands at a place.
#[tactic(auto, unfolding(crate::specs::Texts::is_within))]
pub(crate) fn is_within(text: &Text<'_>, at: Pos) -> bool
    ensures { result ≡ is_within text.now at }
{
    is_small(at) && is_among(&text.lines, at)
}
