// The files that lines come from, where they are at hand.

ghost use Rattle.std.specs.Prelude.{◌≡◌, IfOk, map, take};
ghost use Rattle.std.specs.Option.{option_map};
ghost use Rattle.pk_listing.specs.Sources.{lines_named, line_numbered, own_line, is_own};

use pk_ctypes::Pos;
use pk_findings::{Text, file_of, origin_at};
use std::alloc::{AllocError, Global};
use std::marker::Model;

/// A file of the source, line by line.
#[derive(Drop)]
pub struct Source<'t> {
    pub name: &'t [u8],
    pub lines: Vec<&'t [u8]>,
}

impl<'t> Model for Source<'t> {
    ghost use Rattle.std.specs.Prelude.{map};
    ghost use Rattle.pk_listing.specs.Sources.{SourceOf};

    ghost Value = { SourceOf };

    ghost view = { λ s. record { name = s.name.now; lines = map (λ line. line.now) s.lines.items } };
}

// The lines of the first file of this name.
fn lines_named<'a, 't>(sources: &'a [Source<'t>], name: &[u8]) -> &'a [&'t [u8]]
    ensures { map (λ line. line.now) result.now ≡ lines_named sources.now name.now }
{
    for k in 0..sources.len() {
        let source = &sources[k];
        if source.name == name {
            return &source.lines;
        }
    }
    &[]
}

fn line_numbered<'t>(lines: &[&'t [u8]], number: u64) -> Option<&'t [u8]>
    ensures { option_map (λ line. line.now) result ≡ line_numbered (map (λ line. line.now) lines.now) number }
{
    if 0 < number && number <= lines.len() as u64 {
        Some(lines[(number - 1) as usize])
    } else {
        None
    }
}

/// The line of the file that a place comes from.
#[tactic(auto, unfolding(crate::specs::Sources::own_line))]
pub(crate) fn own_line<'t>(
    alloc: Global,
    sources: &[Source<'t>],
    text: &Text<'_>,
    at: Pos,
) -> Result<Option<&'t [u8]>, AllocError>
    ensures { IfOk result (λ own. option_map (λ line. line.now) own ≡ own_line sources.now text.now at) }
{
    let origin = origin_at(text, at);
    let name = file_of(alloc, text, origin)?;
    Ok(line_numbered(lines_named(sources, &name), origin.line))
}

// The first bytes of a line, so many as a column tells.
#[tactic(auto, using(std::proofs::lemmas::List::take_all))]
fn front(line: &[u8], column: u64) -> &[u8]
    ensures { result.now ≡ take column line.now }
{
    if column <= line.len() as u64 {
        line.split_at(column as usize).0
    } else {
        line
    }
}

/// Whether the preprocessed line is the file's own up to a column.
pub(crate) fn is_own(own: Option<&[u8]>, line: &[u8], column: u64) -> bool
    ensures { result ≡ is_own (option_map (λ own. own.now) own.entry) line.now column }
{
    match own {
        Some(own) => front(own, column) == front(line, column),
        None => true,
    }
}
