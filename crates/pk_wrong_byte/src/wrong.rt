// The first wrong byte of a text that is no report.

ghost use Rattle.std.specs.Prelude.{◌≡◌, ◌-◌, [], IfOk, None, length, map, slice_index_or};
ghost use Rattle.pk_wrong_byte.specs.Wrong.{left_if, least_left, right_bytes, in_first, first_wrong_byte};

use crate::lines::kind_left;
use crate::pieces::Reached;
use pk_origin::lines;
use pk_show::{Kind, kind_of, may_stand, next_row};
use std::alloc::{AllocError, Global};

fn left_if(before: Option<Kind>, kind: Kind, line: &[u8]) -> usize
    ensures { result ≡ left_if before kind line.now }
{
    if may_stand(before, kind) {
        let there = Reached {
            rest: line,
            is_open: true,
        };
        kind_left(kind, &there)
    } else {
        line.len()
    }
}

fn least_left(before: Option<Kind>, line: &[u8]) -> usize
    ensures { result ≡ least_left before line.now }
{
    let opening = left_if(before, Kind::Opening, line);
    let heading = left_if(before, Kind::Heading, line);
    let no_run = left_if(before, Kind::NoRun, line);
    let value = left_if(before, Kind::Value, line);
    let bound = left_if(before, Kind::Bound, line);
    let access = left_if(before, Kind::Access, line);
    let counts = left_if(before, Kind::Counts, line);
    opening.min(heading.min(no_run.min(value.min(bound.min(access.min(counts))))))
}

// How many bytes of a line may stand there.
fn right_bytes(before: Option<Kind>, line: &[u8]) -> usize
    ensures { result ≡ right_bytes before line.now }
{
    line.len().saturating_sub(least_left(before, line))
}

fn in_first(alloc: Global, ended: &[&[u8]], last: &[u8]) -> Result<usize, AllocError>
    ensures { IfOk result (λ n. n ≡ in_first (map (λ line. line.now) ended.now) last.now None) }
{
    let mut before = None;
    for k in 0..ended.len() {
        let Some(row) = next_row(alloc, before, ended[k])? else {
            return Ok(right_bytes(before, ended[k]));
        };
        before = Some(kind_of(&row));
    }
    Ok(right_bytes(before, last))
}

// What stands behind the last newline.
fn behind<'t>(pieces: &[&'t [u8]]) -> &'t [u8]
    ensures { result.now ≡ slice_index_or (map (λ piece. piece.now) pieces.now)
        (length (map (λ piece. piece.now) pieces.now) - 1) [] }
{
    if pieces.is_empty() {
        b""
    } else {
        pieces[pieces.len() - 1]
    }
}

/// Where the first line of a text that is none of a report goes wrong: the place of the first byte in that line, counted
/// from 0, with which no line of a report that may stand there goes on. Where the line ends too early it is its length.
#[tactic(auto, unfolding(crate::specs::Wrong::first_wrong_byte))]
pub fn first_wrong_byte(alloc: Global, text: &[u8]) -> Result<usize, AllocError>
    ensures { IfOk result (λ n. n ≡ first_wrong_byte text.now) }
{
    let pieces = lines(alloc, text)?;
    let ended = pieces.split_at(pieces.len().saturating_sub(1)).0;
    in_first(alloc, ended, behind(&pieces))
}
