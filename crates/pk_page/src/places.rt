// Places and call paths.

ghost use Rattle.std.specs.Prelude.{◌≡◌, ◌++◌, OnOk};
ghost use Rattle.std.specs.List.{flat_map};
ghost use Rattle.pk_html.specs.Parts.{parts_text};
ghost use Rattle.pk_page.specs.Places.{origin_parts, link_open, place_parts, call_parts, path_parts};

use pk_ctypes::Pos;
use pk_findings::{Text as Source, file_of, origin_at};
use pk_html::{Part, Tag, Text, write};
use pk_show::{Call, Path};
use std::alloc::{AllocError, Global};

/// Writes where a place comes from.
#[tactic(auto, unfolding(crate::specs::Places::origin_parts))]
pub(crate) fn write_origin(
    alloc: Global,
    bytes: &mut Vec<u8>,
    text: &Source<'_>,
    at: Pos,
) -> Result<(), AllocError>
    ensures { OnOk result (bytes.new.items ≡ bytes.old.items ++ parts_text (origin_parts text.now at)) }
{
    let origin = origin_at(text, at);
    let file = file_of(alloc, text, origin)?;
    write(
        bytes,
        &[
            Part::Text(Text { bytes: &file }),
            Part::Tag(Tag::Colon),
            Part::Count(origin.line),
            Part::Tag(Tag::Colon),
            Part::Count(at.column),
        ],
    )
}

fn write_link(bytes: &mut Vec<u8>, number: u64, line: u64) -> Result<(), AllocError>
    ensures { OnOk result (bytes.new.items ≡ bytes.old.items ++ parts_text (link_open number line)) }
{
    write(
        bytes,
        &[
            Part::Tag(Tag::LinkOpen),
            Part::Count(number),
            Part::Tag(Tag::LinkLine),
            Part::Count(line),
            Part::Tag(Tag::Quoted),
        ],
    )
}

/// Writes where a place comes from, as a link to its line.
#[tactic(auto, unfolding(crate::specs::Places::place_parts))]
pub(crate) fn write_place(
    alloc: Global,
    bytes: &mut Vec<u8>,
    number: u64,
    text: &Source<'_>,
    at: Pos,
) -> Result<(), AllocError>
    ensures { OnOk result (bytes.new.items ≡ bytes.old.items ++ parts_text (place_parts number text.now at)) }
{
    write_link(bytes, number, at.line)?;
    write_origin(alloc, bytes, text, at)?;
    write(bytes, &[Part::Tag(Tag::LinkEnd)])
}

#[tactic(auto, unfolding(crate::specs::Places::call_parts))]
fn write_call(
    alloc: Global,
    bytes: &mut Vec<u8>,
    number: u64,
    text: &Source<'_>,
    call: &Call<'_>,
) -> Result<(), AllocError>
    ensures { OnOk result (bytes.new.items ≡ bytes.old.items ++ parts_text (call_parts number text.now call.now)) }
{
    write(
        bytes,
        &[
            Part::Tag(Tag::CallOpen),
            Part::Text(Text { bytes: call.name }),
            Part::Tag(Tag::CallAt),
        ],
    )?;
    write_place(alloc, bytes, number, text, call.at)
}

fn write_calls(
    alloc: Global,
    bytes: &mut Vec<u8>,
    number: u64,
    text: &Source<'_>,
    calls: &[Call<'_>],
) -> Result<(), AllocError>
    ensures { OnOk result (
        bytes.new.items ≡ bytes.old.items ++ parts_text (flat_map (call_parts number text.now) calls.now)) }
{
    for k in 0..calls.len() {
        write_call(alloc, bytes, number, text, &calls[k])?;
    }
    Ok(())
}

/// Writes the function that runs begin with, and the calls that lead from it.
#[tactic(auto, unfolding(crate::specs::Places::path_parts))]
pub(crate) fn write_path(
    alloc: Global,
    bytes: &mut Vec<u8>,
    number: u64,
    text: &Source<'_>,
    path: &Path<'_>,
) -> Result<(), AllocError>
    ensures { OnOk result (bytes.new.items ≡ bytes.old.items ++ parts_text (path_parts number text.now path.now)) }
{
    write(
        bytes,
        &[
            Part::Text(Text { bytes: path.entry }),
            Part::Tag(Tag::CodeEnd),
        ],
    )?;
    write_calls(alloc, bytes, number, text, &path.calls)
}
