// A page: all texts, and those that were refused.

ghost use Rattle.std.specs.Prelude.{◌≡◌, ◌++◌, IfOk, OnOk};
ghost use Rattle.std.specs.List.{flat_map};
ghost use Rattle.pk_html.specs.Parts.{parts_text};
ghost use Rattle.pk_page.specs.Pages.{link_parts, links_from, title_parts, section_parts, sections_from, refused_at, refused_parts, said_parts, head_parts, front_parts, main_parts, page_parts};

use crate::findings::write_findings;
use crate::functions::write_table;
use crate::loops::write_loops;
use crate::places::write_origin;
use crate::source::write_source;
use pk_ctypes::Pos;
use pk_findings::{Refused, Shown, Text as Source, counts_of};
use pk_html::{Part, Tag, Text, write};
use pk_show::Counts;
use std::alloc::{AllocError, Global};

#[tactic(auto, unfolding(crate::specs::Pages::link_parts))]
fn write_file(bytes: &mut Vec<u8>, number: u64, shown: &Shown<'_>) -> Result<(), AllocError>
    ensures { OnOk result (bytes.new.items ≡ bytes.old.items ++ parts_text (link_parts number shown.now)) }
{
    let counts = counts_of(&shown.operations);
    write(
        bytes,
        &[
            Part::Tag(Tag::FileLink),
            Part::Count(number),
            Part::Tag(Tag::Quoted),
            Part::Text(Text {
                bytes: shown.text.name,
            }),
            Part::Tag(Tag::FileCount),
            Part::Count(counts.unknown),
            Part::Tag(Tag::FileEnd),
        ],
    )
}

// Links to all texts.
fn write_files(bytes: &mut Vec<u8>, shown: &[Shown<'_>]) -> Result<(), AllocError>
    ensures { OnOk result (bytes.new.items ≡ bytes.old.items ++ parts_text (links_from 0 shown.now)) }
{
    for k in 0..shown.len() {
        write_file(bytes, k as u64, &shown[k])?;
    }
    Ok(())
}

#[tactic(auto, unfolding(crate::specs::Pages::title_parts))]
fn write_title(
    bytes: &mut Vec<u8>,
    number: u64,
    name: &[u8],
    counts: Counts,
) -> Result<(), AllocError>
    ensures { OnOk result (bytes.new.items ≡ bytes.old.items ++ parts_text (title_parts number name.now counts)) }
{
    write(
        bytes,
        &[
            Part::Tag(Tag::SectionOpen),
            Part::Count(number),
            Part::Tag(Tag::Quoted),
            Part::Text(Text { bytes: name }),
            Part::Tag(Tag::SectionCounts),
            Part::Count(counts.safe),
            Part::Tag(Tag::Safe),
            Part::Count(counts.unknown),
            Part::Tag(Tag::Unknown),
            Part::Count(counts.unreachable),
            Part::Tag(Tag::Unreachable),
        ],
    )
}

#[tactic(auto, unfolding(crate::specs::Pages::section_parts))]
fn write_section(
    alloc: Global,
    bytes: &mut Vec<u8>,
    number: u64,
    shown: &Shown<'_>,
) -> Result<(), AllocError>
    ensures { OnOk result (bytes.new.items ≡ bytes.old.items ++ parts_text (section_parts number shown.now)) }
{
    write_title(bytes, number, shown.text.name, counts_of(&shown.operations))?;
    write_findings(alloc, bytes, number, &shown.text, &shown.operations)?;
    write_table(bytes, &shown.operations)?;
    write_loops(alloc, bytes, number, &shown.text, &shown.rows)?;
    write_source(alloc, bytes, number, &shown.text, &shown.operations)?;
    write(bytes, &[Part::Tag(Tag::SectionEnd)])
}

fn write_sections(alloc: Global, bytes: &mut Vec<u8>, shown: &[Shown<'_>]) -> Result<(), AllocError>
    ensures { OnOk result (bytes.new.items ≡ bytes.old.items ++ parts_text (sections_from 0 shown.now)) }
{
    for k in 0..shown.len() {
        write_section(alloc, bytes, k as u64, &shown[k])?;
    }
    Ok(())
}

fn write_refused_at(
    alloc: Global,
    bytes: &mut Vec<u8>,
    text: &Source<'_>,
    at: Option<Pos>,
) -> Result<(), AllocError>
    ensures { OnOk result (bytes.new.items ≡ bytes.old.items ++ parts_text (refused_at text.now at)) }
{
    match at {
        Some(at) => write_origin(alloc, bytes, text, at),
        None => write(bytes, &[Part::Text(Text { bytes: text.name })]),
    }
}

fn write_said(bytes: &mut Vec<u8>, said: &[u8]) -> Result<(), AllocError>
    ensures { OnOk result (bytes.new.items ≡ bytes.old.items ++ parts_text (said_parts said.now)) }
{
    write(
        bytes,
        &[
            Part::Tag(Tag::RefusedSaid),
            Part::Text(Text { bytes: said }),
            Part::Tag(Tag::RefusedEnd),
        ],
    )
}

#[tactic(auto, unfolding(crate::specs::Pages::refused_parts))]
fn write_refused(
    alloc: Global,
    bytes: &mut Vec<u8>,
    refused: &Refused<'_>,
) -> Result<(), AllocError>
    ensures { OnOk result (bytes.new.items ≡ bytes.old.items ++ parts_text (refused_parts refused.now)) }
{
    write(bytes, &[Part::Tag(Tag::RefusedOpen)])?;
    write_refused_at(alloc, bytes, &refused.text, refused.at)?;
    write_said(bytes, refused.said)
}

fn write_all_refused(
    alloc: Global,
    bytes: &mut Vec<u8>,
    refused: &[Refused<'_>],
) -> Result<(), AllocError>
    ensures { OnOk result (bytes.new.items ≡ bytes.old.items ++ parts_text (flat_map refused_parts refused.now)) }
{
    for k in 0..refused.len() {
        write_refused(alloc, bytes, &refused[k])?;
    }
    Ok(())
}

fn write_head(bytes: &mut Vec<u8>) -> Result<(), AllocError>
    ensures { OnOk result (bytes.new.items ≡ bytes.old.items ++ parts_text head_parts) }
{
    write(
        bytes,
        &[
            Part::Tag(Tag::PageOpen),
            Part::Tag(Tag::Viewport),
            Part::Tag(Tag::LightColours),
            Part::Tag(Tag::DarkColours),
            Part::Tag(Tag::BodyStyle),
            Part::Tag(Tag::InkStyle),
            Part::Tag(Tag::HeadingStyle),
            Part::Tag(Tag::CodeStyle),
            Part::Tag(Tag::TableStyle),
            Part::Tag(Tag::LineStyle),
            Part::Tag(Tag::SafeStyle),
            Part::Tag(Tag::UnknownStyle),
            Part::Tag(Tag::UnreachableStyle),
            Part::Tag(Tag::PrintStyle),
            Part::Tag(Tag::BodyOpen),
            Part::Tag(Tag::SafeLegend),
            Part::Tag(Tag::UnknownLegend),
            Part::Tag(Tag::FilesOpen),
        ],
    )
}

fn write_front(bytes: &mut Vec<u8>, shown: &[Shown<'_>]) -> Result<(), AllocError>
    ensures { OnOk result (bytes.new.items ≡ bytes.old.items ++ parts_text (front_parts shown.now)) }
{
    write_head(bytes)?;
    write_files(bytes, shown)?;
    write(bytes, &[Part::Tag(Tag::FilesEnd)])
}

fn write_main(
    alloc: Global,
    bytes: &mut Vec<u8>,
    shown: &[Shown<'_>],
    refused: &[Refused<'_>],
) -> Result<(), AllocError>
    ensures { OnOk result (bytes.new.items ≡ bytes.old.items ++ parts_text (main_parts shown.now refused.now)) }
{
    write_sections(alloc, bytes, shown)?;
    write_all_refused(alloc, bytes, refused)?;
    write(bytes, &[Part::Tag(Tag::PageEnd)])
}

#[tactic(auto, unfolding(crate::specs::Pages::page_parts))]
fn write_page(
    alloc: Global,
    bytes: &mut Vec<u8>,
    shown: &[Shown<'_>],
    refused: &[Refused<'_>],
) -> Result<(), AllocError>
    ensures { OnOk result (bytes.new.items ≡ bytes.old.items ++ parts_text (page_parts shown.now refused.now)) }
{
    write_front(bytes, shown)?;
    write_main(alloc, bytes, shown, refused)
}

/// The page of what was found in texts, and of texts that were refused.
pub fn page(
    alloc: Global,
    shown: &[Shown<'_>],
    refused: &[Refused<'_>],
) -> Result<Vec<u8>, AllocError>
    ensures { IfOk result (λ bytes. bytes.items ≡ parts_text (page_parts shown.now refused.now)) }
{
    let mut bytes = Vec::new(alloc);
    write_page(alloc, &mut bytes, shown, refused)?;
    Ok(bytes)
}
