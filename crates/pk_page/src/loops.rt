// What holds at the heads of loops.

ghost use Rattle.std.specs.Prelude.{◌≡◌, ◌++◌, ◌∷◌, [], OnOk};
ghost use Rattle.std.specs.List.{flat_map};
ghost use Rattle.pk_show.specs.Paths.{path_in};
ghost use Rattle.pk_html.specs.declared.parts.Part.TheVariants as part;
ghost use Rattle.pk_html.specs.Parts.{parts_text};
ghost use Rattle.pk_page.specs.Loops.{heading_open, way_to, heading_parts, mark_parts, range_parts, class_parts, value_parts, front_parts, sign_of, sides_parts, bound_parts, fact_parts, loops_parts};

use crate::places::{write_path, write_place};
use pk_findings::Text as Source;
use pk_html::{Part, Tag, Text, write};
use pk_show::{Bound, Form, Heading, Known, Row, Subject, Value, read_path};
use std::alloc::{AllocError, Global};

fn heading_open(is_head: bool) -> Tag
    ensures { result ≡ heading_open is_head }
{
    if is_head {
        Tag::LoopOpen
    } else {
        Tag::PointOpen
    }
}

fn write_way_to(
    alloc: Global,
    bytes: &mut Vec<u8>,
    number: u64,
    text: &Source<'_>,
    path: &[u8],
) -> Result<(), AllocError>
    ensures { OnOk result (
        bytes.new.items ≡ bytes.old.items ++ parts_text (way_to number text.now (path_in path.now))) }
{
    match read_path(alloc, path)? {
        Some(path) => write_path(alloc, bytes, number, text, &path),
        None => write(bytes, &[Part::Tag(Tag::CodeEnd)]),
    }
}

#[tactic(auto, unfolding(crate::specs::Loops::heading_parts))]
fn write_heading(
    alloc: Global,
    bytes: &mut Vec<u8>,
    number: u64,
    text: &Source<'_>,
    heading: &Heading<'_>,
) -> Result<(), AllocError>
    ensures { OnOk result (
        bytes.new.items ≡ bytes.old.items ++ parts_text (heading_parts number text.now heading.now)) }
{
    write(bytes, &[Part::Tag(heading_open(heading.is_head))])?;
    write_place(alloc, bytes, number, text, heading.at)?;
    write(bytes, &[Part::Tag(Tag::LoopIn)])?;
    write_way_to(alloc, bytes, number, text, heading.path)?;
    write(bytes, &[Part::Tag(Tag::HeadingEnd)])
}

fn write_tag(bytes: &mut Vec<u8>, tag: Tag) -> Result<(), AllocError>
    ensures { OnOk result (bytes.new.items ≡ bytes.old.items ++ parts_text (part.Tag tag ∷ [])) }
{
    write(bytes, &[Part::Tag(tag)])
}

fn write_mark(bytes: &mut Vec<u8>, subject: Subject) -> Result<(), AllocError>
    ensures { OnOk result (bytes.new.items ≡ bytes.old.items ++ parts_text (mark_parts subject)) }
{
    match subject {
        Subject::Scalar => Ok(()),
        Subject::EachElement => write(bytes, &[Part::Tag(Tag::ArrayMark)]),
        Subject::Element(number) => write(
            bytes,
            &[
                Part::Tag(Tag::ElementOpen),
                Part::Count(number),
                Part::Tag(Tag::ElementEnd),
            ],
        ),
    }
}

fn write_range(bytes: &mut Vec<u8>, known: Known) -> Result<(), AllocError>
    ensures { OnOk result (bytes.new.items ≡ bytes.old.items ++ parts_text (range_parts known)) }
{
    write(
        bytes,
        &[
            Part::Tag(Tag::In),
            Part::Number(known.lo),
            Part::Tag(Tag::Comma),
            Part::Number(known.hi),
            Part::Tag(Tag::InEnd),
        ],
    )
}

fn write_class(bytes: &mut Vec<u8>, known: Known) -> Result<(), AllocError>
    ensures { OnOk result (bytes.new.items ≡ bytes.old.items ++ parts_text (class_parts known)) }
{
    if 1 < known.modulus {
        write(
            bytes,
            &[
                Part::Tag(Tag::Class),
                Part::Number(known.modulus),
                Part::Tag(Tag::Times),
                Part::Number(known.rest),
            ],
        )
    } else {
        Ok(())
    }
}

#[tactic(auto, unfolding(crate::specs::Loops::value_parts))]
fn write_value(bytes: &mut Vec<u8>, value: &Value<'_>) -> Result<(), AllocError>
    ensures { OnOk result (bytes.new.items ≡ bytes.old.items ++ parts_text (value_parts value.now)) }
{
    write(
        bytes,
        &[
            Part::Tag(Tag::FactOpen),
            Part::Text(Text { bytes: value.name }),
        ],
    )?;
    write_mark(bytes, value.subject)?;
    write_range(bytes, value.known)?;
    write_class(bytes, value.known)?;
    write_tag(bytes, Tag::FactEnd)
}

fn write_front(bytes: &mut Vec<u8>, form: Form) -> Result<(), AllocError>
    ensures { OnOk result (bytes.new.items ≡ bytes.old.items ++ parts_text (front_parts form)) }
{
    match form {
        Form::Difference => Ok(()),
        Form::Sum => Ok(()),
        Form::NegatedSum => write(bytes, &[Part::Tag(Tag::Minus)]),
    }
}

fn sign(form: Form) -> Tag
    ensures { result ≡ sign_of form }
{
    match form {
        Form::Difference => Tag::Difference,
        Form::Sum => Tag::Sum,
        Form::NegatedSum => Tag::Difference,
    }
}

// The two variables, and what is at most.
fn write_sides(bytes: &mut Vec<u8>, bound: &Bound<'_>) -> Result<(), AllocError>
    ensures { OnOk result (bytes.new.items ≡ bytes.old.items ++ parts_text (sides_parts bound.now)) }
{
    write(
        bytes,
        &[
            Part::Text(Text { bytes: bound.left }),
            Part::Tag(sign(bound.form)),
            Part::Text(Text { bytes: bound.right }),
            Part::Tag(Tag::AtMost),
            Part::Number(bound.most),
            Part::Tag(Tag::FactEnd),
        ],
    )
}

#[tactic(auto, unfolding(crate::specs::Loops::bound_parts))]
fn write_bound(bytes: &mut Vec<u8>, bound: &Bound<'_>) -> Result<(), AllocError>
    ensures { OnOk result (bytes.new.items ≡ bytes.old.items ++ parts_text (bound_parts bound.now)) }
{
    write_tag(bytes, Tag::FactOpen)?;
    write_front(bytes, bound.form)?;
    write_sides(bytes, bound)
}

// What a row tells of a point.
#[tactic(auto, unfolding(crate::specs::Loops::fact_parts))]
fn write_fact(
    alloc: Global,
    bytes: &mut Vec<u8>,
    number: u64,
    text: &Source<'_>,
    row: &Row<'_>,
) -> Result<(), AllocError>
    ensures { OnOk result (bytes.new.items ≡ bytes.old.items ++ parts_text (fact_parts number text.now row.now)) }
{
    match row {
        Row::Opening(_) => Ok(()),
        Row::Heading(heading) => write_heading(alloc, bytes, number, text, heading),
        Row::NoRun => write(bytes, &[Part::Tag(Tag::NoRun)]),
        Row::Value(value) => write_value(bytes, value),
        Row::Bound(bound) => write_bound(bytes, bound),
        Row::Access(_) => Ok(()),
        Row::Counts(_) => Ok(()),
    }
}

fn write_facts(
    alloc: Global,
    bytes: &mut Vec<u8>,
    number: u64,
    text: &Source<'_>,
    rows: &[Row<'_>],
) -> Result<(), AllocError>
    ensures { OnOk result (
        bytes.new.items ≡ bytes.old.items ++ parts_text (flat_map (fact_parts number text.now) rows.now)) }
{
    for k in 0..rows.len() {
        write_fact(alloc, bytes, number, text, &rows[k])?;
    }
    Ok(())
}

/// Writes what holds at the heads of a text's loops.
#[tactic(auto, unfolding(crate::specs::Loops::loops_parts))]
pub(crate) fn write_loops(
    alloc: Global,
    bytes: &mut Vec<u8>,
    number: u64,
    text: &Source<'_>,
    rows: &[Row<'_>],
) -> Result<(), AllocError>
    ensures { OnOk result (bytes.new.items ≡ bytes.old.items ++ parts_text (loops_parts number text.now rows.now)) }
{
    write(bytes, &[Part::Tag(Tag::LoopsOpen)])?;
    write_facts(alloc, bytes, number, text, rows)
}
