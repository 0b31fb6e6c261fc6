// What holds at the heads of loops, and at other points that a report tells.

ghost use Rattle.std.specs.Prelude.{◌≡◌, ◌++◌, OnOk, codes};
ghost use Rattle.std.specs.Fmt.{decimal, signed_decimal};
ghost use Rattle.pk_show.specs.Paths.{path_in};
ghost use Rattle.pk_show.specs.Rows.{mark_of, front_of};
ghost use Rattle.pk_listing.specs.Invariants as invariants;

use crate::places::{write, write_count, write_path, write_place};
use itoa::Buffer;
use pk_findings::{Text, write_range};
use pk_show::{Bound, Form, Heading, Known, Row, Subject, Value, read_path};
use std::alloc::{AllocError, Global};

fn heading_words(is_head: bool) -> &'static [u8]
    ensures { result.now ≡ invariants.heading_words is_head }
{
    if is_head {
        b": loop: in every run, whenever it is at its head:\n"
    } else {
        b": point: in every run, whenever it is here:\n"
    }
}

fn write_way(
    alloc: Global,
    bytes: &mut Vec<u8>,
    text: &Text<'_>,
    path: &[u8],
) -> Result<(), AllocError>
    ensures { OnOk result (bytes.new.items ≡ bytes.old.items ++ invariants.way_to text.now (path_in path.now)) }
{
    match read_path(alloc, path)? {
        Some(path) => {
            write_path(alloc, bytes, text, &path)?;
            write(bytes, b"\n")
        }
        None => Ok(()),
    }
}

#[tactic(auto, unfolding(crate::specs::Invariants::heading_text))]
fn write_heading(
    alloc: Global,
    bytes: &mut Vec<u8>,
    text: &Text<'_>,
    heading: &Heading<'_>,
) -> Result<(), AllocError>
    ensures { OnOk result (bytes.new.items ≡ bytes.old.items ++ invariants.heading_text text.now heading.now) }
{
    write_place(alloc, bytes, text, heading.at)?;
    write(bytes, heading_words(heading.is_head))?;
    write_way(alloc, bytes, text, heading.path)
}

fn write_number(bytes: &mut Vec<u8>, number: i128) -> Result<(), AllocError>
    ensures { OnOk result (bytes.new.items ≡ bytes.old.items ++ signed_decimal number) }
{
    let mut buffer = Buffer::new();
    write(bytes, buffer.format(number).as_bytes())
}

fn write_times(bytes: &mut Vec<u8>, rest: i128) -> Result<(), AllocError>
    ensures { OnOk result (bytes.new.items ≡ bytes.old.items ++ invariants.times_text rest) }
{
    write(bytes, b"k + ")?;
    write_number(bytes, rest)
}

fn write_form(bytes: &mut Vec<u8>, modulus: i128, rest: i128) -> Result<(), AllocError>
    ensures { OnOk result (bytes.new.items ≡ bytes.old.items ++ invariants.form_text modulus rest) }
{
    write(bytes, b", of the form ")?;
    write_number(bytes, modulus)?;
    write_times(bytes, rest)
}

fn write_class(bytes: &mut Vec<u8>, known: Known) -> Result<(), AllocError>
    ensures { OnOk result (bytes.new.items ≡ bytes.old.items ++ invariants.class_text known) }
{
    if 1 < known.modulus {
        write_form(bytes, known.modulus, known.rest)
    } else {
        Ok(())
    }
}

fn write_class_end(bytes: &mut Vec<u8>, known: Known) -> Result<(), AllocError>
    ensures { OnOk result (bytes.new.items ≡ bytes.old.items ++ invariants.class_end known) }
{
    write_class(bytes, known)?;
    write(bytes, b"\n")
}

#[tactic(auto, unfolding(crate::specs::Invariants::known_text))]
fn write_known(bytes: &mut Vec<u8>, known: Known) -> Result<(), AllocError>
    ensures { OnOk result (bytes.new.items ≡ bytes.old.items ++ invariants.known_text known) }
{
    write(bytes, b" in ")?;
    write_range(bytes, known.lo, known.hi)?;
    write_class_end(bytes, known)
}

fn write_number_of_element(bytes: &mut Vec<u8>, number: u64) -> Result<(), AllocError>
    ensures { OnOk result (bytes.new.items ≡ bytes.old.items ++ (codes "[" ++ (decimal number ++ codes "]"))) }
{
    write(bytes, b"[")?;
    write_count(bytes, number)?;
    write(bytes, b"]")
}

fn write_mark(bytes: &mut Vec<u8>, subject: Subject) -> Result<(), AllocError>
    ensures { OnOk result (bytes.new.items ≡ bytes.old.items ++ mark_of subject) }
{
    match subject {
        Subject::Scalar => Ok(()),
        Subject::EachElement => write(bytes, b"[]"),
        Subject::Element(number) => write_number_of_element(bytes, number),
    }
}

fn write_name(bytes: &mut Vec<u8>, value: &Value<'_>) -> Result<(), AllocError>
    ensures { OnOk result (bytes.new.items ≡ bytes.old.items ++ invariants.name_text value.now) }
{
    write(bytes, value.name)?;
    write_mark(bytes, value.subject)
}

#[tactic(auto, unfolding(crate::specs::Invariants::value_text))]
fn write_value(bytes: &mut Vec<u8>, value: &Value<'_>) -> Result<(), AllocError>
    ensures { OnOk result (bytes.new.items ≡ bytes.old.items ++ invariants.value_text value.now) }
{
    write(bytes, b"    ")?;
    write_name(bytes, value)?;
    write_known(bytes, value.known)
}

fn write_most(bytes: &mut Vec<u8>, most: i128) -> Result<(), AllocError>
    ensures { OnOk result (bytes.new.items ≡ bytes.old.items ++ invariants.most_text most) }
{
    write(bytes, b" <= ")?;
    write_number(bytes, most)?;
    write(bytes, b"\n")
}

fn front_of(form: Form) -> &'static [u8]
    ensures { result.now ≡ front_of form }
{
    match form {
        Form::Difference => b"",
        Form::Sum => b"",
        Form::NegatedSum => b"-",
    }
}

fn sign_text(form: Form) -> &'static [u8]
    ensures { result.now ≡ invariants.sign_text form }
{
    match form {
        Form::Difference => b" - ",
        Form::Sum => b" + ",
        Form::NegatedSum => b" - ",
    }
}

fn write_left(bytes: &mut Vec<u8>, bound: &Bound<'_>) -> Result<(), AllocError>
    ensures { OnOk result (bytes.new.items ≡ bytes.old.items ++ invariants.left_text bound.now) }
{
    write(bytes, front_of(bound.form))?;
    write(bytes, bound.left)
}

fn write_right(bytes: &mut Vec<u8>, bound: &Bound<'_>) -> Result<(), AllocError>
    ensures { OnOk result (bytes.new.items ≡ bytes.old.items ++ invariants.right_text bound.now) }
{
    write(bytes, sign_text(bound.form))?;
    write(bytes, bound.right)?;
    write_most(bytes, bound.most)
}

#[tactic(auto, unfolding(crate::specs::Invariants::bound_text))]
fn write_bound(bytes: &mut Vec<u8>, bound: &Bound<'_>) -> Result<(), AllocError>
    ensures { OnOk result (bytes.new.items ≡ bytes.old.items ++ invariants.bound_text bound.now) }
{
    write(bytes, b"    ")?;
    write_left(bytes, bound)?;
    write_right(bytes, bound)
}

// What a row tells of a point.
#[tactic(auto, unfolding(crate::specs::Invariants::fact_text))]
fn write_fact(
    alloc: Global,
    bytes: &mut Vec<u8>,
    text: &Text<'_>,
    row: &Row<'_>,
) -> Result<(), AllocError>
    ensures { OnOk result (bytes.new.items ≡ bytes.old.items ++ invariants.fact_text text.now row.now) }
{
    match row {
        Row::Opening(_) => Ok(()),
        Row::Heading(heading) => write_heading(alloc, bytes, text, heading),
        Row::NoRun => write(bytes, b"    no run comes here\n"),
        Row::Value(value) => write_value(bytes, value),
        Row::Bound(bound) => write_bound(bytes, bound),
        Row::Access(_) => Ok(()),
        Row::Counts(_) => Ok(()),
    }
}

fn write_facts(
    alloc: Global,
    bytes: &mut Vec<u8>,
    text: &Text<'_>,
    rows: &[Row<'_>],
) -> Result<(), AllocError>
    ensures { OnOk result (bytes.new.items ≡ bytes.old.items ++ invariants.facts_text text.now rows.now) }
{
    for k in 0..rows.len() {
        write_fact(alloc, bytes, text, &rows[k])?;
    }
    Ok(())
}

/// Writes what holds at the heads of loops, where that is asked for.
pub(crate) fn write_invariants(
    alloc: Global,
    bytes: &mut Vec<u8>,
    is_asked: bool,
    text: &Text<'_>,
    rows: &[Row<'_>],
) -> Result<(), AllocError>
    ensures { OnOk result (bytes.new.items ≡ bytes.old.items ++ invariants.invariants_text is_asked text.now rows.now) }
{
    if is_asked {
        write_facts(alloc, bytes, text, rows)
    } else {
        Ok(())
    }
}
