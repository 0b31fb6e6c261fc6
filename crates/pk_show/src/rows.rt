// The lines of a report.

use pk_ctypes::{Fault, Pos};
use std::marker::Model;

/// The first line: the function that runs begin with, and how many points and elements there are.
#[derive(Drop)]
pub struct Opening<'t> {
    pub entry: &'t [u8],
    pub points: u64,
    pub elements: u64,
}

impl<'t> Model for Opening<'t> {
    ghost use Rattle.pk_show.specs.Rows.{OpeningOf};

    ghost Value = { OpeningOf };

    ghost view = { λ o. record { entry = o.entry.now; points = o.points; elements = o.elements } };
}

/// A loop's head, or another point.
#[derive(Drop)]
pub struct Heading<'t> {
    pub is_head: bool,
    pub point: u64,
    pub path: &'t [u8],
    pub at: Pos,
}

impl<'t> Model for Heading<'t> {
    ghost use Rattle.pk_show.specs.Rows.{HeadingOf};

    ghost Value = { HeadingOf };

    ghost view = { λ h. record { is_head = h.is_head; point = h.point; path = h.path.now; at = h.at } };
}

/// What is known of a number: its least and its greatest value, and that it is `rest` where it is divided by the modulus.
#[derive(Clone, Copy)]
pub struct Known {
    pub lo: i128,
    pub hi: i128,
    pub modulus: i128,
    pub rest: i128,
}

/// What a line of values tells of: a variable, each element of an array, or one element by its number.
#[derive(Clone, Copy)]
pub enum Subject {
    Scalar,
    EachElement,
    Element(u64),
}

/// What is known of a variable, of each element of an array, or of one element.
#[derive(Drop)]
pub struct Value<'t> {
    pub name: &'t [u8],
    pub subject: Subject,
    pub known: Known,
}

impl<'t> Model for Value<'t> {
    ghost use Rattle.pk_show.specs.Rows.{ValueOf};

    ghost Value = { ValueOf };

    ghost view = { λ v. record { name = v.name.now; subject = v.subject; known = v.known } };
}

/// What stands to the left of a bound: x - y, x + y or -x - y.
#[derive(Clone, Copy, PartialEq, Eq)]
pub enum Form {
    Difference,
    Sum,
    NegatedSum,
}

/// What is known of two variables.
#[derive(Drop)]
pub struct Bound<'t> {
    pub form: Form,
    pub left: &'t [u8],
    pub right: &'t [u8],
    pub most: i128,
}

impl<'t> Model for Bound<'t> {
    ghost use Rattle.pk_show.specs.Rows.{BoundOf};

    ghost Value = { BoundOf };

    ghost view = { λ b. record { form = b.form; left = b.left.now; right = b.right.now; most = b.most } };
}

/// What was found of an operation.
#[derive(Clone, Copy)]
pub enum Verdict {
    Safe,
    /// What decides it lies in this range.
    Unknown(i128, i128),
    Unreachable,
}

/// An operation that can fault.
#[derive(Drop)]
pub struct Access<'t> {
    pub path: &'t [u8],
    pub at: Pos,
    pub fault: Fault,
    pub verdict: Verdict,
}

impl<'t> Model for Access<'t> {
    ghost use Rattle.pk_show.specs.Rows.{AccessOf};

    ghost Value = { AccessOf };

    ghost view = { λ a. record { path = a.path.now; at = a.at; fault = a.fault; verdict = a.verdict } };
}

/// How many operations have each verdict.
#[derive(Clone, Copy)]
pub struct Counts {
    pub safe: u64,
    pub unknown: u64,
    pub unreachable: u64,
}
