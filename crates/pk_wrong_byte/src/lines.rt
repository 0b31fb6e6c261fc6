// How far a text goes as each line of a report.

ghost use Rattle.std.specs.Prelude.{◌≡◌};
ghost use Rattle.pk_ctypes.specs.Words.{fault_text};
ghost use Rattle.pk_show.specs.declared.report.Kind.TheVariants as kind;
ghost use Rattle.pk_show.specs.Rows.{head_word, front_of, sign_of};
ghost use Rattle.pk_wrong_byte.specs.Lines.{left, opening, heading, known, value, element, bound, unknown, verdict_left, fault_left, faults_left, access, counts, kind_left};

use crate::pieces::{Reached, count, literal, name, number, path, place};
use pk_ctypes::Fault;
use pk_show::{Form, Kind};

fn left(r: &Reached<'_>) -> usize
    ensures { result ≡ left r.now }
{
    r.rest.len()
}

#[tactic(auto, unfolding(crate::specs::Lines::opening))]
fn opening<'t>(r: &Reached<'t>) -> Reached<'t>
    ensures { result ≡ opening r.now }
{
    let entry = name(&literal(r, b"pikos 1 entry "));
    let points = count(&literal(&entry, b" points "));
    count(&literal(&points, b" elements "))
}

fn head_word(is_head: bool) -> &'static [u8]
    ensures { result.now ≡ head_word is_head }
{
    if is_head { b"head " } else { b"point " }
}

#[tactic(auto, unfolding(crate::specs::Lines::heading))]
fn heading<'t>(r: &Reached<'t>, is_head: bool) -> Reached<'t>
    ensures { result ≡ heading is_head r.now }
{
    let point = count(&literal(r, head_word(is_head)));
    let path = path(&literal(&point, b" "));
    place(&literal(&path, b" "))
}

#[tactic(auto, unfolding(crate::specs::Lines::known))]
fn known<'t>(r: &Reached<'t>) -> Reached<'t>
    ensures { result ≡ known r.now }
{
    let lo = number(r);
    let hi = number(&literal(&lo, b","));
    let modulus = number(&literal(&hi, b"] "));
    number(&literal(&modulus, b"Z+"))
}

#[tactic(auto, unfolding(crate::specs::Lines::value))]
fn value<'t>(r: &Reached<'t>, mark: &[u8]) -> Reached<'t>
    ensures { result ≡ value mark.now r.now }
{
    let name = name(&literal(r, b"  "));
    let marked = literal(&name, mark);
    known(&literal(&marked, b" ["))
}

#[tactic(auto, unfolding(crate::specs::Lines::element))]
fn element<'t>(r: &Reached<'t>) -> Reached<'t>
    ensures { result ≡ element r.now }
{
    let name = name(&literal(r, b"  "));
    let number = count(&literal(&name, b"["));
    known(&literal(&number, b"] ["))
}

fn front_of(form: Form) -> &'static [u8]
    ensures { result.now ≡ front_of form }
{
    match form {
        Form::Difference => b"",
        Form::Sum => b"",
        Form::NegatedSum => b"-",
    }
}

fn sign_of(form: Form) -> &'static [u8]
    ensures { result.now ≡ sign_of form }
{
    match form {
        Form::Difference => b"-",
        Form::Sum => b"+",
        Form::NegatedSum => b"-",
    }
}

#[tactic(auto, unfolding(crate::specs::Lines::bound))]
fn bound<'t>(r: &Reached<'t>, form: Form) -> Reached<'t>
    ensures { result ≡ bound form r.now }
{
    let front = literal(&literal(r, b"  "), front_of(form));
    let left = literal(&name(&front), b" ");
    let sign = literal(&literal(&left, sign_of(form)), b" ");
    number(&literal(&name(&sign), b" <= "))
}

#[tactic(auto, unfolding(crate::specs::Lines::unknown))]
fn unknown<'t>(r: &Reached<'t>) -> Reached<'t>
    ensures { result ≡ unknown r.now }
{
    let lo = number(&literal(r, b"unknown ["));
    let hi = number(&literal(&lo, b","));
    literal(&hi, b"]")
}

fn verdict_left(r: &Reached<'_>) -> usize
    ensures { result ≡ verdict_left r.now }
{
    let safe = left(&literal(r, b"safe"));
    let unreachable = left(&literal(r, b"unreachable"));
    let unknown = left(&unknown(r));
    safe.min(unreachable.min(unknown))
}

fn fault_word(fault: Fault) -> &'static [u8]
    ensures { result.now ≡ fault_text fault }
{
    match fault {
        Fault::Index => b"index",
        Fault::DivZero => b"divzero",
        Fault::Overflow => b"overflow",
        Fault::Shift => b"shift",
        Fault::Assert => b"assert",
    }
}

fn fault_left(r: &Reached<'_>, fault: Fault) -> usize
    ensures { result ≡ fault_left fault r.now }
{
    verdict_left(&literal(&literal(r, fault_word(fault)), b" "))
}

fn faults_left(r: &Reached<'_>) -> usize
    ensures { result ≡ faults_left r.now }
{
    let index = fault_left(r, Fault::Index);
    let divzero = fault_left(r, Fault::DivZero);
    let overflow = fault_left(r, Fault::Overflow);
    let shift = fault_left(r, Fault::Shift);
    let assert = fault_left(r, Fault::Assert);
    index.min(divzero.min(overflow.min(shift.min(assert))))
}

#[tactic(auto, unfolding(crate::specs::Lines::access))]
fn access<'t>(r: &Reached<'t>) -> Reached<'t>
    ensures { result ≡ access r.now }
{
    let path = path(&literal(r, b"access "));
    let at = place(&literal(&path, b" "));
    literal(&at, b" ")
}

#[tactic(auto, unfolding(crate::specs::Lines::counts))]
fn counts<'t>(r: &Reached<'t>) -> Reached<'t>
    ensures { result ≡ counts r.now }
{
    let safe = count(&literal(r, b"result safe "));
    let unknown = count(&literal(&safe, b" unknown "));
    count(&literal(&unknown, b" unreachable "))
}

fn heading_left(r: &Reached<'_>) -> usize
    ensures { result ≡ kind_left kind.Heading r.now }
{
    let head = left(&heading(r, true));
    let point = left(&heading(r, false));
    head.min(point)
}

fn value_left(r: &Reached<'_>) -> usize
    ensures { result ≡ kind_left kind.Value r.now }
{
    let scalar = left(&value(r, b""));
    let each = left(&value(r, b"[]"));
    let element = left(&element(r));
    scalar.min(each.min(element))
}

fn bound_left(r: &Reached<'_>) -> usize
    ensures { result ≡ kind_left kind.Bound r.now }
{
    let difference = left(&bound(r, Form::Difference));
    let sum = left(&bound(r, Form::Sum));
    let negated = left(&bound(r, Form::NegatedSum));
    difference.min(sum.min(negated))
}

/// How many bytes of a text are left by the line of a kind that goes furthest.
pub(crate) fn kind_left(kind: Kind, r: &Reached<'_>) -> usize
    ensures { result ≡ kind_left kind r.now }
{
    match kind {
        Kind::Opening => left(&opening(r)),
        Kind::Heading => heading_left(r),
        Kind::NoRun => left(&literal(r, b"  unreachable")),
        Kind::Value => value_left(r),
        Kind::Bound => bound_left(r),
        Kind::Access => faults_left(&access(r)),
        Kind::Counts => left(&counts(r)),
    }
}
