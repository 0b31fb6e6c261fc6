// How each line is read.

ghost use Rattle.std.specs.Prelude.{◌≡◌, MatchOption, None, Some};
ghost use Rattle.pk_show.specs.Rows.{head_word};
ghost use Rattle.pk_show.specs.Reading.{opening_in, heading_in, element_in, elements_in, array_in, subject_in, value_in, form_in, bound_in, unknown_in, verdict_in, access_in, others_in, counts_in, class_in, known_in};

use crate::pieces::{count, cut, fault, is_first, is_name, is_same, place, signed, strip};
use crate::rows::{Access, Bound, Counts, Form, Heading, Known, Opening, Subject, Value, Verdict};

/// The first line that a line is.
#[tactic(auto, unfolding(crate::specs::Reading::opening_in))]
pub(crate) fn opening(line: &[u8]) -> Option<Opening<'_>>
    ensures { result ≡ opening_in line.now }
{
    let text = strip(line, b"pikos 1 entry ")?;
    let (entry, text) = cut(text, b" points ")?;
    let (points, elements) = cut(text, b" elements ")?;
    if is_name(entry) {
        let points = count(points)?;
        let elements = count(elements)?;
        Some(Opening {
            entry,
            points,
            elements,
        })
    } else {
        None
    }
}

fn word(is_head: bool) -> &'static [u8]
    ensures { result.now ≡ head_word is_head }
{
    if is_head { b"head " } else { b"point " }
}

/// The heading that a line is.
#[tactic(auto, unfolding(crate::specs::Reading::heading_in))]
pub(crate) fn heading(is_head: bool, line: &[u8]) -> Option<Heading<'_>>
    ensures { result ≡ heading_in is_head line.now }
{
    let text = strip(line, word(is_head))?;
    let (point, text) = cut(text, b" ")?;
    let (path, text) = cut(text, b" ")?;
    let (line, column) = cut(text, b":")?;
    let point = count(point)?;
    let at = place(line, column)?;
    Some(Heading {
        is_head,
        point,
        path,
        at,
    })
}

/// The access that a line is.
#[tactic(auto, unfolding(crate::specs::Reading::access_in))]
pub(crate) fn access(line: &[u8]) -> Option<Access<'_>>
    ensures { result ≡ access_in line.now }
{
    let text = strip(line, b"access ")?;
    let (path, text) = cut(text, b" ")?;
    let (line, text) = cut(text, b":")?;
    let (column, text) = cut(text, b" ")?;
    let (kind, text) = cut(text, b" ")?;
    let at = place(line, column)?;
    let fault = fault(kind)?;
    let verdict = verdict(text)?;
    Some(Access {
        path,
        at,
        fault,
        verdict,
    })
}

#[tactic(auto, unfolding(crate::specs::Reading::unknown_in))]
fn unknown(text: &[u8]) -> Option<Verdict>
    ensures { result ≡ unknown_in text.now }
{
    let text = strip(text, b"unknown [")?;
    let (lo, text) = cut(text, b",")?;
    let (hi, rest) = cut(text, b"]")?;
    let lo = signed(lo)?;
    let hi = signed(hi)?;
    if is_same(rest, b"") {
        Some(Verdict::Unknown(lo, hi))
    } else {
        None
    }
}

#[tactic(auto, unfolding(crate::specs::Reading::verdict_in))]
fn verdict(text: &[u8]) -> Option<Verdict>
    ensures { result ≡ verdict_in text.now }
{
    if is_same(text, b"safe") {
        Some(Verdict::Safe)
    } else if is_same(text, b"unreachable") {
        Some(Verdict::Unreachable)
    } else {
        unknown(text)
    }
}

// How many are unknown, and how many unreachable.
#[tactic(auto, unfolding(crate::specs::Reading::others_in))]
fn others(text: &[u8]) -> Option<(u64, u64)>
    ensures { result ≡ others_in text.now }
{
    let (unknown, unreachable) = cut(text, b" unreachable ")?;
    let unknown = count(unknown)?;
    let unreachable = count(unreachable)?;
    Some((unknown, unreachable))
}

/// The counts that a line is.
#[tactic(auto, unfolding(crate::specs::Reading::counts_in))]
pub(crate) fn counts(line: &[u8]) -> Option<Counts>
    ensures { result ≡ counts_in line.now }
{
    let text = strip(line, b"result safe ")?;
    let (safe, text) = cut(text, b" unknown ")?;
    let safe = count(safe)?;
    let (unknown, unreachable) = others(text)?;
    Some(Counts {
        safe,
        unknown,
        unreachable,
    })
}

// The element whose number stands in the brackets.
#[tactic(auto, unfolding(crate::specs::Reading::element_in))]
fn element(text: &[u8]) -> Option<Subject>
    ensures { result ≡ element_in text.now }
{
    let (number, rest) = cut(text, b"]")?;
    let number = count(number)?;
    if is_same(rest, b"") {
        Some(Subject::Element(number))
    } else {
        None
    }
}

// What stands behind a bracket.
#[tactic(auto, unfolding(crate::specs::Reading::elements_in))]
fn elements(text: &[u8]) -> Option<Subject>
    ensures { result ≡ elements_in text.now }
{
    if is_same(text, b"]") {
        Some(Subject::EachElement)
    } else {
        element(text)
    }
}

#[tactic(auto, unfolding(crate::specs::Reading::array_in))]
fn array(text: &[u8]) -> Option<(&[u8], Subject)>
    ensures { MatchOption result (array_in text.now ≡ None) (λ p. array_in text.now ≡ Some (p.0.now, p.1)) }
{
    let (name, rest) = cut(text, b"[")?;
    if is_name(name) {
        let subject = elements(rest)?;
        Some((name, subject))
    } else {
        None
    }
}

// A name, or that of an array with its mark.
#[tactic(auto, unfolding(crate::specs::Reading::subject_in))]
fn subject(text: &[u8]) -> Option<(&[u8], Subject)>
    ensures { MatchOption result (subject_in text.now ≡ None) (λ p. subject_in text.now ≡ Some (p.0.now, p.1)) }
{
    if is_name(text) {
        Some((text, Subject::Scalar))
    } else {
        array(text)
    }
}

#[tactic(auto, unfolding(crate::specs::Reading::class_in))]
fn class(text: &[u8]) -> Option<(i128, i128)>
    ensures { result ≡ class_in text.now }
{
    let (modulus, rest) = cut(text, b"Z+")?;
    let modulus = signed(modulus)?;
    let rest = signed(rest)?;
    Some((modulus, rest))
}

#[tactic(auto, unfolding(crate::specs::Reading::known_in))]
fn known(text: &[u8]) -> Option<Known>
    ensures { result ≡ known_in text.now }
{
    let (lo, text) = cut(text, b",")?;
    let (hi, text) = cut(text, b"] ")?;
    let lo = signed(lo)?;
    let hi = signed(hi)?;
    let (modulus, rest) = class(text)?;
    Some(Known {
        lo,
        hi,
        modulus,
        rest,
    })
}

/// The line of values that a line is.
#[tactic(auto, unfolding(crate::specs::Reading::value_in))]
pub(crate) fn value(line: &[u8]) -> Option<Value<'_>>
    ensures { result ≡ value_in line.now }
{
    let text = strip(line, b"  ")?;
    let (name, text) = cut(text, b" [")?;
    let (name, subject) = subject(name)?;
    let known = known(text)?;
    Some(Value {
        name,
        subject,
        known,
    })
}

// The form, and the name without its sign.
#[tactic(auto, unfolding(crate::specs::Reading::form_in))]
fn form<'t>(left: &'t [u8], sign: &[u8]) -> Option<(Form, &'t [u8])>
    ensures { MatchOption result (form_in left.now sign.now ≡ None)
        (λ p. form_in left.now sign.now ≡ Some (p.0, p.1.now)) }
{
    if is_first(left, b'-') {
        if is_same(sign, b"-") {
            Some((Form::NegatedSum, &left[1..]))
        } else {
            None
        }
    } else if is_same(sign, b"-") {
        Some((Form::Difference, left))
    } else if is_same(sign, b"+") {
        Some((Form::Sum, left))
    } else {
        None
    }
}

/// The line of two variables.
#[tactic(auto, unfolding(crate::specs::Reading::bound_in))]
pub(crate) fn bound(line: &[u8]) -> Option<Bound<'_>>
    ensures { result ≡ bound_in line.now }
{
    let text = strip(line, b"  ")?;
    let (left, text) = cut(text, b" ")?;
    let (sign, text) = cut(text, b" ")?;
    let (right, most) = cut(text, b" <= ")?;
    let (form, left) = form(left, sign)?;
    if !is_name(left) {
        return None;
    }
    if !is_name(right) {
        return None;
    }
    let most = signed(most)?;
    Some(Bound {
        form,
        left,
        right,
        most,
    })
}
