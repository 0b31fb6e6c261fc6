// Tests of values.

ghost use Rattle.std.specs.Prelude.{◌≡◌, ◌-ℤ◌, pos, ◌<◌};
ghost use Rattle.pk_ctypes.specs.Types.{is_signed_of};
ghost use Rattle.pk_interval.specs.Ranges.{IsIn};
ghost use Rattle.pk_interval.specs.Operators.{HasRightIn};
ghost use Rattle.pk_verdict.specs.Verdicts.{safe_if, lies_in as all_lie_in, excludes as excludes_it, result_verdict, quotient_verdict, ranged_verdict, operator_verdict, left_verdict, moved_verdict, shift_verdict};

use pk_ctypes::{IntType, Op, is_signed, range, width};
use pk_graph::Verdict;
use pk_interval::{Interval, Outcome, binary};
use pk_value::Value;

pub fn safe_where(safe: bool, decides: &Interval) -> Verdict
    ensures { result ≡ safe_if safe decides.now }
{
    if safe {
        Verdict::Safe
    } else {
        Verdict::Unknown {
            lo: decides.lo,
            hi: decides.hi,
        }
    }
}

pub fn lies_in(lo: i128, hi: i128, x: &Interval) -> bool
    ensures { result ≡ all_lie_in lo hi x.now }
{
    lo <= x.lo && x.hi <= hi
}

// Whether each number is an index of an array of so many elements.
pub fn are_indices(length: usize, x: &Interval) -> bool
    ensures { result ≡ all_lie_in (pos 0) (pos length -ℤ pos 1) x.now }
{
    let last = length as i128 - 1;
    lies_in(0, last, x)
}

// Whether a number isn't one of those that are known.
pub fn excludes(x: &Value, z: i128) -> bool
    ensures { result ≡ excludes_it x.now z }
{
    z < x.interval.lo || x.interval.hi < z || !x.congr.contains(z)
}

fn result(t: IntType, found: &Outcome) -> Verdict
    ensures { result ≡ result_verdict t found.now }
{
    let (lo, hi) = range(t);
    match found {
        Outcome::Empty => Verdict::Unreachable,
        Outcome::Within(x) => safe_where(lies_in(lo, hi, x), x),
        Outcome::TooLarge => Verdict::Unknown { lo, hi },
    }
}

// Whether the result of an operator lies in its type.
pub fn ranged(op: Op, t: IntType, a: &Value, b: &Value) -> Verdict
    requires left { IsIn t a.now.range }
    requires right { HasRightIn op t b.now.range }
    ensures { result ≡ ranged_verdict op t a.now b.now }
{
    result(t, &binary(op, t, &a.interval, &b.interval))
}

fn quotient(t: IntType, a: &Value, b: &Value) -> Verdict
    ensures { result ≡ quotient_verdict t a.now b.now }
{
    let (least, _) = range(t);
    safe_where(excludes(a, least) || excludes(b, -1), &a.interval)
}

pub fn operator(op: Op, t: IntType, a: &Value, b: &Value) -> Verdict
    requires left { IsIn t a.now.range }
    requires right { HasRightIn op t b.now.range }
    ensures { result ≡ operator_verdict op t a.now b.now }
{
    match op {
        Op::Div => quotient(t, a, b),
        Op::Rem => quotient(t, a, b),
        Op::Add
        | Op::Sub
        | Op::Mul
        | Op::Shl
        | Op::Shr
        | Op::And
        | Op::Or
        | Op::Xor
        | Op::Lt
        | Op::Gt
        | Op::Le
        | Op::Ge
        | Op::Eq
        | Op::Ne
        | Op::Neg
        | Op::BitNot
        | Op::Not => ranged(op, t, a, b),
    }
}

fn shifted_left(t: IntType, a: &Value, b: &Value) -> Verdict
    requires { IsIn t a.now.range }
    ensures { result ≡ left_verdict (is_signed_of t) t a.now b.now }
{
    if !is_signed(t) {
        return Verdict::Safe;
    }
    if 0 <= a.interval.lo {
        ranged(Op::Shl, t, a, b)
    } else {
        safe_where(false, &a.interval)
    }
}

fn moved(op: Op, t: IntType, a: &Value, b: &Value) -> Verdict
    requires { IsIn t a.now.range }
    ensures { result ≡ moved_verdict op t a.now b.now }
{
    match op {
        Op::Shl => shifted_left(t, a, b),
        Op::Add
        | Op::Sub
        | Op::Mul
        | Op::Div
        | Op::Rem
        | Op::Shr
        | Op::And
        | Op::Or
        | Op::Xor
        | Op::Lt
        | Op::Gt
        | Op::Le
        | Op::Ge
        | Op::Eq
        | Op::Ne
        | Op::Neg
        | Op::BitNot
        | Op::Not => Verdict::Safe,
    }
}

// A shift, first its count.
pub fn shift(op: Op, t: IntType, a: &Value, b: &Value) -> Verdict
    requires { IsIn t a.now.range }
    ensures { result ≡ shift_verdict op t a.now b.now }
{
    if lies_in(0, width(t) as i128 - 1, &b.interval) {
        moved(op, t, a, b)
    } else {
        safe_where(false, &b.interval)
    }
}
