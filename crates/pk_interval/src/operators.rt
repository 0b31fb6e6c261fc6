// The operators on intervals.

ghost use Rattle.std.specs.Prelude.{◌≡◌, true, ◌-◌, ◌^◌, negsuc, ◌≤ℤ◌};
ghost use Rattle.pk_interval.specs.Ranges.{IsIn};
ghost use Rattle.pk_interval.specs.Operators.{range_of, HasRightIn, CanWrap, is_unary};

use crate::bits::{ands, complements, ors};
use crate::comparisons::{apart, at_most, below, one, truths, zeros};
use crate::interval::Interval;
use crate::outcome::{Outcome, within};
use crate::products::{differences, negatives, products, quotients, rests, sums};
use crate::shifts::{shifts_left, shifts_right};
use pk_ctypes::{IntType, Op};

fn by_operator(op: Op, t: IntType, a: &Interval, b: &Interval) -> Outcome
    requires left { IsIn t a.now }
    requires right { HasRightIn op t b.now }
    ensures { result ≡ range_of op t a.now b.now }
{
    match op {
        Op::Add => Outcome::Within(sums(t, a, b)),
        Op::Sub => Outcome::Within(differences(t, a, b)),
        Op::Mul => products(t, a, b),
        Op::Div => within(quotients(t, a, b)),
        Op::Rem => within(rests(t, a, b)),
        Op::Shl => within(shifts_left(t, a, b)),
        Op::Shr => within(shifts_right(t, a, b)),
        Op::And => Outcome::Within(ands(t, a, b)),
        Op::Or => Outcome::Within(ors(t, a, b)),
        Op::Xor => Outcome::Within(ors(t, a, b)),
        Op::Lt => Outcome::Within(truths(below(a, b), at_most(b, a))),
        Op::Gt => Outcome::Within(truths(below(b, a), at_most(a, b))),
        Op::Le => Outcome::Within(truths(at_most(a, b), below(b, a))),
        Op::Ge => Outcome::Within(truths(at_most(b, a), below(a, b))),
        Op::Eq => Outcome::Within(truths(one(a, b), apart(a, b))),
        Op::Ne => Outcome::Within(truths(apart(a, b), one(a, b))),
        Op::Neg => Outcome::Within(negatives(t, a)),
        Op::BitNot => Outcome::Within(complements(t, a)),
        Op::Not => Outcome::Within(zeros(a)),
    }
}

/// What an operator gives on numbers of the intervals, before it is clamped to the type or wrapped into it. A shift's counts may be any numbers, and a unary
/// operator doesn't use `b`.
pub fn binary(op: Op, t: IntType, a: &Interval, b: &Interval) -> Outcome
    requires left { IsIn t a.now }
    requires right { HasRightIn op t b.now }
    ensures value { result ≡ range_of op t a.now b.now }
    ensures least { CanWrap result }
{
    by_operator(op, t, a, b)
}

/// What a unary operator gives on the numbers of an interval, before it is clamped to the type or wrapped into it. It is never empty, nor too large.
pub fn unary(op: Op, t: IntType, a: &Interval) -> Interval
    requires operand { IsIn t a.now }
    requires unary { is_unary op ≡ true }
    ensures value { Outcome.Within result ≡ range_of op t a.now a.now }
    ensures least { negsuc (2 ^ 126 - 1) ≤ℤ result.lo }
{
    match op {
        Op::Neg => negatives(t, a),
        Op::BitNot => complements(t, a),
        _ => zeros(a),
    }
}
