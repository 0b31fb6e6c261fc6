// Rows of the table of operators, at its edges. The expected intervals were worked out by hand from the table.

ghost use Rattle.std.specs.Prelude.{IfSome};
ghost use Rattle.pk_interval.specs.Ranges.{IsIn};

use pk_ctypes::{IntType, Op};
use pk_interval::{Interval, Outcome, between, binary, clamp, unary, wrap};
use std::alloc::{AllocError, Global};
use std::test::Fail;

// The numbers of a type from `lo` to `hi`.
pub(crate) fn interval(t: IntType, lo: i128, hi: i128) -> Option<Interval>
    ensures { IfSome result (λ r. IsIn t r) }
{
    match between(lo, hi) {
        Some(a) => clamp(t, &a),
        None => None,
    }
}

fn outcome_text(alloc: Global, outcome: Outcome) -> Result<String, AllocError> {
    match outcome {
        Outcome::Empty => String::from_str(alloc, "empty"),
        Outcome::Within(a) => {
            let (lo, hi) = (a.lo, a.hi);
            format!(in alloc; "[{lo},{hi}]")
        }
        Outcome::TooLarge => String::from_str(alloc, "too large"),
    }
}

const LEAST: i128 = -2147483648;

const GREATEST: i128 = 2147483647;

const LAST: i128 = 18446744073709551615;

const OPERATORS: [(Op, IntType, (i128, i128), (i128, i128), &str); 42] = [
    (Op::Add, IntType::Int, (1, 2), (3, 4), "[4,6]"),
    (
        Op::Add,
        IntType::Int,
        (GREATEST, GREATEST),
        (1, 1),
        "[2147483648,2147483648]",
    ),
    (Op::Sub, IntType::UInt, (0, 0), (1, 1), "[-1,-1]"),
    (Op::Mul, IntType::Int, (-3, 2), (-5, 7), "[-21,15]"),
    (
        Op::Mul,
        IntType::ULong,
        (0, LAST),
        (0, 9223372036854775808),
        "[0,170141183460469231722463931679029329920]",
    ),
    (
        Op::Mul,
        IntType::ULong,
        (0, LAST),
        (0, 9223372036854775809),
        "too large",
    ),
    (Op::Div, IntType::Int, (-7, 7), (0, 2), "[-7,7]"),
    (Op::Div, IntType::Int, (10, 20), (-3, -1), "[-20,-3]"),
    (Op::Div, IntType::Int, (10, 20), (-3, 4), "[-20,20]"),
    (
        Op::Div,
        IntType::Int,
        (LEAST, LEAST),
        (-1, -1),
        "[2147483648,2147483648]",
    ),
    (Op::Div, IntType::Int, (5, 5), (0, 0), "empty"),
    (Op::Rem, IntType::Int, (-5, 5), (3, 3), "[-2,2]"),
    (Op::Rem, IntType::Int, (0, 100), (-7, 4), "[0,6]"),
    (Op::Rem, IntType::Int, (-9, -1), (0, 1), "[0,0]"),
    (Op::Rem, IntType::Int, (-2, 3), (100, 100), "[-2,3]"),
    (Op::Rem, IntType::Int, (1, 3), (0, 0), "empty"),
    (Op::Shl, IntType::Int, (1, 3), (0, 4), "[1,48]"),
    (Op::Shl, IntType::Int, (-5, 3), (1, 1), "[0,6]"),
    (Op::Shl, IntType::Int, (-5, -1), (1, 1), "empty"),
    (
        Op::Shl,
        IntType::Int,
        (1, 1),
        (31, 40),
        "[2147483648,2147483648]",
    ),
    (Op::Shl, IntType::Int, (1, 1), (32, 40), "empty"),
    (
        Op::Shl,
        IntType::ULong,
        (1, LAST),
        (63, 63),
        "[9223372036854775808,170141183460469231722463931679029329920]",
    ),
    (Op::Shr, IntType::Int, (-8, 9), (1, 2), "[-4,4]"),
    (Op::Shr, IntType::Int, (-1, -1), (1, 1), "[-1,-1]"),
    (Op::Shr, IntType::Int, (255, 255), (-3, 2), "[63,255]"),
    (Op::Shr, IntType::Int, (5, 5), (-3, -1), "empty"),
    (Op::And, IntType::Int, (0, 5), (0, 3), "[0,3]"),
    (Op::And, IntType::Int, (-4, -1), (0, 9), "[0,9]"),
    (
        Op::And,
        IntType::Int,
        (-4, -1),
        (-9, -1),
        "[-2147483648,2147483647]",
    ),
    (Op::Or, IntType::Int, (0, 0), (0, 0), "[0,0]"),
    (Op::Or, IntType::Int, (0, 5), (0, 8), "[0,15]"),
    (Op::Or, IntType::Char, (-1, 1), (0, 0), "[-128,127]"),
    (
        Op::Xor,
        IntType::ULong,
        (0, LAST),
        (0, 7),
        "[0,18446744073709551615]",
    ),
    (Op::Lt, IntType::Int, (0, 3), (4, 9), "[1,1]"),
    (Op::Lt, IntType::Int, (4, 4), (0, 4), "[0,0]"),
    (Op::Lt, IntType::Int, (0, 5), (5, 6), "[0,1]"),
    (Op::Gt, IntType::Int, (5, 6), (0, 4), "[1,1]"),
    (Op::Le, IntType::Int, (0, 5), (5, 6), "[1,1]"),
    (Op::Ge, IntType::Int, (0, 4), (5, 5), "[0,0]"),
    (Op::Eq, IntType::Int, (5, 5), (5, 5), "[1,1]"),
    (Op::Eq, IntType::Int, (0, 5), (5, 5), "[0,1]"),
    (Op::Ne, IntType::Int, (0, 3), (4, 4), "[1,1]"),
];

#[test]
fn operators_in_their_table(rt: HostRuntime) -> Result<(), Fail> {
    for row in &OPERATORS {
        let (op, t, a, b, expected) = *row;
        let left = interval(t, a.0, a.1).ok_or("left")?;
        let right = interval(t, b.0, b.1).ok_or("right")?;
        let text = outcome_text(rt.alloc(), outcome_at(op, t, &left, &right))?;
        assert!(rt; text.as_str() == expected, "{op:?} {a:?} {b:?}");
    }
    Ok(())
}

fn outcome_at(op: Op, t: IntType, a: &Interval, b: &Interval) -> Outcome
    requires left { IsIn t a.now }
    requires right { IsIn t b.now }
{
    binary(op, t, a, b)
}

#[test]
fn unary_operators(rt: HostRuntime) -> Result<(), Fail> {
    let small = interval(IntType::Int, -3, 5).ok_or("small")?;
    let natural = interval(IntType::UChar, 3, 5).ok_or("natural")?;
    for (a, expected) in [
        (unary(Op::Neg, IntType::Int, &small), (-5, 3)),
        (unary(Op::BitNot, IntType::Int, &small), (-6, 2)),
        (unary(Op::BitNot, IntType::UChar, &natural), (250, 252)),
        (unary(Op::Not, IntType::Int, &small), (0, 1)),
        (unary(Op::Not, IntType::UChar, &natural), (0, 0)),
    ] {
        assert!(rt; (a.lo, a.hi) == expected);
    }
    Ok(())
}

const WINDOWS: [(IntType, i128, i128, (i128, i128), Option<i128>); 6] = [
    (
        IntType::UInt,
        -1,
        -1,
        (4294967295, 4294967295),
        Some(4294967296),
    ),
    (IntType::UInt, 0, 5, (0, 5), Some(0)),
    (IntType::UInt, -1, 0, (0, 4294967295), None),
    (IntType::UChar, 256, 511, (0, 255), Some(-256)),
    (IntType::UChar, 250, 260, (0, 255), None),
    (
        IntType::Int,
        2147483648,
        2147483650,
        (-2147483648, -2147483646),
        Some(-4294967296),
    ),
];

#[test]
fn windows(rt: HostRuntime) -> Result<(), Fail> {
    for row in &WINDOWS {
        let (t, lo, hi, expected, expected_added) = *row;
        let numbers = between(lo, hi).ok_or("numbers")?;
        if -65536 <= numbers.lo {
            let (wrapped, added) = wrap(t, &numbers);
            assert!(rt; (wrapped.lo, wrapped.hi) == expected);
            assert!(rt; added == expected_added);
        }
    }
    let past = interval(IntType::Int, GREATEST, 2147483648).ok_or("past")?;
    assert!(rt; (past.lo, past.hi) == (2147483647, 2147483647));
    Ok(())
}

const THRESHOLDS: [i128; 6] = [-1, 0, 1, 9, 10, 11];

const WIDENINGS: [((i128, i128), (i128, i128), (i128, i128)); 7] = [
    ((0, 0), (0, 1), (0, 1)),
    ((0, 1), (0, 2), (0, 9)),
    ((0, 9), (0, 10), (0, 10)),
    ((0, 11), (0, 12), (0, GREATEST)),
    ((0, 0), (-1, 0), (-1, 0)),
    ((0, 0), (-5, 0), (LEAST, 0)),
    ((0, 9), (3, 4), (0, 9)),
];

#[test]
fn widening_stops_at_thresholds(rt: HostRuntime) -> Result<(), Fail> {
    for row in &WIDENINGS {
        let (held, next, expected) = *row;
        let h = interval(IntType::Int, held.0, held.1).ok_or("held")?;
        let n = interval(IntType::Int, next.0, next.1).ok_or("next")?;
        let wide = h.widen(&n, IntType::Int, &THRESHOLDS);
        assert!(rt; (wide.lo, wide.hi) == expected, "{held:?} {next:?}");
    }
    Ok(())
}

const NARROWINGS: [((i128, i128), (i128, i128), (i128, i128)); 3] = [
    ((0, GREATEST), (0, 10), (0, 10)),
    ((0, 9), (0, 5), (0, 9)),
    ((LEAST, 3), (5, 9), (LEAST, 3)),
];

#[test]
fn narrowing_takes_the_type_s_ends(rt: HostRuntime) -> Result<(), Fail> {
    for row in &NARROWINGS {
        let (held, next, expected) = *row;
        let h = interval(IntType::Int, held.0, held.1).ok_or("held")?;
        let n = interval(IntType::Int, next.0, next.1).ok_or("next")?;
        let narrow = h.narrow(&n, IntType::Int);
        assert!(rt; (narrow.lo, narrow.hi) == expected, "{held:?} {next:?}");
    }
    Ok(())
}
