// Worked values: the table of operators by hand, at edges that no clause names. A pair stands for a modulus and a rest.

use pk_congr::{Congr, binary, unary, wrap};
use pk_ctypes::{IntType, Op};
use std::test::Fail;

// 2^63, 2^64 and 2^126.
const HALF: i128 = 9_223_372_036_854_775_808;

const WHOLE: i128 = 18_446_744_073_709_551_616;

const NEAR: i128 = 85_070_591_730_234_615_865_843_651_857_942_052_864;

// The congruence of a modulus and a rest.
pub(crate) fn class(m: i128, r: i128) -> Option<Congr> {
    if m == 0 && -i128::MAX <= r {
        Some(Congr::constant(r))
    } else if 0 <= r && r < m {
        Some(Congr { m, r })
    } else {
        None
    }
}

fn numbers(c: Congr) -> (i128, i128) {
    (c.m, c.r)
}

const PAIRS: [(
    (i128, i128),
    (i128, i128),
    bool,
    (i128, i128),
    Option<(i128, i128)>,
); 10] = [
    ((4, 1), (6, 3), false, (2, 1), Some((12, 9))),
    ((4, 1), (6, 2), false, (1, 0), None),
    ((12, 9), (4, 1), true, (4, 1), Some((12, 9))),
    ((4, 1), (12, 9), false, (4, 1), Some((12, 9))),
    ((0, -7), (4, 1), true, (4, 1), Some((0, -7))),
    ((0, NEAR), (0, -NEAR), false, (1, 0), None),
    ((0, NEAR), (0, 0), false, (NEAR, 0), None),
    (
        (HALF, 1),
        (HALF - 1, 0),
        false,
        (1, 0),
        Some((NEAR - HALF, NEAR - WHOLE + 1)),
    ),
    ((WHOLE, 1), (WHOLE + 1, 5), false, (1, 0), Some((WHOLE, 1))),
    ((6, 2), (0, -4), false, (6, 2), Some((0, -4))),
];

#[test]
fn joins_meets_and_order(rt: HostRuntime) -> Result<(), Fail> {
    for row in &PAIRS {
        let (a, b, below, joined, met) = *row;
        let left = class(a.0, a.1).ok_or("left")?;
        let right = class(b.0, b.1).ok_or("right")?;
        assert!(rt; left.leq(&right) == below, "{a:?} {b:?}");
        assert!(rt; numbers(left.join(&right)) == joined, "{a:?} {b:?}");
        assert!(rt; left.meet(&right).map(numbers) == met, "{a:?} {b:?}");
        assert!(rt; left.is_disjoint(&right) == met.is_none(), "{a:?} {b:?}");
    }
    Ok(())
}

#[test]
fn widening_steps(rt: HostRuntime) -> Result<(), Fail> {
    let first = Congr::constant(5).widen(&Congr::constant(13));
    let second = first.widen(&Congr::constant(9));
    let third = second.widen(&Congr::constant(2));
    for (c, expected) in [
        (first, (8, 5)),
        (second, (4, 1)),
        (third, (1, 0)),
        (third.narrow(&second), (4, 1)),
        (second.narrow(&first), (4, 1)),
    ] {
        assert!(rt; numbers(c) == expected);
    }
    Ok(())
}

const OPERATORS: [(Op, IntType, (i128, i128), (i128, i128), (i128, i128)); 23] = [
    (Op::Add, IntType::Int, (4, 1), (6, 3), (2, 0)),
    (Op::Add, IntType::Int, (0, NEAR), (0, NEAR), (1, 0)),
    (
        Op::Add,
        IntType::Int,
        (0, NEAR),
        (0, NEAR - 1),
        (0, i128::MAX),
    ),
    (Op::Sub, IntType::Int, (6, 3), (4, 1), (2, 0)),
    (Op::Mul, IntType::Int, (4, 1), (6, 3), (6, 3)),
    (Op::Mul, IntType::Int, (0, -NEAR), (0, 2), (1, 0)),
    (Op::Mul, IntType::Int, (WHOLE, 0), (HALF, 0), (1, 0)),
    (Op::Mul, IntType::Int, (HALF, 0), (HALF, 0), (NEAR, 0)),
    (Op::Mul, IntType::Int, (WHOLE, 1), (0, HALF), (1, 0)),
    (Op::Div, IntType::Int, (6, 3), (0, -3), (2, 1)),
    (Op::Div, IntType::Int, (0, -9), (0, 3), (0, -3)),
    (Op::Div, IntType::Int, (6, 4), (0, 3), (1, 0)),
    (Op::Div, IntType::Int, (6, 3), (2, 1), (1, 0)),
    (Op::Div, IntType::Int, (6, 3), (0, 0), (1, 0)),
    (Op::Rem, IntType::Int, (6, 3), (4, 2), (2, 1)),
    (Op::Rem, IntType::Int, (0, -7), (0, 3), (3, 2)),
    (Op::Shl, IntType::Int, (4, 1), (0, 3), (32, 8)),
    (Op::Shl, IntType::Int, (4, 1), (0, 32), (1, 0)),
    (Op::Shl, IntType::Int, (4, 1), (2, 1), (1, 0)),
    (Op::Shr, IntType::Int, (4, 0), (0, 1), (1, 0)),
    (Op::BitNot, IntType::Int, (3, 1), (1, 0), (3, 1)),
    (Op::BitNot, IntType::UInt, (3, 1), (1, 0), (3, 2)),
    (Op::Not, IntType::Int, (4, 1), (1, 0), (1, 0)),
];

#[test]
fn operators_in_their_table(rt: HostRuntime) -> Result<(), Fail> {
    for row in &OPERATORS {
        let (op, t, a, b, expected) = *row;
        let left = class(a.0, a.1).ok_or("left")?;
        let right = class(b.0, b.1).ok_or("right")?;
        assert!(rt;
            numbers(binary(op, t, &left, &right)) == expected,
            "{op:?} {a:?} {b:?}"
        );
    }
    let a = class(4, 1).ok_or("class")?;
    assert!(rt; numbers(unary(Op::Neg, IntType::Int, &a)) == (4, 3));
    assert!(rt; numbers(unary(Op::Add, IntType::Int, &a)) == (1, 0));
    Ok(())
}

const WRAPS: [(IntType, (i128, i128), Option<i128>, (i128, i128)); 5] = [
    (IntType::UChar, (6, 5), Some(-256), (6, 1)),
    (IntType::UChar, (6, 5), None, (2, 1)),
    (IntType::UChar, (0, 300), None, (256, 44)),
    (IntType::ULong, (9, 0), None, (1, 0)),
    (IntType::Int, (0, i128::MAX), Some(1), (1, 0)),
];

#[test]
fn wraps_of_one_window_and_of_two(rt: HostRuntime) -> Result<(), Fail> {
    for row in &WRAPS {
        let (t, a, added, expected) = *row;
        let class = class(a.0, a.1).ok_or("class")?;
        assert!(rt; numbers(wrap(t, &class, added)) == expected);
    }
    Ok(())
}

const MEMBERS: [((i128, i128), i128, bool, Option<i128>, Option<i128>); 6] = [
    ((4, 1), -7, true, Some(-7), Some(-7)),
    ((4, 1), -6, false, Some(-3), Some(-7)),
    ((4, 1), 2, false, Some(5), Some(1)),
    ((4, 1), 0, false, Some(1), Some(-3)),
    ((4, 1), i128::MAX - 1, false, None, Some(i128::MAX - 2)),
    ((0, 8), 9, false, None, Some(8)),
];

#[test]
fn next_members(rt: HostRuntime) -> Result<(), Fail> {
    for row in &MEMBERS {
        let (a, x, contained, up, down) = *row;
        let class = class(a.0, a.1).ok_or("class")?;
        assert!(rt; class.contains(x) == contained, "{a:?} {x}");
        assert!(rt; class.next_up(x) == up, "{a:?} {x}");
        assert!(rt; class.next_down(x) == down, "{a:?} {x}");
    }
    Ok(())
}
