// Operators and conversions of values, with what was worked out by hand from the tables.

ghost use Rattle.std.specs.Prelude.{IfSome};
ghost use Rattle.pk_interval.specs.Ranges.{IsIn};

use crate::congruences::class;
use crate::intervals::interval;
use pk_ctypes::{IntType, Op};
use pk_value::{Value, convert, operate};
use std::test::Fail;

// The numbers of a type from `lo` to `hi` that are `r` modulo `m`.
fn value(t: IntType, lo: i128, hi: i128, m: i128, r: i128) -> Option<Value>
    ensures { IfSome result (λ v. IsIn t v.range) }
{
    match interval(t, lo, hi) {
        Some(interval) => match class(m, r) {
            Some(congr) => Some(Value { interval, congr }),
            None => None,
        },
        None => None,
    }
}

// The bounds, the modulus and the rest.
fn numbers(v: Value) -> (i128, i128, i128, i128) {
    (v.interval.lo, v.interval.hi, v.congr.m, v.congr.r)
}

fn operated(op: Op, t: IntType, a: &Value, b: &Value) -> Option<Value>
    requires left { IsIn t a.now.range }
    requires right { IsIn t b.now.range }
{
    operate(op, t, a, b)
}

const OPERATORS: [(
    Op,
    (i128, i128, i128, i128),
    (i128, i128, i128, i128),
    Option<(i128, i128, i128, i128)>,
); 10] = [
    // constants
    (Op::Add, (2, 2, 0, 2), (3, 3, 0, 3), Some((5, 5, 0, 5))),
    (
        Op::Div,
        (-7, -7, 0, -7),
        (2, 2, 0, 2),
        Some((-3, -3, 0, -3)),
    ),
    (Op::Lt, (2, 2, 0, 2), (3, 3, 0, 3), Some((1, 1, 0, 1))),
    // constants with a fault
    (Op::Div, (7, 7, 0, 7), (0, 0, 0, 0), None),
    // the interval and the class
    (Op::Add, (0, 10, 2, 0), (1, 5, 2, 1), Some((1, 15, 2, 1))),
    (Op::Mul, (0, 10, 1, 0), (4, 4, 0, 4), Some((0, 40, 4, 0))),
    // a result that is cut at the type's end, and then reduced
    (
        Op::Add,
        (2147483640, 2147483646, 2, 0),
        (0, 100, 2, 0),
        Some((2147483640, 2147483646, 2, 0)),
    ),
    // classes that are apart
    (Op::Eq, (0, 10, 2, 0), (1, 9, 2, 1), Some((0, 0, 0, 0))),
    (Op::Ne, (0, 10, 2, 0), (1, 9, 2, 1), Some((1, 1, 0, 1))),
    (Op::Eq, (0, 10, 2, 0), (4, 8, 2, 0), Some((0, 1, 1, 0))),
];

#[test]
fn operators(rt: HostRuntime) -> Result<(), Fail> {
    for row in &OPERATORS {
        let (op, a, b, expected) = *row;
        let left = value(IntType::Int, a.0, a.1, a.2, a.3).ok_or("left")?;
        let right = value(IntType::Int, b.0, b.1, b.2, b.3).ok_or("right")?;
        let found = operated(op, IntType::Int, &left, &right);
        assert!(rt; found.map(numbers) == expected, "{op:?} {a:?} {b:?}");
    }
    Ok(())
}

fn converted(t: IntType, a: &Value) -> Option<Value> {
    if a.interval.lo < -9223372036854775808 {
        None
    } else {
        convert(t, a)
    }
}

const CONVERSIONS: [(
    IntType,
    (i128, i128, i128, i128),
    IntType,
    Option<(i128, i128, i128, i128)>,
); 4] = [
    (
        IntType::Int,
        (-2, -2, 0, -2),
        IntType::UInt,
        Some((4294967294, 4294967294, 0, 4294967294)),
    ),
    (
        IntType::Int,
        (256, 266, 2, 0),
        IntType::UChar,
        Some((0, 10, 2, 0)),
    ),
    (
        IntType::Int,
        (250, 260, 5, 0),
        IntType::UChar,
        Some((0, 255, 1, 0)),
    ),
    (
        IntType::Int,
        (3, 9, 3, 0),
        IntType::Long,
        Some((3, 9, 3, 0)),
    ),
];

#[test]
fn conversions(rt: HostRuntime) -> Result<(), Fail> {
    for row in &CONVERSIONS {
        let (from, a, to, expected) = *row;
        let known = value(from, a.0, a.1, a.2, a.3).ok_or("value")?;
        assert!(rt; converted(to, &known).map(numbers) == expected, "{a:?}");
    }
    Ok(())
}

#[test]
fn equality(rt: HostRuntime) -> Result<(), Fail> {
    let a = value(IntType::Int, 0, 9, 3, 0).ok_or("a")?;
    let b = value(IntType::Int, 0, 9, 3, 0).ok_or("b")?;
    let c = value(IntType::Int, 0, 9, 3, 1).ok_or("c")?;
    assert!(rt; a.equals(&b));
    assert!(rt; !a.equals(&c));
    assert!(rt; !a.equals(&Value::any(IntType::Int)));
    assert!(rt; a.leq(&Value::any(IntType::Int)));
    Ok(())
}
