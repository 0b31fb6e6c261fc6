// Pairs of an interval and a congruence, with what was worked out by hand.

use crate::congruences::class;
use crate::intervals::interval;
use pk_congr::Congr;
use pk_ctypes::IntType;
use pk_interval::Interval;
use pk_value::reduce;
use std::test::Fail;

// The bounds of an interval, and a congruence's modulus and rest.
fn numbers(pair: (Interval, Congr)) -> (i128, i128, i128, i128) {
    (pair.0.lo, pair.0.hi, pair.1.m, pair.1.r)
}

const PAIRS: [(i128, i128, i128, i128, Option<(i128, i128, i128, i128)>); 10] = [
    (0, 10, 3, 1, Some((1, 10, 3, 1))),
    (0, 9, 3, 1, Some((1, 7, 3, 1))),
    (-18, 20, 2, 1, Some((-17, 19, 2, 1))),
    (-3, 7, 1, 0, Some((-3, 7, 1, 0))),
    (5, 5, 1, 0, Some((5, 5, 0, 5))),
    (4, 6, 5, 0, Some((5, 5, 0, 5))),
    (1, 3, 5, 0, None),
    (0, 9, 0, 5, Some((5, 5, 0, 5))),
    (6, 9, 0, 5, None),
    (-9, 4, 0, 5, None),
];

#[test]
fn pairs(rt: HostRuntime) -> Result<(), Fail> {
    for row in &PAIRS {
        let (lo, hi, m, r, expected) = *row;
        let a = interval(IntType::Int, lo, hi).ok_or("interval")?;
        let c = class(m, r).ok_or("class")?;
        assert!(rt; reduce(IntType::Int, &a, &c).map(numbers) == expected);
    }
    Ok(())
}
