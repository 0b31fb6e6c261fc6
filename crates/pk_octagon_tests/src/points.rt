// Integers that attain the bounds of closings, or go beyond a number where there is none: their first number, as a second implementation finds it.

ghost use Rattle.std.specs.Prelude.{◌≡◌, ◌≢◌, ◌<◌, ◌≤◌, ◌*◌, ◌-◌, ◌^◌, ◌≤ℤ◌, pos, negsuc, IfOk, IfSome, length};
ghost use Rattle.pk_octmat.specs.Octagon.{entry};
ghost use Rattle.pk_octpoints.specs.Points.{AreWithin};
ghost use Rattle.pk_octpoints.specs.Tight.{IsTight};

use crate::closing::write_bounds;
use pk_octclose::{close, small};
use pk_octmat::{Matrix, Shape};
use pk_octpoints::{inside, point, point_past};
use std::alloc::{AllocError, Global};
use std::test::Fail;

// The closing of a matrix, if it is small and not empty.
fn closed(m: Matrix) -> Option<Matrix>
    requires { m.vars ≤ 64 }
    ensures { IfSome result (λ r. (r.vars ≡ m.vars) × IsTight r.vars (entry r)) }
{
    let mut m = m;
    if !small(&m) {
        return None;
    }
    match close(&mut m) {
        Shape::Kept => Some(m),
        Shape::Empty => None,
    }
}

// Integers that attain a bound, or go beyond b where there is none.
fn reached(alloc: Global, m: &Matrix, i: u32, j: u32, b: i128) -> Result<Vec<i128>, AllocError>
    requires tight { IsTight m.now.vars (entry m.now) }
    requires row { i < 2 * m.now.vars }
    requires column { j < 2 * m.now.vars }
    requires apart { i ≢ j }
    requires low { negsuc (2 ^ 64 - 1) ≤ℤ b }
    requires high { b ≤ℤ pos (2 ^ 64) }
    ensures { IfOk result (λ xs. (length xs.items ≡ m.now.vars) × AreWithin xs.items) }
{
    match m.get(i, j) {
        Some(_) => point(alloc, m, i, j),
        None => point_past(alloc, m, i, j, b),
    }
}

// The first of them, if they meet the matrix.
fn first(alloc: Global, m: &Matrix, i: u32, j: u32, b: i128) -> Result<Option<i128>, AllocError>
    requires tight { IsTight m.now.vars (entry m.now) }
    requires row { i < 2 * m.now.vars }
    requires column { j < 2 * m.now.vars }
    requires apart { i ≢ j }
    requires low { negsuc (2 ^ 64 - 1) ≤ℤ b }
    requires high { b ≤ℤ pos (2 ^ 64) }
{
    let numbers = reached(alloc, m, i, j, b)?;
    if inside(m, &numbers) {
        Ok(numbers.first().copied())
    } else {
        Ok(None)
    }
}

// The same of two variables with these bounds, closed.
fn first_of_two(
    alloc: Global,
    bounds: &[(u32, u32, i128)],
    i: u32,
    j: u32,
    b: i128,
) -> Result<Option<i128>, AllocError> {
    let mut m = Matrix::top(alloc, 2)?;
    write_bounds(&mut m, 4, bounds);
    match closed(m) {
        Some(m) if i < 4 && j < 4 && i != j && -FAR <= b && b <= FAR => first(alloc, &m, i, j, b),
        _ => Ok(None),
    }
}

const FAR: i128 = 18_446_744_073_709_551_616;

const FIRST: [(&[(u32, u32, i128)], u32, u32, i128, Option<i128>); 27] = [
    // x + y is 1 and x - y is 0: no integers, though halves
    (
        &[(3, 0, 1), (0, 3, -1), (2, 0, 0), (0, 2, 0)],
        0,
        1,
        0,
        None,
    ),
    // x + y <= 3 and x <= y
    (&[(3, 0, 3), (2, 0, 0)], 1, 0, 0, Some(1)),
    (&[(3, 0, 3), (2, 0, 0)], 0, 1, 1000, Some(-501)),
    (&[], 0, 1, FAR, Some(-9223372036854775809)),
    (&[], 0, 1, -FAR, Some(0)),
    (&[], 0, 2, FAR, Some(0)),
    (&[], 0, 2, -FAR, Some(0)),
    (&[], 0, 3, FAR, Some(0)),
    (&[], 0, 3, -FAR, Some(0)),
    (&[], 1, 0, FAR, Some(9223372036854775809)),
    (&[], 1, 0, -FAR, Some(0)),
    (&[], 1, 2, FAR, Some(0)),
    (&[], 1, 2, -FAR, Some(0)),
    (&[], 1, 3, FAR, Some(0)),
    (&[], 1, 3, -FAR, Some(0)),
    (&[], 2, 0, FAR, Some(18446744073709551617)),
    (&[], 2, 0, -FAR, Some(-18446744073709551615)),
    (&[], 2, 1, FAR, Some(-18446744073709551617)),
    (&[], 2, 1, -FAR, Some(18446744073709551615)),
    (&[], 2, 3, FAR, Some(0)),
    (&[], 2, 3, -FAR, Some(0)),
    (&[], 3, 0, FAR, Some(18446744073709551617)),
    (&[], 3, 0, -FAR, Some(-18446744073709551615)),
    (&[], 3, 1, FAR, Some(-18446744073709551617)),
    (&[], 3, 1, -FAR, Some(18446744073709551615)),
    (&[], 3, 2, FAR, Some(0)),
    (&[], 3, 2, -FAR, Some(0)),
];

#[test]
fn points_of_two_variables(rt: HostRuntime) -> Result<(), Fail> {
    for row in &FIRST {
        let (bounds, i, j, b, expected) = *row;
        assert!(rt; first_of_two(rt.alloc(), bounds, i, j, b)? == expected);
    }
    Ok(())
}

// Each of 64 variables is at most 2^58 above the next.
fn chain(alloc: Global) -> Result<Matrix, AllocError>
    ensures { IfOk result (λ m. m.vars ≡ 64) }
{
    let mut m = Matrix::top(alloc, 64)?;
    for k in 0..63 {
        m.set(2 * k + 2, 2 * k, Some(1 << 58));
    }
    Ok(m)
}

// The first number of a point of the chain.
fn first_of_chain(alloc: Global, i: u32, j: u32) -> Result<Option<i128>, AllocError>
    requires row { i < 128 }
    requires column { j < 128 }
    requires apart { i ≢ j }
{
    match closed(chain(alloc)?) {
        Some(m) => first(alloc, &m, i, j, FAR),
        None => Ok(None),
    }
}

#[test]
fn points_of_a_long_chain(rt: HostRuntime) -> Result<(), Fail> {
    // the first is 63 * 2^58 above the last
    assert!(rt; first_of_chain(rt.alloc(), 126, 0)? == Some(18_158_513_697_557_839_872));
    assert!(rt; first_of_chain(rt.alloc(), 0, 126)? == Some(0));
    Ok(())
}
