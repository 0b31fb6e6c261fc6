// Closings of small matrices, found apart from this program by listing the integers that meet them; closings at the cap; a long cycle.

ghost use Rattle.std.specs.Prelude.{◌≡◌, ◌<◌, ◌*◌, IfOk, true};
ghost use Rattle.pk_octclose.specs.Closing.{IsSmall};
ghost use Rattle.pk_octclose.specs.Places.{IsClosedBut};

use pk_octclose::{close, close_after, small};
use pk_octmat::{Matrix, Shape};
use pk_steps::Steps;
use std::alloc::{AllocError, Global};
use std::marker::Brand;
use std::sync::ledger::{Blank, Ledger};
use std::test::Fail;

// Writes those bounds of a list that have places in the matrix.
pub(crate) fn write_bounds(m: &mut Matrix, d: u32, bounds: &[(u32, u32, i128)])
    requires { 2 * m.old.vars ≡ d }
    ensures { m.new.vars ≡ m.old.vars }
{
    for (i, j, bound) in bounds.iter().copied() {
        if i < d && j < d && i != j {
            m.set(i, j, Some(bound));
        }
    }
}

// The bounds of a matrix row by row, a dot for none.
fn text(alloc: Global, m: &Matrix, d: u32) -> Result<String, AllocError>
    requires { 2 * m.now.vars ≡ d }
{
    let mut text = String::new(alloc);
    for i in 0..d {
        if 0 < i {
            text.push_str(" / ")?;
        }
        for j in 0..d {
            if 0 < j {
                text.push_str(" ")?;
            }
            match m.get(i, j) {
                Some(bound) => text.push_str(format!(in alloc; "{bound}")?.as_str())?,
                None => text.push_str(".")?,
            }
        }
    }
    Ok(text)
}

// The closing of a matrix with these bounds.
fn closing(alloc: Global, n: u32, bounds: &[(u32, u32, i128)]) -> Result<String, AllocError> {
    let mut m = Matrix::top(alloc, n)?;
    m.is_octagon();
    write_bounds(&mut m, 2 * n, bounds);
    match close(&mut m) {
        Shape::Kept => text(alloc, &m, 2 * n),
        Shape::Empty => format!(in alloc; "empty"),
    }
}

// Whether a matrix is its own closing once variable k is forgotten.
fn is_closed_but(m: &Matrix, k: u32) -> Result<bool, AllocError>
    requires { k < m.now.vars }
    ensures { IfOk result (λ b. b ≡ true → IsClosedBut m.now k) }
{
    m.is_octagon();
    let mut rest = m.copy()?;
    rest.forget(k);
    rest.is_octagon();
    let mut closed = rest.copy()?;
    match close(&mut closed) {
        Shape::Kept => Ok(closed.equals(&rest)),
        Shape::Empty => Ok(false),
    }
}

// `close_after`, with its steps counted over a new ledger.
fn closed_after<L: Ledger>(m: &mut Matrix, k: u32, fresh: Blank) -> Shape
    requires name { fresh.name ≡ L.name }
    requires parts { fresh.parts ≡ L.parts }
    requires some { 0 < fresh.parts }
    requires small { IsSmall m.old }
    requires variable { k < m.old.vars }
    requires closed { IsClosedBut m.old k }
    ensures { m.new.vars ≡ m.old.vars }
{
    let mut steps = Steps::<L>::none(fresh);
    close_after(m, k, &mut steps)
}

// The same by `close_after`, where the matrix is closed but for variable k.
fn closing_after(
    alloc: Global,
    n: u32,
    bounds: &[(u32, u32, i128)],
    k: u32,
) -> Result<String, AllocError> {
    let mut m = Matrix::top(alloc, n)?;
    m.is_octagon();
    write_bounds(&mut m, 2 * n, bounds);
    if n <= k {
        return format!(in alloc; "no such variable");
    }
    if !small(&m) {
        return format!(in alloc; "not small");
    }
    if !is_closed_but(&m, k)? {
        return format!(in alloc; "not closed");
    }
    match closed_after::<Brand>(&mut m, k, Blank::new(1)) {
        Shape::Kept => text(alloc, &m, 2 * n),
        Shape::Empty => format!(in alloc; "empty"),
    }
}

const CLOSINGS: [(u32, &[(u32, u32, i128)], &str); 15] = [
    (
        2,
        &[(3, 0, 3), (2, 0, 0)],
        "0 . . . / 2 0 3 0 / 0 . 0 . / 3 . . 0",
    ),
    (2, &[(3, 0, 1), (0, 3, -1), (2, 0, 0), (0, 2, 0)], "empty"),
    (1, &[], "0 . / . 0"),
    (1, &[(1, 0, 7)], "0 . / 6 0"),
    (1, &[(1, 0, 7), (0, 1, -3)], "0 -4 / 6 0"),
    (1, &[(1, 0, 7), (0, 1, -7)], "empty"),
    (
        2,
        &[(3, 1, 0), (0, 1, 3), (3, 2, 0)],
        "0 2 0 . / . 0 . . / . . 0 . / . 0 0 0",
    ),
    (
        2,
        &[(1, 2, 0), (2, 3, 4), (3, 1, -3)],
        "0 -2 -3 1 / 4 0 0 4 / 4 1 0 4 / 0 -3 -4 0",
    ),
    (
        3,
        &[
            (1, 0, 4),
            (0, 4, -1),
            (0, 5, 4),
            (3, 2, -2),
            (1, 3, 1),
            (2, 5, 0),
        ],
        "empty",
    ),
    (
        3,
        &[(4, 0, 0), (0, 5, 2), (5, 4, 1), (5, 3, -2)],
        "0 4 . 0 2 2 / 0 0 . -2 0 0 / -2 0 0 -2 -2 0 / . . . 0 . . / 0 2 . 0 0 2 / 0 2 . -2 0 0",
    ),
    (
        3,
        &[
            (4, 3, -1),
            (5, 3, 2),
            (4, 1, 3),
            (2, 1, -3),
            (4, 0, 4),
            (3, 1, 0),
        ],
        "0 -4 0 -3 2 -1 / . 0 . 6 . 4 / 6 -3 0 0 2 -1 / . 0 . 0 . 4 / 4 -1 4 -1 0 2 / . 2 . 2 . 0",
    ),
    (
        2,
        &[(1, 0, -2), (3, 1, 2), (2, 3, 3)],
        "0 6 2 4 / -2 0 0 0 / 0 4 0 2 / 0 2 2 0",
    ),
    (
        3,
        &[(0, 5, 4), (2, 5, -1), (4, 0, -2), (0, 4, 4), (4, 5, 4)],
        "0 8 . 3 4 4 / . 0 . . . -2 / . 3 0 . . -1 / . . . 0 . . / -2 4 . -1 0 2 / . 4 . . . 0",
    ),
    (
        3,
        &[(3, 2, 0), (3, 1, -2), (4, 3, -3)],
        "0 . -2 . . -5 / . 0 . . . . / . . 0 . . -3 / . -2 0 0 . -3 / . -5 -3 -3 0 -6 / . . . . . 0",
    ),
    (
        3,
        &[(3, 1, -1), (1, 2, 4), (4, 2, -3), (1, 4, 2), (2, 5, 1)],
        "0 . -1 . . 0 / 2 0 -1 3 2 0 / 3 . 0 . . 1 / -1 -1 -2 0 1 -3 / 0 0 -3 1 0 -2 / 2 . 1 . . 0",
    ),
];

#[test]
fn small_matrices(rt: HostRuntime) -> Result<(), Fail> {
    for row in &CLOSINGS {
        let (n, bounds, expected) = *row;
        assert!(rt; closing(rt.alloc(), n, bounds)?.as_str() == expected);
    }
    Ok(())
}

// The first rows of the table are closed but for variable 0.
#[test]
fn small_matrices_after_one_variable(rt: HostRuntime) -> Result<(), Fail> {
    for row in &CLOSINGS[..8] {
        let (n, bounds, expected) = *row;
        assert!(rt; closing_after(rt.alloc(), n, bounds, 0)?.as_str() == expected);
    }
    Ok(())
}

// What closing leaves of x - y and y - z, each at MOST a bound, for x - z.
fn sum_of_two(alloc: Global, bound: i128) -> Result<Option<i128>, AllocError> {
    let mut m = Matrix::top(alloc, 3)?;
    m.set(2, 0, Some(bound));
    m.set(4, 2, Some(bound));
    match close(&mut m) {
        Shape::Kept => Ok(m.get(4, 0)),
        Shape::Empty => Ok(None),
    }
}

pub(crate) const MOST: i128 = 73_786_976_294_838_206_464;

const SUMS: [(i128, Option<i128>); 5] = [
    (MOST / 2, Some(MOST)),
    (MOST / 2 + 1, None),
    (MOST, None),
    (-MOST / 2, Some(-MOST)),
    (-MOST, Some(-MOST)),
];

#[test]
fn sums_at_the_cap(rt: HostRuntime) -> Result<(), Fail> {
    for row in &SUMS {
        let (bound, expected) = *row;
        assert!(rt; sum_of_two(rt.alloc(), bound)? == expected);
    }
    Ok(())
}

pub(crate) fn is_kept(shape: Shape) -> bool {
    match shape {
        Shape::Kept => true,
        Shape::Empty => false,
    }
}

// Each of 64 variables is at MOST the next, and the last at MOST the first and a number.
fn ring(alloc: Global, last: i128) -> Result<bool, AllocError> {
    let mut m = Matrix::top(alloc, 64)?;
    for k in 0..63 {
        m.set(2 * k + 2, 2 * k, Some(0));
    }
    m.set(0, 126, Some(last));
    Ok(is_kept(close(&mut m)))
}

// Each two of 64 variables, and of their negatives, differ by the least bound there is.
fn thicket(alloc: Global) -> Result<bool, AllocError> {
    let mut m = Matrix::top(alloc, 64)?;
    for i in 0..128 {
        for j in 0..128 {
            if i != j {
                m.set(i, j, Some(i128::MIN));
            }
        }
    }
    Ok(is_kept(close(&mut m)))
}

#[test]
fn cycles_of_many_variables(rt: HostRuntime) -> Result<(), Fail> {
    assert!(rt; ring(rt.alloc(), 0)?);
    assert!(rt; !ring(rt.alloc(), -1)?);
    assert!(rt; !thicket(rt.alloc())?);
    Ok(())
}
