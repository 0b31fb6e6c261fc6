// Each call on small matrices, and constants beyond the cap.

ghost use Rattle.std.specs.Prelude.{◌≡◌, ◌<◌, IfOk};

use crate::closing::{MOST, is_kept};
use pk_octclose::close;
use pk_octmat::Matrix;
use pk_octops::{assign, bounds, guard, join, leq, narrow, widen};
use std::alloc::{AllocError, Global};
use std::test::Fail;

// One variable, at most a number, and its negative at most another.
fn between(alloc: Global, most: i128, least: i128) -> Result<Matrix, AllocError>
    ensures { IfOk result (λ m. m.vars ≡ 1) }
{
    let mut m = Matrix::top(alloc, 1)?;
    guard(&mut m, Some(0), None, most);
    guard(&mut m, Some(1), None, least);
    Ok(m)
}

// x from 0 to 5, and y the same number.
fn equal(alloc: Global) -> Result<Matrix, AllocError>
    ensures { IfOk result (λ m. m.vars ≡ 2) }
{
    let mut m = Matrix::top(alloc, 2)?;
    guard(&mut m, Some(0), None, 5);
    guard(&mut m, Some(1), None, 0);
    assign(&m, 1, Some(0), 0)
}

// The range of x after x := V(term) + c.
fn range(
    alloc: Global,
    term: Option<u32>,
    c: i128,
) -> Result<(Option<i128>, Option<i128>), AllocError> {
    let mut m = equal(alloc)?;
    close(&mut m);
    let mut r = assign(&m, 0, term.filter(|t| *t < 4), c)?;
    close(&mut r);
    Ok(bounds(&r, 0))
}

const ASSIGNMENTS: [(Option<u32>, i128, (Option<i128>, Option<i128>)); 7] = [
    (Some(0), 1, (Some(1), Some(6))),
    (Some(1), 3, (Some(-2), Some(3))),
    (Some(2), 7, (Some(7), Some(12))),
    (Some(3), 7, (Some(2), Some(7))),
    (None, 7, (None, None)),
    // constants beyond the cap
    (Some(0), i128::MAX, (Some(MOST / 2), None)),
    (Some(0), i128::MIN, (None, Some(-MOST / 2))),
];

#[test]
fn assignments(rt: HostRuntime) -> Result<(), Fail> {
    for row in &ASSIGNMENTS {
        let (term, c, expected) = *row;
        assert!(rt; range(rt.alloc(), term, c)? == expected);
    }
    assert!(rt; bounds(&between(rt.alloc(), i128::MIN, i128::MAX)?, 0) == (None, Some(-MOST / 2)));
    Ok(())
}

// Whether a guard without terms leaves anything.
fn plain(alloc: Global, c: i128) -> Result<bool, AllocError> {
    let mut m = Matrix::top(alloc, 1)?;
    Ok(is_kept(guard(&mut m, None, None, c)))
}

#[test]
fn guards(rt: HostRuntime) -> Result<(), Fail> {
    assert!(rt; plain(rt.alloc(), 0)?);
    assert!(rt; !plain(rt.alloc(), -1)?);
    let mut m = Matrix::top(rt.alloc(), 2)?;
    // x + y <= 3 and x - y <= 0, so 2x <= 2
    guard(&mut m, Some(0), Some(2), 3);
    guard(&mut m, Some(0), Some(3), 0);
    assert!(rt; is_kept(close(&mut m)));
    assert!(rt; bounds(&m, 0) == (None, Some(1)));
    Ok(())
}

#[test]
fn tables(rt: HostRuntime) -> Result<(), Fail> {
    let small = between(rt.alloc(), 3, -1)?;
    let large = between(rt.alloc(), 5, -1)?;
    assert!(rt; (leq(&small, &large), leq(&large, &small)) == (true, false));
    assert!(rt; bounds(&join(&small, &large)?, 0) == (Some(1), Some(5)));
    let wide = widen(&small, &large)?;
    assert!(rt; bounds(&wide, 0) == (Some(1), None));
    assert!(rt; bounds(&narrow(&wide, &large)?, 0) == (Some(1), Some(5)));
    Ok(())
}
