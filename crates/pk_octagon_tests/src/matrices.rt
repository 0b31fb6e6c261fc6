// Calls on small matrices, and bounds at the cap.

use crate::closing::{MOST, write_bounds};
use pk_octmat::{Matrix, stored};
use std::alloc::{AllocError, Global};
use std::test::Fail;

const BOUNDS: [(u32, u32, Option<i128>, Option<i128>); 4] = [
    (2, 0, Some(3), None),
    (1, 3, Some(3), None),
    (0, 2, None, None),
    (3, 3, Some(0), Some(0)),
];

#[test]
fn a_bound_and_its_coherent_one(rt: HostRuntime) -> Result<(), Fail> {
    let mut m = Matrix::top(rt.alloc(), 2)?;
    // x - y <= 3, which is -y - -x <= 3 as well
    m.set(2, 0, Some(3));
    let same = m.copy()?;
    m.forget(1);
    for row in &BOUNDS {
        let (i, j, written, forgotten) = *row;
        assert!(rt; same.get(i, j) == written);
        assert!(rt; m.get(i, j) == forgotten);
    }
    Ok(())
}

// What is held of a bound that is written.
fn held(alloc: Global, bound: Option<i128>) -> Result<Option<i128>, AllocError> {
    let mut m = Matrix::top(alloc, 1)?;
    m.set(0, 1, bound);
    Ok(m.get(0, 1))
}

const CAPPED: [(Option<i128>, Option<i128>); 7] = [
    (None, None),
    (Some(MOST), Some(MOST)),
    (Some(MOST + 1), None),
    (Some(-MOST), Some(-MOST)),
    (Some(-MOST - 1), Some(-MOST)),
    (Some(i128::MAX), None),
    (Some(i128::MIN), Some(-MOST)),
];

#[test]
fn bounds_at_the_cap(rt: HostRuntime) -> Result<(), Fail> {
    for row in &CAPPED {
        let (bound, expected) = *row;
        assert!(rt; held(rt.alloc(), bound)? == expected);
    }
    Ok(())
}

#[test]
fn no_variables_and_many(rt: HostRuntime) -> Result<(), Fail> {
    let none = Matrix::top(rt.alloc(), 0)?;
    assert!(rt; none.vars == 0);
    let many = Matrix::top(rt.alloc(), 64)?;
    assert!(rt; many.get(127, 0).is_none());
    assert!(rt; many.get(127, 127) == Some(0));
    Ok(())
}

// Bounds on the last variable, the first one and both, of the largest matrices.
const LAST: [(u32, u32, i128); 4] = [(127, 0, 5), (126, 127, 8), (0, 126, -3), (1, 0, MOST)];

#[test]
fn the_largest_matrices(rt: HostRuntime) -> Result<(), Fail> {
    let mut m = Matrix::top(rt.alloc(), 64)?;
    write_bounds(&mut m, 128, &LAST);
    let same = m.copy()?;
    // V(0) - V(127) is V(126) - V(1)
    assert!(rt; same.get(1, 126) == Some(5));
    assert!(rt; same.get(126, 127) == Some(8));
    // V(126) - V(0) is V(1) - V(127)
    assert!(rt; same.get(127, 1) == Some(-3));
    assert!(rt; same.equals(&m));
    m.forget(63);
    assert!(rt; m.get(1, 126).is_none());
    assert!(rt; m.get(1, 0) == Some(MOST));
    Ok(())
}

// How many bounds are kept of 0, 16 and 64 variables: half of (2n)^2 and the rest of the diagonal blocks.
const STORED: [(u32, usize); 4] = [(0, 0), (1, 4), (16, 544), (64, 8320)];

#[test]
fn half_is_kept(rt: HostRuntime) -> Result<(), Fail> {
    for row in &STORED {
        let (n, expected) = *row;
        assert!(rt; stored(&Matrix::top(rt.alloc(), n)?) == expected);
    }
    Ok(())
}
