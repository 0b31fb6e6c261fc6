// Small states: what an octagon decides that intervals can't, and that no run comes to a point.

ghost use Rattle.std.specs.Prelude.{◌≡◌, ◌<◌, ◌∷◌, [], IfOk, length};

use pk_ctypes::IntType;
use pk_octagons::Pack;
use pk_state::{Frame, State};
use std::alloc::{AllocError, Global};
use std::test::Fail;

// Both of two variables.
fn both(alloc: Global) -> Result<Vec<Pack>, AllocError>
    ensures { IfOk result (λ p. p.items ≡ (0 ∷ (1 ∷ [])) ∷ []) }
{
    let mut packs = Vec::with_capacity(alloc, 1)?;
    packs.push(Pack::new(Vec::from_slice(alloc, &[0, 1])?))?;
    Ok(packs)
}

// Two variables of type int, and an octagon over both.
fn pair(alloc: Global) -> Result<Frame, AllocError>
    ensures types { IfOk result (λ f. length f.types ≡ 2) }
{
    let types = Vec::from_slice(alloc, &[IntType::Int, IntType::Int])?;
    let packs = both(alloc)?;
    let further = Vec::new(alloc);
    Frame::new(alloc, types, packs, further)
}

// The bounds of a variable; none where no run comes there.
fn range(s: &State, x: usize) -> Option<(i128, i128)>
    requires { x < length s.now.layout.types }
{
    s.value(x).map(|v| (v.interval.lo, v.interval.hi))
}

// x from 0 to 10 and y at most 5, over one frame.
fn small<'f>(alloc: Global, frame: &'f Frame) -> Result<State<'f>, AllocError>
    ensures { IfOk result (λ s. s.layout ≡ frame.now) }
{
    State::top(alloc, frame)?
        .with_guard(alloc, Some(0), None, 10, &[0])?
        .with_guard(alloc, Some(1), None, 0, &[0])?
        .with_guard(alloc, Some(2), None, 5, &[1])?
        .reduce(alloc)
}

// x from 0 to 3 as well.
fn less<'f>(alloc: Global, frame: &'f Frame) -> Result<State<'f>, AllocError>
    ensures { IfOk result (λ s. s.layout ≡ frame.now) }
{
    small(alloc, frame)?
        .with_guard(alloc, Some(0), None, 3, &[0])?
        .reduce(alloc)
}

// And x < y.
fn ordered<'f>(alloc: Global, frame: &'f Frame) -> Result<State<'f>, AllocError>
    ensures { IfOk result (λ s. s.layout ≡ frame.now) }
{
    small(alloc, frame)?
        .with_guard(alloc, Some(0), Some(3), -1, &[0, 1])?
        .reduce(alloc)
}

#[test]
fn octagons_decide(rt: HostRuntime) -> Result<(), Fail> {
    let frame = pair(rt.alloc())?;
    let s = ordered(rt.alloc(), &frame)?;
    assert!(rt; (range(&s, 0), range(&s, 1)) == (Some((0, 4)), Some((1, 5))));
    // y < x
    let s = s
        .with_guard(rt.alloc(), Some(2), Some(1), -1, &[0, 1])?
        .reduce(rt.alloc())?;
    assert!(rt; (s.is_bottom(), range(&s, 0)) == (true, None));
    Ok(())
}

#[test]
fn orders(rt: HostRuntime) -> Result<(), Fail> {
    let frame = pair(rt.alloc())?;
    let small = small(rt.alloc(), &frame)?;
    let less = less(rt.alloc(), &frame)?;
    assert!(rt; (less.leq(&small), small.leq(&less)) == (true, false));
    assert!(rt; less.join(rt.alloc(), &small)?.equals(&small));
    Ok(())
}

#[test]
fn bottoms(rt: HostRuntime) -> Result<(), Fail> {
    let frame = pair(rt.alloc())?;
    let small = small(rt.alloc(), &frame)?;
    let bottom = State::bottom(&frame);
    assert!(rt; (bottom.leq(&small), small.leq(&bottom)) == (true, false));
    assert!(rt; bottom.join(rt.alloc(), &small)?.equals(&small));
    Ok(())
}

#[test]
fn steps(rt: HostRuntime) -> Result<(), Fail> {
    let frame = pair(rt.alloc())?;
    let small = small(rt.alloc(), &frame)?;
    let less = less(rt.alloc(), &frame)?;
    let wide = less.widen(rt.alloc(), &small, &[])?;
    assert!(rt; range(&wide, 0) == Some((0, 2147483647)));
    assert!(rt; range(&wide.narrow(rt.alloc(), &small)?, 0) == Some((0, 10)));
    Ok(())
}
