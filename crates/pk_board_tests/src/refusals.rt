// Workers of whose elements one is refused memory.

ghost use Rattle.std.specs.Prelude.{IfOk};
ghost use Rattle.pk_plan.specs.Digraphs.{lists_of};
ghost use Rattle.pk_board_tests.specs.Prepared.{IsPrepared};

use crate::plans::{Scene, prepared};
use crate::walks::JUMP;
use crate::workers::{leave_the_same, left};
use pk_iterate::Solve;
use pk_workers::NoGate;
use std::alloc::{AllocError, Global};
use std::process::Abort;
use std::sync::Wait;
use std::thread::Threads;

// A scene whose system refuses memory to an element.
fn refusing(
    rt: &impl Abort,
    alloc: Global,
    vertices: u32,
    edges: &[(u32, u32)],
    e: u32,
) -> Result<Scene, AllocError>
    ensures { IfOk result (λ m. IsPrepared m.plan (lists_of m.system.rows.items) m.cells) }
{
    let mut made = prepared(rt, alloc, vertices, edges)?;
    made.system.refused = Some(e);
    Ok(made)
}

// One, two and eight workers tell that there is no memory.
fn tell_memory<R: Threads + Wait + Sync + Abort>(rt: &R, alloc: Global, made: &Scene)
    requires { IsPrepared made.now.plan (lists_of made.now.system.rows.items) made.now.cells }
{
    for workers in [1, 2, 8] {
        let cells = left(
            rt,
            alloc,
            &NoGate {},
            &made.system,
            &made.plan,
            workers,
            1000,
        );
        assert!(rt; matches!(cells, Err(Solve::Memory)), "{workers}");
    }
}

#[test]
fn each_refusal_is_told(rt: HostRuntime) -> Result<(), AllocError> {
    let made = prepared(&rt, rt.alloc(), 13, &JUMP)?;
    for workers in [1, 2, 8] {
        leave_the_same(&rt, rt.alloc(), &NoGate {}, &made, workers);
    }
    for e in 0..made.plan.elements() {
        let refused = refusing(&rt, rt.alloc(), 13, &JUMP, e)?;
        tell_memory(&rt, rt.alloc(), &refused);
    }
    Ok(())
}

// A loop, and beside it two elements in a row.
const BESIDE: [(u32, u32); 7] = [(0, 1), (1, 2), (2, 1), (2, 5), (0, 3), (3, 4), (4, 5)];

// They tell that there is no memory, or the run beyond a limit of one.
fn tell_either<R: Threads + Wait + Sync + Abort>(rt: &R, alloc: Global, made: &Scene)
    requires { IsPrepared made.now.plan (lists_of made.now.system.rows.items) made.now.cells }
{
    for workers in [1, 2, 8] {
        let cells = left(rt, alloc, &NoGate {}, &made.system, &made.plan, workers, 1);
        assert!(rt;
            matches!(cells, Err(Solve::Memory | Solve::RunLimit { run: 2, .. })),
            "{workers}"
        );
    }
}

// The loop is gone through again, past the limit.
#[test]
fn a_refusal_or_the_limit_is_told(rt: HostRuntime) -> Result<(), AllocError> {
    let made = prepared(&rt, rt.alloc(), 6, &BESIDE)?;
    for e in 0..made.plan.elements() {
        let refused = refusing(&rt, rt.alloc(), 6, &BESIDE, e)?;
        tell_either(&rt, rt.alloc(), &refused);
    }
    Ok(())
}
