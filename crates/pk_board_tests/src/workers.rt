// Workers run a plan on threads of their own.

ghost use Rattle.std.specs.Prelude.{◌≡◌, ◌≤◌, IfOk};
ghost use Rattle.pk_plan.specs.Digraphs.{lists_of};
ghost use Rattle.pk_iterate.specs.Fits.{FitsPlan};
ghost use Rattle.pk_words.specs.Reads.{HasEnd};
ghost use Rattle.pk_board_tests.specs.Summing.{summing};
ghost use Rattle.pk_board_tests.specs.Prepared.{HasEach, IsPrepared};

use crate::ends::same;
use crate::plans::{Scene, prepared};
use crate::summing::Summing;
use pk_iterate::{Cells, Solve};
use pk_plan::Plan;
use pk_workers::{Gate, NoGate, run_workers};
use std::alloc::{AllocError, Global};
use std::process::Abort;
use std::sync::Wait;
use std::sync::atomic::{AtomicU64, Ordering};
use std::thread::Threads;

// What so many workers leave.
pub fn left<R: Threads + Wait + Sync, G: Gate + Sync>(
    rt: &R,
    alloc: Global,
    gate: &G,
    system: &Summing,
    plan: &Plan,
    workers: u32,
    max_runs: u64,
) -> Result<Cells<u64>, Solve>
    requires fits { FitsPlan (summing (lists_of system.now.rows.items)) plan.now }
    requires ends { HasEnd (summing (lists_of system.now.rows.items)) plan.now }
    requires few { plan.now.elements ≤ 131073 }
    requires workers { (1 ≤ workers) × (workers ≤ 64) }
    requires most { max_runs ≤ 549755813888 }
    ensures { IfOk result (HasEach plan.now.elements) }
{
    run_workers(rt, alloc, system, plan, workers, max_runs, gate)
}

// Two runs that wait for one another: each counts that it has begun, and looks for so long whether the other has.
#[derive(Drop)]
struct Both {
    one: u32,
    other: u32,
    begun: AtomicU64,
    alone: AtomicU64,
}

impl Gate for Both {
    fn watches(&self) -> bool {
        true
    }

    fn before<R: Threads + Wait>(&self, _rt: &R, _worker: u32, element: u32, _run: u64) {
        if element == self.one || element == self.other {
            self.begun.fetch_add(1, Ordering::SeqCst);
            for _ in 0..100000000u32 {
                if self.begun.load(Ordering::SeqCst) == 2 {
                    return;
                }
            }
            self.alone.fetch_add(1, Ordering::SeqCst);
        }
    }

    fn after<R: Threads + Wait>(&self, _rt: &R, _worker: u32, _element: u32, _run: u64) {}
}

// So many workers leave what the iteration leaves.
pub fn leave_the_same<R: Threads + Wait + Sync + Abort, G: Gate + Sync>(
    rt: &R,
    alloc: Global,
    gate: &G,
    made: &Scene,
    workers: u32,
)
    requires prepared { IsPrepared made.now.plan (lists_of made.now.system.rows.items) made.now.cells }
    requires workers { (1 ≤ workers) × (workers ≤ 64) }
{
    match left(rt, alloc, gate, &made.system, &made.plan, workers, 1000) {
        Err(_) => panic!(rt; "no result"),
        Ok(cells) => assert!(rt;
            same(&cells, &made.cells, made.plan.elements()),
            "{workers}"
        ),
    }
}

// One worker to eight, each number four times.
fn each_leaves_the_same<R: Threads + Wait + Sync + Abort>(rt: &R, alloc: Global, made: &Scene)
    requires { IsPrepared made.now.plan (lists_of made.now.system.rows.items) made.now.cells }
{
    for workers in 1..9 {
        for _ in 0..4 {
            leave_the_same(rt, alloc, &NoGate {}, made, workers);
        }
    }
}

pub const LINE: [(u32, u32); 4] = [(0, 1), (1, 2), (2, 3), (3, 4)];

const DIAMOND: [(u32, u32); 4] = [(0, 1), (0, 2), (1, 3), (2, 3)];

pub const NESTED: [(u32, u32); 12] = [
    (0, 1),
    (1, 2),
    (2, 3),
    (3, 2),
    (3, 1),
    (1, 4),
    (4, 5),
    (5, 4),
    (2, 6),
    (6, 1),
    (4, 7),
    (0, 7),
];

// Nine loops, each in the one before: the innermost is gone through 512 times.
pub const DEEP: [(u32, u32); 28] = [
    (0, 1),
    (1, 2),
    (2, 3),
    (3, 4),
    (4, 5),
    (5, 6),
    (6, 7),
    (7, 8),
    (8, 9),
    (9, 10),
    (10, 11),
    (11, 12),
    (12, 13),
    (13, 14),
    (14, 15),
    (15, 16),
    (16, 17),
    (17, 18),
    (18, 19),
    (18, 1),
    (17, 2),
    (16, 3),
    (15, 4),
    (14, 5),
    (13, 6),
    (12, 7),
    (11, 8),
    (10, 9),
];

// From the first vertex to eight, and from these to the last.
pub const FAN: [(u32, u32); 16] = [
    (0, 1),
    (0, 2),
    (0, 3),
    (0, 4),
    (0, 5),
    (0, 6),
    (0, 7),
    (0, 8),
    (1, 9),
    (2, 9),
    (3, 9),
    (4, 9),
    (5, 9),
    (6, 9),
    (7, 9),
    (8, 9),
];

pub const DIGRAPHS: [(u32, &[(u32, u32)]); 4] = [(5, &LINE), (8, &NESTED), (20, &DEEP), (10, &FAN)];

#[test]
fn workers_leave_what_the_iteration_leaves(rt: HostRuntime) -> Result<(), AllocError> {
    for (vertices, edges) in &DIGRAPHS {
        let made = prepared(&rt, rt.alloc(), *vertices, edges)?;
        each_leaves_the_same(&rt, rt.alloc(), &made);
    }
    Ok(())
}

#[test]
fn a_run_beyond_the_limit_is_told(rt: HostRuntime) -> Result<(), AllocError> {
    let made = prepared(&rt, rt.alloc(), 8, &NESTED)?;
    for workers in [1, 2, 4] {
        let cells = left(
            &rt,
            rt.alloc(),
            &NoGate {},
            &made.system,
            &made.plan,
            workers,
            1,
        );
        assert!(rt; matches!(cells, Err(Solve::RunLimit { run: 2, .. })));
    }
    Ok(())
}

#[test]
fn two_elements_run_at_once(rt: HostRuntime) -> Result<(), AllocError> {
    let made = prepared(&rt, rt.alloc(), 4, &DIAMOND)?;
    let both = Both {
        one: 1,
        other: 2,
        begun: AtomicU64::new(0),
        alone: AtomicU64::new(0),
    };
    leave_the_same(&rt, rt.alloc(), &both, &made, 2);
    assert!(rt; both.begun.load(Ordering::SeqCst) == 2);
    assert!(rt; both.alone.load(Ordering::SeqCst) == 0);
    Ok(())
}
