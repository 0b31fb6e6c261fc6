// Workers of a board that lets go of cells.

ghost use Rattle.std.specs.Prelude.{◌≡◌, ◌≤◌, IfOk, map};
ghost use Rattle.std.specs.Arc.{arc_value};
ghost use Rattle.pk_plan.specs.Digraphs.{lists_of};
ghost use Rattle.pk_board_tests.specs.Prepared.{HasEach, IsPrepared};

use crate::plans::{Scene, prepared};
use crate::summing::{Summing, Values, zipped};
use crate::workers::{DIGRAPHS, FAN, LINE, NESTED};
use pk_iterate::{Cells, Decision, System};
use pk_words::Parted;
use pk_workers::{Gate, NoGate, run_workers, run_workers_lean};
use std::alloc::{AllocError, Global};
use std::marker::Model;
use std::process::Abort;
use std::sync::atomic::{AtomicU64, Ordering};
use std::sync::{Arc, Wait};
use std::thread::Threads;

// Whether the points have these cells, and how many of so many points are left then.
fn told(values: &Values, cells: &Cells<u64>, elements: u32, left: u32) -> Option<u32>
    requires { HasEach elements cells.now }
{
    let mut left = left;
    for (point, value) in &values.of {
        if left == 0 || *point >= elements || **cells.cell(*point) != *value {
            return None;
        }
        left -= 1;
    }
    Some(left)
}

// Whether the parts have as many points, each with the cell that the iteration leaves.
fn tell_all(parts: &[Values], cells: &Cells<u64>, elements: u32, points: u32) -> bool
    requires { HasEach elements cells.now }
{
    let mut left = points;
    for part in parts {
        match told(part, cells, elements, left) {
            None => return false,
            Some(rest) => left = rest,
        }
    }
    left == 0
}

// So many workers leave so many parts, which have the cells that the iteration leaves.
fn leave_parts<R: Threads + Wait + Sync + Abort>(
    rt: &R,
    alloc: Global,
    made: &Scene,
    workers: u32,
    items: usize,
)
    requires prepared { IsPrepared made.now.plan (lists_of made.now.system.rows.items) made.now.cells }
    requires workers { (1 ≤ workers) × (workers ≤ 64) }
{
    let plan = &made.plan;
    match run_workers_lean(rt, alloc, &made.system, plan, workers, 1000, &NoGate {}) {
        Err(_) => panic!(rt; "no result"),
        Ok(parts) => {
            assert!(rt; parts.len() == items, "{items}");
            assert!(rt;
                tell_all(&parts, &made.cells, plan.elements(), plan.points()),
                "{workers}"
            );
        }
    }
}

// Two loops side by side, each with a loop in it, behind one vertex and before another.
const BESIDE: [(u32, u32); 12] = [
    (0, 1),
    (1, 2),
    (2, 3),
    (3, 2),
    (3, 1),
    (0, 4),
    (4, 5),
    (5, 6),
    (6, 5),
    (6, 4),
    (3, 7),
    (6, 7),
];

const ITEMS: [usize; 4] = [5, 4, 3, 10];

#[test]
fn parts_have_the_cells_that_the_iteration_leaves(rt: HostRuntime) -> Result<(), AllocError> {
    for ((vertices, edges), items) in DIGRAPHS.iter().zip(&ITEMS) {
        let made = prepared(&rt, rt.alloc(), *vertices, edges)?;
        for workers in [1, 2, 4] {
            leave_parts(&rt, rt.alloc(), &made, workers, *items);
        }
    }
    let made = prepared(&rt, rt.alloc(), 8, &BESIDE)?;
    for workers in [1, 2, 4, 8] {
        leave_parts(&rt, rt.alloc(), &made, workers, 4);
    }
    Ok(())
}

// A cell that is counted while it lives, but for an element's first one.
#[derive(Drop)]
struct Token {
    value: u64,
    alive: Option<Arc<u64>>,
}

impl Model for Token {
    ghost use Rattle.std.specs.Prelude.{ℕ};

    ghost Value = { ℕ };

    ghost view = { λ t. t.value };
}

// A system whose cells are counted.
#[derive(Drop)]
struct Counting<'a> {
    of: &'a Summing,
    alive: Arc<u64>,
}

// The values of the cells.
fn values(alloc: Global, cells: &[Arc<Token>]) -> Result<Vec<Arc<u64>>, AllocError>
    ensures { IfOk result (λ v. map arc_value v.items ≡ map arc_value cells.now) }
{
    match cells {
        [] => Ok(Vec::new(alloc)),
        [cell, rest @ ..] => {
            let mut all = values(alloc, rest)?;
            all.insert(0, Arc::new(alloc, cell.value)?)?;
            Ok(all)
        }
    }
}

impl<'a> Counting<'a> {
    fn token(&self, value: u64) -> Result<Token, AllocError>
        ensures { IfOk result (λ t. t ≡ value) }
    {
        let alive = Some(self.alive.clone()?);
        Ok(Token { value, alive })
    }
}

impl<'a> System for Counting<'a> {
    ghost use Rattle.pk_plan.specs.Digraphs.{lists_of};
    ghost use Rattle.pk_board_tests.specs.Summing.{summing};

    type Cell = Token;

    ghost meaning = { λ s. summing (lists_of s.of.now.rows.items) };

    ghost may_hold = { λ _ e c. Unit {0} };

    ghost first_held = { λ s e. tt };

    ghost apply_held = { λ s e cells h. tt };

    ghost decide_held = { λ s x cells h. tt };

    fn reads(&self, e: u32) -> &[u32] {
        self.of.reads(e)
    }

    fn first(&self, _alloc: Global, _e: u32) -> Result<Token, AllocError> {
        Ok(Token {
            value: 0,
            alive: None,
        })
    }

    fn apply(&self, alloc: Global, e: u32, inputs: &[Arc<Token>]) -> Result<Token, AllocError> {
        let values = values(alloc, inputs)?;
        self.token(self.of.apply(alloc, e, &values)?)
    }

    fn decide(
        &self,
        alloc: Global,
        x: u32,
        inputs: &[Arc<Token>],
    ) -> Result<Decision<Token>, AllocError> {
        let values = values(alloc, inputs)?;
        match self.of.decide(alloc, x, &values)? {
            Decision::Stable(value) => Ok(Decision::Stable(self.token(value)?)),
            Decision::Again(value) => Ok(Decision::Again(self.token(value)?)),
        }
    }
}

impl<'a> Parted for Counting<'a> {
    ghost use Rattle.std.specs.List.{zip};

    type Part = Values;

    ghost part_of = { λ s points cells. zip points cells };

    fn part(
        &self,
        alloc: Global,
        points: &[u32],
        cells: &[Arc<Token>],
    ) -> Result<Values, AllocError> {
        let values = values(alloc, cells)?;
        Ok(Values {
            of: zipped(alloc, points, &values)?,
        })
    }
}

// The most cells that lived when a run's cell was made, and when an item was begun.
#[derive(Drop)]
struct Watch<'a> {
    alive: &'a Arc<u64>,
    most: AtomicU64,
    starts: &'a [u32],
    between: AtomicU64,
}

impl<'a> Gate for Watch<'a> {
    fn watches(&self) -> bool {
        true
    }

    fn before<R: Threads + Wait>(&self, _rt: &R, _worker: u32, element: u32, run: u64) {
        if run == 0 && self.starts.contains(&element) {
            let alive = Arc::strong_count(self.alive) as u64;
            self.between.fetch_max(alive, Ordering::SeqCst);
        }
    }

    fn after<R: Threads + Wait>(&self, _rt: &R, _worker: u32, _element: u32, _run: u64) {
        let alive = Arc::strong_count(self.alive) as u64;
        self.most.fetch_max(alive, Ordering::SeqCst);
    }
}

// The most cells that lived when one worker goes through a scene, and the most between two items, each with two more that count.
fn most_alive<R: Threads + Wait + Sync + Abort>(
    rt: &R,
    alloc: Global,
    made: &Scene,
    starts: &[u32],
    lean: bool,
) -> Result<(u64, u64), AllocError>
    requires { IsPrepared made.now.plan (lists_of made.now.system.rows.items) made.now.cells }
{
    let alive = Arc::new(alloc, 0)?;
    let watch = Watch {
        alive: &alive,
        most: AtomicU64::new(0),
        starts,
        between: AtomicU64::new(0),
    };
    let system = Counting {
        of: &made.system,
        alive: alive.clone()?,
    };
    if lean {
        match run_workers_lean(rt, alloc, &system, &made.plan, 1, 1000, &watch) {
            Err(_) => panic!(rt; "no result"),
            Ok(_) => assert!(rt; Arc::strong_count(&alive) == 2),
        }
    } else {
        match run_workers(rt, alloc, &system, &made.plan, 1, 1000, &watch) {
            Err(_) => panic!(rt; "no result"),
            Ok(_) => (),
        }
    }
    Ok((
        watch.most.load(Ordering::SeqCst),
        watch.between.load(Ordering::SeqCst),
    ))
}

// Four loops in a row.
const ROW: [(u32, u32); 11] = [
    (0, 1),
    (1, 0),
    (1, 2),
    (2, 3),
    (3, 2),
    (3, 4),
    (4, 5),
    (5, 4),
    (5, 6),
    (6, 7),
    (7, 6),
];

// A digraph, where its items begin, its peak, and how many cells live at most with one worker. Where cells are let go of, these are, in the fullest item, those of earlier
// items that it or a later one reads, one for each of its points and loop exits, and one more in a loop, where an element that runs again has two for a moment; else those of
// all points and loop exits, and of the end.
struct Case {
    vertices: u32,
    edges: &'static [(u32, u32)],
    starts: &'static [u32],
    peak: u64,
    lean: u64,
    whole: u64,
}

const CASES: [Case; 5] = [
    Case {
        vertices: 5,
        edges: &LINE,
        starts: &[0, 1, 2, 3, 4],
        peak: 2,
        lean: 1 + 1,
        whole: 5 + 1,
    },
    Case {
        vertices: 8,
        edges: &ROW,
        starts: &[0, 2, 4, 6],
        peak: 4,
        lean: 1 + 3 + 1,
        whole: 8 + 4 + 1,
    },
    Case {
        vertices: 8,
        edges: &BESIDE,
        starts: &[0, 1, 4, 7],
        peak: 7,
        lean: 2 + 5 + 1,
        whole: 8 + 4 + 1,
    },
    Case {
        vertices: 8,
        edges: &NESTED,
        starts: &[0, 1, 4, 7],
        peak: 7,
        lean: 1 + 6 + 1,
        whole: 8 + 3 + 1,
    },
    Case {
        vertices: 10,
        edges: &FAN,
        starts: &[0, 1, 2, 3, 4, 5, 6, 7, 8, 9],
        peak: 9,
        lean: 8 + 1,
        whole: 10 + 1,
    },
];

#[test]
fn cells_are_let_go_of(rt: HostRuntime) -> Result<(), AllocError> {
    for case in &CASES {
        let made = prepared(&rt, rt.alloc(), case.vertices, case.edges)?;
        let (lean, between) = most_alive(&rt, rt.alloc(), &made, case.starts, true)?;
        assert!(rt; lean == 2 + case.lean);
        assert!(rt; between <= 2 + case.peak);
        let (whole, _) = most_alive(&rt, rt.alloc(), &made, case.starts, false)?;
        assert!(rt; whole == 2 + case.whole);
    }
    Ok(())
}
