// Workers on threads of their own.

ghost use Rattle.std.specs.Prelude.{◌≡◌, ◌<◌, ◌≤◌, None, IfOk, IfErr, length, true, false};
ghost use Rattle.pk_iterate.specs.Fits.{FitsPlan};
ghost use Rattle.pk_words.specs.Reads.{HasEnd};
ghost use Rattle.pk_words.specs.Views.{new_view};
ghost use Rattle.pk_workers.specs.Working.{HasJust, IsEnding, AreJobs, AreEndings};
ghost use Rattle.pk_workers.specs.Answers.{failure_of, IsResultOf, ArePartsOf, IsExceeded};

use crate::gates::Gate;
use crate::turns::{Ending, work};
use crate::whole::Whole;
use pk_board::{Board, Pass};
use pk_hints::{Bound, Hall, Hints};
use pk_iterate::{Cells, Solve, System};
use pk_plan::Plan;
use pk_words::{Parted, Why};
use std::alloc::{AllocError, Global};
use std::marker::Brand;
use std::sync::Wait;
use std::thread;
use std::thread::Threads;

/// A worker's number, its pass and its hints.
#[derive(Drop)]
pub struct Job<C: Drop, P: Drop, B: Bound> {
    pub worker: u32,
    pub pass: Pass<C, P>,
    pub hints: Hints<B>,
}

/// The job of a worker more, with a pass that is split from this one.
fn next_job<Y: Parted, B: Bound>(
    alloc: Global,
    board: &Board<Y>,
    pass: &mut Pass<Y::Cell, Y::Part>,
    hall: &mut Hall<B>,
    worker: u32,
) -> Result<Job<Y::Cell, Y::Part, B>, AllocError>
    requires of_board { pass.old.table ≡ board.now.table }
    ensures of_board { pass.new.table ≡ pass.old.table }
    ensures job { IfOk result (λ j. j.pass ≡ record { table = pass.old.table; view = new_view pass.old.view }) }
{
    let other = board.split(pass);
    let hints = hall.hints(alloc)?;
    Ok(Job {
        worker,
        pass: other,
        hints,
    })
}

/// A job for each worker, with passes that are split from this one.
fn jobs<Y: Parted, B: Bound>(
    alloc: Global,
    board: &Board<Y>,
    pass: &mut Pass<Y::Cell, Y::Part>,
    hall: &mut Hall<B>,
    workers: u32,
) -> Result<Vec<Job<Y::Cell, Y::Part, B>>, AllocError>
    requires of_board { pass.old.table ≡ board.now.table }
    ensures each { IfOk result (λ v. length v.items ≡ workers) }
    ensures jobs { IfOk result (λ v. AreJobs board.now.table v.items) }
{
    let mut jobs = Vec::new(alloc);
    for worker in 0..workers {
        jobs.push(next_job(alloc, board, pass, hall, worker)?)?;
    }
    Ok(jobs)
}

/// The ending of a worker that found the last element done, if there is one, or else that of another.
fn best<Y: Parted>(
    board: &Board<Y>,
    endings: Vec<Ending<Y::Cell, Y::Part>>,
) -> Ending<Y::Cell, Y::Part>
    requires some { 0 < length endings.items }
    requires each { AreEndings
        (Y.meaning board.now.subject.system) board.now.subject.wiring board.now.table endings.items }
    ensures { IsEnding (Y.meaning board.now.subject.system) board.now.subject.wiring board.now.table result }
{
    let mut rest = endings;
    while let Some(ending) = rest.pop() {
        if rest.is_empty() || matches!(ending, Ending::Finished { .. }) {
            return ending;
        }
    }
    unreachable!()
}

/// How a worker ended, of so many that began with a pass which is split from this one.
fn ended<R: Threads + Wait + Sync, Y: Parted + Sync, G: Gate + Sync, B: Bound + Send + Sync>(
    rt: &R,
    alloc: Global,
    gate: &G,
    board: &Board<Y>,
    pass: Pass<Y::Cell, Y::Part>,
    workers: u32,
) -> Result<Ending<Y::Cell, Y::Part>, AllocError>
    requires workers { 0 < workers }
    requires bound { B.elements ≡ board.now.subject.wiring.plan.elements }
    requires of_board { pass.table ≡ board.now.table }
    ensures { IfOk result (IsEnding (Y.meaning board.now.subject.system) board.now.subject.wiring board.now.table) }
{
    let mut first = pass;
    let mut hall = Hall::<B>::new(alloc);
    let jobs = jobs(alloc, board, &mut first, &mut hall, workers)?;
    let hall = &hall;
    let run = |job: Job<Y::Cell, Y::Part, B>| -> Ending<Y::Cell, Y::Part>
        requires { (B.elements ≡ board.now.subject.wiring.plan.elements) × (job.pass.table ≡ board.now.table)
            × HasJust job.pass.view None None None }
        ensures { IsEnding (Y.meaning board.entry.now.subject.system)
            board.entry.now.subject.wiring board.entry.now.table result }
    {
        let ending = work(
            rt, alloc, gate, hall, job.worker, board, job.pass, job.hints,
        );
        hall.wake_all();
        ending
    };
    let endings = thread::map_vec(rt, jobs, &run)?;
    Ok(best(board, endings))
}

/// The failure that a stop is.
fn failure(why: Why) -> Solve
    ensures { result ≡ failure_of why }
{
    match why {
        Why::Memory => Solve::Memory,
        Why::RunLimit { element, run } => Solve::RunLimit { element, run },
    }
}

/// What the workers leave, by how one of them ended.
fn answer<Y: Parted>(
    board: Board<Y>,
    ending: Ending<Y::Cell, Y::Part>,
) -> Result<Cells<Y::Cell>, Solve>
    requires whole { board.subject.lean ≡ false }
    requires ending { IsEnding (Y.meaning board.subject.system) board.subject.wiring board.table ending }
    ensures ok { IfOk result (IsResultOf (Y.meaning board.entry.subject.system)
        board.entry.subject.wiring.plan board.entry.subject.wiring.limit) }
    ensures err { IfErr result (IsExceeded (Y.meaning board.entry.subject.system)
        board.entry.subject.wiring.plan board.entry.subject.wiring.limit) }
{
    board.subject().wired();
    match ending {
        Ending::Finished { pass, finished } => Ok(board.close(pass, finished)),
        Ending::Stopped(stopped) => Err(failure(board.abandon(stopped))),
    }
}

/// The result of the recursion over the plan, by so many workers, or the first run of an element beyond the limit.
pub fn run_workers<R: Threads + Wait + Sync, Y: System + Sync, G: Gate + Sync>(
    rt: &R,
    alloc: Global,
    system: &Y,
    plan: &Plan,
    workers: u32,
    max_runs: u64,
    gate: &G,
) -> Result<Cells<Y::Cell>, Solve>
    requires fits { FitsPlan (Y.meaning system.now) plan.now }
    requires ends { HasEnd (Y.meaning system.now) plan.now }
    requires few { plan.now.elements ≤ 131073 }
    requires workers { (1 ≤ workers) × (workers ≤ 64) }
    requires most { max_runs ≤ 549755813888 }
    ensures ok { IfOk result (IsResultOf (Y.meaning system.now) plan.now max_runs) }
    ensures err { IfErr result (IsExceeded (Y.meaning system.now) plan.now max_runs) }
{
    let whole = Whole { system };
    let (board, pass) = Board::start(alloc, &whole, plan, max_runs, false)?;
    let ending = ended::<_, _, _, Brand>(rt, alloc, gate, &board, pass, workers)?;
    answer(board, ending)
}

/// The parts that the workers leave, by how one of them ended.
fn parts<Y: Parted>(
    board: Board<Y>,
    ending: Ending<Y::Cell, Y::Part>,
) -> Result<Vec<Y::Part>, Solve>
    requires lean { board.subject.lean ≡ true }
    requires ending { IsEnding (Y.meaning board.subject.system) board.subject.wiring board.table ending }
    ensures ok { IfOk result (λ parts. ArePartsOf (Y.meaning board.entry.subject.system)
        board.entry.subject.wiring.plan (Y.part_of board.entry.subject.system) board.entry.subject.wiring.limit parts.items) }
    ensures err { IfErr result (IsExceeded (Y.meaning board.entry.subject.system)
        board.entry.subject.wiring.plan board.entry.subject.wiring.limit) }
{
    board.subject().wired();
    match ending {
        Ending::Finished { pass, finished } => Ok(board.close_parts(pass, finished)),
        Ending::Stopped(stopped) => Err(failure(board.abandon(stopped))),
    }
}

/// What is kept of each item, in the order of the plan's listing, by so many workers which let go of each cell as soon as nothing reads
/// it any more; or the first run of an element beyond the limit.
pub fn run_workers_lean<R: Threads + Wait + Sync, Y: Parted + Sync, G: Gate + Sync>(
    rt: &R,
    alloc: Global,
    system: &Y,
    plan: &Plan,
    workers: u32,
    max_runs: u64,
    gate: &G,
) -> Result<Vec<Y::Part>, Solve>
    requires fits { FitsPlan (Y.meaning system.now) plan.now }
    requires ends { HasEnd (Y.meaning system.now) plan.now }
    requires few { plan.now.elements ≤ 131073 }
    requires workers { (1 ≤ workers) × (workers ≤ 64) }
    requires most { max_runs ≤ 549755813888 }
    ensures ok { IfOk result
        (λ parts. ArePartsOf (Y.meaning system.now) plan.now (Y.part_of system.now) max_runs parts.items) }
    ensures err { IfErr result (IsExceeded (Y.meaning system.now) plan.now max_runs) }
{
    let (board, pass) = Board::start(alloc, system, plan, max_runs, true)?;
    let ending = ended::<_, _, _, Brand>(rt, alloc, gate, &board, pass, workers)?;
    parts(board, ending)
}
