// What is told of a text.

ghost use Rattle.std.specs.Prelude.{◌≡◌, ◌++◌, ◌≤◌, IfOk, IfErr, codes, length};
ghost use Rattle.pk_command.specs.Given.{IsInRange};
ghost use Rattle.pk_command.specs.declared.asked.Command.TheVariants as commands;
ghost use Rattle.pk_graph.specs.Shown.{graph_view};
ghost use Rattle.pk_graph_report.specs.Reported.{IsReport, IsSummary};
ghost use Rattle.pk_solver.specs.Bounds.{AreInRange, most_points, most_workers};
ghost use Rattle.pk_solver.specs.Solved.{IsCause};
ghost use Rattle.pk_text_report.specs.Answers.{IsRun, IsOrder, IsMade, IsStopped, IsTold, certified_options, default_options, default_runs, options_of};

use pk_cert_report::{certificate_of_text, check, unanalysed_status};
use pk_command::{CertOptions, Command, GenOptions, OrderOptions, RunOptions};
use pk_graph::Graph;
use pk_graph_report::{order_of, report_of, summary_of};
use pk_lean_report::lean_report;
use pk_solver::{IterationOptions, Options, SolverError, prepare, states};
use pk_status::Status;
use pk_text_graph::{graph_of_text, graphs_are_few};
use pk_workers::Gate;
use std::alloc::{AllocError, Global};
use std::sync::Wait;
use std::thread::Threads;

// How often an element may be run where the words don't say.
const DEFAULT_RUNS: u64 = 1000000;

// How a graph is analysed, where the words say it.
fn analysis_of(delay: u32, narrow: u32, oct: usize, packs: bool) -> Options
    ensures { result ≡ record { delay = delay; narrow = narrow; oct = oct; packs = packs } }
{
    Options {
        delay,
        narrow,
        oct,
        packs,
    }
}

// How a graph is analysed where the words don't say.
fn default_analysis() -> Options
    ensures { result ≡ default_options }
{
    Options {
        delay: 0,
        narrow: 2,
        oct: 16,
        packs: false,
    }
}

// What the iteration of a run is asked for.
fn iteration_of(options: &RunOptions) -> IterationOptions
    requires { IsInRange (commands.Run options.now) }
    ensures analysis { result.analysis ≡ options_of options.now }
    ensures runs { result.max_runs ≡ options.now.max_runs }
    ensures range { AreInRange result }
{
    IterationOptions {
        analysis: analysis_of(options.delay, options.narrow, options.oct, options.packs),
        workers: options.workers,
        max_runs: options.max_runs,
    }
}

// The same by so many workers where the words don't say more.
fn default_iteration(workers: u32) -> IterationOptions
    requires { (1 ≤ workers) × (workers ≤ most_workers) }
    ensures analysis { result.analysis ≡ default_options }
    ensures runs { result.max_runs ≡ default_runs }
    ensures range { AreInRange result }
{
    IterationOptions {
        analysis: default_analysis(),
        workers,
        max_runs: DEFAULT_RUNS,
    }
}

// What the iteration of a certificate is asked for.
fn certified_iteration(options: &CertOptions) -> IterationOptions
    requires { IsInRange (commands.Cert options.now) }
    ensures analysis { result.analysis ≡ certified_options options.now }
    ensures runs { result.max_runs ≡ options.now.max_runs }
    ensures range { AreInRange result }
{
    IterationOptions {
        analysis: analysis_of(options.delay, options.narrow, options.oct, false),
        workers: options.workers,
        max_runs: options.max_runs,
    }
}

// A line, of its text.
fn line_of(text: Vec<u8>) -> Result<Vec<u8>, AllocError>
    ensures { IfOk result (λ line. line.items ≡ text.items ++ codes "\n") }
{
    let mut line = text;
    line.push(b'\n')?;
    Ok(line)
}

// The report on a graph, of every point or of its heads, and its number of unknown verdicts, by the states of all points.
fn whole_report<R: Threads + Wait + Sync, G: Gate + Sync>(
    rt: &R,
    alloc: Global,
    gate: &G,
    graph: &Graph,
    iteration: &IterationOptions,
    all: bool,
) -> Result<(Vec<u8>, usize), SolverError>
    requires few { length (graph_view graph.now).points ≤ most_points }
    requires range { AreInRange iteration.now }
    ensures ok { IfOk result (λ r.
        IsReport (graph_view graph.now) iteration.now.analysis iteration.now.max_runs all r.1 r.0.items) }
    ensures err { IfErr result (IsCause (graph_view graph.now) iteration.now.analysis iteration.now.max_runs) }
{
    let (plan, frame) = prepare(alloc, graph, iteration)?;
    let states = states(rt, alloc, gate, graph, &frame, &plan, iteration)?;
    Ok(report_of(alloc, graph, &plan, &states, all)?)
}

// The same, where it is asked for by cells that are let go of.
fn graph_report<R: Threads + Wait + Sync, G: Gate + Sync>(
    rt: &R,
    alloc: Global,
    gate: &G,
    graph: &Graph,
    iteration: &IterationOptions,
    all: bool,
    lean: bool,
) -> Result<(Vec<u8>, usize), SolverError>
    requires few { length (graph_view graph.now).points ≤ most_points }
    requires range { AreInRange iteration.now }
    ensures ok { IfOk result (λ r.
        IsReport (graph_view graph.now) iteration.now.analysis iteration.now.max_runs all r.1 r.0.items) }
    ensures err { IfErr result (IsCause (graph_view graph.now) iteration.now.analysis iteration.now.max_runs) }
{
    if lean {
        lean_report(rt, alloc, gate, graph, iteration, all)
    } else {
        whole_report(rt, alloc, gate, graph, iteration, all)
    }
}

// The summary of a made text of `text_length` bytes, and its number of unknown verdicts.
fn graph_summary<R: Threads + Wait + Sync, G: Gate + Sync>(
    rt: &R,
    alloc: Global,
    gate: &G,
    graph: &Graph,
    iteration: &IterationOptions,
    options: &GenOptions,
    text_length: usize,
) -> Result<(Vec<u8>, usize), SolverError>
    requires few { length (graph_view graph.now).points ≤ most_points }
    requires range { AreInRange iteration.now }
    ensures ok { IfOk result (λ r. IsSummary (graph_view graph.now) iteration.now.analysis iteration.now.max_runs
        options.now.seed options.now.size text_length r.1 r.0.items) }
    ensures err { IfErr result (IsCause (graph_view graph.now) iteration.now.analysis iteration.now.max_runs) }
{
    let (plan, frame) = prepare(alloc, graph, iteration)?;
    let states = states(rt, alloc, gate, graph, &frame, &plan, iteration)?;
    Ok(summary_of(
        alloc,
        graph,
        &plan,
        &states,
        options.seed as usize,
        options.size as usize,
        text_length,
    )?)
}

// The report on a text.
fn run_told<R: Threads + Wait + Sync, G: Gate + Sync>(
    rt: &R,
    alloc: Global,
    gate: &G,
    options: &RunOptions,
    text: &[u8],
) -> Result<(Vec<u8>, u64), Status>
    requires range { IsInRange (commands.Run options.now) }
    ensures told { IfOk result (λ made. IsRun text.now options.now made.1 made.0.items) }
    ensures stopped { IfErr result (IsStopped text.now (commands.Run options.now)) }
{
    graphs_are_few();
    let graph = graph_of_text(alloc, text, options.entry.as_str())?;
    let iteration = iteration_of(options);
    match graph_report(
        rt,
        alloc,
        gate,
        &graph,
        &iteration,
        options.points,
        options.lean,
    ) {
        Ok((bytes, unknown)) => Ok((bytes, unknown as u64)),
        Err(why) => Err(unanalysed_status(why, options.max_runs)),
    }
}

// The order of a text, and its peak where it is asked for.
fn order_told(alloc: Global, options: &OrderOptions, text: &[u8]) -> Result<(Vec<u8>, u64), Status>
    ensures told { IfOk result (λ made. IsOrder text.now options.now made.1 made.0.items) }
    ensures stopped { IfErr result (IsStopped text.now (commands.Order options.now)) }
{
    let graph = graph_of_text(alloc, text, options.entry.as_str())?;
    let bytes = line_of(order_of(alloc, &graph, options.peak)?)?;
    Ok((bytes, 0))
}

// The summary of a made text.
fn gen_told<R: Threads + Wait + Sync, G: Gate + Sync>(
    rt: &R,
    alloc: Global,
    gate: &G,
    options: &GenOptions,
    text: &[u8],
) -> Result<(Vec<u8>, u64), Status>
    requires range { IsInRange (commands.Gen options.now) }
    ensures told { IfOk result (λ made. IsMade text.now options.now made.1 made.0.items) }
    ensures stopped { IfErr result (IsStopped text.now (commands.Gen options.now)) }
{
    graphs_are_few();
    let graph = graph_of_text(alloc, text, "main")?;
    let iteration = default_iteration(options.workers);
    match graph_summary(rt, alloc, gate, &graph, &iteration, options, text.len()) {
        Ok((bytes, unknown)) => Ok((bytes, unknown as u64)),
        Err(why) => Err(unanalysed_status(why, DEFAULT_RUNS)),
    }
}

// The certificate of a text, which has no verdicts.
fn cert_told<R: Threads + Wait + Sync, G: Gate + Sync>(
    rt: &R,
    alloc: Global,
    gate: &G,
    options: &CertOptions,
    text: &[u8],
) -> Result<(Vec<u8>, u64), Status>
    requires range { IsInRange (commands.Cert options.now) }
    ensures told { IfOk result (λ made. IsTold text.now (commands.Cert options.now) made.1 made.0.items) }
    ensures stopped { IfErr result (IsStopped text.now (commands.Cert options.now)) }
{
    let iteration = certified_iteration(options);
    let entry = options.entry.as_str();
    match certificate_of_text(rt, alloc, gate, text, entry, &iteration) {
        Ok(bytes) => Ok((bytes, 0)),
        Err(status) => Err(status),
    }
}

/// The bytes to write and the number of unknown verdicts, or the status in their place.
pub fn told<R: Threads + Wait + Sync, G: Gate + Sync>(
    rt: &R,
    alloc: Global,
    gate: &G,
    command: &Command,
    text: &[u8],
) -> Result<(Vec<u8>, u64), Status>
    requires range { IsInRange command.now }
    ensures told { IfOk result (λ made. IsTold text.now command.now made.1 made.0.items) }
    ensures stopped { IfErr result (IsStopped text.now command.now) }
{
    match command {
        Command::Run(options) => run_told(rt, alloc, gate, options, text),
        Command::Order(options) => order_told(alloc, options, text),
        Command::Gen(options) => gen_told(rt, alloc, gate, options, text),
        Command::Cert(options) => cert_told(rt, alloc, gate, options, text),
        Command::Check => check(alloc, text),
    }
}
