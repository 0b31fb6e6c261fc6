// Runs of a program beside those of its graph, and against its report.

use crate::choices::taken;
use crate::graphs::{Run, advance, begun, is_at, returned};
use crate::reports::{has_line, tells};
use pk_ctypes::{IntType, Pos};
use pk_graph::{Graph, visible};
use pk_runner::{Answer, Config, Program, Visit, start, step, visit};
use std::alloc::{AllocError, Global};

// A place, as reports have it.
fn place(alloc: Global, paths: &[String], path: usize, at: Pos) -> Result<String, AllocError> {
    let text = match paths.get(path) {
        Some(text) => text.as_str(),
        None => "nowhere",
    };
    format!(in alloc; "{text} {at}")
}

// A step of the program, with numbers where it wants some.
fn stepped<'a>(
    program: &Program<'a>,
    config: &mut Config<'a>,
    lists: &[Vec<i128>],
    seed: u64,
    times: &mut usize,
) -> Result<Answer, AllocError> {
    let answer = step(program, config, &[])?;
    match answer {
        Answer::Wants(int_type, count) => {
            let numbers = taken(program.alloc, lists, seed, times, int_type, count)?;
            step(program, config, &numbers)
        }
        _ => Ok(answer),
    }
}

// The number of the point where the graph's run is, and its place.
fn heading(alloc: Global, paths: &[String], run: &Run<'_>) -> Result<String, AllocError> {
    let point = run.point;
    let place = place(
        alloc,
        paths,
        run.graph.path(point),
        run.graph.position(point),
    )?;
    format!(in alloc; " {point} {place}")
}

// Whether the graph's run is at the program's visit, and what the report tells of the point there holds.
fn is_right(
    alloc: Global,
    report: &[&str],
    paths: &[String],
    run: &Run<'_>,
    visit: &Visit<'_>,
) -> Result<bool, AllocError> {
    if !is_at(alloc, run, visit)? {
        return Ok(false);
    }
    if report.is_empty() {
        return Ok(true);
    }
    let names = visible(alloc, run.graph, run.point)?.len();
    let heading = heading(alloc, paths, run)?;
    tells(alloc, report, &heading, &visit.known, names)
}

// Whether a fault has a line in the report, whose verdict is unknown.
fn is_told(
    alloc: Global,
    report: &[&str],
    paths: &[String],
    answer: Answer,
) -> Result<bool, AllocError> {
    match answer {
        Answer::Faulted(fault, site) => {
            let place = place(alloc, paths, site.path, site.at)?;
            let line = format!(in alloc; "access {place} {fault} unknown ")?;
            Ok(report.is_empty() || has_line(report, &line))
        }
        _ => Ok(true),
    }
}

// Whether the graph's run has ended as the program's.
fn is_end(answer: Answer, came: Answer, run: &Run<'_>) -> bool {
    match (answer, came) {
        (Answer::Faulted(fault, site), Answer::Faulted(other, there)) => {
            fault == other && site.path == there.path && site.at == there.at
        }
        (Answer::Assumed, Answer::Assumed) => true,
        (Answer::Returned(None), Answer::Returned(_)) => true,
        (Answer::Returned(value), Answer::Returned(_)) => value == returned(run),
        (Answer::Wants(int_type, count), Answer::Wants(other, number)) => {
            int_type == other && count == number
        }
        _ => false,
    }
}

// Whether the graph's run, on its way to a visit if the program is at one, gets there.
fn is_along<'a>(
    program: &Program<'a>,
    report: &[&str],
    paths: &[String],
    config: &mut Config<'a>,
    run: &mut Run<'_>,
    lists: &[Vec<i128>],
    seed: u64,
    times: &mut usize,
) -> Result<bool, AllocError> {
    match visit(program, config)? {
        None => Ok(true),
        Some(visit) => match advance(program.alloc, run, lists, seed, times)? {
            Answer::Next => is_right(program.alloc, report, paths, run, &visit),
            _ => Ok(false),
        },
    }
}

// A run of at most so many steps, none where the three differ.
fn run_both<'a>(
    program: &Program<'a>,
    report: &[&str],
    paths: &[String],
    config: &mut Config<'a>,
    run: &mut Run<'_>,
    lists: &[Vec<i128>],
    seed: u64,
    steps: u64,
) -> Result<Option<Answer>, AllocError> {
    let mut of_program: usize = 0;
    let mut of_graph: usize = 0;
    for _ in 0..steps {
        let answer = stepped(program, config, lists, seed, &mut of_program)?;
        match answer {
            Answer::Next => {
                if !is_along(
                    program,
                    report,
                    paths,
                    config,
                    run,
                    lists,
                    seed,
                    &mut of_graph,
                )? {
                    return Ok(None);
                }
            }
            _ => {
                let came = advance(program.alloc, run, lists, seed, &mut of_graph)?;
                let is_right = is_end(answer, came, run)
                    && is_told(program.alloc, report, paths, answer)?;
                return Ok(if is_right { Some(answer) } else { None });
            }
        }
    }
    Ok(Some(Answer::Next))
}

/// The text of an end.
pub fn words(alloc: Global, answer: Answer) -> Result<String, AllocError> {
    match answer {
        Answer::Next => String::from_str(alloc, "going"),
        Answer::Faulted(fault, site) => {
            let at = site.at;
            format!(in alloc; "fault {fault} {at}")
        }
        Answer::Assumed => String::from_str(alloc, "assumed"),
        Answer::Returned(value) => match value {
            Some(number) => format!(in alloc; "returned {number}"),
            None => String::from_str(alloc, "returned nothing"),
        },
        Answer::Wants(int_type, count) => {
            let word = match int_type {
                IntType::Int => "int",
                IntType::UChar => "unsigned char",
                _ => "another",
            };
            format!(in alloc; "wants {word} {count}")
        }
        Answer::Stuck => String::from_str(alloc, "stuck"),
    }
}

/// How a run of at most so many steps ends, or where the three differ.
pub fn ending(
    program: &Program<'_>,
    graph: &Graph,
    report: &[&str],
    paths: &[String],
    lists: &[Vec<i128>],
    seed: u64,
    steps: u64,
) -> Result<String, AllocError> {
    let alloc = program.alloc;
    let Some(mut config) = start(program, &[])? else {
        return String::from_str(alloc, "no start");
    };
    let Some(mut run) = begun(alloc, graph)? else {
        return String::from_str(alloc, "no store");
    };
    let is_begin = match visit(program, &mut config)? {
        None => false,
        Some(visit) => is_right(alloc, report, paths, &run, &visit)?,
    };
    let end = if is_begin {
        run_both(
            program,
            report,
            paths,
            &mut config,
            &mut run,
            lists,
            seed,
            steps,
        )?
    } else {
        None
    };
    match end {
        Some(answer) => words(alloc, answer),
        None => {
            let point = heading(alloc, paths, &run)?;
            format!(in alloc; "differs at point{point}")
        }
    }
}
