// Cases: programs, and how their runs end.

use crate::beside::{ending, words};
use crate::reports::{integers, path_texts};
use pk_front::front;
use pk_graph::Graph;
use pk_runner::{Program, run_from_start};
use pk_text_graph::graph_of_text;
use std::alloc::{AllocError, Global};

// The lists of numbers that a run takes.
fn lists(alloc: Global, text: &str) -> Result<Vec<Vec<i128>>, AllocError> {
    let mut all = Vec::new(alloc);
    for list in text.split(';') {
        if !list.is_empty() {
            all.push(integers(alloc, list)?)?;
        }
    }
    Ok(all)
}

// How so many runs end that draw their numbers, each way once.
fn many(
    program: &Program<'_>,
    graph: &Graph,
    report: &[&str],
    paths: &[String],
    runs: u64,
    steps: u64,
) -> Result<String, AllocError> {
    let alloc = program.alloc;
    let mut ends = String::new(alloc);
    for run in 0..runs {
        let end = ending(
            program,
            graph,
            report,
            paths,
            &[],
            run.wrapping_add(1),
            steps,
        )?;
        let kind = match end.split_once(" ") {
            Some(("differs", _)) => return Ok(end),
            Some(("returned", _)) => "returned",
            _ => end.as_str(),
        };
        if ends.is_empty() {
            ends = String::from_str(alloc, kind)?;
        } else if ends.split_once(kind).is_none() {
            ends = format!(in alloc; "{ends}, {kind}")?;
        }
    }
    Ok(ends)
}

fn count(text: &str) -> u64 {
    match text.parse::<u64>() {
        Ok(count) => count,
        Err(_) => 0,
    }
}

fn compared(
    program: &Program<'_>,
    graph: &Graph,
    report: &[&str],
    choices: &str,
    steps: u64,
) -> Result<String, AllocError> {
    let paths = path_texts(program.alloc, graph.paths())?;
    match choices.strip_prefix("drawn ") {
        Some(runs) => many(program, graph, report, &paths, count(runs), steps),
        None => {
            let lists = lists(program.alloc, choices)?;
            ending(program, graph, report, &paths, &lists, 0, steps)
        }
    }
}

// How a program's runs end, beside the graph of a text.
fn ends(
    program: &Program<'_>,
    of_graph: &str,
    report: &[&str],
    choices: &str,
    steps: u64,
) -> Result<String, AllocError> {
    let alloc = program.alloc;
    if 5000 < steps {
        return match run_from_start(program, &[], &[], steps)? {
            None => String::from_str(alloc, "no start"),
            Some(answer) => words(alloc, answer),
        };
    }
    match graph_of_text(alloc, of_graph.as_bytes(), "main").ok() {
        None => String::from_str(alloc, "no graph"),
        Some(graph) => compared(program, &graph, report, choices, steps),
    }
}

/// How the runs of a case end.
pub fn answer(alloc: Global, line: &str, report: &[&str]) -> Result<String, AllocError> {
    let (choices, rest) = line.split_once("\t").unwrap_or((line, line));
    let (steps, rest) = rest.split_once("\t").unwrap_or((rest, rest));
    let (text, of_graph) = rest.split_once("\t").unwrap_or((rest, rest));
    let Ok((unit, paths)) = front(alloc, text.as_bytes(), "main") else {
        return String::from_str(alloc, "no unit");
    };
    let program = Program {
        alloc,
        unit: &unit,
        paths: &paths,
    };
    ends(&program, of_graph, report, choices, count(steps))
}
