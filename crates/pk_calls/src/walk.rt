// The walk of calls.

ghost use Rattle.std.specs.Prelude.{◌≡◌, ◌+◌, ◌∷◌, map, reverse, IfOk};
ghost use Rattle.pk_typed.specs.Views.{unit_tree};
ghost use Rattle.pk_calls.specs.Calls.{HasBody, name_of, locals_of};
ghost use Rattle.pk_calls.specs.Forests.{capped};
ghost use Rattle.pk_calls.specs.Walk.{back_to, cycle_of};
ghost use Rattle.pk_calls.specs.Frames.{path_of};
ghost use Rattle.pk_calls.specs.Answers.{IsWalk};

use crate::failures::CallError;
use crate::functions::{calls, has_body, locals, name};
use pk_ctypes::{Name, Names};
use pk_typed::Unit;
use std::alloc::{AllocError, Global};

/// Counts over a call of a function and all calls below it, each at most 2^64 - 1.
#[derive(Clone, Copy)]
pub struct Counts {
    pub paths: u64,
    pub variables: u64,
}

/// What the walk has done with a function.
#[derive(Clone, Copy)]
enum State {
    Fresh,
    OnPath,
    Left(Counts),
}

/// A function on the path, the number of its next call, and the counts of the calls before.
#[derive(Clone, Copy)]
struct Frame {
    function: usize,
    next: usize,
    counts: Counts,
}

impl Counts {
    // Of a call of a function that calls nothing.
    fn alone(unit: &Unit, function: usize) -> Counts
        ensures paths { result.paths ≡ 1 }
        ensures variables { result.variables ≡ capped (locals_of (unit_tree unit.now) function + 1) }
    {
        Counts {
            paths: 1,
            variables: (locals(unit, function) as u64).saturating_add(1),
        }
    }

    fn and(self, other: Counts) -> Counts
        ensures paths { result.paths ≡ capped (self.paths + other.paths) }
        ensures variables { result.variables ≡ capped (self.variables + other.variables) }
    {
        Counts {
            paths: self.paths.saturating_add(other.paths),
            variables: self.variables.saturating_add(other.variables),
        }
    }
}

// The names from the last of the frames back to the function's.
fn names_back(
    alloc: Global,
    unit: &Unit,
    frames: &[Frame],
    function: usize,
) -> Result<Vec<Name>, AllocError>
    ensures { IfOk result (λ names. names.items
        ≡ map (name_of (unit_tree unit.now)) (function ∷ back_to function (path_of (reverse frames.now)))) }
{
    let mut names = Vec::new(alloc);
    names.push(name(alloc, unit, function)?)?;
    let mut i = frames.len();
    while i > 0 {
        i -= 1;
        let on_path = frames[i].function;
        names.push(name(alloc, unit, on_path)?)?;
        if on_path == function {
            return Ok(names);
        }
    }
    Ok(names)
}

// The names from the function on the path to itself.
fn cycle(alloc: Global, unit: &Unit, frames: &[Frame], function: usize) -> Result<Names, AllocError>
    ensures { IfOk result (λ names. names ≡ cycle_of (unit_tree unit.now) function (path_of (reverse frames.now))) }
{
    let mut names = names_back(alloc, unit, frames, function)?;
    names.reverse();
    Names::new(alloc, names.as_slice())
}

/// Walks all calls from the entry, and counts them.
pub fn walk(alloc: Global, unit: &Unit, entry: usize) -> Result<Counts, CallError>
    requires { HasBody (unit_tree unit.now) entry }
    ensures { IsWalk (unit_tree unit.now) entry result }
{
    let mut states = vec![in alloc; State::Fresh; unit.functions.len()]?;
    let mut frames = Vec::new(alloc);
    states[entry] = State::OnPath;
    frames.push(Frame {
        function: entry,
        next: 0,
        counts: Counts::alone(unit, entry),
    })?;
    while let Some(frame) = frames.pop() {
        let Frame {
            function,
            next,
            counts,
        } = frame;
        let calls = calls(unit, function);
        if next == calls.len() {
            states[function] = State::Left(counts);
        } else {
            let call = calls[next];
            if !has_body(unit, call.function) {
                return Err(CallError::UndefinedCall {
                    name: name(alloc, unit, call.function)?,
                    at: call.at,
                });
            }
            match states[call.function] {
                State::Left(below) => {
                    frames.push(Frame {
                        function,
                        next: next + 1,
                        counts: counts.and(below),
                    })?;
                }
                State::Fresh => {
                    frames.push(frame)?;
                    states[call.function] = State::OnPath;
                    frames.push(Frame {
                        function: call.function,
                        next: 0,
                        counts: Counts::alone(unit, call.function),
                    })?;
                }
                State::OnPath => {
                    frames.push(frame)?;
                    return Err(CallError::Recursion {
                        cycle: cycle(alloc, unit, &frames, call.function)?,
                    });
                }
            }
        }
    }
    match states[entry] {
        State::Left(counts) => Ok(counts),
        State::Fresh | State::OnPath => unreachable!(),
    }
}
