// Runs.

ghost use Rattle.std.specs.Prelude.{◌≡◌, ◌<◌, [], length, slice_index_or, if◌then◌else◌, IfOk, IfSome, Some, None, drop, map, option_map};
ghost use Rattle.pk_meaning.specs.Runs as meaning;
ghost use Rattle.pk_meaning.specs.Steps as definition;
ghost use Rattle.pk_runner_frame.specs.Frames.{Reading};
ghost use Rattle.pk_runner_state.specs.Shown.{program_in, objects_in, told, outcome, Agrees};
ghost use Rattle.pk_runner_state.specs.Rows.{reading_of};
ghost use Rattle.pk_runner_visit.specs.Seen.{visit_in, visit_if};
ghost use Rattle.pk_runner.specs.Ran.{rows_of, config_in, picked, ran};

use crate::steps::step_state;
use pk_ctypes::{IntType, fits};
use pk_runner_frame::{Ahead, Caller, Object, Spot, Work, before};
use pk_runner_state::{
    Answer, Objects, Program, State, Table, Visited, body_scope, first_objects, items, opened,
    parameters, reach,
};
use pk_runner_visit::{Visit, seen};
use std::alloc::AllocError;

/// Where a run is.
#[derive(Drop)]
pub struct Config<'a> {
    state: State<'a>,
    table: Table,
}

/// The rows of scopes of every run have a reading, by which the clauses here can be read: that of the last configuration is one for all before it.
pub fn is_readable(config: &Config<'_>)
    ensures { Agrees (reading_of (rows_of config.now)) (rows_of config.now) }
{
    config.table.is_readable();
}

// The entry's parameters hold these numbers, one of each type.
fn set_arguments(
    objects: &mut Objects,
    types: &[IntType],
    numbers: &[i128],
) -> Result<bool, AllocError>
    ensures { IfOk result (λ b. meaning.with_arguments 0 types.now numbers.now (objects_in objects.old)
        ≡ (if b then Some (objects_in objects.new) else None)) }
{
    if types.len() != numbers.len() {
        return Ok(false);
    }
    for number in 0..types.len() {
        if !fits(types[number], numbers[number]) {
            return Ok(false);
        }
        objects.set_number(Object::Local(0, number), &numbers[number])?;
    }
    Ok(true)
}

/// Where a run begins, if the numbers are one for each parameter of the entry, each of its type.
pub fn start<'a>(program: &Program<'a>, chosen: &[i128]) -> Result<Option<Config<'a>>, AllocError>
    ensures { (s : Reading) → IfOk result (λ c. IfSome c (λ d. Agrees s (rows_of d)) →
        option_map (config_in s) c ≡ meaning.start (program_in program.now) chosen.now) }
{
    let mut objects = first_objects(program.alloc, program)?;
    if set_arguments(&mut objects, parameters(program, 0), chosen)? {
        let mut table = Table::new(program.alloc, program)?;
        let scope = body_scope(program, &mut table, 0)?;
        let mut frames = Vec::new(program.alloc);
        let end = before(&mut frames, Ahead::End(Caller::Nobody))?;
        let rest = before(&mut frames, Ahead::Rest(scope, items(program, 0), end))?;
        let state = State {
            path: 0,
            here: Spot {
                at: opened(program, 0),
                scope,
            },
            work: Work::Go(rest),
            values: Vec::new(program.alloc),
            objects,
            frames,
            visited: Visited::Yes,
        };
        Ok(Some(Config { state, table }))
    } else {
        Ok(None)
    }
}

/// One step, with the numbers that are chosen where some are. Where the run ends or wants numbers, the configuration stays.
pub fn step<'a>(
    program: &Program<'a>,
    config: &mut Config<'a>,
    chosen: &[i128],
) -> Result<Answer, AllocError>
    ensures told { (s : Reading) → Agrees s (rows_of config.new) → IfOk result (λ r. told r (config_in s config.new)
        ≡ outcome (definition.step (program_in program.now) chosen.now (config_in s config.old))
        (config_in s config.old)) }
    ensures before { (s : Reading) → Agrees s (rows_of config.new) → Agrees s (rows_of config.old) }
{
    step_state(program, &mut config.state, &mut config.table, chosen)
}

fn choice<'b>(choices: &[&'b [i128]], taken: usize) -> &'b [i128]
    requires { taken < length choices.now }
    ensures { result.now ≡ slice_index_or (map (λ zs. zs.now) choices.now) taken [] }
{
    choices[taken]
}

// A step, with the next of the choices where it wants numbers, and how many choices are taken then.
fn step_on<'a>(
    program: &Program<'a>,
    config: &mut Config<'a>,
    choices: &[&[i128]],
    taken: usize,
) -> Result<(Answer, usize), AllocError>
    ensures told { (s : Reading) → Agrees s (rows_of config.new) → IfOk result (λ r. told r.0 (config_in s config.new)
        ≡ outcome (picked (program_in program.now) (drop taken (map (λ zs. zs.now) choices.now))
        (config_in s config.old)).0 (config_in s config.old)) }
    ensures left { (s : Reading) → Agrees s (rows_of config.new) →
        IfOk result (λ r. drop r.1 (map (λ zs. zs.now) choices.now)
        ≡ (picked (program_in program.now) (drop taken (map (λ zs. zs.now) choices.now)) (config_in s config.old)).1) }
    ensures before { (s : Reading) → Agrees s (rows_of config.new) → Agrees s (rows_of config.old) }
{
    let answer = step(program, config, &[])?;
    match answer {
        Answer::Wants(_, _) => {
            if taken < choices.len() {
                Ok((step(program, config, choice(choices, taken))?, taken + 1))
            } else {
                Ok((answer, taken))
            }
        }
        _ => Ok((answer, taken)),
    }
}

/// How a run goes: `Next` where it goes on after so many steps. Choices are taken in order, one for each step that wants numbers.
pub fn run<'a>(
    program: &Program<'a>,
    config: &mut Config<'a>,
    choices: &[&[i128]],
    steps: u64,
) -> Result<Answer, AllocError>
    ensures told { (s : Reading) → Agrees s (rows_of config.new) →
        IfOk result (λ r. told r (config_in s config.new)
        ≡ ran (program_in program.now) steps (map (λ zs. zs.now) choices.now) (config_in s config.old)) }
    ensures before { (s : Reading) → Agrees s (rows_of config.new) → Agrees s (rows_of config.old) }
{
    let mut taken = 0;
    for _ in 0..steps {
        let (answer, more) = step_on(program, config, choices, taken)?;
        taken = more;
        match answer {
            Answer::Next => {}
            _ => return Ok(answer),
        }
    }
    Ok(Answer::Next)
}

/// How a run goes that begins with these numbers of the entry's parameters, if they are such: what the definition says, by the contracts of the calls above alone. Tests alone call it.
pub fn run_from_start<'a>(
    program: &Program<'a>,
    chosen: &[i128],
    choices: &[&[i128]],
    steps: u64,
) -> Result<Option<Answer>, AllocError>
    ensures { IfOk result (λ answer. answer
        ≡ option_map (λ c. (ran (program_in program.now) steps (map (λ zs. zs.now) choices.now) c).answer)
        (meaning.start (program_in program.now) chosen.now)) }
{
    match start(program, chosen)? {
        None => Ok(None),
        Some(begun) => {
            let mut config = begun;
            let answer = run(program, &mut config, choices, steps)?;
            is_readable(&config);
            Ok(Some(answer))
        }
    }
}

/// What is seen where a run is, if the last step came to a visit. The configuration stays. Tests alone call it.
pub fn visit<'a>(
    program: &Program<'a>,
    config: &mut Config<'a>,
) -> Result<Option<Visit<'a>>, AllocError>
    ensures seen { (s : Reading) → Agrees s (rows_of config.new) →
        IfOk result (λ v. option_map visit_in v ≡ visit_if (program_in program.now) (config_in s config.new)) }
    ensures same { (s : Reading) → config_in s config.new ≡ config_in s config.old }
    ensures before { (s : Reading) → Agrees s (rows_of config.new) → Agrees s (rows_of config.old) }
{
    reach(&mut config.table, config.state.here.scope)?;
    seen(program, &config.state, &config.table)
}
