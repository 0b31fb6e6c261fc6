// Steps on the values that wait.

ghost use Rattle.std.specs.Prelude.{IfOk};
ghost use Rattle.pk_meaning.specs.Steps as steps;
ghost use Rattle.pk_meaning.specs.Steps.{step_of};
ghost use Rattle.pk_meaning.specs.Programs.{Program};
ghost use Rattle.pk_meaning.specs.Work as work;
ghost use Rattle.pk_graph.specs.Steps.{Numbers};
ghost use Rattle.pk_runner_frame.specs.Frames.{Reading, held, work_at, way_in, object_in, array_in};
ghost use Rattle.pk_runner_state.specs.Shown.{shown, Told};

use pk_ctypes::{Fault, IntType, Op, Pos, convert};
use pk_runner_frame::{Array, Object, Way, Work, then};
use pk_runner_state::{
    Answer, State, applied, below, fail, follow, give, is_nonzero, operated, place_of, resume, top,
    top_three, top_two, without, without_at, write, write_element,
};
use std::alloc::AllocError;

pub fn branch(state: &mut State<'_>, yes: Way, no: Way) -> Answer
    ensures { (s : Reading) (p : Program) (ch : Numbers) →
        Told s state.old state.new result
        (step_of p ch (shown s state.old) (work.Branch (way_in s (held s state.old.frames.items) yes)
        (way_in s (held s state.old.frames.items) no))) }
{
    match top(&state.values) {
        None => Answer::Stuck,
        Some(value) => {
            let way = if is_nonzero(&value) { yes } else { no };
            match way {
                Way::Refused => Answer::Assumed,
                _ => {
                    without(&mut state.values, 1);
                    follow(state, way)
                }
            }
        }
    }
}

pub fn apply(
    state: &mut State<'_>,
    op: Op,
    at: Pos,
    int_type: IntType,
    number: usize,
) -> Result<Answer, AllocError>
    ensures { (s : Reading) (p : Program) (ch : Numbers) →
        IfOk result (λ r. Told s state.old state.new r
        (step_of p ch (shown s state.old)
        (work.Apply op at int_type (work_at (held s state.old.frames.items) number)))) }
{
    match top(&state.values) {
        None => Ok(Answer::Stuck),
        Some(value) => match applied(op, int_type, &value) {
            Ok(value) => {
                without(&mut state.values, 1);
                give(state, &value, number)
            }
            Err(fault) => Ok(fail(state, fault, at)),
        },
    }
}

pub fn operate(
    state: &mut State<'_>,
    op: Op,
    at: Pos,
    int_type: IntType,
    number: usize,
) -> Result<Answer, AllocError>
    ensures { (s : Reading) (p : Program) (ch : Numbers) →
        IfOk result (λ r.
        Told s state.old state.new r (step_of p ch (shown s state.old) (work.Operate op at int_type (work_at
        (held s state.old.frames.items) number)))) }
{
    match top_two(&state.values) {
        None => Ok(Answer::Stuck),
        Some((left, right)) => match operated(op, int_type, &left, &right) {
            Ok(value) => {
                without(&mut state.values, 2);
                give(state, &value, number)
            }
            Err(fault) => Ok(fail(state, fault, at)),
        },
    }
}

// Convert and Settle.
pub fn converted(
    state: &mut State<'_>,
    int_type: IntType,
    number: usize,
) -> Result<Answer, AllocError>
    ensures { (s : Reading) (p : Program) (ch : Numbers) →
        IfOk result (λ r. Told s state.old state.new r
        (step_of p ch (shown s state.old) (work.Convert int_type (work_at (held s state.old.frames.items) number)))) }
{
    match top(&state.values) {
        None => Ok(Answer::Stuck),
        Some(value) => {
            without(&mut state.values, 1);
            give(state, &convert(int_type, value), number)
        }
    }
}

pub fn discard(state: &mut State<'_>, number: usize) -> Answer
    ensures { (s : Reading) (p : Program) (ch : Numbers) →
        Told s state.old state.new result
        (step_of p ch (shown s state.old) (work.Drop (work_at (held s state.old.frames.items) number))) }
{
    match top(&state.values) {
        None => Answer::Stuck,
        Some(_) => {
            without(&mut state.values, 1);
            resume(state, number)
        }
    }
}

pub fn assign(
    state: &mut State<'_>,
    int_type: IntType,
    object: Object,
    number: usize,
) -> Result<Answer, AllocError>
    ensures { (s : Reading) (p : Program) (ch : Numbers) →
        IfOk result (λ r. Told s state.old state.new r
        (step_of p ch (shown s state.old) (work.Assign int_type (object_in object) (work_at
        (held s state.old.frames.items) number)))) }
{
    match top(&state.values) {
        None => Ok(Answer::Stuck),
        Some(value) => {
            let value = convert(int_type, value);
            without(&mut state.values, 1);
            state.values.push(value)?;
            write(state, object, &value, number)
        }
    }
}

pub fn put(
    state: &mut State<'_>,
    int_type: IntType,
    object: Object,
    number: usize,
) -> Result<Answer, AllocError>
    ensures { (s : Reading) (p : Program) (ch : Numbers) →
        IfOk result (λ r.
        Told s state.old state.new r (step_of p ch (shown s state.old) (work.Put int_type (object_in object) (work_at
        (held s state.old.frames.items) number)))) }
{
    match top(&state.values) {
        None => Ok(Answer::Stuck),
        Some(value) => {
            without(&mut state.values, 1);
            write(state, object, &convert(int_type, value), number)
        }
    }
}

pub fn update(
    state: &mut State<'_>,
    op: Op,
    at: Pos,
    in_type: IntType,
    int_type: IntType,
    object: Object,
    number: usize,
) -> Result<Answer, AllocError>
    ensures { (s : Reading) (p : Program) (ch : Numbers) →
        IfOk result (λ r.
        Told s state.old state.new r (step_of p ch (shown s state.old) (work.Update op at in_type int_type
        (object_in object) (work_at (held s state.old.frames.items) number)))) }
{
    match top(&state.values) {
        None => Ok(Answer::Stuck),
        Some(right) => {
            let left = state.objects.number(object);
            match operated(op, in_type, &left, &right) {
                Ok(value) => {
                    let value = convert(int_type, value);
                    without(&mut state.values, 1);
                    state.values.push(value)?;
                    write(state, object, &value, number)
                }
                Err(fault) => Ok(fail(state, fault, at)),
            }
        }
    }
}

pub fn advance(
    state: &mut State<'_>,
    op: Op,
    at: Pos,
    in_type: IntType,
    int_type: IntType,
    object: Object,
    number: usize,
) -> Result<Answer, AllocError>
    ensures { (s : Reading) (p : Program) (ch : Numbers) →
        IfOk result (λ r.
        Told s state.old state.new r (step_of p ch (shown s state.old) (work.Advance op at in_type int_type
        (object_in object) (work_at (held s state.old.frames.items) number)))) }
{
    let left = state.objects.number(object);
    match operated(op, in_type, &left, &1) {
        Ok(value) => write(state, object, &convert(int_type, value), number),
        Err(fault) => Ok(fail(state, fault, at)),
    }
}

pub fn load(
    state: &mut State<'_>,
    at: Pos,
    array: Array,
    number: usize,
) -> Result<Answer, AllocError>
    ensures { (s : Reading) (p : Program) (ch : Numbers) →
        IfOk result (λ r.
        Told s state.old state.new r (step_of p ch (shown s state.old) (work.Load at (array_in array) (work_at
        (held s state.old.frames.items) number)))) }
{
    match top(&state.values) {
        None => Ok(Answer::Stuck),
        Some(index) => match place_of(array.length, &index) {
            Some(place) => {
                let value = state.objects.element(array, place);
                without(&mut state.values, 1);
                give(state, &value, number)
            }
            None => Ok(fail(state, Fault::Index, at)),
        },
    }
}

pub fn reload(
    state: &mut State<'_>,
    at: Pos,
    array: Array,
    number: usize,
) -> Result<Answer, AllocError>
    ensures { (s : Reading) (p : Program) (ch : Numbers) →
        IfOk result (λ r.
        Told s state.old state.new r (step_of p ch (shown s state.old) (work.Reload at (array_in array) (work_at
        (held s state.old.frames.items) number)))) }
{
    match top_two(&state.values) {
        None => Ok(Answer::Stuck),
        Some((index, _)) => match place_of(array.length, &index) {
            Some(place) => {
                let value = state.objects.element(array, place);
                give(state, &value, number)
            }
            None => Ok(fail(state, Fault::Index, at)),
        },
    }
}

pub fn store(state: &mut State<'_>, at: Pos, array: Array, number: usize) -> Answer
    ensures { (s : Reading) (p : Program) (ch : Numbers) →
        Told s state.old state.new result (step_of p ch (shown s state.old)
        (work.Store at (array_in array) (work_at (held s state.old.frames.items) number))) }
{
    match top_two(&state.values) {
        None => Answer::Stuck,
        Some((index, value)) => match place_of(array.length, &index) {
            Some(place) => {
                without(&mut state.values, 2);
                write_element(state, array, place, &convert(array.int_type, value), number)
            }
            None => fail(state, Fault::Index, at),
        },
    }
}

pub fn store_kept(
    state: &mut State<'_>,
    at: Pos,
    array: Array,
    number: usize,
) -> Result<Answer, AllocError>
    ensures { (s : Reading) (p : Program) (ch : Numbers) →
        IfOk result (λ r.
        Told s state.old state.new r (step_of p ch (shown s state.old) (work.StoreKept at (array_in array) (work_at
        (held s state.old.frames.items) number)))) }
{
    match top_two(&state.values) {
        None => Ok(Answer::Stuck),
        Some((index, value)) => match place_of(array.length, &index) {
            Some(place) => {
                without(&mut state.values, 2);
                state.values.push(value)?;
                Ok(write_element(state, array, place, &value, number))
            }
            None => Ok(fail(state, Fault::Index, at)),
        },
    }
}

pub fn renew(
    state: &mut State<'_>,
    op: Op,
    at: Pos,
    in_type: IntType,
    bracket: Pos,
    array: Array,
    number: usize,
) -> Answer
    ensures { (s : Reading) (p : Program) (ch : Numbers) →
        Told s state.old state.new result
        (step_of p ch (shown s state.old) (work.Renew op at in_type bracket (array_in array) (work_at
        (held s state.old.frames.items) number))) }
{
    match top_three(&state.values) {
        None => Answer::Stuck,
        Some((index, right, left)) => match operated(op, in_type, &left, &right) {
            Ok(value) => match place_of(array.length, &index) {
                Some(place) => {
                    without(&mut state.values, 3);
                    write_element(state, array, place, &convert(array.int_type, value), number)
                }
                None => fail(state, Fault::Index, bracket),
            },
            Err(fault) => fail(state, fault, at),
        },
    }
}

pub fn renewed(
    state: &mut State<'_>,
    op: Op,
    at: Pos,
    in_type: IntType,
    int_type: IntType,
    number: usize,
) -> Result<Answer, AllocError>
    ensures { (s : Reading) (p : Program) (ch : Numbers) →
        IfOk result (λ r.
        Told s state.old state.new r (step_of p ch (shown s state.old) (work.Renewed op at in_type int_type (work_at
        (held s state.old.frames.items) number)))) }
{
    match top_three(&state.values) {
        None => Ok(Answer::Stuck),
        Some((_, right, left)) => match operated(op, in_type, &left, &right) {
            Ok(value) => {
                without(&mut state.values, 2);
                give(state, &convert(int_type, value), number)
            }
            Err(fault) => Ok(fail(state, fault, at)),
        },
    }
}

pub fn replace(
    state: &mut State<'_>,
    op: Op,
    at: Pos,
    in_type: IntType,
    bracket: Pos,
    array: Array,
    number: usize,
) -> Result<Answer, AllocError>
    ensures { (s : Reading) (p : Program) (ch : Numbers) →
        IfOk result (λ r.
        Told s state.old state.new r (step_of p ch (shown s state.old) (work.Replace op at in_type bracket
        (array_in array) (work_at (held s state.old.frames.items) number)))) }
{
    match top_three(&state.values) {
        None => Ok(Answer::Stuck),
        Some((index, right, left)) => match operated(op, in_type, &left, &right) {
            Ok(value) => match place_of(array.length, &index) {
                Some(place) => {
                    without(&mut state.values, 3);
                    state.values.push(left)?;
                    Ok(write_element(state, array, place, &convert(array.int_type, value), number))
                }
                None => Ok(fail(state, Fault::Index, bracket)),
            },
            Err(fault) => Ok(fail(state, fault, at)),
        },
    }
}

pub fn item(state: &mut State<'_>, array: Array, place: usize, number: usize) -> Answer
    ensures { (s : Reading) (p : Program) (ch : Numbers) →
        Told s state.old state.new result (step_of p ch (shown s state.old)
        (work.Item (array_in array) place (work_at (held s state.old.frames.items) number))) }
{
    match top(&state.values) {
        None => Answer::Stuck,
        Some(value) => {
            without(&mut state.values, 1);
            write_element(state, array, place, &convert(array.int_type, value), number)
        }
    }
}

pub fn claim(state: &mut State<'_>, at: Pos, number: usize) -> Answer
    ensures { (s : Reading) (p : Program) (ch : Numbers) →
        Told s state.old state.new result
        (step_of p ch (shown s state.old) (work.Claim at (work_at (held s state.old.frames.items) number))) }
{
    match top(&state.values) {
        None => Answer::Stuck,
        Some(value) => {
            if is_nonzero(&convert(IntType::Int, value)) {
                without(&mut state.values, 1);
                let here = state.here;
                follow(state, Way::Onward(here, number))
            } else {
                fail(state, Fault::Assert, at)
            }
        }
    }
}

pub fn bind<'a>(
    state: &mut State<'a>,
    path: usize,
    parameter: usize,
    types: &'a [IntType],
    number: usize,
) -> Result<Answer, AllocError>
    ensures { (s : Reading) →
        IfOk result (λ r. Told s state.old state.new r
        (steps.bind (shown s state.old) path parameter types.now (work_at (held s state.old.frames.items) number))) }
{
    if types.len() == 0 {
        Ok(resume(state, number))
    } else {
        let later = types.len() - 1;
        match below(&state.values, later) {
            None => Ok(Answer::Stuck),
            Some(place) => {
                let value = convert(types[0], state.values[place]);
                let next = parameter.checked_add(1).ok_or(AllocError)?;
                let bind = then(
                    &mut state.frames,
                    Work::Bind(path, next, &types[1..], number),
                )?;
                without_at(&mut state.values, place);
                write(state, Object::Local(path, parameter), &value, bind)
            }
        }
    }
}
