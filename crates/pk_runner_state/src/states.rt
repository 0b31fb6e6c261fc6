// Where a run is.

ghost use Rattle.std.specs.Prelude.{◌∷◌, IfOk};
ghost use Rattle.pk_meaning.specs.Objects.{is_in_scope};
ghost use Rattle.pk_meaning.specs.Steps as steps;
ghost use Rattle.pk_meaning.specs.Steps.{on, comes, takes, writes, fails};
ghost use Rattle.pk_runner_frame.specs.Frames.{Reading, held, work_at, work_in, way_in, place_in, object_in, array_in};
ghost use Rattle.pk_runner_state.specs.Shown.{shown, Told};

use crate::objects::Objects;
use pk_ctypes::{Fault, IntType, Pos};
use pk_graph::Site;
use pk_runner_frame::{Array, Frame, Object, Spot, Way, Work, loop_at, take};
use std::alloc::AllocError;

/// What a step answers.
#[derive(Clone, Copy)]
pub enum Answer {
    /// The run goes on.
    Next,
    /// The run ends with a fault, at a call path and a place.
    Faulted(Fault, Site),
    /// The run ends at an assumption that is false.
    Assumed,
    /// The run ends with what the entry returns.
    Returned(Option<i128>),
    /// So many numbers of the type have to be chosen.
    Wants(IntType, usize),
    /// The run can't go on: of no program that is checked.
    Stuck,
}

/// Whether the last step came to a visit.
#[derive(Clone, Copy)]
pub enum Visited {
    No,
    Yes,
    /// Where the object is in scope.
    Wrote(Object),
}

/// Where a run is, but for the table of scopes.
#[derive(Drop)]
pub struct State<'a> {
    pub path: usize,
    pub here: Spot,
    pub work: Work<'a>,
    pub values: Vec<i128>,
    pub objects: Objects,
    pub frames: Vec<Frame<'a>>,
    pub visited: Visited,
}

// On with work in hand, and the values that wait.
#[tactic(auto, unfolding(crate::specs::Shown::shown))]
pub fn go_on<'a>(state: &mut State<'a>, work: Work<'a>) -> Answer
    ensures { (s : Reading) → Told s state.old state.new result
        (on (shown s state.old) (work_in s (held s state.old.frames.items) work.entry) (shown s state.old).values) }
{
    state.work = work;
    state.visited = Visited::No;
    Answer::Next
}

// On with what a frame holds.
#[tactic(auto, unfolding(crate::specs::Shown::shown))]
pub fn resume<'a>(state: &mut State<'a>, number: usize) -> Answer
    ensures { (s : Reading) → Told s state.old state.new result
        (on (shown s state.old) (work_at (held s state.old.frames.items) number) (shown s state.old).values) }
{
    let work = take(&mut state.frames, number);
    go_on(state, work)
}

// On with what a frame holds, and a value on top.
#[tactic(auto, unfolding(crate::specs::Shown::shown))]
pub fn give(state: &mut State<'_>, value: &i128, number: usize) -> Result<Answer, AllocError>
    ensures { (s : Reading) →
        IfOk result (λ r. Told s state.old state.new r
        (on (shown s state.old) (work_at (held s state.old.frames.items) number)
        (value.now ∷ (shown s state.old).values))) }
{
    state.values.push(*value)?;
    Ok(resume(state, number))
}

// On at another place.
#[tactic(auto, unfolding(crate::specs::Shown::shown))]
pub fn come<'a>(state: &mut State<'a>, here: Spot, work: Work<'a>) -> Answer
    ensures { (s : Reading) → Told s state.old state.new result
        (comes (shown s state.old) (place_in s here) (work_in s (held s state.old.frames.items) work.entry)
        (shown s state.old).values) }
{
    state.here = here;
    state.work = work;
    state.visited = Visited::Yes;
    Answer::Next
}

// An object was written: on with what a frame holds.
#[tactic(auto, unfolding(crate::specs::Shown::shown))]
pub fn wrote(state: &mut State<'_>, object: Object, number: usize) -> Answer
    ensures { (s : Reading) → Told s state.old state.new result (steps.To (record (shown s state.old) {
      work = work_at (held s state.old.frames.items) number;
      is_visit = is_in_scope
          (object_in object) (shown s state.old).here.scope;
    })) }
{
    state.work = take(&mut state.frames, number);
    state.visited = Visited::Wrote(object);
    Answer::Next
}

// A scalar gets a number.
#[tactic(auto, unfolding(crate::specs::Shown::shown))]
pub fn write(
    state: &mut State<'_>,
    object: Object,
    value: &i128,
    number: usize,
) -> Result<Answer, AllocError>
    ensures { (s : Reading) →
        IfOk result (λ r. Told s state.old state.new r
        (writes (shown s state.old) (object_in object) (value.now ∷ [])
        (work_at (held s state.old.frames.items) number) (shown s state.old).values)) }
{
    state.objects.set_number(object, value)?;
    Ok(wrote(state, object, number))
}

ghost use Rattle.std.specs.Prelude.{[]};

// An object gets numbers.
#[tactic(auto, unfolding(crate::specs::Shown::shown))]
pub fn write_all(state: &mut State<'_>, object: Object, numbers: Vec<i128>, number: usize) -> Answer
    ensures { (s : Reading) → Told s state.old state.new result
        (writes (shown s state.old) (object_in object) numbers.items (work_at (held s state.old.frames.items) number)
        (shown s state.old).values) }
{
    state.objects.set_numbers(object, numbers);
    wrote(state, object, number)
}

// An element gets a number.
#[tactic(auto, unfolding(crate::specs::Shown::shown))]
pub fn write_element(
    state: &mut State<'_>,
    array: Array,
    place: usize,
    value: &i128,
    number: usize,
) -> Answer
    ensures { (s : Reading) → Told s state.old state.new result
        (steps.stores (shown s state.old) (array_in array) place value.now
        (work_at (held s state.old.frames.items) number) (shown s state.old).values) }
{
    state.objects.set_element(array.object, place, value);
    wrote(state, array.object, number)
}

#[tactic(auto, unfolding(crate::specs::Shown::shown))]
pub fn fail(state: &State<'_>, fault: Fault, at: Pos) -> Answer
    ensures { (s : Reading) → Told s state.now state.now result (fails (shown s state.now) fault at) }
{
    Answer::Faulted(
        fault,
        Site {
            path: state.path,
            at,
        },
    )
}

// The body of a loop, behind which its end comes.
#[tactic(auto, unfolding(crate::specs::Shown::shown))]
fn enter_loop(state: &mut State<'_>, number: usize) -> Answer
    ensures { (s : Reading) → Told s state.old state.new result
        (takes (shown s state.old) (into (ahead_at (held s state.old.frames.items) number))
        (shown s state.old).values) }
{
    match loop_at(&state.frames, number) {
        Some(end) => come(state, end.here, Work::Do(end.kind.body(), number)),
        None => Answer::Stuck,
    }
}

ghost use Rattle.pk_runner_frame.specs.Frames.{ahead_at, into, head, behind};

// To where a loop begins again.
#[tactic(auto, unfolding(crate::specs::Shown::shown))]
fn to_head(state: &mut State<'_>, number: usize) -> Answer
    ensures { (s : Reading) → Told s state.old state.new result
        (takes (shown s state.old) (head (ahead_at (held s state.old.frames.items) number))
        (shown s state.old).values) }
{
    match loop_at(&state.frames, number) {
        Some(end) => come(state, end.here, Work::Turn(number)),
        None => Answer::Stuck,
    }
}

// Behind a loop.
#[tactic(auto, unfolding(crate::specs::Shown::shown))]
pub fn leave_loop(state: &mut State<'_>, number: usize) -> Answer
    ensures { (s : Reading) → Told s state.old state.new result
        (takes (shown s state.old) (behind (ahead_at (held s state.old.frames.items) number))
        (shown s state.old).values) }
{
    match loop_at(&state.frames, number) {
        Some(end) => {
            state.frames.truncate(number);
            come(state, end.end, Work::Go(end.ahead))
        }
        None => Answer::Stuck,
    }
}

// On along a way.
#[tactic(auto, unfolding(crate::specs::Shown::shown))]
pub fn follow(state: &mut State<'_>, way: Way) -> Answer
    ensures { (s : Reading) → Told s state.old state.new result
        (takes (shown s state.old) (way_in s (held s state.old.frames.items) way) (shown s state.old).values) }
{
    match way {
        Way::Onward(here, number) => {
            let work = take(&mut state.frames, number);
            come(state, here, work)
        }
        Way::Into(number) => enter_loop(state, number),
        Way::Head(number) => to_head(state, number),
        Way::Behind(number) => leave_loop(state, number),
        Way::Refused => Answer::Assumed,
        Way::Lost => Answer::Stuck,
    }
}
