// Frames: a number stands for work, or for what comes behind a statement, by the frames below it.

ghost use Rattle.std.specs.Prelude.{◌≡◌, ◌<◌, ◌++◌, ◌∷◌, [], ℕ, length, slice_index_or, IfOk, OnOk};
ghost use Rattle.pk_runner_frame.specs.Frames.{Reading, held, work_at, ahead_at, work_in, ahead_in};

use crate::works::{Ahead, Caller, Frame, Loop, Spot, Work, loop_of};
use std::alloc::AllocError;

// A frame on top.
fn lay<'a>(frames: &mut Vec<Frame<'a>>, frame: Frame<'a>) -> Result<usize, AllocError>
    ensures frames { OnOk result (frames.new.items ≡ frames.old.items ++ frame.entry ∷ []) }
    ensures number { IfOk result (λ n. n ≡ length frames.old.items) }
{
    let number = frames.len();
    frames.push(frame)?;
    Ok(number)
}

/// Work on top; what stands below stays.
pub fn then<'a>(frames: &mut Vec<Frame<'a>>, work: Work<'a>) -> Result<usize, AllocError>
    ensures work { (s : Reading) →
        IfOk result (λ n. work_at (held s frames.new.items) n ≡ work_in s (held s frames.old.items) work.entry) }
    ensures below { (s : Reading) (i : ℕ) → i < length frames.old.items →
        OnOk result (work_at (held s frames.new.items) i ≡ work_at (held s frames.old.items) i) }
    ensures number { IfOk result (λ n. n ≡ length frames.old.items) }
    ensures count { OnOk result (length frames.new.items ≡ length frames.old.items + 1) }
{
    lay(frames, Frame::Work(work))
}

/// What comes behind a statement on top; as work it is the way there.
pub fn before<'a>(frames: &mut Vec<Frame<'a>>, ahead: Ahead<'a>) -> Result<usize, AllocError>
    ensures ahead { (s : Reading) →
        IfOk result (λ n. ahead_at (held s frames.new.items) n ≡ ahead_in s (held s frames.old.items) ahead.entry) }
    ensures work { (s : Reading) → IfOk result
        (λ n. work_at (held s frames.new.items) n ≡ work.Go (ahead_in s (held s frames.old.items) ahead.entry)) }
    ensures number { IfOk result (λ n. n ≡ length frames.old.items) }
    ensures count { OnOk result (length frames.new.items ≡ length frames.old.items + 1) }
{
    lay(frames, Frame::Ahead(ahead))
}

ghost use Rattle.pk_meaning.specs.Work as work;
ghost use Rattle.std.specs.Prelude.{◌+◌};

/// What a number stands for is done next; frames above it are of no more use.
pub fn take<'a>(frames: &mut Vec<Frame<'a>>, number: usize) -> Work<'a>
    ensures { (s : Reading) → work_in s (held s frames.new.items) result ≡ work_at (held s frames.old.items) number }
{
    if number < frames.len() {
        let frame = frames[number];
        match frame {
            Frame::Work(work) => {
                frames.truncate(number);
                work
            }
            Frame::Ahead(_) => {
                frames.truncate(number + 1);
                Work::Go(number)
            }
        }
    } else {
        Work::Return(Caller::Nobody)
    }
}

// A frame that holds nothing: each number stands for the same as before.
fn lay_nothing(frames: &mut Vec<Frame<'_>>) -> Result<usize, AllocError>
    ensures same { (s : Reading) (i : ℕ) → OnOk result
        (slice_index_or (held s frames.new.items) i nothing ≡ slice_index_or (held s frames.old.items) i nothing) }
    ensures empty { (s : Reading) → IfOk result (λ n. slice_index_or (held s frames.new.items) n nothing ≡ nothing) }
    ensures there { IfOk result (λ n. n < length frames.new.items) }
{
    lay(frames, Frame::Work(Work::Return(Caller::Nobody)))
}

ghost use Rattle.pk_runner_frame.specs.Frames.{nothing};

/// A number that stands for the same, and that is there.
pub fn known(frames: &mut Vec<Frame<'_>>, number: usize) -> Result<usize, AllocError>
    ensures same { (s : Reading) (i : ℕ) → OnOk result
        (slice_index_or (held s frames.new.items) i nothing ≡ slice_index_or (held s frames.old.items) i nothing) }
    ensures number { (s : Reading) →
        IfOk result (λ n. slice_index_or (held s frames.new.items) n nothing
        ≡ slice_index_or (held s frames.old.items) number nothing) }
    ensures there { IfOk result (λ n. n < length frames.new.items) }
{
    if number < frames.len() {
        Ok(number)
    } else {
        lay_nothing(frames)
    }
}

/// A number of a frame below another, as it stands there.
pub fn below(frames: &mut Vec<Frame<'_>>, number: usize, limit: usize) -> Result<usize, AllocError>
    ensures same { (s : Reading) (i : ℕ) → OnOk result
        (slice_index_or (held s frames.new.items) i nothing ≡ slice_index_or (held s frames.old.items) i nothing) }
    ensures number { (s : Reading) →
        IfOk result (λ n. slice_index_or (held s frames.new.items) n nothing
        ≡ slice_index_or (held s (take limit frames.old.items)) number nothing) }
    ensures there { IfOk result (λ n. n < length frames.new.items) }
{
    if number < limit {
        if limit <= frames.len() {
            Ok(number)
        } else {
            known(frames, number)
        }
    } else {
        lay_nothing(frames)
    }
}

ghost use Rattle.std.specs.Prelude.{take};

/// The way to what comes behind a statement.
pub fn way_there(frames: &mut Vec<Frame<'_>>, ahead: usize) -> Result<usize, AllocError>
    ensures { (s : Reading) →
        IfOk result (λ n. work_at (held s frames.new.items) n ≡ work.Go (ahead_at (held s frames.old.items) ahead)) }
{
    if ahead < frames.len() {
        let frame = frames[ahead];
        match frame {
            Frame::Ahead(_) => Ok(ahead),
            Frame::Work(_) => then(frames, Work::Go(ahead)),
        }
    } else {
        then(frames, Work::Go(ahead))
    }
}

/// What stands around a statement: more that comes behind it, or what waits for the function's end.
#[derive(Clone, Copy)]
pub enum Outer {
    Ahead(usize),
    End(Caller),
}

// What a frame says of what comes behind a statement.
#[tactic(auto, unfolding(crate::specs::Frames::ahead_in))]
pub fn ahead_in_frame<'a>(frame: Frame<'a>) -> Ahead<'a>
    ensures { (s : Reading) (hs : List Held) → ahead_in s hs result ≡ ahead_of (held_in s hs frame.entry) }
{
    match frame {
        Frame::Ahead(ahead) => ahead,
        Frame::Work(_) => Ahead::End(Caller::Nobody),
    }
}

#[tactic(auto, unfolding(crate::specs::Frames::ahead_in))]
fn around(ahead: Ahead<'_>) -> Outer
    ensures { (s : Reading) (hs : List Held) → outer_in s hs result ≡ caller_of (ahead_in s hs ahead.entry) }
{
    match ahead {
        Ahead::Rest(_, _, next) => Outer::Ahead(next),
        Ahead::Join(_, next) => Outer::Ahead(next),
        Ahead::Again(_, statement, _, next) => match loop_of(statement) {
            Some(_) => Outer::Ahead(next),
            None => Outer::End(Caller::Nobody),
        },
        Ahead::Close(_, next) => Outer::Ahead(next),
        Ahead::End(caller) => Outer::End(caller),
    }
}

// What waits for the function's end, and the number of frames below it.
fn end_of(frames: &[Frame<'_>], ahead: usize) -> (usize, Caller)
    ensures { (s : Reading) →
        caller_in s (held s (take result.0 frames.now)) result.1 ≡ caller_of (ahead_at (held s frames.now) ahead) }
{
    let mut limit = frames.len();
    let mut number = ahead;
    while number < limit {
        let ahead = ahead_in_frame(frames[number]);
        limit = number;
        match around(ahead) {
            Outer::Ahead(next) => number = next,
            Outer::End(caller) => return (limit, caller),
        }
    }
    (limit, Caller::Nobody)
}

ghost use Rattle.std.specs.Prelude.{List};
ghost use Rattle.pk_runner_frame.specs.Frames.{Held, held_in, ahead_of};
ghost use Rattle.pk_runner_frame.specs.Outers.{outer_in};

/// What waits for the function's end; what comes before it is of no more use.
pub fn take_caller(frames: &mut Vec<Frame<'_>>, ahead: usize) -> Caller
    ensures { (s : Reading) →
        caller_in s (held s frames.new.items) result ≡ caller_of (ahead_at (held s frames.old.items) ahead) }
{
    let (limit, caller) = end_of(frames, ahead);
    frames.truncate(limit);
    caller
}

ghost use Rattle.pk_runner_frame.specs.Frames.{caller_in};
ghost use Rattle.pk_meaning.specs.Steps.{caller_of};

/// A loop whose end of the body is a frame; what comes behind it stands below.
#[derive(Clone, Copy)]
pub struct LoopEnd<'a> {
    pub here: Spot,
    pub kind: Loop<'a>,
    pub end: Spot,
    pub ahead: usize,
}

// A loop that ends with what comes behind a statement.
#[tactic(auto, unfolding(crate::specs::Frames::ahead_in))]
fn loop_in_ahead<'a>(ahead: Ahead<'a>) -> Option<LoopEnd<'a>>
    ensures { MatchOption result ((s : Reading) (hs : List Held) → NoLoop (ahead_in s hs ahead.entry))
        (λ x. (s : Reading) (hs : List Held) → ahead_in s hs ahead.entry ≡ end_in s hs x) }
{
    match ahead {
        Ahead::Again(here, statement, end, next) => match loop_of(statement) {
            Some(kind) => Some(LoopEnd {
                here,
                kind,
                end,
                ahead: next,
            }),
            None => None,
        },
        Ahead::Rest(_, _, _) => None,
        Ahead::Join(_, _) => None,
        Ahead::Close(_, _) => None,
        Ahead::End(_) => None,
    }
}

/// The loop whose end of the body a number stands for.
pub fn loop_at<'a>(frames: &[Frame<'a>], number: usize) -> Option<LoopEnd<'a>>
    ensures { MatchOption result ((s : Reading) → NoLoop (ahead_at (held s frames.now) number))
        (λ x. (number < length frames.now) × ((s : Reading) → ahead_at (held s frames.now) number
        ≡ end_in s (held s (take number frames.now)) x)) }
{
    if number < frames.len() {
        let ahead = ahead_in_frame(frames[number]);
        loop_in_ahead(ahead)
    } else {
        None
    }
}

ghost use Rattle.std.specs.Prelude.{MatchOption};
ghost use Rattle.pk_runner_frame.specs.Ends.{NoLoop, end_in};
