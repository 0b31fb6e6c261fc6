// Abstract states.

ghost use Rattle.std.specs.Prelude.{◌≡◌, ◌↔◌, ◌<◌, ◌%◌, true, IfOk, Some, None, length};
ghost use Rattle.std.specs.List.Sorted.{IsSorted};
ghost use Rattle.std.specs.Ordering.{int_cmp};
ghost use Rattle.pk_state.specs.Layouts.{IsLayout};
ghost use Rattle.pk_state.specs.Facts.{AreFactsIf, joined, widened, narrowed, IsBelow, top_facts as top_of};
ghost use Rattle.pk_state.specs.Changes.{AreAlikeAt};
ghost use Rattle.pk_state.specs.Marks.{IsSettledIf};
ghost use Rattle.pk_state.specs.Reduced.{reduced};

use crate::facts::{
    Facts, copy_facts, join_facts, leq_facts, narrow_facts, reduce_facts, same_facts,
    same_row_facts, top_facts, widen_facts,
};
use crate::frame::Frame;
use std::alloc::{AllocError, Global};
use std::marker::Model;

/// What is known at a point of a program: a value of each variable and an octagon for each pack, or that no run comes there. States borrow their frame, and share what they
/// have in common.
#[derive(Drop)]
pub struct State<'f> {
    pub(crate) frame: &'f Frame,
    pub(crate) facts: Option<Facts>,
    // Whether the facts are known to be their own reduction.
    pub(crate) settled: bool,
}

impl<'f> Model for State<'f> {
    ghost use Rattle.pk_state.specs.Layouts.{IsLayout};
    ghost use Rattle.pk_state.specs.Facts.{Stated, AreFactsIf};
    ghost use Rattle.pk_state.specs.Marks.{IsSettledIf};

    ghost Value = { Stated };

    ghost view = { λ s. record { layout = s.frame.now; facts = s.facts } };

    ghost invariant = { λ s. IsLayout s.frame.now × AreFactsIf s.frame.now s.facts
        × IsSettledIf s.settled s.frame.now s.facts };
}

// A state of these facts over the frame of another.
fn with_facts<'f>(state: &State<'f>, facts: Option<Facts>) -> State<'f>
    requires { AreFactsIf state.now.layout facts }
    ensures { result ≡ record { layout = state.now.layout; facts = facts } }
{
    state.frame.is_layout();
    State {
        frame: state.frame,
        facts,
        settled: false,
    }
}

fn copy_if(alloc: Global, facts: &Option<Facts>) -> Result<Option<Facts>, AllocError>
    ensures { IfOk result (λ f. f ≡ facts.now) }
{
    match facts {
        None => Ok(None),
        Some(facts) => Ok(Some(copy_facts(alloc, facts)?)),
    }
}

fn join_if(
    alloc: Global,
    a: &Option<Facts>,
    b: &Option<Facts>,
    frame: &Frame,
) -> Result<Option<Facts>, AllocError>
    requires left { AreFactsIf frame.now a.now }
    requires right { AreFactsIf frame.now b.now }
    ensures { IfOk result (λ f. f ≡ joined a.now b.now) }
{
    match a {
        None => copy_if(alloc, b),
        Some(left) => match b {
            None => Ok(Some(copy_facts(alloc, left)?)),
            Some(right) => Ok(Some(join_facts(alloc, left, right, frame)?)),
        },
    }
}

fn widen_if(
    alloc: Global,
    held: &Option<Facts>,
    next: &Option<Facts>,
    frame: &Frame,
    thresholds: &[i128],
) -> Result<Option<Facts>, AllocError>
    requires held { AreFactsIf frame.now held.now }
    requires next { AreFactsIf frame.now next.now }
    requires rising { IsSorted int_cmp thresholds.now }
    ensures { IfOk result (λ f. f ≡ widened frame.now thresholds.now held.now next.now) }
{
    match held {
        None => copy_if(alloc, next),
        Some(held) => match next {
            None => Ok(Some(copy_facts(alloc, held)?)),
            Some(next) => Ok(Some(widen_facts(alloc, held, next, frame, thresholds)?)),
        },
    }
}

fn narrow_if(
    alloc: Global,
    held: &Option<Facts>,
    next: &Option<Facts>,
    frame: &Frame,
) -> Result<Option<Facts>, AllocError>
    requires held { AreFactsIf frame.now held.now }
    requires next { AreFactsIf frame.now next.now }
    ensures { IfOk result (λ f. f ≡ narrowed frame.now held.now next.now) }
{
    match held {
        None => Ok(None),
        Some(held) => match next {
            None => Ok(Some(copy_facts(alloc, held)?)),
            Some(next) => Ok(Some(narrow_facts(alloc, held, next, frame)?)),
        },
    }
}

fn reduce_if(
    alloc: Global,
    facts: Option<Facts>,
    frame: &Frame,
) -> Result<(Option<Facts>, bool), AllocError>
    requires { AreFactsIf frame.now facts }
    ensures value { IfOk result (λ r. r.0 ≡ reduced frame.now facts) }
    ensures settled { IfOk result (λ r. IsSettledIf r.1 frame.now r.0) }
{
    match facts {
        None => Ok((None, true)),
        Some(facts) => reduce_facts(alloc, facts, frame),
    }
}

fn leq_if(a: &Option<Facts>, b: &Option<Facts>, frame: &Frame) -> bool
    requires left { AreFactsIf frame.now a.now }
    requires right { AreFactsIf frame.now b.now }
    ensures { result ≡ true ↔ IsBelow a.now b.now }
{
    let _ = frame;
    match a {
        None => true,
        Some(left) => match b {
            None => false,
            Some(right) => leq_facts(left, right),
        },
    }
}

fn same_if(a: &Option<Facts>, b: &Option<Facts>, frame: &Frame) -> bool
    requires left { AreFactsIf frame.now a.now }
    requires right { AreFactsIf frame.now b.now }
    ensures { result ≡ true ↔ a.now ≡ b.now }
{
    let _ = frame;
    match a {
        None => b.is_none(),
        Some(left) => match b {
            None => false,
            Some(right) => same_facts(left, right),
        },
    }
}

// Whether both know the same of the sixteen variables from one on.
fn same_row_if(a: &Option<Facts>, b: &Option<Facts>, x: usize, frame: &Frame) -> bool
    requires left { AreFactsIf frame.now a.now }
    requires right { AreFactsIf frame.now b.now }
    requires place { x < length frame.now.types }
    requires first { x % 16 ≡ 0 }
    ensures { result ≡ true ↔ AreAlikeAt a.now b.now x (length frame.now.types) }
{
    let _ = frame;
    match a {
        None => b.is_none(),
        Some(left) => match b {
            None => false,
            Some(right) => same_row_facts(left, right, x),
        },
    }
}

impl<'f> State<'f> {
    /// No run comes there.
    pub fn bottom(frame: &'f Frame) -> State<'f>
        ensures { result ≡ record { layout = frame.now; facts = None } }
    {
        frame.is_layout();
        State {
            frame,
            facts: None,
            settled: true,
        }
    }

    /// Each variable may have any number of its type.
    pub fn top(alloc: Global, frame: &'f Frame) -> Result<State<'f>, AllocError>
        ensures { IfOk result (λ s. s ≡ record { layout = frame.now; facts = Some (top_of frame.now) }) }
    {
        frame.is_layout();
        let facts = top_facts(alloc, frame)?;
        Ok(State {
            frame,
            facts: Some(facts),
            settled: false,
        })
    }

    /// What every state is: its layout is one, and its facts are of it.
    pub fn is_stated(&self)
        ensures layout { IsLayout self.now.layout }
        ensures facts { AreFactsIf self.now.layout self.now.facts }
    {
        let _ = &self.facts;
    }

    /// Whether no run comes there.
    pub fn is_bottom(&self) -> bool
        ensures { result ≡ true ↔ self.now.facts ≡ None }
    {
        self.facts.is_none()
    }

    /// The same state, which shares all.
    pub fn copy(&self, alloc: Global) -> Result<State<'f>, AllocError>
        ensures { IfOk result (λ s. s ≡ self.now) }
    {
        let facts = copy_if(alloc, &self.facts)?;
        Ok(State {
            frame: self.frame,
            facts,
            settled: self.settled,
        })
    }

    /// What is known where either is.
    pub fn join(&self, alloc: Global, other: &State) -> Result<State<'f>, AllocError>
        requires { other.now.layout ≡ self.now.layout }
        ensures { IfOk result
            (λ s. s ≡ record { layout = self.now.layout; facts = joined self.now.facts other.now.facts }) }
    {
        let facts = join_if(alloc, &self.facts, &other.facts, self.frame)?;
        Ok(with_facts(self, facts))
    }

    /// Whether each part is within that of `other`, so that each store of this state is one of `other`.
    pub fn leq(&self, other: &State) -> bool
        requires { other.now.layout ≡ self.now.layout }
        ensures { result ≡ true ↔ IsBelow self.now.facts other.now.facts }
    {
        leq_if(&self.facts, &other.facts, self.frame)
    }

    /// Whether both know the same.
    pub fn equals(&self, other: &State) -> bool
        requires { other.now.layout ≡ self.now.layout }
        ensures { result ≡ true ↔ self.now.facts ≡ other.now.facts }
    {
        same_if(&self.facts, &other.facts, self.frame)
    }

    /// Whether both know the same of the sixteen variables from one on, or of as many as there are.
    pub fn same_row(&self, other: &State, x: usize) -> bool
        requires layout { other.now.layout ≡ self.now.layout }
        requires place { x < length self.now.layout.types }
        requires first { x % 16 ≡ 0 }
        ensures { result ≡ true ↔ AreAlikeAt self.now.facts other.now.facts x (length self.now.layout.types) }
    {
        same_row_if(&self.facts, &other.facts, x, self.frame)
    }

    /// This state widened by `next`, with thresholds in rising order.
    pub fn widen(
        &self,
        alloc: Global,
        next: &State,
        thresholds: &[i128],
    ) -> Result<State<'f>, AllocError>
        requires layout { next.now.layout ≡ self.now.layout }
        requires rising { IsSorted int_cmp thresholds.now }
        ensures { IfOk result
            (λ s. s ≡ record {
              layout = self.now.layout;
              facts = widened self.now.layout thresholds.now self.now.facts next.now.facts;
            }) }
    {
        let facts = widen_if(alloc, &self.facts, &next.facts, self.frame, thresholds)?;
        Ok(with_facts(self, facts))
    }

    /// This state narrowed by `next`.
    pub fn narrow(&self, alloc: Global, next: &State) -> Result<State<'f>, AllocError>
        requires { next.now.layout ≡ self.now.layout }
        ensures { IfOk result (λ s.
            s ≡ record { layout = self.now.layout; facts = narrowed self.now.layout self.now.facts next.now.facts }) }
    {
        let facts = narrow_if(alloc, &self.facts, &next.facts, self.frame)?;
        Ok(with_facts(self, facts))
    }

    /// Each part as tight as the others let it be; exactly the same stores are left.
    pub fn reduce(&self, alloc: Global) -> Result<State<'f>, AllocError>
        ensures { IfOk result
            (λ s. s ≡ record { layout = self.now.layout; facts = reduced self.now.layout self.now.facts }) }
    {
        let state = self.copy(alloc)?;
        state.into_reduced(alloc)
    }

    /// The same of a state that isn't used any more.
    pub fn into_reduced(self, alloc: Global) -> Result<State<'f>, AllocError>
        ensures { IfOk result
            (λ s. s ≡ record { layout = self.entry.layout; facts = reduced self.entry.layout self.entry.facts }) }
    {
        if self.settled {
            return Ok(self);
        }
        let (facts, settled) = reduce_if(alloc, self.facts, self.frame)?;
        Ok(State {
            frame: self.frame,
            facts,
            settled,
        })
    }
}
