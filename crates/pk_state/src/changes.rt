// Reading and writing what a state knows.

ghost use Rattle.std.specs.Prelude.{◌≡◌, ◌<◌, ◌*◌, ◌^◌, true, IfOk, IfSome, length, None};
ghost use Rattle.pk_value.specs.Laws.{IsTight};
ghost use Rattle.pk_octagons.specs.Packs.{pack_at, is_chosen};
ghost use Rattle.pk_octagons.specs.Values.{type_at, IsValue};
ghost use Rattle.pk_octagons.specs.Changes.{AreTerms};
ghost use Rattle.pk_state.specs.Layouts.{is_spread, slot_of};
ghost use Rattle.pk_state.specs.Facts.{AreFactsIf};
ghost use Rattle.pk_state.specs.Changes.{IsApart, known_in, bound_in, entry_in, with_known, with_bounds, assigned_in, guarded_in};

use crate::facts::Facts;
use crate::frame::Frame;
use crate::marks::{is_tight, put_marked};
use crate::state::State;
use pk_ctypes::IntType;
use pk_octmat::Matrix;
use pk_value::Value;
use std::alloc::{AllocError, Global};

fn value_if(facts: &Option<Facts>, x: usize, frame: &Frame) -> Option<Value>
    requires facts { AreFactsIf frame.now facts.now }
    requires place { x < length frame.now.types }
    ensures value { result ≡ known_in facts.now x }
    ensures inside { IfSome result (IsValue (type_at frame.now.types x)) }
{
    let _ = frame;
    match facts {
        None => None,
        Some(facts) => Some(facts.values.get(x)),
    }
}

// Writes a value, of which is known whether it is tight.
fn write_if(
    alloc: Global,
    facts: Option<Facts>,
    x: usize,
    value: Value,
    tight: bool,
    frame: &Frame,
) -> Result<Option<Facts>, AllocError>
    requires facts { AreFactsIf frame.now facts }
    requires place { x < length frame.now.types }
    requires tight { tight ≡ true → IsTight value }
    ensures { IfOk result (λ f. f ≡ with_known facts x value) }
{
    let _ = frame;
    match facts {
        None => Ok(None),
        Some(facts) => {
            let mut values = facts.values;
            let mut loose = facts.loose;
            put_marked(alloc, &mut values, &mut loose, x, value, tight)?;
            Ok(Some(Facts {
                values,
                octagons: facts.octagons,
                loose,
            }))
        }
    }
}

// Another octagon in place of one, of which nothing else is known.
fn bounds_if(
    alloc: Global,
    facts: Option<Facts>,
    p: usize,
    octagon: Matrix,
    frame: &Frame,
) -> Result<Option<Facts>, AllocError>
    requires facts { AreFactsIf frame.now facts }
    requires pack { p < length frame.now.packs }
    ensures { IfOk result (λ f. f ≡ with_bounds facts p octagon) }
{
    let _ = frame;
    match facts {
        None => Ok(None),
        Some(facts) => Ok(Some(Facts {
            values: facts.values,
            octagons: facts.octagons.with_octagon(alloc, p, octagon)?,
            loose: facts.loose,
        })),
    }
}

// Whether this is what is known of a variable already.
fn is_known(facts: &Option<Facts>, x: usize, value: &Value, frame: &Frame) -> bool
    requires facts { AreFactsIf frame.now facts.now }
    requires place { x < length frame.now.types }
    ensures { result ≡ true → with_known facts.now x value.now ≡ facts.now }
{
    match value_if(facts, x, frame) {
        None => true,
        Some(old) => old.equals(value),
    }
}

// Whether facts that are settled or not stay so where a value is written: where it is tight, and no octagon is over its variable.
fn stays_settled(settled: bool, tight: bool, x: usize, frame: &Frame) -> bool
    ensures { result ≡ true → (settled ≡ true) × (tight ≡ true) × IsApart frame.now x }
{
    settled && tight && !frame.packs().is_chosen(x)
}

fn assign_if(
    alloc: Global,
    facts: Option<Facts>,
    x: usize,
    term: Option<usize>,
    c: i128,
    over: &[usize],
    frame: &Frame,
) -> Result<Option<Facts>, AllocError>
    requires { AreFactsIf frame.now facts }
    ensures { IfOk result (λ f. f ≡ assigned_in frame.now facts x term c over.now) }
{
    match facts {
        None => Ok(None),
        Some(facts) => Ok(Some(Facts {
            values: facts.values,
            octagons: facts
                .octagons
                .assigned(alloc, frame.packs(), x, term, c, over)?,
            loose: facts.loose,
        })),
    }
}

fn guard_if(
    alloc: Global,
    facts: Option<Facts>,
    a: Option<usize>,
    b: Option<usize>,
    c: i128,
    over: &[usize],
    frame: &Frame,
) -> Result<Option<Facts>, AllocError>
    requires facts { AreFactsIf frame.now facts }
    requires terms { AreTerms a b }
    ensures { IfOk result (λ f. f ≡ guarded_in frame.now facts a b c over.now) }
{
    match facts {
        None => Ok(None),
        Some(facts) => match facts.octagons.guarded(alloc, frame.packs(), a, b, c, over)? {
            None => Ok(None),
            Some(octagons) => Ok(Some(Facts {
                values: facts.values,
                octagons,
                loose: facts.loose,
            })),
        },
    }
}

// Whether a guard changes nothing.
fn is_obeyed_by(
    facts: &Option<Facts>,
    a: Option<usize>,
    b: Option<usize>,
    c: i128,
    over: &[usize],
    frame: &Frame,
) -> bool
    requires facts { AreFactsIf frame.now facts.now }
    requires terms { AreTerms a b }
    ensures { result ≡ true → guarded_in frame.now facts.now a b c over.now ≡ facts.now }
{
    match facts {
        None => true,
        Some(facts) => facts.octagons.obey(frame.packs(), a, b, c, over),
    }
}

fn bound_if(facts: &Option<Facts>, i: usize, j: usize, frame: &Frame) -> Option<i128>
    requires { AreFactsIf frame.now facts.now }
    ensures { result ≡ bound_in frame.now facts.now i j }
{
    match facts {
        None => None,
        Some(facts) => facts.octagons.least_bound(frame.packs(), i, j),
    }
}

fn entry_if(facts: &Option<Facts>, p: usize, i: u32, j: u32, frame: &Frame) -> Option<i128>
    requires facts { AreFactsIf frame.now facts.now }
    requires pack { p < length frame.now.packs }
    requires row { i < 2 * length (pack_at frame.now.packs p) }
    requires column { j < 2 * length (pack_at frame.now.packs p) }
    ensures { result ≡ entry_in facts.now p i j }
{
    let _ = frame;
    match facts {
        None => None,
        Some(facts) => facts.octagons.bound(p, i, j),
    }
}

impl<'f> State<'f> {
    /// What is known of a variable; none where no run comes there.
    pub fn value(&self, x: usize) -> Option<Value>
        requires { x < length self.now.layout.types }
        ensures value { result ≡ known_in self.now.facts x }
        ensures inside { IfSome result (IsValue (type_at self.now.layout.types x)) }
    {
        value_if(&self.facts, x, self.frame)
    }

    /// The type of a variable.
    pub fn int_type(&self, x: usize) -> IntType
        requires { x < length self.now.layout.types }
        ensures { result ≡ type_at self.now.layout.types x }
    {
        self.frame.int_type(x)
    }

    /// Whether each number of a variable has a slot.
    pub fn is_spread(&self, x: usize) -> bool
        requires { x < length self.now.layout.further }
        ensures { result ≡ is_spread self.now.layout x }
    {
        self.frame.is_spread(x)
    }

    /// The slot of a variable's number i.
    pub fn slot(&self, x: usize, i: usize) -> usize
        requires variable { x < length self.now.layout.further }
        requires there { slot_of self.now.layout x i < length self.now.layout.types }
        ensures { result ≡ slot_of self.now.layout x i }
    {
        self.frame.slot(x, i)
    }

    /// Whether an octagon is over a variable.
    pub fn is_chosen(&self, x: usize) -> bool
        ensures value { result ≡ is_chosen self.now.layout.packs x }
        ensures few { result ≡ true → x < 2 ^ 63 }
    {
        self.frame.packs().is_chosen(x)
    }

    /// The least bound on V(j) - V(i) of the octagons that are over both variables, if there is one: V(2x) is variable x, V(2x + 1) its negative.
    pub fn bound(&self, i: usize, j: usize) -> Option<i128>
        ensures { result ≡ bound_in self.now.layout self.now.facts i j }
    {
        bound_if(&self.facts, i, j, self.frame)
    }

    /// The bound of octagon p on V(j) - V(i), if there is one, by its own places: place 2k is its variable k, place 2k + 1 the negative.
    pub fn entry(&self, p: usize, i: u32, j: u32) -> Option<i128>
        requires pack { p < length self.now.layout.packs }
        requires row { i < 2 * length (pack_at self.now.layout.packs p) }
        requires column { j < 2 * length (pack_at self.now.layout.packs p) }
        ensures { result ≡ entry_in self.now.facts p i j }
    {
        entry_if(&self.facts, p, i, j, self.frame)
    }

    /// No run comes there.
    pub fn emptied(self) -> State<'f>
        ensures { result ≡ record { layout = self.entry.layout; facts = None } }
    {
        State::bottom(self.frame)
    }

    /// The same, but for what is known of a variable.
    pub fn with_value(self, alloc: Global, x: usize, value: Value) -> Result<State<'f>, AllocError>
        requires place { x < length self.layout.types }
        requires value { IsValue (type_at self.layout.types x) value }
        ensures { IfOk result
            (λ s. s ≡ record { layout = self.entry.layout; facts = with_known self.entry.facts x value }) }
    {
        if is_known(&self.facts, x, &value, self.frame) {
            return Ok(self);
        }
        let tight = is_tight(&value, self.frame.int_type(x));
        let settled = stays_settled(self.settled, tight, x, self.frame);
        let facts = write_if(alloc, self.facts, x, value, tight, self.frame)?;
        Ok(State {
            frame: self.frame,
            facts,
            settled,
        })
    }

    /// The same, but for one octagon.
    pub fn with_bounds(
        self,
        alloc: Global,
        p: usize,
        octagon: Matrix,
    ) -> Result<State<'f>, AllocError>
        requires pack { p < length self.layout.packs }
        requires vars { octagon.vars ≡ length (pack_at self.layout.packs p) }
        ensures { IfOk result
            (λ s. s ≡ record { layout = self.entry.layout; facts = with_bounds self.entry.facts p octagon }) }
    {
        octagon.is_octagon();
        let facts = bounds_if(alloc, self.facts, p, octagon, self.frame)?;
        Ok(State {
            frame: self.frame,
            facts,
            settled: false,
        })
    }

    /// Variable x gets V(term) + c, or any number where there is no term, in each octagon that is over it, and any number in one that isn't over each variable of `over`, which are
    /// those that are read: V(2y) is variable y, V(2y + 1) its negative.
    pub fn with_assignment(
        self,
        alloc: Global,
        x: usize,
        term: Option<usize>,
        c: i128,
        over: &[usize],
    ) -> Result<State<'f>, AllocError>
        ensures { IfOk result (λ s. s ≡ record {
          layout = self.entry.layout;
          facts = assigned_in self.entry.layout self.entry.facts x term c over.now;
        }) }
    {
        if !self.frame.packs().is_chosen(x) {
            return Ok(self);
        }
        let facts = assign_if(alloc, self.facts, x, term, c, over, self.frame)?;
        Ok(State {
            frame: self.frame,
            facts,
            settled: false,
        })
    }

    /// Keeps the stores with V(a) + V(b) <= c, where terms that are none are left out: in each octagon that is over each variable of `over`, which are those that are read.
    pub fn with_guard(
        self,
        alloc: Global,
        a: Option<usize>,
        b: Option<usize>,
        c: i128,
        over: &[usize],
    ) -> Result<State<'f>, AllocError>
        requires { AreTerms a b }
        ensures { IfOk result (λ s. s ≡ record {
          layout = self.entry.layout;
          facts = guarded_in self.entry.layout self.entry.facts a b c over.now;
        }) }
    {
        if is_obeyed_by(&self.facts, a, b, c, over, self.frame) {
            return Ok(self);
        }
        let facts = guard_if(alloc, self.facts, a, b, c, over, self.frame)?;
        Ok(State {
            frame: self.frame,
            facts,
            settled: false,
        })
    }
}
