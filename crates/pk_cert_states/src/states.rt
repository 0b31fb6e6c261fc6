// The state of a line.

ghost use Rattle.std.specs.Prelude.{◌≡◌, ◌<◌, ◌^◌, ◌∷◌, [], ℕ, IfOk, MatchOption, Some, Option, length, map};
ghost use Rattle.pk_octmat.specs.Octagon.{Octagon};
ghost use Rattle.pk_graph.specs.Graphs.{kinds_of};
ghost use Rattle.pk_graph.specs.Shown.{graph_view};
ghost use Rattle.pk_octagons.specs.Values.{type_at, IsValue, known_at};
ghost use Rattle.pk_state.specs.Facts.{Facts, AreFacts, AreFactsIf};
ghost use Rattle.pk_transfer.specs.Graphs.{layout_of};
ghost use Rattle.pk_cert.specs.Rows.{kept, kept_line, row_view};
ghost use Rattle.pk_cert_states.specs.Lines.{own_pack, HasOne, line_slots, symbols_in, line_in, line_of};
ghost use Rattle.pk_cert_states.specs.Parts.{AreBoundsOf, IsBounded, HasFacts, IsRead};

use crate::bounds::octagon;
use crate::orders::Order;
use crate::values::{any_values, fill};
use pk_cert::{Row, Symbol};
use pk_graph::Graph;
use pk_octmat::Matrix;
use pk_state::{Frame, State};
use pk_value::Value;
use std::alloc::{AllocError, Global};

/// How many variables the octagon is over.
pub fn octagon_size(frame: &Frame) -> u32
    requires { HasOne frame.now }
    ensures value { result ≡ length (own_pack frame.now) }
    ensures few { result < 2 ^ 31 }
{
    frame.packs().pack(0).len() as u32
}

// A state to begin with: another one, or that of which nothing is known.
fn begun<'f>(alloc: Global, frame: &'f Frame, beside: &State<'f>) -> Result<State<'f>, AllocError>
    requires beside { beside.now.layout ≡ frame.now }
    requires one { HasOne frame.now }
    ensures { IfOk result (HasFacts frame.now) }
{
    if beside.is_bottom() {
        return State::top(alloc, frame);
    }
    beside.is_stated();
    beside.copy(alloc)
}

// The state with these values and this octagon, which shares with another one what both have.
fn with_facts<'f>(
    alloc: Global,
    frame: &'f Frame,
    values: &[Value],
    octagon: Matrix,
    beside: &State<'f>,
) -> Result<State<'f>, AllocError>
    requires beside { beside.now.layout ≡ frame.now }
    requires size { length values.now ≡ length frame.now.types }
    requires values { (x : ℕ) → x < length values.now →
        IsValue (type_at frame.now.types x) (known_at values.now x) }
    requires octagon { octagon.vars ≡ length (own_pack frame.now) }
    requires one { HasOne frame.now }
    ensures { IfOk result (λ s. s ≡ record {
      layout = frame.now;
      facts = Some (record { values = values.now; octagons = octagon ∷ [] });
    }) }
{
    let mut state = begun(alloc, frame, beside)?;
    for x in 0..values.len() {
        state = state.with_value(alloc, x, values[x])?;
    }
    state.with_bounds(alloc, 0, octagon)
}

// The state with these values and the octagon of which the symbols are the bounds, if there is one.
fn bounded<'f>(
    alloc: Global,
    frame: &'f Frame,
    values: &[Value],
    symbols: &[Symbol],
    beside: &State<'f>,
) -> Result<Option<State<'f>>, AllocError>
    requires beside { beside.now.layout ≡ frame.now }
    requires size { length values.now ≡ length frame.now.types }
    requires values { (x : ℕ) → x < length values.now →
        IsValue (type_at frame.now.types x) (known_at values.now x) }
    requires one { HasOne frame.now }
    ensures { IfOk result (λ o. MatchOption o
        ((m : Octagon) → AreBoundsOf (length (own_pack frame.now)) symbols.now m → ⊥)
        (IsBounded frame.now values.now symbols.now)) }
{
    let n = octagon_size(frame);
    let d = 2 * n as usize;
    if symbols.len() != d * d {
        return Ok(None);
    }
    match octagon(alloc, symbols, n)? {
        None => Ok(None),
        Some(octagon) => Ok(Some(with_facts(alloc, frame, values, octagon, beside)?)),
    }
}

// The state of the symbols of a line.
fn of_symbols<'f>(
    alloc: Global,
    frame: &'f Frame,
    order: &Order,
    symbols: &[Symbol],
    beside: &State<'f>,
) -> Result<Option<State<'f>>, AllocError>
    requires beside { beside.now.layout ≡ frame.now }
    requires many { length frame.now.types ≡ length order.now }
    requires one { HasOne frame.now }
    ensures { IfOk result (λ o. MatchOption o
        ((f : Facts) → AreFacts frame.now f → symbols.now ≡ map kept (symbols_in order.now f) → ⊥)
        (IsRead order.now frame.now symbols.now)) }
{
    let mut values = any_values(alloc, frame)?;
    match fill(&mut values, frame, order, symbols) {
        None => Ok(None),
        Some(rest) => {
            let found = bounded(alloc, frame, &values, rest, beside)?;
            match found {
                None => Ok(None),
                Some(state) => Ok(Some(state)),
            }
        }
    }
}

// The state of a line that tells the slots in this order.
fn in_order<'f>(
    alloc: Global,
    frame: &'f Frame,
    order: &Order,
    row: &Row,
    beside: &State<'f>,
) -> Result<Option<State<'f>>, AllocError>
    requires beside { beside.now.layout ≡ frame.now }
    requires many { length frame.now.types ≡ length order.now }
    requires one { HasOne frame.now }
    ensures { IfOk result (λ o. MatchOption o
        ((f : Option Facts) → AreFactsIf frame.now f →
        row_view row.now ≡ kept_line (line_in order.now f) → ⊥)
        (λ s. (s.layout ≡ frame.now) × (row_view row.now ≡ kept_line (line_in order.now s.facts)))) }
{
    match row {
        Row::Bottom => Ok(Some(State::bottom(frame))),
        Row::Symbols(symbols) => of_symbols(alloc, frame, order, symbols, beside),
    }
}

/// The state of which a line tells, over the frame of the graph, which shares with another one what both have; none where it tells of none: a range isn't in its type or has no number, a class isn't
/// reduced, or the bounds are no octagon's.
pub fn state_of<'f>(
    alloc: Global,
    graph: &Graph,
    frame: &'f Frame,
    order: &Order,
    row: &Row,
    beside: &State<'f>,
) -> Result<Option<State<'f>>, AllocError>
    requires beside { beside.now.layout ≡ frame.now }
    requires frame { (oct : ℕ) × (frame.now ≡ layout_of (graph_view graph.now) oct) }
    requires order { order.now ≡ line_slots (kinds_of (graph_view graph.now)) }
    ensures { let ks = kinds_of (graph_view graph.now) in IfOk result (λ o. MatchOption o
        ((f : Option Facts) → AreFactsIf frame.now f →
        row_view row.now ≡ kept_line (line_of ks f) → ⊥)
        (λ s. (s.layout ≡ frame.now) × (row_view row.now ≡ kept_line (line_of ks s.facts)))) }
{
    let _ = graph;
    in_order(alloc, frame, order, row, beside)
}
