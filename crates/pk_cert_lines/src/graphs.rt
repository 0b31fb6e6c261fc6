// Lines over the variables of a graph.

ghost use Rattle.std.specs.Prelude.{◌≡◌, ◌++◌, ℕ, OnOk, IfOk, IfSome};
ghost use Rattle.pk_graph.specs.Graphs.{kinds_of};
ghost use Rattle.pk_graph.specs.Shown.{graph_view};
ghost use Rattle.pk_transfer.specs.Graphs.{layout_of};
ghost use Rattle.pk_cert.specs.Rows.{line_text};
ghost use Rattle.pk_cert.specs.Pieces.{AreFirst};
ghost use Rattle.pk_cert_states.specs.Lines.{line_slots, line_of};
ghost use Rattle.pk_cert_lines.specs.Told.{IsTold};

use crate::lines::write_in;
use crate::reading::read_in;
use crate::told::{Told, told_in};
use pk_cert_states::Order;
use pk_graph::Graph;
use pk_state::{Frame, State};
use std::alloc::{AllocError, Global};

/// A state, and its text if some run comes there.
pub fn told_of<'f>(
    alloc: Global,
    graph: &Graph,
    frame: &Frame,
    order: &Order,
    state: State<'f>,
) -> Result<Told<'f>, AllocError>
    requires frame { (oct : ℕ) × (frame.now ≡ layout_of (graph_view graph.now) oct) }
    requires order { order.now ≡ line_slots (kinds_of (graph_view graph.now)) }
    requires layout { state.layout ≡ frame.now }
    ensures { IfOk result (λ t. (t.state ≡ state.entry) × IsTold (kinds_of (graph_view graph.now)) frame.now t) }
{
    let _ = graph;
    told_in(alloc, frame, order, state)
}

/// Reads a line that differs in few parts from that of the state that was told last, whose place its state takes, and
/// answers how many bytes it is. Where none is answered the state may be any.
pub fn read_alike(
    alloc: Global,
    graph: &Graph,
    frame: &Frame,
    order: &Order,
    told: &mut Told,
    bytes: &[u8],
) -> Result<Option<usize>, AllocError>
    requires frame { (oct : ℕ) × (frame.now ≡ layout_of (graph_view graph.now) oct) }
    requires order { order.now ≡ line_slots (kinds_of (graph_view graph.now)) }
    requires told { IsTold (kinds_of (graph_view graph.now)) frame.now told.old }
    ensures told { OnOk result (IsTold (kinds_of (graph_view graph.now)) frame.now told.new) }
    ensures line { IfOk result (λ o. IfSome o (λ n.
        AreFirst (line_text (line_of (kinds_of (graph_view graph.now)) told.new.state.facts)) bytes.now n)) }
{
    let _ = graph;
    read_in(alloc, told, frame, order, bytes)
}

/// Writes the line of a state, which takes the place of the one that was told last if some run comes there.
pub fn write_line<'f>(
    alloc: Global,
    bytes: &mut Vec<u8>,
    graph: &Graph,
    frame: &Frame,
    order: &Order,
    told: &mut Told<'f>,
    state: &State<'f>,
) -> Result<(), AllocError>
    requires frame { (oct : ℕ) × (frame.now ≡ layout_of (graph_view graph.now) oct) }
    requires order { order.now ≡ line_slots (kinds_of (graph_view graph.now)) }
    requires told { IsTold (kinds_of (graph_view graph.now)) frame.now told.old }
    requires state { state.now.layout ≡ frame.now }
    ensures told { OnOk result (IsTold (kinds_of (graph_view graph.now)) frame.now told.new) }
    ensures bytes { OnOk result (bytes.new.items ≡ bytes.old.items
        ++ line_text (line_of (kinds_of (graph_view graph.now)) state.now.facts)) }
{
    let _ = graph;
    write_in(alloc, bytes, told, frame, order, state)
}
