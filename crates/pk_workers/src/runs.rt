// How a worker runs an element.

ghost use Rattle.std.specs.Prelude.{◌≡◌, ◌<◌, None, Some, box_value, false, IfOk, IfErr, IfSome, OnOk, map};
ghost use Rattle.std.specs.Arc.{arc_value};
ghost use Rattle.pk_words.specs.Board.{IsCause};
ghost use Rattle.pk_words.specs.Tokens.{seen_run};
ghost use Rattle.pk_words.specs.Views.{HasHold};
ghost use Rattle.pk_items.specs.Items.{EndsItem, top_of};
ghost use Rattle.pk_words.specs.Kinds.{IsPartOf};
ghost use Rattle.pk_lean_words.specs.Members.{IsLastCell};
ghost use Rattle.pk_board.specs.Calls.{AreCopies, IsRunCell};
ghost use Rattle.pk_workers.specs.Working.{HasJust, HasSame, IsRunnable, AreInputs, IsTurn};

use crate::gates::Gate;
use crate::inputs::read_all;
use crate::tokens::{arm_all, tell_all};
use pk_board::{Board, Copies, Hold, Pass};
use pk_hints::{Bound, Hall, Hints};
use pk_items::points_of;
use pk_iterate::{Decision, System, cells_are_held};
use pk_words::{Parted, Why};
use std::alloc::{AllocError, Global};
use std::sync::{Arc, Wait};
use std::thread::Threads;

/// The cell that a run gives on these inputs, and whether its component is gone through again.
fn new_cell<Y: Parted>(
    alloc: Global,
    board: &Board<Y>,
    hold: &Hold,
    inputs: &[Arc<Y::Cell>],
) -> Result<(Y::Cell, bool), AllocError>
    requires inputs { AreInputs (Y.meaning board.now.subject.system) board.now.subject.wiring.plan hold.now
        (map arc_value inputs.now) }
    ensures { IfOk result
        (λ r. IsRunCell (Y.meaning board.now.subject.system) board.now.subject.wiring.plan hold.now r.1 r.0) }
{
    let system = board.subject().system();
    board.ends();
    cells_are_held(system);
    if !board.subject().plan().is_exit(hold.element()) {
        return Ok((system.apply(alloc, hold.element(), inputs)?, false));
    }
    match system.decide(alloc, hold.element(), inputs)? {
        Decision::Stable(cell) => Ok((cell, false)),
        Decision::Again(cell) => Ok((cell, true)),
    }
}

/// Reads what a run reads, and makes its cell, with a copy for each slot of the element.
fn new_copies<R: Threads + Wait, Y: Parted, G: Gate>(
    rt: &R,
    alloc: Global,
    gate: &G,
    worker: u32,
    board: &Board<Y>,
    pass: &mut Pass<Y::Cell, Y::Part>,
    hold: &Hold,
) -> Result<(Copies<Y::Cell>, Turn<Y::Part>), AllocError>
    requires of_board { pass.old.table ≡ board.now.table }
    requires element { hold.now.element < board.now.subject.wiring.plan.elements }
    requires held { HasHold pass.old.view hold.now.element hold.now.run }
    ensures of_board { pass.new.table ≡ pass.old.table }
    ensures tokens { HasSame pass.old.view pass.new.view }
    ensures copies { IfOk result (λ r. AreCopies board.now.subject.wiring hold.now.element r.0) }
    ensures turn { IfOk result (λ r. IsTurn (Y.meaning board.now.subject.system) board.now.subject
        (Y.part_of board.now.subject.system) hold.now r.0.cell r.1) }
{
    gate.before(rt, worker, hold.element(), hold.run());
    let inputs = read_all(alloc, board, pass, hold)?;
    let (cell, again) = new_cell(alloc, board, hold, &inputs)?;
    let cell = Arc::new(alloc, cell)?;
    gate.after(rt, worker, hold.element(), hold.run());
    let copies = board.copies(alloc, hold, cell)?;
    let turn = new_turn(alloc, board, pass, hold, &copies, again)?;
    Ok((copies, turn))
}

/// How a run ends: its component is gone through again, or the element is done; or it is the last of an item of a board that lets go
/// of cells, whose part this is.
#[derive(Drop)]
pub enum Turn<P: Drop> {
    Again,
    Done,
    Last(Box<P>),
}

/// The last cell of a point of the item that a held element ends.
fn last_cell<Y: Parted>(
    board: &Board<Y>,
    pass: &mut Pass<Y::Cell, Y::Part>,
    hold: &Hold,
    copies: &Copies<Y::Cell>,
    point: u32,
) -> Result<Arc<Y::Cell>, AllocError>
    requires of_board { pass.old.table ≡ board.now.table }
    requires item { EndsItem board.now.subject.wiring.plan hold.now.element }
    requires held { HasHold pass.old.view hold.now.element hold.now.run }
    requires cell { IsRunCell
        (Y.meaning board.now.subject.system) board.now.subject.wiring.plan hold.now false copies.now.cell }
    requires point { point < board.now.subject.wiring.plan.elements }
    requires top { top_of board.now.subject.wiring.plan point ≡ hold.now.element }
    ensures of_board { pass.new.table ≡ pass.old.table }
    ensures tokens { HasSame pass.old.view pass.new.view }
    ensures last { IfOk result (λ c. IsLastCell
        (Y.meaning board.now.subject.system) board.now.subject.wiring.plan point (arc_value c)) }
{
    if point == hold.element() {
        return board.own_cell(pass, hold, copies);
    }
    board.subject().wired();
    board.peek(pass, hold, point)
}

/// The part of the item that a held element ends, whose new cell is here.
fn new_part<Y: Parted>(
    alloc: Global,
    board: &Board<Y>,
    pass: &mut Pass<Y::Cell, Y::Part>,
    hold: &Hold,
    copies: &Copies<Y::Cell>,
) -> Result<Box<Y::Part>, AllocError>
    requires of_board { pass.old.table ≡ board.now.table }
    requires item { EndsItem board.now.subject.wiring.plan hold.now.element }
    requires held { HasHold pass.old.view hold.now.element hold.now.run }
    requires cell { IsRunCell
        (Y.meaning board.now.subject.system) board.now.subject.wiring.plan hold.now false copies.now.cell }
    ensures of_board { pass.new.table ≡ pass.old.table }
    ensures tokens { HasSame pass.old.view pass.new.view }
    ensures part { IfOk result (λ q. IsPartOf (Y.meaning board.now.subject.system) board.now.subject.wiring.plan
        (Y.part_of board.now.subject.system) hold.now.element (box_value q)) }
{
    let system = board.subject().system();
    board.subject().wired();
    board.ends();
    cells_are_held(system);
    let points = points_of(alloc, board.subject().plan(), hold.element())?;
    let mut cells = Vec::with_capacity(alloc, points.len())?;
    for point in &points {
        cells.push(last_cell(board, pass, hold, copies, *point)?)?;
    }
    let part = system.part(alloc, &points, &cells)?;
    Ok(Box::new(alloc, part)?)
}

/// How a run ends, by its decision.
fn new_turn<Y: Parted>(
    alloc: Global,
    board: &Board<Y>,
    pass: &mut Pass<Y::Cell, Y::Part>,
    hold: &Hold,
    copies: &Copies<Y::Cell>,
    again: bool,
) -> Result<Turn<Y::Part>, AllocError>
    requires of_board { pass.old.table ≡ board.now.table }
    requires element { hold.now.element < board.now.subject.wiring.plan.elements }
    requires held { HasHold pass.old.view hold.now.element hold.now.run }
    requires cell { IsRunCell
        (Y.meaning board.now.subject.system) board.now.subject.wiring.plan hold.now again copies.now.cell }
    ensures of_board { pass.new.table ≡ pass.old.table }
    ensures tokens { HasSame pass.old.view pass.new.view }
    ensures turn { IfOk result (λ t. IsTurn (Y.meaning board.now.subject.system) board.now.subject
        (Y.part_of board.now.subject.system) hold.now copies.now.cell t) }
{
    if again {
        return Ok(Turn::Again);
    }
    if board.is_lean() && board.ends_item(hold.element()) {
        return Ok(Turn::Last(new_part(alloc, board, pass, hold, copies)?));
    }
    Ok(Turn::Done)
}

/// Ends a run, and spends all tokens but one Hold.
fn finish<Y: Parted, B: Bound>(
    board: &Board<Y>,
    pass: &mut Pass<Y::Cell, Y::Part>,
    hall: &Hall<B>,
    hints: &mut Hints<B>,
    hold: Hold,
    copies: Copies<Y::Cell>,
    turn: Turn<Y::Part>,
) -> Option<Hold>
    requires of_board { pass.old.table ≡ board.now.table }
    requires element { hold.element < board.now.subject.wiring.plan.elements }
    requires tokens { HasJust pass.old.view (Some hold) None None }
    requires bound { B.elements ≡ board.now.subject.wiring.plan.elements }
    requires room { hold.run < board.now.subject.wiring.limit }
    requires copies { AreCopies board.now.subject.wiring hold.element copies }
    requires turn { IsTurn (Y.meaning board.now.subject.system) board.now.subject
        (Y.part_of board.now.subject.system) hold copies.cell turn }
    ensures of_board { pass.new.table ≡ pass.old.table }
    ensures ran { hold.run < seen_run hold.element pass.new.view.notes }
    ensures tokens { HasJust pass.new.view result None None }
    ensures runnable { IfSome result (IsRunnable (Y.meaning board.now.subject.system) board.now.subject.wiring) }
{
    board.subject().wired();
    match turn {
        Turn::Again => {
            let resetting = board.again(pass, hold, copies);
            Some(arm_all(board, pass, resetting))
        }
        Turn::Done => match board.done(pass, hold, copies) {
            None => None,
            Some(sending) => tell_all(board, pass, hall, hints, sending),
        },
        Turn::Last(part) => {
            let sending = board.done_last(pass, hold, copies, part);
            tell_all(board, pass, hall, hints, sending)
        }
    }
}

/// Runs the element of a Hold, so that the pass has seen it run once more, or says why the board is to be stopped. Of the elements
/// that become ready one is kept.
pub fn run_one<R: Threads + Wait, Y: Parted, G: Gate, B: Bound>(
    rt: &R,
    alloc: Global,
    gate: &G,
    worker: u32,
    board: &Board<Y>,
    pass: &mut Pass<Y::Cell, Y::Part>,
    hall: &Hall<B>,
    hints: &mut Hints<B>,
    hold: Hold,
) -> Result<Option<Hold>, Why>
    requires of_board { pass.old.table ≡ board.now.table }
    requires bound { B.elements ≡ board.now.subject.wiring.plan.elements }
    requires tokens { HasJust pass.old.view (Some hold) None None }
    requires runnable { IsRunnable (Y.meaning board.now.subject.system) board.now.subject.wiring hold }
    ensures of_board { pass.new.table ≡ pass.old.table }
    ensures ran { OnOk result (hold.run < seen_run hold.element pass.new.view.notes) }
    ensures tokens { IfOk result (λ kept. HasJust pass.new.view kept None None) }
    ensures runnable { IfOk result
        (λ kept. IfSome kept (IsRunnable (Y.meaning board.now.subject.system) board.now.subject.wiring)) }
    ensures why { IfErr result (IsCause (Y.meaning board.now.subject.system) board.now.subject.wiring) }
{
    let limit = board.subject().limit();
    if hold.run() == limit {
        board.subject().wired();
        return Err(Why::RunLimit {
            element: hold.element(),
            run: limit + 1,
        });
    }
    match new_copies(rt, alloc, gate, worker, board, pass, &hold) {
        Ok((copies, turn)) => Ok(finish(board, pass, hall, hints, hold, copies, turn)),
        Err(_) => Err(Why::Memory),
    }
}
