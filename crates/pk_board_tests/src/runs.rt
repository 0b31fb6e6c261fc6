// Runs of elements by one pass, which offers each element that gets ready.

ghost use Rattle.std.specs.Prelude.{◌≡◌, ◌<◌, ◌≤◌, [], IfOk, OnOk, map, false, true};
ghost use Rattle.std.specs.Arc.{arc_value};
ghost use Rattle.pk_plan.specs.Digraphs.{lists_of};
ghost use Rattle.pk_words.specs.Views.{IsGiven};
ghost use Rattle.pk_board.specs.Calls.{AreCopies, IsRunCell, IsSending, IsResetting};
ghost use Rattle.pk_board_tests.specs.Summing.{summing};
ghost use Rattle.pk_board_tests.specs.Tokens.{HasTokens, HasNone, HasOnlyHold, HasOnlySending, HasOnlyResetting, HasGot, IsAbout};

use crate::summing::{Summing, Values};
use pk_board::{Armed, Arrived, Board, Copies, Got, Hold, Pass, Resetting, Sending};
use pk_iterate::{Decision, System};
use pk_plan::Plan;
use pk_workers::read_all;
use std::alloc::{AllocError, Global};
use std::process::Abort;
use std::sync::Arc;

// What a successor got, or that a component is gone through again, by its head.
#[derive(Clone, Copy, PartialEq)]
pub enum Answer {
    Ready(u32),
    Waiting(u64),
    Again(u32),
}

// The cell that a run gives, and whether its component is gone through again.
fn made(
    alloc: Global,
    system: &Summing,
    exit: bool,
    e: u32,
    inputs: &[Arc<u64>],
) -> Result<(u64, bool), AllocError>
    ensures { IfOk result
        (λ it. IsGiven (summing (lists_of system.now.rows.items)) exit it.1 e (map arc_value inputs.now) it.0) }
{
    if exit {
        match system.decide(alloc, e, inputs)? {
            Decision::Stable(cell) => Ok((cell, false)),
            Decision::Again(cell) => Ok((cell, true)),
        }
    } else {
        Ok((system.apply(alloc, e, inputs)?, false))
    }
}

// Offers the element that got ready, if one did.
fn offered<'a>(
    rt: &impl Abort,
    board: &Board<'a, Summing>,
    plan: &Plan,
    pass: &mut Pass<u64, Values>,
    got: Got,
) -> Answer
    requires of_board { pass.old.table ≡ board.now.table }
    requires plan { board.now.subject.wiring.plan ≡ plan.now }
    requires got { HasGot board.now.subject.wiring.limit pass.old.view got }
    ensures of_board { pass.new.table ≡ board.now.table }
    ensures tokens { HasTokens pass.new.view [] pass.old.view.sends [] }
{
    match got {
        Got::Ready(hold) => {
            let element = hold.element();
            assert!(rt; element < plan.elements());
            board.offer(pass, hold);
            Answer::Ready(element)
        }
        Got::Waiting(left) => Answer::Waiting(left),
    }
}

// Makes the sends that are left.
fn send_all<'a>(
    rt: &impl Abort,
    board: &Board<'a, Summing>,
    plan: &Plan,
    pass: &mut Pass<u64, Values>,
    sending: Sending,
    answers: &mut Vec<Answer>,
) -> Result<(), AllocError>
    requires of_board { pass.old.table ≡ board.now.table }
    requires plan { board.now.subject.wiring.plan ≡ plan.now }
    requires sending { IsSending board.now.subject.wiring.plan sending }
    requires sends { HasOnlySending pass.old.view sending }
    ensures of_board { OnOk result (pass.new.table ≡ board.now.table) }
    ensures none { OnOk result (HasNone pass.new.view) }
{
    match board.arrive(pass, sending) {
        Arrived::Next { rest, got } => {
            answers.push(offered(rt, board, plan, pass, got))?;
            send_all(rt, board, plan, pass, rest, answers)
        }
        Arrived::Sent { got } => {
            answers.push(offered(rt, board, plan, pass, got))?;
            Ok(())
        }
    }
}

// Ends a run, and makes its sends.
fn finish<'a>(
    rt: &impl Abort,
    alloc: Global,
    board: &Board<'a, Summing>,
    plan: &Plan,
    pass: &mut Pass<u64, Values>,
    hold: Hold,
    copies: Copies<u64>,
) -> Result<Vec<Answer>, AllocError>
    requires of_board { pass.old.table ≡ board.now.table }
    requires plan { board.now.subject.wiring.plan ≡ plan.now }
    requires element { hold.element < board.now.subject.wiring.plan.elements }
    requires held { HasOnlyHold pass.old.view hold }
    requires room { hold.run < board.now.subject.wiring.limit }
    requires whole { board.now.subject.lean ≡ false }
    requires copies { AreCopies board.now.subject.wiring hold.element copies }
    requires cell { IsRunCell
        (summing (lists_of board.now.subject.system.rows.items)) board.now.subject.wiring.plan hold false copies.cell }
    ensures of_board { OnOk result (pass.new.table ≡ board.now.table) }
    ensures none { OnOk result (HasNone pass.new.view) }
{
    let mut answers = Vec::new(alloc);
    let last = plan.successors(hold.element()).is_empty();
    match board.done(pass, hold, copies) {
        Some(sending) => {
            assert!(rt; !last);
            send_all(rt, board, plan, pass, sending, &mut answers)?;
        }
        None => assert!(rt; last),
    }
    Ok(answers)
}

// Arms the members that are left.
fn arm_all<'a>(
    board: &Board<'a, Summing>,
    pass: &mut Pass<u64, Values>,
    resetting: Resetting,
) -> Hold
    requires of_board { pass.old.table ≡ board.now.table }
    requires resetting { IsResetting board.now.subject.wiring.plan resetting }
    requires resets { HasOnlyResetting pass.old.view resetting }
    ensures of_board { pass.new.table ≡ board.now.table }
    ensures head { HasOnlyHold pass.new.view result }
    ensures within { result.run ≤ board.now.subject.wiring.limit }
{
    match board.arm(pass, resetting) {
        Armed::More(rest) => arm_all(board, pass, rest),
        Armed::Head(head) => head,
    }
}

// Ends a run of an exit whose component is gone through again.
fn go_back<'a>(
    rt: &impl Abort,
    alloc: Global,
    board: &Board<'a, Summing>,
    plan: &Plan,
    pass: &mut Pass<u64, Values>,
    hold: Hold,
    copies: Copies<u64>,
) -> Result<Vec<Answer>, AllocError>
    requires of_board { pass.old.table ≡ board.now.table }
    requires plan { board.now.subject.wiring.plan ≡ plan.now }
    requires element { hold.element < board.now.subject.wiring.plan.elements }
    requires held { HasOnlyHold pass.old.view hold }
    requires room { hold.run < board.now.subject.wiring.limit }
    requires copies { AreCopies board.now.subject.wiring hold.element copies }
    requires cell { IsRunCell
        (summing (lists_of board.now.subject.system.rows.items)) board.now.subject.wiring.plan hold true copies.cell }
    ensures of_board { OnOk result (pass.new.table ≡ board.now.table) }
    ensures none { OnOk result (HasNone pass.new.view) }
{
    let resetting = board.again(pass, hold, copies);
    let head = arm_all(board, pass, resetting);
    let element = head.element();
    assert!(rt; element < plan.elements());
    board.offer(pass, head);
    Vec::from_slice(alloc, &[Answer::Again(element)])
}

// Reads what a run reads, and makes its cell, with a copy for each slot of the element.
fn copied<'a>(
    alloc: Global,
    board: &Board<'a, Summing>,
    plan: &Plan,
    system: &Summing,
    pass: &mut Pass<u64, Values>,
    hold: &Hold,
) -> Result<(Copies<u64>, bool), AllocError>
    requires of_board { pass.old.table ≡ board.now.table }
    requires about { IsAbout board.now.subject system.now plan.now }
    requires element { hold.now.element < board.now.subject.wiring.plan.elements }
    requires held { HasOnlyHold pass.old.view hold.now }
    ensures of_board { OnOk result (pass.new.table ≡ board.now.table) }
    ensures held { OnOk result (HasOnlyHold pass.new.view hold.now) }
    ensures copies { IfOk result (λ r. AreCopies board.now.subject.wiring hold.now.element r.0) }
    ensures cell { IfOk result
        (λ r. IsRunCell (summing
        (lists_of board.now.subject.system.rows.items)) board.now.subject.wiring.plan hold.now r.1 r.0.cell) }
{
    let element = hold.element();
    let inputs = read_all(alloc, board, pass, hold)?;
    let (cell, again) = made(alloc, system, plan.is_exit(element), element, &inputs)?;
    Ok((board.copies(alloc, hold, Arc::new(alloc, cell)?)?, again))
}

// Runs the element of the pass's only Hold, and tells what came of it.
pub fn run_held<'a>(
    rt: &impl Abort,
    alloc: Global,
    board: &Board<'a, Summing>,
    plan: &Plan,
    system: &Summing,
    pass: &mut Pass<u64, Values>,
    hold: Hold,
) -> Result<Vec<Answer>, AllocError>
    requires of_board { pass.old.table ≡ board.now.table }
    requires about { IsAbout board.now.subject system.now plan.now }
    requires held { HasOnlyHold pass.old.view hold }
    ensures of_board { OnOk result (pass.new.table ≡ board.now.table) }
    ensures none { OnOk result (HasNone pass.new.view) }
{
    let element = hold.element();
    assert!(rt; element < plan.elements());
    assert!(rt; hold.run() < 1000);
    let (copies, again) = copied(alloc, board, plan, system, pass, &hold)?;
    if again {
        go_back(rt, alloc, board, plan, pass, hold, copies)
    } else {
        finish(rt, alloc, board, plan, pass, hold, copies)
    }
}

// Runs an element if it is open, and tells what came of it.
pub fn run_open<'a>(
    rt: &impl Abort,
    alloc: Global,
    board: &Board<'a, Summing>,
    plan: &Plan,
    system: &Summing,
    pass: &mut Pass<u64, Values>,
    e: u32,
) -> Result<Vec<Answer>, AllocError>
    requires of_board { pass.old.table ≡ board.now.table }
    requires about { IsAbout board.now.subject system.now plan.now }
    requires none { HasNone pass.old.view }
    requires element { e < plan.now.elements }
    ensures of_board { OnOk result (pass.new.table ≡ board.now.table) }
    ensures none { OnOk result (HasNone pass.new.view) }
{
    match board.claim(pass, e) {
        Ok(hold) => run_held(rt, alloc, board, plan, system, pass, hold),
        Err(_) => Ok(Vec::new(alloc)),
    }
}
