// Closing what something is known of.

ghost use Rattle.std.specs.Prelude.{◌≡◌, ◌<◌};
ghost use Rattle.pk_octmat.specs.Shapes.{left_of};
ghost use Rattle.pk_octclose.specs.Closing.{IsSmall};
ghost use Rattle.pk_octclose.specs.Places.{closing_of, IsClosedBut};
ghost use Rattle.pk_octmarks.specs.Marks.{IsMarked};

use crate::mark::Mark;
use pk_octclose::{close, close_after, small};
use pk_octmat::{Matrix, Shape};
use pk_steps::Steps;
use std::marker::Brand;
use std::sync::ledger::{Blank, Ledger};

// Closes a small matrix that is closed but for variable k. The steps are counted over a new ledger.
fn close_counted<L: Ledger>(m: &mut Matrix, k: u32, fresh: Blank) -> Shape
    requires name { fresh.name ≡ L.name }
    requires parts { fresh.parts ≡ L.parts }
    requires some { 0 < fresh.parts }
    requires small { IsSmall m.old }
    requires variable { k < m.old.vars }
    requires closed { IsClosedBut m.old k }
    ensures value { left_of result m.new ≡ closing_of m.old }
    ensures vars { m.new.vars ≡ m.old.vars }
{
    let mut steps = Steps::<L>::none(fresh);
    close_after(m, k, &mut steps)
}

/// Closes a small matrix in place that is closed but for variable k. Nobody asks for the steps.
pub(crate) fn close_changed(m: &mut Matrix, k: u32) -> Shape
    requires small { IsSmall m.old }
    requires variable { k < m.old.vars }
    requires closed { IsClosedBut m.old k }
    ensures value { left_of result m.new ≡ closing_of m.old }
    ensures vars { m.new.vars ≡ m.old.vars }
{
    close_counted::<Brand>(m, k, Blank::new(1))
}

// Closes a matrix that is closed but for variable k.
fn close_but(m: &mut Matrix, k: u32) -> Shape
    requires variable { k < m.old.vars }
    requires closed { IsClosedBut m.old k }
    ensures value { left_of result m.new ≡ closing_of m.old }
    ensures vars { m.new.vars ≡ m.old.vars }
{
    if small(m) {
        close_changed(m, k)
    } else {
        close(m)
    }
}

/// Closes a matrix in place of which so much is known, or finds that no integers meet it: what `close` gives, without what need not be done.
pub fn close_marked(m: &mut Matrix, mark: Mark) -> Shape
    requires { IsMarked mark m.old }
    ensures value { left_of result m.new ≡ closing_of m.old }
    ensures vars { m.new.vars ≡ m.old.vars }
{
    m.is_octagon();
    match mark {
        Mark::Closed => Shape::Kept,
        Mark::ClosedBut(k) => close_but(m, k),
        Mark::Unknown => close(m),
    }
}
