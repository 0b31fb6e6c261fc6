// What a pass has of elements, and what it has seen. A call asks that its token is one of its pass.

ghost use Rattle.std.specs.Prelude.{◌≡◌};

use pk_words::Why;
use std::marker::Model;

/// The right to run an element.
#[derive(Drop)]
pub struct Hold {
    element: u32,
    run: u64,
}

impl Model for Hold {
    ghost use Rattle.pk_board.specs.Held.{HoldView};

    ghost Value = { HoldView };

    ghost view = { λ h. record { element = h.element; run = h.run } };
}

impl Hold {
    pub(crate) fn new(element: u32, run: u64) -> Hold
        ensures { result ≡ record { element = element; run = run } }
    {
        Hold { element, run }
    }

    /// The element.
    pub fn element(&self) -> u32
        ensures { result ≡ self.now.element }
    {
        self.element
    }

    /// How often the element was run.
    pub fn run(&self) -> u64
        ensures { result ≡ self.now.run }
    {
        self.run
    }
}

/// The duty to tell an element's successors that it was run.
#[derive(Drop)]
pub struct Sending {
    element: u32,
    sent: usize,
}

impl Model for Sending {
    ghost use Rattle.pk_board.specs.Held.{SendingView};

    ghost Value = { SendingView };

    ghost view = { λ s. record { element = s.element; sent = s.sent } };
}

impl Sending {
    pub(crate) fn new(element: u32, sent: usize) -> Sending
        ensures { result ≡ record { element = element; sent = sent } }
    {
        Sending { element, sent }
    }

    /// The element.
    pub fn element(&self) -> u32
        ensures { result ≡ self.now.element }
    {
        self.element
    }

    /// How many of its successors have been told.
    pub fn sent(&self) -> usize
        ensures { result ≡ self.now.sent }
    {
        self.sent
    }
}

/// The duty to arm the members of an exit's component.
#[derive(Drop)]
pub struct Resetting {
    exit: u32,
    left: usize,
}

impl Model for Resetting {
    ghost use Rattle.pk_board.specs.Held.{ResettingView};

    ghost Value = { ResettingView };

    ghost view = { λ r. record { exit = r.exit; left = r.left } };
}

impl Resetting {
    pub(crate) fn new(exit: u32, left: usize) -> Resetting
        ensures { result ≡ record { exit = exit; left = left } }
    {
        Resetting { exit, left }
    }

    /// The exit.
    pub fn exit(&self) -> u32
        ensures { result ≡ self.now.exit }
    {
        self.exit
    }

    /// How many members are still to be armed.
    pub fn left(&self) -> usize
        ensures { result ≡ self.now.left }
    {
        self.left
    }
}

/// The last element is done.
#[derive(Drop)]
pub struct Finished {}

impl Finished {
    pub(crate) fn new() -> Finished {
        Finished {}
    }
}

/// The board was stopped.
#[derive(Drop)]
pub struct Stopped {
    why: Why,
}

impl Model for Stopped {
    ghost use Rattle.pk_words.specs.declared.why.Why.{Why};

    ghost Value = { Why };

    ghost view = { λ s. s.why };
}

impl Stopped {
    pub(crate) fn new(why: Why) -> Stopped
        ensures { result ≡ why }
    {
        Stopped { why }
    }

    /// Why.
    pub fn why(&self) -> Why
        ensures { result ≡ self.now }
    {
        self.why
    }
}
