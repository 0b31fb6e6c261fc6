// What calls answer.

use crate::tokens::{Hold, Resetting, Sending};

/// A word that was found: an element's run number times 1,048,576, and 262,145 where it is done, 262,144 where it is open, 0 where it is
/// held, or else the number of elements that it waits for.
#[derive(Clone, Copy)]
pub struct Seen {
    pub word: u64,
}

/// What a successor has got that was told: all that it waits for, so that it can be run, or so many are left.
#[derive(Drop)]
pub enum Got {
    Ready(Hold),
    Waiting(u64),
}

/// A successor was told, and there are further ones, or it was the last.
#[derive(Drop)]
pub enum Arrived {
    Next { rest: Sending, got: Got },
    Sent { got: Got },
}

/// A member of a component was armed, and there are further ones; or it was the head, the last of them.
#[derive(Drop)]
pub enum Armed {
    More(Resetting),
    Head(Hold),
}
