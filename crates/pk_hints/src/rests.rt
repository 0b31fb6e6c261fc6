// How a worker rests.

ghost use Rattle.std.specs.Prelude.{◌≡◌, ◌+◌, ◌%◌, ◌≤◌, ◌↔◌, min, None, IsSome, IsTrue};

use crate::halls::Hall;
use crate::rules::Bound;
use std::hint::spin_loop;
use std::marker::Model;
use std::sync::Wait;
use std::thread;

// A worker that finds nothing looks again at once so often, then lets others run first, until it has found nothing so often.
const SPINS: u32 = 8;

const PATIENCE: u32 = 32;

// Then it sleeps between two looks, and walks over all elements at each look of so many.
const WALK: u32 = 16;

// How long a worker sleeps at first that isn't woken, in microseconds. Each further sleep is twice as long, up to 64 times.
const SHORT: u32 = 100;

/// How often a worker has found nothing, one time after another, and what it found the bell at when it was about to sleep.
#[derive(Drop)]
pub struct Rest {
    turns: u32,
    dozing: Option<u64>,
}

impl Model for Rest {
    ghost use Rattle.pk_hints.specs.Rests.{RestView};

    ghost Value = { RestView };

    ghost view = { λ r. record { turns = r.turns; dozing = r.dozing } };
}

impl Rest {
    /// A worker that begins: it is to walk over all elements.
    pub fn new() -> Rest
        ensures { result ≡ record { turns = 32; dozing = None } }
    {
        Rest {
            turns: PATIENCE,
            dozing: None,
        }
    }

    /// Whether it is to walk over all elements where it finds no hint.
    pub fn is_to_walk(&self) -> bool
        ensures { IsTrue result ↔ ((32 ≤ self.now.turns) × (self.now.turns % 16 ≡ 0)) }
    {
        self.turns >= PATIENCE && self.turns % WALK == 0
    }

    /// It has found something.
    pub fn over<B: Bound>(self, hall: &Hall<B>) -> Rest
        ensures { result ≡ record { turns = 0; dozing = None } }
    {
        if self.dozing.is_some() {
            hall.rise();
        }
        Rest {
            turns: 0,
            dozing: None,
        }
    }

    /// It has found nothing. First it looks again at once, then it lets others run first; then it says that it is about to sleep, looks
    /// once more, and sleeps until a hint is given or some time has passed.
    pub fn longer<R: Wait, B: Bound>(self, rt: &R, hall: &Hall<B>) -> Rest
        ensures turns { result.turns ≡ min (self.turns + 1) 4294967295 }
        ensures dozing { IsSome result.dozing ↔ ((self.dozing ≡ None) × (32 ≤ self.turns)) }
    {
        let turns = self.turns.saturating_add(1);
        let mut dozing = None;
        match self.dozing {
            Some(rung) => {
                hall.sleep(rt, rung, pause(self.turns));
                hall.rise();
            }
            None if self.turns < SPINS => spin_loop(),
            None if self.turns < PATIENCE => thread::yield_now(),
            None => dozing = Some(hall.doze()),
        }
        Rest { turns, dozing }
    }
}

// How long it sleeps.
fn pause(turns: u32) -> u32 {
    SHORT << (turns / 2).saturating_sub(PATIENCE / 2).min(6)
}
