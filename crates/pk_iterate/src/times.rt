// When cells were changed, and when they were made of what their elements read.

ghost use Rattle.std.specs.Prelude.{◌≡◌, ◌<◌, ◌≤◌, true, All, IfOk, length, replicate, slice_index, slice_set, if◌then◌else◌};
ghost use Rattle.pk_iterate.specs.Times.{IsUpToDate};

use std::alloc::{AllocError, Global};

/// By element, the time at which its cell was changed last, and the time at which it was made of what the element reads, 0 where
/// it wasn't. The time goes on with each change.
#[derive(Drop)]
pub struct Times {
    pub changed: Vec<u64>,
    pub made: Vec<u64>,
    pub clock: u64,
}

/// No cell was made.
pub fn first_times(alloc: Global, elements: u32) -> Result<Times, AllocError>
    ensures changed { IfOk result (λ t. t.changed.items ≡ replicate elements 0) }
    ensures made { IfOk result (λ t. t.made.items ≡ replicate elements 0) }
{
    Ok(Times {
        changed: vec![in alloc; 0; elements as usize]?,
        made: vec![in alloc; 0; elements as usize]?,
        clock: 1,
    })
}

impl Times {
    /// Whether an element's cell was made, and nothing that the element reads was changed since.
    pub fn is_up_to_date(&self, e: u32, reads: &[u32]) -> bool
        requires element { e < length self.now.made.items }
        requires reads { All (λ u. u < length self.now.changed.items) reads.now }
        ensures { result ≡ true →
            IsUpToDate self.now.changed.items (slice_index self.now.made.items e) reads.now }
    {
        let made = self.made[e as usize];
        if made == 0 {
            return false;
        }
        for u in reads {
            if self.changed[*u as usize] >= made {
                return false;
            }
        }
        true
    }

    /// An element's cell is made now, of what the element reads or otherwise, and maybe changed.
    pub fn note(&mut self, e: u32, of_reads: bool, changes: bool)
        requires made { e < length self.old.made.items }
        requires changed { e < length self.old.changed.items }
        ensures made { self.new.made.items
            ≡ slice_set self.old.made.items e (if of_reads then self.old.clock else 0) }
        ensures changed { self.new.changed.items
            ≡ (if changes then slice_set self.old.changed.items e self.old.clock else self.old.changed.items) }
        ensures clock { self.old.clock ≤ self.new.clock }
    {
        let e = e as usize;
        self.made[e] = if of_reads { self.clock } else { 0 };
        if changes {
            self.changed[e] = self.clock;
            self.clock = self.clock.saturating_add(1);
        }
    }
}
