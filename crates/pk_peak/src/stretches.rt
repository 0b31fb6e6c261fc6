// How many stretches cover a place.

ghost use Rattle.std.specs.Prelude.{◌≡◌, ◌^◌, ◌<◌, ◌≤◌, All, IfOk, length};
ghost use Rattle.pk_peak.specs.Stretches.{AreEnds, most_covering_of};

use std::alloc::{AllocError, Global};

/// From one place to another, both included.
#[derive(Clone, Copy)]
pub struct Stretch {
    pub from: usize,
    pub to: usize,
}

/// How many stretches begin at each place, and how many end there.
#[derive(Drop)]
struct Ends {
    first: Vec<u32>,
    last: Vec<u32>,
}

// Counts the ends of the stretches.
fn count_ends(alloc: Global, stretches: &[Stretch], places: usize) -> Result<Ends, AllocError>
    requires few { length stretches.now < 2 ^ 32 }
    requires rising { All (λ s. s.from ≤ s.to) stretches.now }
    requires within { All (λ s. s.to < places) stretches.now }
    ensures { IfOk result (λ ends. AreEnds stretches.now places ends.first.items ends.last.items) }
{
    let mut first = vec![in alloc; 0; places]?;
    let mut last = vec![in alloc; 0; places]?;
    for stretch in stretches {
        first[stretch.from] += 1;
        last[stretch.to] += 1;
    }
    Ok(Ends { first, last })
}

/// The most stretches that cover one of so many places, in linear time.
pub fn most_covering(alloc: Global, stretches: &[Stretch], places: usize) -> Result<u32, AllocError>
    requires few { length stretches.now < 2 ^ 32 }
    requires rising { All (λ s. s.from ≤ s.to) stretches.now }
    requires within { All (λ s. s.to < places) stretches.now }
    ensures { IfOk result (λ most. most ≡ most_covering_of stretches.now places) }
{
    let ends = count_ends(alloc, stretches, places)?;
    let mut covering = 0;
    let mut most: u32 = 0;
    for place in 0..places {
        covering += ends.first[place];
        most = most.max(covering);
        covering -= ends.last[place];
    }
    Ok(most)
}
