// The phases of a component: what its head's next run does, and what its exit decides.

ghost use Rattle.std.specs.Prelude.{◌≡◌, ℕ, Bool, false};
ghost use Rattle.pk_phases.specs.Table.{first_phase_of, narrowed_or_stable, decision_of};

use pk_iterate::Decision;

/// In Delay the head joins, for the time that the number tells, counted from 0; in Up and Last it widens; in Down it narrows, for the time that the number tells.
#[derive(Clone, Copy)]
pub enum Phase {
    Delay(u32),
    Up,
    Down(u32),
    Last,
}

/// The phase in which each entry of a component begins: so often as `delay` the head joins before it widens.
pub fn first_phase(delay: u32) -> Phase
    ensures { result ≡ first_phase_of delay }
{
    if delay > 0 {
        Phase::Delay(0)
    } else {
        Phase::Up
    }
}

/// Where the new value is below the head's: the first narrowing, where there is to be one.
fn narrow_or_end(delay: u32, narrow: u32, settled: bool) -> Decision<Phase>
    ensures { result ≡ narrowed_or_stable delay narrow settled }
{
    if narrow == 0 || settled {
        Decision::Stable(first_phase(delay))
    } else {
        Decision::Again(Phase::Down(1))
    }
}

/// What an exit decides: `below` says that the new value is below the head's, `settled` that narrowing would not change the head's.
/// So often as `delay` the head joins before it widens, and so often as `narrow` it is narrowed.
pub fn decision(
    delay: u32,
    narrow: u32,
    phase: Phase,
    below: bool,
    settled: bool,
) -> Decision<Phase>
    ensures { result ≡ decision_of delay narrow phase below settled }
{
    match phase {
        Phase::Delay(_) | Phase::Up if below => narrow_or_end(delay, narrow, settled),
        Phase::Delay(j) if j < delay && j + 1 < delay => Decision::Again(Phase::Delay(j + 1)),
        Phase::Delay(_) | Phase::Up => Decision::Again(Phase::Up),
        Phase::Down(_) if !below => Decision::Again(Phase::Last),
        Phase::Down(k) if k >= narrow || settled => Decision::Stable(first_phase(delay)),
        Phase::Down(k) => Decision::Again(Phase::Down(k + 1)),
        Phase::Last if !below => Decision::Again(Phase::Last),
        Phase::Last => Decision::Stable(first_phase(delay)),
    }
}

/// Whether the decision depends on what narrowing does.
pub(crate) fn asks(narrow: u32, phase: Phase, below: bool) -> bool
    ensures { result ≡ false → (delay : ℕ) (settled : Bool) →
        decision_of delay narrow phase below settled ≡ decision_of delay narrow phase below false }
{
    match phase {
        Phase::Delay(_) | Phase::Up => below && narrow > 0,
        Phase::Down(k) => below && k < narrow,
        Phase::Last => false,
    }
}
