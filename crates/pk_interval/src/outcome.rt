// What an operator gives on intervals.

ghost use Rattle.std.specs.Prelude.{◌≡◌};
ghost use Rattle.pk_interval.specs.Operators.{within_if};

use crate::interval::Interval;

/// What an operator gives on intervals, before it is clamped to a signed type or wrapped into an unsigned one. `Empty`: no numbers of the operands have a value.
/// `TooLarge`: a product of an unsigned type may be 2^127 or more, so there is no interval of products and no one window that they lie in: after the wrap all
/// numbers of the type are possible, and no congruence of the product holds but modulo the type's size.
#[derive(Clone, Copy)]
pub enum Outcome {
    Empty,
    Within(Interval),
    TooLarge,
}

// The interval, if there is one.
pub(crate) fn within(found: Option<Interval>) -> Outcome
    ensures { result ≡ within_if found }
{
    match found {
        Some(interval) => Outcome::Within(interval),
        None => Outcome::Empty,
    }
}
