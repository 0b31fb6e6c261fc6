// Linear forms: a constant and at most two signed variables of octagons.

ghost use Rattle.std.specs.Prelude.{◌≡◌, ◌∷◌, [], map, pos, negsuc, Some, None, option_map, if◌then◌else◌, ◌*◌, ◌^◌, ◌≤ℤ◌, ◌+ℤ◌, ◌-ℤ◌};
ghost use Rattle.pk_octmat.specs.Octagon.{bar as opposite};
ghost use Rattle.pk_octagons.specs.Packs.{is_chosen};
ghost use Rattle.pk_transfer.specs.Linear.{is_near as is_near_zero, if_two, if_near, if_few, with_place as more, with_places as sum_of_places, negative as negative_of, sum as sum_of, difference as difference_of};
ghost use Rattle.pk_transfer.specs.Places.{places_of};

use pk_state::State;
use std::marker::Model;

/// At most two places: place 2x is variable x, place 2x + 1 the negative.
#[derive(Clone, Copy)]
pub(crate) enum Places {
    Zero,
    One(usize),
    Two(usize, usize),
}

/// A constant and the sum of places. The constant is within 2^126 of 0.
#[derive(Clone, Copy)]
pub(crate) struct Form {
    pub(crate) constant: i128,
    pub(crate) places: Places,
}

impl Model for Form {
    ghost use Rattle.std.specs.Prelude.{◌≡◌, true};
    ghost use Rattle.std.proofs.Common.{ap};
    ghost use Rattle.pk_transfer.specs.Linear.{Linear, is_near};
    ghost use Rattle.pk_transfer.specs.Places.{places_of, places_back, back_of};

    ghost Value = { Linear };

    ghost view = { λ l. record { constant = l.constant; places = places_of l.places } };

    ghost invariant = { λ l. is_near l.constant ≡ true };

    ghost inverse = { λ l. record { constant = l.constant; places = places_back l.places } };

    ghost inverse_ok = { λ l h. ap (λ p. record l { places = p }) (back_of l.places) };
}

// The place of the negative.
fn bar(p: usize) -> usize
    ensures { result ≡ opposite p }
{
    if p % 2 == 0 { p + 1 } else { p - 1 }
}

fn with_place(p: usize, places: Places) -> Option<Places>
    ensures { option_map places_of result ≡ if_two (more p (places_of places)) }
{
    match places {
        Places::Zero => Some(Places::One(p)),
        Places::One(a) => {
            if a == bar(p) {
                Some(Places::Zero)
            } else {
                Some(Places::Two(a, p))
            }
        }
        Places::Two(a, b) => {
            if a == bar(p) {
                Some(Places::One(b))
            } else if b == bar(p) {
                Some(Places::One(a))
            } else {
                None
            }
        }
    }
}

// One more than three.
fn with_fourth(p: usize, a: usize, b: usize, d: usize) -> Option<Places>
    ensures { option_map places_of result ≡ if_two (more p (a ∷ (b ∷ (d ∷ [])))) }
{
    if a == bar(p) {
        Some(Places::Two(b, d))
    } else if b == bar(p) {
        Some(Places::Two(a, d))
    } else if d == bar(p) {
        Some(Places::Two(a, b))
    } else {
        None
    }
}

fn with_two(p: usize, q: usize, places: Places) -> Option<Places>
    ensures { option_map places_of result ≡ if_two (more p (more q (places_of places))) }
{
    match places {
        Places::Zero => with_place(p, Places::One(q)),
        Places::One(a) => {
            if a == bar(q) {
                Some(Places::One(p))
            } else {
                with_place(p, Places::Two(a, q))
            }
        }
        Places::Two(a, b) => {
            if a == bar(q) {
                with_place(p, Places::One(b))
            } else if b == bar(q) {
                with_place(p, Places::One(a))
            } else {
                with_fourth(p, a, b, q)
            }
        }
    }
}

/// The places of both, without opposite ones; none where there are more than two.
pub(crate) fn with_places(left: Places, right: Places) -> Option<Places>
    ensures { option_map places_of result ≡ if_two (sum_of_places (places_of left) (places_of right)) }
{
    match left {
        Places::Zero => some(right),
        Places::One(p) => with_place(p, right),
        Places::Two(p, q) => with_two(p, q, right),
    }
}

fn some(places: Places) -> Option<Places>
    ensures { option_map places_of result ≡ if_two (places_of places) }
{
    match places {
        Places::Zero => Some(Places::Zero),
        Places::One(a) => Some(Places::One(a)),
        Places::Two(a, b) => Some(Places::Two(a, b)),
    }
}

/// The negatives of places.
pub(crate) fn opposites(places: Places) -> Places
    ensures { places_of result ≡ map opposite (places_of places) }
{
    match places {
        Places::Zero => Places::Zero,
        Places::One(a) => Places::One(bar(a)),
        Places::Two(a, b) => Places::Two(bar(a), bar(b)),
    }
}

const NEAR: i128 = 1 << 126;

fn is_near(c: i128) -> bool
    ensures { result ≡ is_near_zero c }
{
    -NEAR < c && c < NEAR
}

fn near(constant: i128, places: Places) -> Option<Form>
    ensures { result ≡ if_near constant (places_of places) }
{
    if is_near(constant) {
        Some(Form { constant, places })
    } else {
        None
    }
}

fn constants(a: Form, b: Form) -> i128
    ensures { result ≡ a.constant +ℤ b.constant }
{
    a.constant + b.constant
}

impl Form {
    pub(crate) fn negative(self) -> Form
        ensures { result ≡ negative_of self }
    {
        Form {
            constant: -self.constant,
            places: opposites(self.places),
        }
    }

    /// The places of the difference, where there are at most two.
    pub(crate) fn places_over(self, other: Form) -> Option<Places>
        ensures { option_map places_of result ≡ if_two (difference_of self other).places }
    {
        with_places(self.places, opposites(other.places))
    }

    fn less(self, number: i128) -> i128
        requires from { pos 0 ≤ℤ number }
        requires to { number ≤ℤ pos 1 }
        ensures value { result ≡ self.constant -ℤ number }
        ensures from { negsuc (2 ^ 126) ≤ℤ result }
        ensures to { result ≤ℤ pos (2 ^ 126) }
    {
        self.constant - number
    }

    fn below(self, number: i128) -> i128
        requires from { negsuc (2 ^ 126) ≤ℤ number }
        requires to { number ≤ℤ pos (2 ^ 126) }
        ensures { result ≡ number -ℤ self.constant }
    {
        number - self.constant
    }

    /// What the difference of the places is at most where this form is at most the other less a number.
    pub(crate) fn room_below(self, other: Form, number: i128) -> i128
        requires from { pos 0 ≤ℤ number }
        requires to { number ≤ℤ pos 1 }
        ensures { result ≡ (other.constant -ℤ number) -ℤ self.constant }
    {
        let most = other.less(number);
        self.below(most)
    }

    /// The sum, where it is a form.
    pub(crate) fn plus(self, other: Form) -> Option<Form>
        ensures { result ≡ if_few (sum_of self other) }
    {
        match with_places(self.places, other.places) {
            None => None,
            Some(places) => near(constants(self, other), places),
        }
    }

    /// The difference, where it is a form.
    pub(crate) fn minus(self, other: Form) -> Option<Form>
        ensures { result ≡ if_few (difference_of self other) }
    {
        self.plus(other.negative())
    }
}

/// A variable's form, if an octagon is over it.
pub(crate) fn of_variable(x: usize, state: &State) -> Option<Form>
    ensures { result
        ≡ if is_chosen state.now.layout.packs x then Some (record { constant = pos 0; places = 2 * x ∷ [] }) else None }
{
    if state.is_chosen(x) {
        Some(Form {
            constant: 0,
            places: Places::One(2 * x),
        })
    } else {
        None
    }
}
