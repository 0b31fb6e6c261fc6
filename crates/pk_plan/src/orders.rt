// An order: how many elements there are, and the order in which they are run.

ghost use Rattle.std.specs.Prelude.{◌≡◌, ◌<◌, All};
ghost use Rattle.pk_plan.specs.Order.{places_of, level_of, IsBracketed};

use crate::places::Place;
use std::marker::Model;

/// An order of elements, by its places.
#[derive(Drop)]
pub struct Order {
    elements: u32,
    places: Vec<Place>,
}

impl Model for Order {
    ghost use Rattle.pk_plan.specs.OrderView.{OrderView, order_code};

    ghost Value = { OrderView };

    ghost coded = { order_code };

    ghost use Rattle.std.specs.Prelude.{◌<◌, All};
    ghost use Rattle.pk_plan.specs.Order.{level_of, IsBracketed};

    ghost view = { λ o. record { elements = o.elements; order = level_of o.places.items } };

    ghost invariant = { λ o. IsBracketed o.places.items × All (λ q. q.element < o.elements) o.places.items };
}

impl Order {
    /// The order of so many elements that these places spell.
    pub fn new(elements: u32, places: Vec<Place>) -> Order
        requires bracketed { IsBracketed places.items }
        requires within { All (λ q. q.element < elements) places.items }
        ensures elements { result.elements ≡ elements }
        ensures order { result.order ≡ level_of places.items }
    {
        Order { elements, places }
    }

    /// How many elements there are.
    pub fn elements(&self) -> u32
        ensures { result ≡ self.now.elements }
    {
        self.elements
    }

    /// The places of the order.
    pub fn places(&self) -> &[Place]
        ensures places { result.now ≡ places_of self.now.order }
        ensures within { All (λ q. q.element < self.now.elements) result.now }
    {
        self.places.as_slice()
    }
}
