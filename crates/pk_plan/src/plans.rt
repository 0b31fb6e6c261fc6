// A plan: elements, the constraints among them, and their components.

ghost use Rattle.std.specs.Prelude.{◌≡◌, ◌<◌, ◌≤◌, ◌^◌, ◌↔◌, ◌&&◌, nat_le, nat_lt, IsTrue, Contains};
ghost use Rattle.pk_plan.specs.Plans.{plan_of, predecessors_of, successors_of, place_of, members_of, Inside, is_inside, full_count, inner_count};
ghost use Rattle.pk_plan.specs.Axioms.{Axioms};
ghost use Rattle.pk_plan.specs.Shape.{component_of, exits};

use crate::components::Component;
use crate::digraphs::Digraph;
use std::marker::Model;

/// What has to be run before what, and which elements form components that are repeated.
#[derive(Drop)]
pub struct Plan {
    points: u32,
    elements: u32,
    predecessors: Digraph,
    successors: Digraph,
    listing: Vec<u32>,
    places: Vec<u32>,
    components: Vec<Component>,
}

impl Model for Plan {
    ghost use Rattle.pk_plan.specs.Plans.{PlanView, plan_of};
    ghost use Rattle.pk_plan.specs.Axioms.{Axioms};

    ghost Value = { PlanView };

    ghost view = { λ p.
        plan_of p.points p.elements p.predecessors p.successors p.listing.items p.places.items p.components.items };

    ghost invariant = { λ p. Axioms
        (plan_of p.points p.elements p.predecessors p.successors p.listing.items p.places.items p.components.items) };
}

impl Plan {
    /// The plan of these points, with the constraints in both directions, each from an element to those that it leads to. The
    /// elements are the points, then an exit for each component, last END. The listing has each element once, so that constraints
    /// lead forward and each component is a stretch; `places` says where each element stands in it.
    pub fn new(
        points: u32,
        elements: u32,
        predecessors: Digraph,
        successors: Digraph,
        listing: Vec<u32>,
        places: Vec<u32>,
        components: Vec<Component>,
    ) -> Plan
        requires { Axioms
            (plan_of points elements predecessors successors listing.items places.items components.items) }
        ensures { result ≡ plan_of points elements predecessors successors listing.items places.items components.items }
    {
        Plan {
            points,
            elements,
            predecessors,
            successors,
            listing,
            places,
            components,
        }
    }

    /// Every plan meets the axioms.
    pub fn axioms(&self)
        ensures axioms { Axioms self.now }
        ensures few { self.now.elements < 2 ^ 32 }
    {
        let _elements = self.elements;
    }

    /// How many points there are: the elements below this number.
    pub fn points(&self) -> u32
        ensures { result ≡ self.now.points }
    {
        self.points
    }

    /// How many elements there are. The last of them is END.
    pub fn elements(&self) -> u32
        ensures { result ≡ self.now.elements }
    {
        self.elements
    }

    /// The elements that constrain an element, in rising order.
    pub fn predecessors(&self, e: u32) -> &[u32]
        requires { e < self.now.elements }
        ensures { result.now ≡ predecessors_of self.now e }
    {
        self.predecessors.successors(e)
    }

    /// The elements that an element constrains, in rising order.
    pub fn successors(&self, e: u32) -> &[u32]
        requires { e < self.now.elements }
        ensures { result.now ≡ successors_of self.now e }
    {
        self.successors.successors(e)
    }

    /// Each element once: constraints lead forward, and each component is a stretch from its head up to its exit.
    pub fn listing(&self) -> &[u32]
        ensures { result.now ≡ self.now.listing }
    {
        &self.listing
    }

    /// Where an element stands in the listing.
    pub fn place(&self, e: u32) -> u32
        requires { e < self.now.elements }
        ensures { result ≡ place_of self.now e }
    {
        self.places[e as usize]
    }

    /// The components, in the order of their heads.
    pub fn components(&self) -> &[Component]
        ensures { result.now ≡ self.now.components }
    {
        &self.components
    }

    /// Whether an element is the exit of a component.
    pub fn is_exit(&self, x: u32) -> bool
        ensures { result ≡ exits self.now x }
    {
        self.axioms();
        self.points <= x && x < self.elements - 1
    }

    /// The component of an exit.
    pub fn component_of(&self, x: u32) -> &Component
        requires { IsTrue (exits self.now x) }
        ensures component { result.now ≡ component_of self.now x }
        ensures of { Contains self.now.components result.now }
        ensures exit { result.now.exit ≡ x }
    {
        self.axioms();
        &self.components()[(x - self.points()) as usize]
    }

    /// The members of a component, its head first.
    pub fn members(&self, component: &Component) -> &[u32]
        requires { Contains self.now.components component.now }
        ensures { result.now ≡ members_of self.now component.now }
    {
        &self.listing[component.first as usize..component.end as usize]
    }

    /// How many elements constrain an element.
    pub fn full(&self, e: u32) -> u32
        requires { e < self.now.elements }
        ensures { result ≡ full_count self.now e }
    {
        self.axioms();
        self.predecessors(e).len() as u32
    }

    /// How many members of a component constrain an element.
    pub fn inner(&self, component: &Component, e: u32) -> u32
        requires { e < self.now.elements }
        ensures { result ≡ inner_count self.now component.now e }
    {
        self.axioms();
        let mut count = 0;
        for a in self.predecessors(e) {
            if self.holds(component, *a) {
                count += 1;
            }
        }
        count
    }

    /// Whether a component holds an element.
    pub fn holds(&self, component: &Component, e: u32) -> bool
        requires { e < self.now.elements }
        ensures place { result ≡ is_inside self.now component.now e }
        ensures holds { Contains self.now.components component.now → (IsTrue result ↔ Inside self.now component.now e) }
    {
        self.axioms();
        lies_within(component.first, self.place(e), component.end)
    }
}

/// Whether a place lies in the stretch from `first` on up to `end`.
pub fn lies_within(first: u32, place: u32, end: u32) -> bool
    ensures test { result ≡ (nat_le first place && nat_lt place end) }
    ensures within { IsTrue result ↔ ((first ≤ place) × (place < end)) }
{
    first <= place && place < end
}
