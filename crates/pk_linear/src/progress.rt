// What is known while the elements of a plan are placed.

use crate::waits::{Reading, last_places, next_wait};
use pk_plan::{Place, Plan, Role};
use std::alloc::{AllocError, Global};
use std::collections::BTreeSet;
use std::mem;

// An open component: how many places come before its head, and what is ready around it.
#[derive(Drop)]
pub struct Opened {
    pub head: usize,
    pub ready: BTreeSet<u32>,
}

// The last place of each element's item, whether the element is placed, how far its item's constraints were read, and which items
// wait for it; what is ready at the innermost level; the open components, the innermost last; and the places so far.
#[derive(Drop)]
pub struct Progress {
    pub lasts: Vec<u32>,
    pub placed: Vec<bool>,
    pub readings: Vec<Reading>,
    pub waiting: Vec<Vec<u32>>,
    pub ready: BTreeSet<u32>,
    pub opened: Vec<Opened>,
    pub places: Vec<Place>,
}

impl Progress {
    ghost use Rattle.std.specs.Prelude.{◌≡◌, ◌+◌, ◌<◌, ◌≤◌, [], ◌∷◌, OnOk, IfOk, All, length};
    ghost use Rattle.pk_linear.specs.Waits.{AreLasts, IsReadTo};
    ghost use Rattle.pk_linear.specs.Progress.{IsKnown, IsLookedAt, Turns, reading_of};

    // Nothing is placed, and no element was looked at.
    pub fn start(alloc: Global, plan: &Plan) -> Result<Progress, AllocError>
        ensures known { IfOk result (λ s. IsKnown plan.now s s.ready.keys (λ e. e < plan.now.elements)) }
        ensures places { IfOk result (λ s. s.places.items ≡ []) }
    {
        plan.axioms();
        let elements = plan.elements();
        let mut readings = Vec::new(alloc);
        let mut waiting = Vec::new(alloc);
        for element in 0..elements {
            readings.push(Reading {
                place: plan.place(element),
                read: 0,
            })?;
            waiting.push(Vec::new(alloc))?;
        }
        Ok(Progress {
            lasts: last_places(alloc, plan)?,
            placed: vec![in alloc; false; elements as usize]?,
            readings,
            waiting,
            ready: BTreeSet::new(alloc),
            opened: Vec::new(alloc),
            places: Vec::new(alloc),
        })
    }

    // Lets an item wait for an element that holds it up, or counts it among the ready ones.
    pub fn look_at(&mut self, plan: &Plan, item: u32) -> Result<(), AllocError>
        requires lasts { AreLasts plan.now self.old.lasts.items }
        requires marks { length self.old.placed.items ≡ plan.now.elements }
        requires readings { length self.old.readings.items ≡ plan.now.elements }
        requires waiting { length self.old.waiting.items ≡ plan.now.elements }
        requires item { item < plan.now.elements }
        requires read { IsReadTo plan.now self.old.placed.items item (reading_of self.old item) }
        ensures { OnOk result (IsLookedAt plan.now self.old self.new item) }
    {
        plan.axioms();
        let reading = self.readings[item as usize];
        let (reading, wait) = next_wait(plan, &self.lasts, &self.placed, item, reading);
        self.readings[item as usize] = reading;
        match wait {
            Some(element) => self.waiting[element as usize].push(item)?,
            None => {
                self.ready.insert(item)?;
            }
        }
        Ok(())
    }

    // Opens a component at its head, and closes the innermost at its exit.
    fn turn(&mut self, alloc: Global, plan: &Plan, element: u32) -> Result<Role, AllocError>
        requires element { element < plan.now.elements }
        requires lasts { length self.old.lasts.items ≡ plan.now.elements }
        requires exit { plan.now.points ≤ element → element + 1 < plan.now.elements → 0 < length self.old.opened.items }
        requires heads { All (λ o. o.head ≤ length self.old.places.items) self.old.opened.items }
        ensures { IfOk result (Turns plan.now self.old self.new element) }
    {
        if element < plan.points() {
            if self.lasts[element as usize] == plan.place(element) {
                return Ok(Role::Vertex);
            }
            let ready = mem::replace(&mut self.ready, BTreeSet::new(alloc));
            self.opened.push(Opened {
                head: self.places.len(),
                ready,
            })?;
            return Ok(Role::Head);
        }
        if element == plan.elements() - 1 {
            return Ok(Role::Vertex);
        }
        let Some(opened) = self.opened.pop() else {
            unreachable!()
        };
        let Opened { head, ready } = opened;
        self.ready = ready;
        Ok(Role::Exit {
            back: self.places.len() - head,
        })
    }

    // Places an element, the least of those that are ready.
    pub fn place(&mut self, alloc: Global, plan: &Plan, element: u32) -> Result<(), AllocError>
        requires known { IsKnown plan.now self.old (element ∷ self.old.ready.keys) (λ e. ⊥) }
        requires least { All (λ e. element < e) self.old.ready.keys }
        ensures known { OnOk result (IsKnown plan.now self.new self.new.ready.keys (λ e. ⊥)) }
        ensures places { OnOk result (length self.new.places.items ≡ length self.old.places.items + 1) }
    {
        plan.axioms();
        let role = self.turn(alloc, plan, element)?;
        self.places.push(Place { element, role })?;
        self.placed[element as usize] = true;
        let items = mem::replace(&mut self.waiting[element as usize], Vec::new(alloc));
        for item in &items {
            self.look_at(plan, *item)?;
        }
        Ok(())
    }
}
