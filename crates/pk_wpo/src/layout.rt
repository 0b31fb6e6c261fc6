// A nest laid out: by places it is told in constant time which component holds what.

ghost use Rattle.std.specs.Prelude.{◌≡◌, ◌+◌, ◌<◌, ◌≤◌, ◌^◌, ◌↔◌, IsTrue, IfOk, length};
ghost use Rattle.pk_plan.specs.Digraphs.{IsVertex, IsClosed};
ghost use Rattle.pk_plan.specs.Nests.{Holds, IsNest};
ghost use Rattle.pk_wpo.specs.Constraints.{Has, is_head, exit_of};
ghost use Rattle.pk_wpo.specs.Layouts.{Laid, IsLaid, IsHome, IsInnermost, end_number, place_in, component_at, components_in};

use crate::listing::{Listed, exits, heads, places, walked};
use pk_plan::{Component, Digraph, Nest, lies_within};
use std::alloc::{AllocError, Global};
use std::marker::Model;

/// A digraph and its nest, with the elements in the order of its brackets, last END.
#[derive(Drop)]
pub struct Layout<'a> {
    graph: &'a Digraph,
    nest: &'a Nest,
    heads: Vec<bool>,
    exits: Vec<u32>,
    elements: Vec<u32>,
    homes: Vec<Option<u32>>,
    places: Vec<u32>,
}

impl<'a> Model for Layout<'a> {
    ghost use Rattle.pk_wpo.specs.Layouts.{Laid, laid_code};

    ghost Value = { Laid };

    ghost coded = { laid_code };

    ghost use Rattle.pk_wpo.specs.Layouts.{IsKept};

    ghost view = { λ l. record {
      graph = l.graph.now;
      items = l.nest.now;
      elements = l.elements.items;
      places = l.places.items;
    } };

    ghost invariant = { λ l. IsKept
        (record {
          graph = l.graph.now;
          items = l.nest.now;
          elements = l.elements.items;
          places = l.places.items;
        }) l.heads.items l.exits.items l.homes.items };
}

impl<'a> Layout<'a> {
    /// Lays out the nest of a digraph.
    pub fn new(alloc: Global, graph: &'a Digraph, nest: &'a Nest) -> Result<Layout<'a>, AllocError>
        requires few { length graph.now < 2 ^ 31 }
        requires closed { IsClosed graph.now }
        requires nest { IsNest graph.now (IsVertex graph.now) nest.now }
        ensures graph { IfOk result (λ l. l.graph ≡ graph.now) }
        ensures items { IfOk result (λ l. l.items ≡ nest.now) }
    {
        let vertices = graph.vertices();
        let heads = heads(alloc, nest, vertices)?;
        let exits = exits(alloc, &heads)?;
        let Listed {
            mut elements,
            mut homes,
        } = walked(alloc, nest, &exits)?;
        elements.push(exits[vertices as usize])?;
        homes.push(None)?;
        let places = places(alloc, &elements)?;
        Ok(Layout {
            graph,
            nest,
            heads,
            exits,
            elements,
            homes,
            places,
        })
    }

    /// The nest of the digraph is laid out.
    pub fn laid(&self)
        ensures { IsLaid self.now }
    {
        let _ = &self.graph;
    }

    /// The digraph.
    pub fn graph(&self) -> &'a Digraph
        ensures { result.now ≡ self.now.graph }
    {
        self.graph
    }

    /// The number of a head's exit.
    pub fn exit(&self, head: u32) -> u32
        requires { head < length self.now.graph }
        ensures { result ≡ exit_of self.now.graph self.now.items head }
    {
        self.exits[head as usize]
    }

    /// The number of END, after all exits.
    pub fn end(&self) -> u32
        ensures end { result ≡ end_number self.now }
        ensures few { result + 1 < 2 ^ 32 }
    {
        self.exits[self.heads.len()]
    }

    /// Where an element stands.
    pub fn place(&self, e: u32) -> u32
        requires { e ≤ end_number self.now }
        ensures { result ≡ place_in self.now e }
    {
        self.places[e as usize]
    }

    /// The head of the innermost component that has an element other than as its head.
    pub fn home(&self, e: u32) -> Option<u32>
        requires { e < end_number self.now }
        ensures { IsHome (Holds self.now.items) (exit_of self.now.graph self.now.items) e result }
    {
        self.homes[self.places[e as usize] as usize]
    }

    /// Whether a vertex is the head of a component.
    pub fn is_head(&self, v: u32) -> bool
        requires { v < length self.now.graph }
        ensures { result ≡ is_head self.now.items v }
    {
        self.heads[v as usize]
    }

    /// The head of the innermost component that holds a vertex.
    pub fn innermost(&self, u: u32) -> Option<u32>
        requires { u < length self.now.graph }
        ensures { IsInnermost (Holds self.now.items) u result }
    {
        self.laid();
        if self.is_head(u) {
            Some(u)
        } else {
            self.home(u)
        }
    }

    /// Whether the component with the head h has an element.
    pub fn has(&self, h: u32, e: u32) -> bool
        requires head { Holds self.now.items h h }
        requires element { e < end_number self.now }
        ensures { IsTrue result ↔ Has (Holds self.now.items) (exit_of self.now.graph self.now.items) h e }
    {
        self.laid();
        let exit = self.exit(h);
        lies_within(self.place(h), self.place(e), self.place(exit))
    }

    /// Whether h is the head of a component that holds the vertex u.
    pub fn holds(&self, h: u32, u: u32) -> bool
        requires head { h < length self.now.graph }
        requires vertex { u < length self.now.graph }
        ensures { IsTrue result ↔ Holds self.now.items h u }
    {
        self.laid();
        if self.is_head(h) {
            self.has(h, u)
        } else {
            false
        }
    }

    /// The component of a head.
    fn component(&self, head: u32) -> Component
        requires { Holds self.now.items head head }
        ensures { result ≡ component_at self.now head }
    {
        self.laid();
        let exit = self.exit(head);
        Component {
            head,
            exit,
            first: self.place(head),
            end: self.place(exit),
        }
    }

    /// The components, in the order of their heads.
    pub fn components(&self, alloc: Global) -> Result<Vec<Component>, AllocError>
        ensures { IfOk result (λ v. v.items ≡ components_in self.now) }
    {
        self.laid();
        let mut components = Vec::new(alloc);
        for head in 0..self.graph.vertices() {
            if self.is_head(head) {
                components.push(self.component(head))?;
            }
        }
        Ok(components)
    }

    /// The elements in order, and where each stands in it.
    pub fn into_lists(self) -> (Vec<u32>, Vec<u32>)
        ensures elements { result.0.items ≡ self.entry.elements }
        ensures places { result.1.items ≡ self.entry.places }
    {
        let Layout {
            graph: _,
            nest: _,
            heads: _,
            exits: _,
            elements,
            homes: _,
            places,
        } = self;
        (elements, places)
    }
}
