// Graphs: call paths, variables, points and edges.

ghost use Rattle.std.specs.Prelude.{◌≡◌, ◌<◌, length, map, IfOk};
ghost use Rattle.pk_graph.specs.Graphs.{graph_of, path_view, variable_view, edge_view, point_at, scope_at};
ghost use Rattle.pk_graph.specs.WellMade.{IsGraph};
ghost use Rattle.pk_graph.specs.Propositions.{IsGraph-prop};

use crate::instructions::Instr;
use crate::trees::Site;
use pk_ctypes::{IntType, Name, Pos};
use std::alloc::{AllocError, Global};

/// A call path: the entry, or a call of a function on a call path.
#[derive(Drop)]
pub struct Path {
    /// Its function's name.
    pub name: Name,
    /// The call, by the caller's path and the place of the name there; none of the entry.
    pub call: Option<Site>,
}

/// What a variable holds when a run begins.
#[derive(Drop)]
pub enum Start {
    /// Any numbers of its type.
    Any,
    /// Its first numbers, no more than it has; the others are 0.
    Numbers(Vec<i128>),
}

/// A scalar or an array.
#[derive(Drop)]
pub struct Variable {
    /// The declared name. A result, a temporary or a parameter without a name has none.
    pub name: Option<Name>,
    pub int_type: IntType,
    /// The number of elements of an array, none of a scalar.
    pub length: Option<usize>,
    /// The call path that it belongs to, none for an object of the file.
    pub path: Option<usize>,
    pub start: Start,
}

/// A variable whose name comes into scope, or is hidden from here on.
#[derive(Clone, Copy)]
pub struct Entry {
    pub variable: usize,
    pub hides: bool,
}

/// A place in a chain of scopes, which points share: an entry, and the place around it. Place 0 is that in which no name is in scope, and place k stands at k - 1 in the chain.
#[derive(Clone, Copy)]
pub struct Scope {
    pub entry: Entry,
    pub outer: usize,
}

/// An edge to a point, by its number.
#[derive(Drop)]
pub struct Edge {
    pub instr: Instr,
    pub to: usize,
}

/// A point, with the edges that begin there, in the order in which they were made.
#[derive(Drop)]
pub struct Point {
    pub at: Pos,
    pub path: usize,
    /// The names in scope, as a place in the graph's chain.
    pub scope: usize,
    pub edges: Vec<Edge>,
}

/// A control-flow graph. Its points, variables and call paths are numbered from 0; point 0 is the entry, and path 0 the entry's.
#[derive(Drop)]
pub struct Graph {
    paths: Vec<Path>,
    variables: Vec<Variable>,
    scopes: Vec<Scope>,
    points: Vec<Point>,
    ghost well_made: { IsGraph (graph_of paths.items variables.items scopes.items points.items) } by { IsGraph-prop _ },
}

// The entries of a place in a chain, newest first.
fn in_scope(alloc: Global, scopes: &[Scope], place: usize) -> Result<Vec<Entry>, AllocError>
    ensures { IfOk result (λ list. list.items ≡ scope_at scopes.now place) }
{
    let mut list = Vec::new(alloc);
    let mut left = place;
    while 0 < left && left <= scopes.len() {
        let scope = scopes[left - 1];
        list.push(scope.entry)?;
        left = if scope.outer < left { scope.outer } else { 0 };
    }
    Ok(list)
}

impl Graph {
    ghost use Rattle.pk_graph.specs.Shown.{graph_view};

    pub fn new(
        paths: Vec<Path>,
        variables: Vec<Variable>,
        scopes: Vec<Scope>,
        points: Vec<Point>,
    ) -> Graph
        requires { IsGraph (graph_of paths.items variables.items scopes.items points.items) }
        ensures { graph_view result ≡ graph_of paths.items variables.items scopes.items points.items }
    {
        Graph {
            paths,
            variables,
            scopes,
            points,
        }
    }

    /// Every graph is well made.
    pub fn well_made(&self)
        ensures { IsGraph (graph_view self.now) }
    {
        let _ = &self.points;
    }

    pub fn paths(&self) -> &[Path]
        ensures { map path_view result.now ≡ (graph_view self.now).paths }
    {
        &self.paths
    }

    pub fn variables(&self) -> &[Variable]
        ensures { map variable_view result.now ≡ (graph_view self.now).variables }
    {
        &self.variables
    }

    /// How many points there are.
    pub fn points(&self) -> usize
        ensures { result ≡ length (graph_view self.now).points }
    {
        self.points.len()
    }

    /// The position of a point.
    pub fn position(&self, point: usize) -> Pos
        requires { point < length (graph_view self.now).points }
        ensures { result ≡ (point_at (graph_view self.now) point).at }
    {
        self.points[point].at
    }

    /// The call path of a point.
    pub fn path(&self, point: usize) -> usize
        requires { point < length (graph_view self.now).points }
        ensures { result ≡ (point_at (graph_view self.now) point).path }
    {
        self.points[point].path
    }

    /// The variables whose names are in scope at a point, newest first, the hidden ones too; and where one is hidden by a name that is no variable's.
    pub fn scope(&self, alloc: Global, point: usize) -> Result<Vec<Entry>, AllocError>
        requires { point < length (graph_view self.now).points }
        ensures { IfOk result (λ list. list.items ≡ (point_at (graph_view self.now) point).scope) }
    {
        in_scope(alloc, &self.scopes, self.points[point].scope)
    }

    /// The edges that begin at a point, in the order in which they were made.
    pub fn edges(&self, point: usize) -> &[Edge]
        requires { point < length (graph_view self.now).points }
        ensures { map edge_view result.now ≡ (point_at (graph_view self.now) point).edges }
    {
        &self.points[point].edges
    }
}
