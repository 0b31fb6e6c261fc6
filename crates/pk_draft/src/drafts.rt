// A graph under construction, and the few verbs in which the lowering is said.

ghost use Rattle.std.specs.Prelude.{◌≡◌, ◌+◌, ◌++◌, map, replicate, ◌<◌, ◌^◌, OnOk, IfOk};
ghost use Rattle.pk_graph.specs.Views.{tree_view, instr_view};
ghost use Rattle.pk_graph.specs.Graphs.{variable_view, no_variable};
ghost use Rattle.pk_graph.specs.Trees as tree;
ghost use Rattle.pk_draft.specs.Drafts as draft;
ghost use Rattle.pk_draft.specs.Answers.{edge_view};

use pk_ctypes::{IntType, Name, Pos};
use pk_graph::{Entry, Instr, Scope, Start, Tree, Variable};
use std::alloc::{AllocError, Global};

// The point where a run begins.
const ENTRY: usize = 1;

// A point that is none: an edge to it isn't made.
pub const NOWHERE: usize = 0;

/// Where the body of a call path begins, and the first numbers of the points and variables that its part makes.
#[derive(Clone, Copy)]
pub struct Region {
    pub at: usize,
    pub points: usize,
    pub variables: usize,
}

/// How many points and variables the part of a call path makes, the parts of its calls included.
#[derive(Clone, Copy)]
pub struct Size {
    pub points: usize,
    pub variables: usize,
}

/// What a point is: its position, its call path, and the names in scope as a place in the chain of scopes.
#[derive(Clone, Copy)]
pub struct Label {
    pub at: Pos,
    pub path: usize,
    pub scope: usize,
}

/// An edge between two points.
#[derive(Drop)]
pub struct DraftEdge {
    pub from: usize,
    pub instr: Instr,
    pub to: usize,
}

/// What a draft has made: what each point is, the variables, the chain of scopes, and the edges in the order in which they were made.
#[derive(Drop)]
pub struct Parts {
    pub labels: Vec<Label>,
    pub variables: Vec<Variable>,
    pub scopes: Vec<Scope>,
    pub edges: Vec<DraftEdge>,
}

/// A graph under construction. Contracts see its points, variables and edges, and each scope as the list of its variables.
#[derive(Drop)]
pub struct Draft {
    point: usize,
    here: Label,
    points: usize,
    variables: usize,
    labels: Vec<Label>,
    made: Vec<Variable>,
    objects: Vec<usize>,
    regions: Vec<Region>,
    scopes: Vec<Scope>,
    edges: Vec<DraftEdge>,
}

ghost use Rattle.pk_draft.specs.Shown.{drafted};

#[tactic(auto, unfolding(crate::specs::Shown::drafted))]
impl Draft {
    /// Goes on at a point.
    pub fn at(&mut self, point: usize)
        ensures { drafted self.new ≡ draft.at point (drafted self.old) }
    {
        self.point = point;
    }

    /// The position of what is lowered from here on.
    pub fn on(&mut self, at: Pos)
        ensures { drafted self.new ≡ draft.on at (drafted self.old) }
    {
        self.here.at = at;
    }

    /// Puts back what a point made here is.
    pub fn stand(&mut self, here: Label)
        ensures { drafted self.new ≡ draft.standing here (drafted self.old) }
    {
        self.here = here;
    }

    /// Puts back a scope.
    pub fn scope(&mut self, scope: usize)
        ensures { drafted self.new ≡ draft.in_scope scope (drafted self.old) }
    {
        self.here.scope = scope;
    }

    /// The current point.
    pub fn point(&self) -> usize
        ensures { result ≡ (drafted self.now).point }
    {
        self.point
    }

    /// What a point made here is.
    pub fn here(&self) -> Label
        ensures { result ≡ (drafted self.now).here }
    {
        self.here
    }

    /// The number of the next point.
    pub fn points(&self) -> usize
        ensures { result ≡ (drafted self.now).points }
    {
        self.points
    }

    /// The number of the next variable.
    pub fn variables(&self) -> usize
        ensures { result ≡ (drafted self.now).variables }
    {
        self.variables
    }

    /// The variable of an object of the function at hand.
    pub fn object(&self, object: usize) -> usize
        ensures { result ≡ draft.object_number object (drafted self.now) }
    {
        if object < self.objects.len() {
            self.objects[object]
        } else {
            0
        }
    }

    /// The name of a variable comes into scope.
    pub fn name(&mut self, variable: usize) -> Result<(), AllocError>
        ensures { OnOk result (drafted self.new ≡ draft.with_name variable (drafted self.old)) }
    {
        self.add_entry(Entry {
            variable,
            hides: false,
        })
    }

    /// The name of a variable is hidden from here on.
    pub fn hide(&mut self, variable: usize) -> Result<(), AllocError>
        ensures { OnOk result (drafted self.new ≡ draft.with_hidden variable (drafted self.old)) }
    {
        self.add_entry(Entry {
            variable,
            hides: true,
        })
    }

    fn add_entry(&mut self, entry: Entry) -> Result<(), AllocError>
        ensures { OnOk result (drafted self.new ≡ draft.with_entry entry (drafted self.old)) }
    {
        self.scopes.push(Scope {
            entry,
            outer: self.here.scope,
        })?;
        self.here.scope = self.scopes.len();
        Ok(())
    }

    /// A point that was made before is here.
    pub fn place(&mut self, point: usize)
        ensures { drafted self.new ≡ draft.placed point (drafted self.old) }
    {
        if point < self.labels.len() {
            self.labels[point] = self.here;
        }
    }

    // As many points from one on are here.
    #[tactic(auto, using(crate::proofs::DraftLemmas::all_placed_next, crate::proofs::DraftLemmas::all_placed_none))]
    fn place_all(&mut self, count: usize, from: usize)
        requires { from + count < 2 ^ 64 }
        ensures { drafted self.new ≡ draft.all_placed count from (drafted self.old) }
    {
        for point in from..from + count {
            self.place(point);
        }
    }

    /// As many new points, of which the first is given.
    pub fn fresh(&mut self, count: usize) -> Result<usize, AllocError>
        ensures draft { OnOk result (drafted self.new ≡ draft.fresh count (drafted self.old)) }
        ensures first { IfOk result (λ p. p ≡ (drafted self.old).points) }
        ensures fits { IfOk result (λ p. p + count < 2 ^ 64) }
    {
        let points = self.points;
        let after = points.checked_add(count).ok_or(AllocError)?;
        self.place_all(count, points);
        self.points = after;
        Ok(points)
    }

    /// A new variable.
    #[tactic(auto, using(crate::proofs::DraftLemmas::variable_in_place), unfolding(crate::specs::Shown::drafted))]
    pub fn add(&mut self, variable: Variable) -> Result<(), AllocError>
        ensures { OnOk result (drafted self.new ≡ draft.with_variable (variable_view variable) (drafted self.old)) }
    {
        let number = self.variables;
        self.variables = number.checked_add(1).ok_or(AllocError)?;
        if number < self.made.len() {
            self.made[number] = variable;
        }
        Ok(())
    }

    /// A new temporary, which is the next variable.
    #[tactic(auto, unfolding(crate::specs::Shown::drafted))]
    pub fn temporary(&mut self, alloc: Global, int_type: IntType) -> Result<(), AllocError>
        ensures { OnOk result (drafted self.new ≡ draft.with_temporary int_type (drafted self.old)) }
    {
        let path = self.here.path;
        self.add(inner(alloc, None, int_type, None, path))
    }

    /// A new variable is an object of the function at hand.
    pub fn object_is(&mut self, object: usize, variable: Variable) -> Result<(), AllocError>
        ensures { OnOk result
            (drafted self.new ≡ draft.with_object object (variable_view variable) (drafted self.old)) }
    {
        if object < self.objects.len() {
            self.objects[object] = self.variables;
        }
        self.add(variable)
    }

    /// An edge from the current point, which stays.
    #[tactic(auto, using(crate::proofs::DraftLemmas::one_more_edge), unfolding(crate::specs::Shown::drafted, crate::specs::Answers::edge_view))]
    pub fn link(&mut self, instr: Instr, to: usize) -> Result<(), AllocError>
        ensures { OnOk result (drafted self.new ≡ draft.link (instr_view instr) to (drafted self.old)) }
    {
        self.edges.push(DraftEdge {
            from: self.point,
            instr,
            to,
        })?;
        Ok(())
    }

    /// An edge from the current point, and on at its end.
    pub fn go(&mut self, instr: Instr, to: usize) -> Result<(), AllocError>
        ensures { OnOk result (drafted self.new ≡ draft.go (instr_view instr) to (drafted self.old)) }
    {
        self.link(instr, to)?;
        self.at(to);
        Ok(())
    }

    /// An edge to a new point.
    pub fn emit(&mut self, instr: Instr) -> Result<(), AllocError>
        ensures { OnOk result (drafted self.new ≡ draft.emit (instr_view instr) (drafted self.old)) }
    {
        let next = self.fresh(1)?;
        self.go(instr, next)?;
        Ok(())
    }

    /// An edge away; on at a new point.
    pub fn away(&mut self, to: usize) -> Result<(), AllocError>
        ensures { OnOk result (drafted self.new ≡ draft.away to (drafted self.old)) }
    {
        self.link(Instr::skip(), to)?;
        let next = self.fresh(1)?;
        self.at(next);
        Ok(())
    }

    /// An edge to a point that was made before and is here.
    pub fn come(&mut self, point: usize) -> Result<(), AllocError>
        ensures { OnOk result (drafted self.new ≡ draft.come point (drafted self.old)) }
    {
        self.place(point);
        self.go(Instr::skip(), point)
    }

    /// A tree put in a fresh temporary.
    pub fn store(
        &mut self,
        alloc: Global,
        int_type: IntType,
        tree: Tree,
    ) -> Result<Tree, AllocError>
        ensures { IfOk result
            (λ e. (tree_view e, drafted self.new) ≡ draft.stored int_type (tree_view tree) (drafted self.old)) }
    {
        let number = self.variables;
        self.temporary(alloc, int_type)?;
        self.emit(Instr::set(number, tree))?;
        Ok(Tree::variable(number))
    }

    /// A graph under construction without points, whose tables hold nothing.
    pub fn new(alloc: Global) -> Draft
        ensures { drafted result ≡ draft.empty_draft draft.by_number }
    {
        Draft {
            point: 0,
            here: no_label(),
            points: 0,
            variables: 0,
            labels: Vec::new(alloc),
            made: Vec::new(alloc),
            objects: Vec::new(alloc),
            regions: Vec::new(alloc),
            scopes: Vec::new(alloc),
            edges: Vec::new(alloc),
        }
    }

    /// The graph under construction of a program before its first part: nowhere, the entry, and the objects of the file, which are in scope in order.
    pub fn begin_all(
        alloc: Global,
        objects: Vec<Variable>,
        paths: usize,
        size: Size,
    ) -> Result<Draft, AllocError>
        ensures { IfOk result
            (λ d. drafted d ≡ draft.first_draft draft.by_number (map variable_view objects.items) paths size) }
    {
        let count = objects.len();
        let points = size.points.checked_add(ENTRY + 1).ok_or(AllocError)?;
        Ok(Draft {
            point: 0,
            here: no_label(),
            points: 0,
            variables: 0,
            labels: vec![in alloc; no_label(); points]?,
            made: with_space(alloc, objects, size.variables)?,
            objects: Vec::new(alloc),
            regions: first_regions(alloc, count, paths)?,
            scopes: file_scopes(alloc, count)?,
            edges: Vec::new(alloc),
        })
    }

    /// The region of a call path.
    pub fn region(&self, path: usize) -> Region
        ensures { result ≡ draft.region_of path (drafted self.now) }
    {
        if path < self.regions.len() {
            self.regions[path]
        } else {
            no_region()
        }
    }

    /// The part of a call path is made from here on, where nothing is known yet of as many objects.
    pub fn begin(
        &mut self,
        alloc: Global,
        region: Region,
        here: Label,
        objects: usize,
    ) -> Result<(), AllocError>
        ensures { OnOk result (drafted self.new ≡ draft.begun_at region here objects (drafted self.old)) }
    {
        self.objects = vec![in alloc; 0; objects]?;
        self.point = region.at;
        self.here = here;
        self.points = region.points;
        self.variables = region.variables;
        Ok(())
    }

    /// Takes apart what was made.
    pub fn parts(self) -> Parts
        ensures labels { result.labels.items ≡ (drafted self).labels }
        ensures variables { map variable_view result.variables.items ≡ (drafted self).made }
        ensures scopes { result.scopes.items ≡ (drafted self).scopes }
        ensures edges { map edge_view result.edges.items ≡ (drafted self).edges }
    {
        Parts {
            labels: self.labels,
            variables: self.made,
            scopes: self.scopes,
            edges: self.edges,
        }
    }

    /// The part of a call path begins here, and goes on at its exit: the region is noted, and its numbers are left to it.
    pub fn enter(&mut self, path: usize, size: Size) -> Result<(), AllocError>
        ensures { OnOk result (drafted self.new ≡ draft.entered path size (drafted self.old)) }
    {
        let region = Region {
            at: self.point,
            points: self.points,
            variables: self.variables,
        };
        self.points = self.points.checked_add(size.points).ok_or(AllocError)?;
        self.variables = self
            .variables
            .checked_add(size.variables)
            .ok_or(AllocError)?;
        if path < self.regions.len() {
            self.regions[path] = region;
        }
        self.point = region.points;
        Ok(())
    }

    /// What each point is.
    pub fn labels(&self) -> &[Label]
        ensures { result.now ≡ (drafted self.now).labels }
    {
        &self.labels
    }

    /// The variables that were made.
    pub fn made(&self) -> &[Variable]
        ensures { map variable_view result.now ≡ (drafted self.now).made }
    {
        &self.made
    }

    /// The chain of scopes.
    pub fn scopes(&self) -> &[Scope]
        ensures { result.now ≡ (drafted self.now).scopes }
    {
        &self.scopes
    }

    /// The edges in the order in which they were made.
    pub fn edges(&self) -> &[DraftEdge]
        ensures { map edge_view result.now ≡ (drafted self.now).edges }
    {
        &self.edges
    }
}

/// A variable of a path that holds 0 when a run begins.
#[tactic(auto, unfolding(crate::specs::Shown::drafted))]
pub fn inner(
    alloc: Global,
    name: Option<Name>,
    int_type: IntType,
    length: Option<usize>,
    path: usize,
) -> Variable
    ensures { variable_view result ≡ draft.inner name int_type length path }
{
    Variable {
        name,
        int_type,
        length,
        path: Some(path),
        start: Start::Numbers(Vec::new(alloc)),
    }
}

fn no_label() -> Label
    ensures { result ≡ draft.no_label }
{
    Label {
        at: Pos { line: 0, column: 0 },
        path: 0,
        scope: 0,
    }
}

/// A region of which nothing is known.
pub fn no_region() -> Region
    ensures { result ≡ draft.no_region }
{
    Region {
        at: 0,
        points: 0,
        variables: 0,
    }
}

// Variables with space for as many more.
fn with_space(
    alloc: Global,
    variables: Vec<Variable>,
    count: usize,
) -> Result<Vec<Variable>, AllocError>
    ensures { IfOk result
        (λ vs. map variable_view vs.items ≡ map variable_view variables.items ++ replicate count no_variable) }
{
    let mut variables = variables;
    for _ in 0..count {
        variables.push(no_variable(alloc))?;
    }
    Ok(variables)
}

fn no_variable(alloc: Global) -> Variable
    ensures { variable_view result ≡ no_variable }
{
    Variable {
        name: None,
        int_type: IntType::Int,
        length: None,
        path: None,
        start: Start::Numbers(Vec::new(alloc)),
    }
}

// Of the entry's path and of those of which nothing is known yet.
fn first_regions(alloc: Global, objects: usize, paths: usize) -> Result<Vec<Region>, AllocError>
    ensures { IfOk result (λ rs. rs.items ≡ draft.first_regions objects paths) }
{
    let mut regions = vec![in alloc; no_region(); paths]?;
    if paths > 0 {
        regions[0] = Region {
            at: ENTRY,
            points: ENTRY + 1,
            variables: objects,
        };
    }
    Ok(regions)
}

// The first objects of the file come into scope in order.
fn file_scopes(alloc: Global, count: usize) -> Result<Vec<Scope>, AllocError>
    ensures { IfOk result (λ ss. ss.items ≡ draft.file_scopes count) }
{
    let mut scopes = Vec::new(alloc);
    for variable in 0..count {
        scopes.push(Scope {
            entry: Entry {
                variable,
                hides: false,
            },
            outer: variable,
        })?;
    }
    Ok(scopes)
}
