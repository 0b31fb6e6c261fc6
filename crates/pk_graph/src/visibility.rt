// What is visible at a point.

ghost use Rattle.std.specs.Prelude.{◌≡◌, ◌<◌, IfOk, OnOk, length, map, option_map};
ghost use Rattle.pk_graph.specs.Graphs.{variable_view};
ghost use Rattle.pk_graph.specs.Visible.{
  no_name,
  with_name,
  is_new,
  is_shown,
  name_at,
  not_hidden,
  is_of_file,
  files_first,
  visible_at,
};
ghost use Rattle.pk_graph.specs.Shown.{graph_view};
ghost use Rattle.pk_graph.specs.Named.{names_view};

use crate::graphs::{Entry, Graph, Variable};
use pk_ctypes::Name;
use std::alloc::{AllocError, Global};
use std::collections::HashSet;

// A set of names.
#[derive(Drop)]
struct Named<'a> {
    names: HashSet<&'a [u8]>,
}

impl<'a> Named<'a> {
    fn new(alloc: Global) -> Named<'a>
        ensures { names_view result ≡ no_name }
    {
        Named {
            names: HashSet::new(alloc),
        }
    }

    // Whether a name isn't there yet.
    fn is_new(&self, name: Option<&Name>) -> bool
        ensures { result ≡ is_new (option_map (λ n. n.now) name.entry) (names_view self.now) }
    {
        match name {
            Some(name) => !self.names.contains(name.as_str().as_bytes()),
            None => false,
        }
    }

    fn add(&mut self, name: Option<&'a Name>) -> Result<(), AllocError>
        ensures { OnOk result
            (names_view self.new ≡ with_name (option_map (λ n. n.now) name.entry) (names_view self.old)) }
    {
        if let Some(name) = name {
            let _ = self.names.insert(name.as_str().as_bytes())?;
        }
        Ok(())
    }
}

#[tactic(auto, unfolding(crate::specs::Graphs::variable_view))]
fn name_of(variables: &[Variable], number: usize) -> Option<&Name>
    ensures { option_map (λ n. n.now) result ≡ name_at (map variable_view variables.now) number }
{
    match variables.get(number) {
        Some(variable) => variable.name.as_ref(),
        None => None,
    }
}

fn is_shown(names: &Named<'_>, name: Option<&Name>, hides: bool) -> bool
    ensures { result ≡ is_shown (option_map (λ n. n.now) name.entry) hides (names_view names.now) }
{
    !hides && names.is_new(name)
}

// Of variables in scope, newest first, those that aren't hidden.
fn not_hidden(
    alloc: Global,
    variables: &[Variable],
    scope: &[Entry],
) -> Result<Vec<usize>, AllocError>
    ensures { IfOk result (λ list. list.items ≡ not_hidden (map variable_view variables.now) no_name scope.now) }
{
    let mut names = Named::new(alloc);
    let mut list = Vec::new(alloc);
    for number in 0..scope.len() {
        let entry = scope[number];
        let name = name_of(variables, entry.variable);
        if is_shown(&names, name, entry.hides) {
            list.push(entry.variable)?;
        }
        names.add(name)?;
    }
    Ok(list)
}

#[tactic(auto, unfolding(crate::specs::Graphs::variable_view))]
fn is_of_file(variables: &[Variable], number: usize) -> bool
    ensures { result ≡ is_of_file (map variable_view variables.now) number }
{
    match variables.get(number) {
        Some(variable) => variable.path.is_none(),
        None => true,
    }
}

// The objects of the file first.
fn files_first(
    alloc: Global,
    variables: &[Variable],
    list: &[usize],
) -> Result<Vec<usize>, AllocError>
    ensures { IfOk result (λ l. l.items ≡ files_first (map variable_view variables.now) list.now) }
{
    let mut files = Vec::new(alloc);
    let mut others = Vec::new(alloc);
    for number in 0..list.len() {
        let variable = list[number];
        if is_of_file(variables, variable) {
            files.push(variable)?;
        } else {
            others.push(variable)?;
        }
    }
    files.extend_from_slice(&others)?;
    Ok(files)
}

/// The variables that are visible at a point, those in scope whose names no newer one has: the objects of the file first, each in the order in which their names came into scope.
pub fn visible(alloc: Global, graph: &Graph, point: usize) -> Result<Vec<usize>, AllocError>
    requires { point < length (graph_view graph.now).points }
    ensures { IfOk result (λ list. list.items ≡ visible_at (graph_view graph.now) point) }
{
    let scope = graph.scope(alloc, point)?;
    let mut list = not_hidden(alloc, graph.variables(), &scope)?;
    list.reverse();
    files_first(alloc, graph.variables(), &list)
}
