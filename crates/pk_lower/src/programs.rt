// All parts of a program.

ghost use Rattle.std.specs.Prelude.{◌≡◌, map, IfOk};
ghost use Rattle.pk_typed.specs.Views.{unit_tree, start_tree, file_object_tree};
ghost use Rattle.pk_graph.specs.Graphs.{start_view, variable_view};
ghost use Rattle.pk_lower.specs.Answers.{IsAnswer};
ghost use Rattle.pk_lower.specs.Parts as parts;

use crate::contexts::context;
use crate::parts::lower_part;
use crate::sizes::{sizes, whole_size};
use pk_calls::{Paths, calls};
use pk_draft::{Draft, LowerError};
use pk_graph::{Start, Variable};
use pk_lower_row::length_of_object;
use pk_typed as typed;
use pk_typed::{FileObject, Unit};
use std::alloc::{AllocError, Global};

// How many points the entry and all parts may make.
const POINT_LIMIT: usize = 65536;

#[tactic(auto, unfolding(pk_graph::specs::Graphs::start_view, pk_typed::specs::Views::start_tree))]
fn start_of(alloc: Global, start: &typed::Start) -> Result<Start, AllocError>
    ensures { IfOk result (λ s. start_view s ≡ parts.start_of_object (start_tree start.now)) }
{
    match start {
        typed::Start::Scalar(number) => Ok(Start::Numbers(vec![in alloc; *number]?)),
        typed::Start::Array { length: _, items } => {
            Ok(Start::Numbers(items.as_slice().to_vec(alloc)?))
        }
    }
}

#[tactic(auto, unfolding(pk_graph::specs::Graphs::variable_view, pk_typed::specs::Views::file_object_tree))]
fn file_variable(alloc: Global, object: &FileObject) -> Result<Variable, AllocError>
    ensures { IfOk result (λ x. variable_view x ≡ parts.file_variable (file_object_tree object.now)) }
{
    let name = object.name.copy()?;
    let start = start_of(alloc, &object.start)?;
    Ok(Variable {
        name: Some(name),
        int_type: object.int_type,
        length: length_of_object(object),
        path: None,
        start,
    })
}

fn file_variables(alloc: Global, unit: &Unit) -> Result<Vec<Variable>, AllocError>
    ensures { IfOk result (λ xs. map variable_view xs.items ≡ map parts.file_variable (unit_tree unit.now).objects) }
{
    let mut variables = Vec::new(alloc);
    for object in &unit.objects {
        variables.push(file_variable(alloc, object)?)?;
    }
    Ok(variables)
}

/// The graph under construction of a unit, with the parts of all its call paths. `Limit` where they would make more than 65536 points, reached or not.
pub fn draft(alloc: Global, unit: &Unit, paths: &Paths) -> Result<Draft, LowerError>
    ensures { IsAnswer (unit_tree unit.now) paths.now result }
{
    let sizes = sizes(alloc, unit, paths)?;
    let size = whole_size(&sizes, paths);
    if size.points >= POINT_LIMIT {
        return Err(LowerError::Limit);
    }
    let variables = file_variables(alloc, unit)?;
    let mut draft = Draft::begin_all(alloc, variables, paths.len(), size)?;
    let mut first: usize = 1;
    for number in 0..paths.len() {
        let path = paths.path(number);
        let context = context(alloc, unit, &sizes, number, first, path.function);
        let region = draft.region(number);
        lower_part(&context, &mut draft, path.function, path.caller, region)?;
        first = first
            .checked_add(calls(unit, path.function).len())
            .ok_or(AllocError)?;
    }
    Ok(draft)
}
