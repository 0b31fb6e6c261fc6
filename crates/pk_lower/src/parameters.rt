// The parameters of a part.

ghost use Rattle.std.specs.Prelude.{◌≡◌, None, IfOk, OnOk};
ghost use Rattle.pk_graph.specs.Graphs.{variable_view};
ghost use Rattle.pk_draft.specs.Shown.{drafted};
ghost use Rattle.pk_lower_row.specs.Contexts as contexts;
ghost use Rattle.pk_lower_row.specs.Views.{context_in};
ghost use Rattle.pk_lower.specs.Parts as parts;

use pk_calls::Caller;
use pk_ctypes::{IntType, Name};
use pk_draft::Draft;
use pk_graph::{Start, Variable};
use pk_lower_row::Context;
use pk_lower_statement::introduce;
use std::alloc::AllocError;

fn name_of(context: &Context<'_>, object: usize) -> Result<Option<Name>, AllocError>
    ensures { IfOk result (λ name. name ≡ (contexts.local_at (context_in context.now) object).name) }
{
    if object < context.locals.len() {
        match &context.locals[object].name {
            None => Ok(None),
            Some(name) => Ok(Some(name.copy()?)),
        }
    } else {
        Ok(None)
    }
}

// It holds any number when a run begins.
#[tactic(auto, unfolding(pk_graph::specs::Graphs::variable_view, pk_graph::specs::Graphs::start_view))]
fn entry_parameter(
    name: Option<Name>,
    int_type: IntType,
    length: Option<usize>,
    path: usize,
) -> Variable
    ensures { variable_view result ≡ parts.entry_parameter name int_type length path }
{
    Variable {
        name,
        int_type,
        length,
        path: Some(path),
        start: Start::Any,
    }
}

fn introduce_entry_parameter(
    context: &Context<'_>,
    draft: &mut Draft,
    object: usize,
) -> Result<(), AllocError>
    ensures { OnOk result
        (drafted draft.new ≡ parts.introduced_parameter (context_in context.now) None object (drafted draft.old)) }
{
    let number = draft.variables();
    let int_type = context.type_of_local(object);
    let length = context.length_of_local(object);
    let name = name_of(context, object)?;
    match name {
        None => draft.object_is(
            object,
            entry_parameter(None, int_type, length, context.path),
        ),
        Some(name) => {
            let parameter = entry_parameter(Some(name), int_type, length, context.path);
            draft.object_is(object, parameter)?;
            draft.name(number)
        }
    }
}

// A parameter as the next variable, with its name in scope.
fn introduce_parameter(
    context: &Context<'_>,
    draft: &mut Draft,
    caller: Option<Caller>,
    object: usize,
) -> Result<(), AllocError>
    ensures { OnOk result
        (drafted draft.new ≡ parts.introduced_parameter (context_in context.now) caller object (drafted draft.old)) }
{
    match caller {
        None => introduce_entry_parameter(context, draft, object),
        Some(_) => introduce(context, draft, object),
    }
}

/// The parameters, which are the first objects: as many as there are types.
pub(crate) fn introduce_all(
    context: &Context<'_>,
    draft: &mut Draft,
    caller: Option<Caller>,
    parameters: &[IntType],
) -> Result<(), AllocError>
    ensures { OnOk result (drafted draft.new
        ≡ parts.all_introduced (context_in context.now) caller 0 parameters.now (drafted draft.old)) }
{
    for object in 0..parameters.len() {
        introduce_parameter(context, draft, caller, object)?;
    }
    Ok(())
}
