// The part of a call path.

ghost use Rattle.std.specs.Prelude.{◌≡◌, OnOk};
ghost use Rattle.pk_typed.specs.Views.{function_tree, body_tree};
ghost use Rattle.pk_draft.specs.Shown.{drafted};
ghost use Rattle.pk_lower_row.specs.Views.{context_in};
ghost use Rattle.pk_lower.specs.Parts as parts;

use crate::parameters::introduce_all;
use pk_calls::Caller;
use pk_ctypes::{IntType, Name};
use pk_draft::{Draft, Label, Region, inner};
use pk_graph::{Instr, Tree};
use pk_lower_row::Context;
use pk_lower_statement::{Exits, lower_items};
use pk_typed::{Body, Function};
use std::alloc::AllocError;

// The result, behind the objects.
fn add_result(
    context: &Context<'_>,
    draft: &mut Draft,
    returns: Option<IntType>,
) -> Result<(), AllocError>
    ensures { OnOk result (drafted draft.new ≡ parts.with_result (context_in context.now) returns (drafted draft.old)) }
{
    match returns {
        None => Ok(()),
        Some(int_type) => draft.object_is(
            context.locals.len(),
            inner(context.alloc, None, int_type, None, context.path),
        ),
    }
}

// A path is entered: its parameters and its result.
fn begin(
    context: &Context<'_>,
    draft: &mut Draft,
    function: &Function,
    body: &Body,
    caller: Option<Caller>,
    region: Region,
) -> Result<(), AllocError>
    ensures { OnOk result (drafted draft.new ≡ parts.begun (context_in context.now) (function_tree function.now)
        (body_tree body.now) caller region (drafted draft.old)) }
{
    let here = Label {
        at: body.open,
        path: context.path,
        scope: body.visible,
    };
    let count = context.locals.len().checked_add(1).ok_or(AllocError)?;
    draft.begin(context.alloc, region, here, count)?;
    introduce_all(context, draft, caller, function.parameters.as_slice())?;
    add_result(context, draft, function.returns)
}

// Nothing leads to the entry, so that its point is made here.
fn place_entry(draft: &mut Draft, caller: Option<Caller>)
    ensures { drafted draft.new ≡ parts.placed_entry caller (drafted draft.old) }
{
    if caller.is_none() {
        draft.place(draft.point());
    }
}

fn is_main(name: &Name) -> bool
    ensures { result ≡ parts.is_main name.now }
{
    name.as_str() == "main"
}

// Falling off the end of a body.
fn end(
    context: &Context<'_>,
    draft: &mut Draft,
    name: &Name,
    returns: Option<IntType>,
) -> Result<(), AllocError>
    ensures { OnOk result
        (drafted draft.new ≡ parts.ended (context_in context.now) name.now returns (drafted draft.old)) }
{
    match returns {
        None => Ok(()),
        Some(int_type) => {
            let variable = draft.object(context.locals.len());
            if is_main(name) {
                draft.emit(Instr::set(variable, Tree::constant(int_type, 0)))
            } else {
                draft.emit(Instr::havoc(variable, int_type, 1))
            }
        }
    }
}

// A body from where it begins to a new exit.
fn lower_body(
    context: &Context<'_>,
    draft: &mut Draft,
    function: &Function,
    body: &Body,
) -> Result<(), AllocError>
    ensures { OnOk result (drafted draft.new ≡ parts.body_draft (context_in context.now) (function_tree function.now)
        (body_tree body.now) (drafted draft.old)) }
{
    let here = draft.here();
    let count = body.labels.checked_add(1).ok_or(AllocError)?;
    let exit = draft.fresh(count)?;
    let labels = exit.checked_add(1).ok_or(AllocError)?;
    let exits = Exits {
        broken: exit,
        continued: exit,
        left: exit,
        labels,
        cases: exit,
        otherwise: exit,
    };
    lower_items(context, draft, exits, body.items.as_slice())?;
    draft.stand(here);
    draft.on(body.close);
    end(context, draft, &function.name, function.returns)?;
    draft.go(Instr::skip(), exit)
}

fn lower_function(
    context: &Context<'_>,
    draft: &mut Draft,
    function: &Function,
    caller: Option<Caller>,
    region: Region,
) -> Result<(), AllocError>
    ensures { OnOk result (drafted draft.new ≡ parts.part_of (context_in context.now) (function_tree function.now)
        (function_tree function.now).body caller region (drafted draft.old)) }
{
    match &function.body {
        None => Ok(()),
        Some(body) => {
            begin(context, draft, function, body, caller, region)?;
            place_entry(draft, caller);
            lower_body(context, draft, function, body)
        }
    }
}

/// What a path of a function makes.
pub(crate) fn lower_part(
    context: &Context<'_>,
    draft: &mut Draft,
    function: usize,
    caller: Option<Caller>,
    region: Region,
) -> Result<(), AllocError>
    ensures { OnOk result
        (drafted draft.new ≡ parts.part (context_in context.now) function caller region (drafted draft.old)) }
{
    if function < context.unit.functions.len() {
        lower_function(
            context,
            draft,
            &context.unit.functions[function],
            caller,
            region,
        )
    } else {
        Ok(())
    }
}
