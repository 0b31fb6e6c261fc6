// The lowering of declarations.

ghost use Rattle.std.specs.Prelude.{◌≡◌, if◌then◌else◌, option_map, IfOk, OnOk};
ghost use Rattle.pk_typed.specs.Types.{type_of};
ghost use Rattle.pk_typed.specs.Views.{value_tree, value_trees, declared_tree, declared_trees, optional_values};
ghost use Rattle.pk_graph.specs.Views.{array_view};
ghost use Rattle.pk_draft.specs.Drafts as drafts;
ghost use Rattle.pk_draft.specs.Shown.{drafted};
ghost use Rattle.pk_lower_row.specs.Contexts as contexts;
ghost use Rattle.pk_lower_row.specs.Rows as expressions;
ghost use Rattle.pk_lower_expression.specs.Expressions.{ways};
ghost use Rattle.pk_lower_row.specs.Views.{context_in, given};
ghost use Rattle.pk_lower_statement.specs.Statements as rows;

use pk_ctypes::{IntType, Name};
use pk_draft::{Draft, conversion, inner};
use pk_graph::{Array, Instr, Site, Tree};
use pk_lower_expression::value;
use pk_lower_row::{Context, count_of, set};
use pk_typed::{Declared, Value, Variable};
use std::alloc::AllocError;

// A variable's name comes into scope, if it has one.
fn name_if(draft: &mut Draft, is_named: bool, variable: usize) -> Result<(), AllocError>
    ensures { OnOk result (drafted draft.new
        ≡ if◌then◌else◌ is_named (drafts.with_name variable (drafted draft.old)) (drafted draft.old)) }
{
    if is_named {
        draft.name(variable)
    } else {
        Ok(())
    }
}

fn name_of(context: &Context<'_>, object: usize) -> Result<Option<Name>, AllocError>
    ensures { IfOk result (λ name. name ≡ (contexts.local_at (context_in context.now) object).name) }
{
    if object < context.locals.len() {
        match &context.locals[object].name {
            None => Ok(None),
            Some(name) => Ok(Some(name.copy()?)),
        }
    } else {
        Ok(None)
    }
}

/// An object of the function as the next variable, with its name in scope.
pub fn introduce(context: &Context<'_>, draft: &mut Draft, object: usize) -> Result<(), AllocError>
    ensures { OnOk result (drafted draft.new ≡ rows.introduced (context_in context.now) object (drafted draft.old)) }
{
    let number = draft.variables();
    let name = name_of(context, object)?;
    let is_named = name.is_some();
    draft.object_is(
        object,
        inner(
            context.alloc,
            name,
            context.type_of_local(object),
            context.length_of_local(object),
            context.path,
        ),
    )?;
    name_if(draft, is_named, number)
}

// `T x;`, `T a[n];`
fn anything(context: &Context<'_>, draft: &mut Draft, object: usize) -> Result<(), AllocError>
    ensures { OnOk result (drafted draft.new ≡ rows.anything (context_in context.now) object (drafted draft.old)) }
{
    let variable = context.variable(draft, Variable::Local(object));
    let count = count_of(context.length_of_local(object));
    draft.emit(Instr::havoc(variable, context.type_of_local(object), count))
}

// Element `number` of an array gets an item's value, behind it.
fn put_item(
    draft: &mut Draft,
    array: Array,
    site: Site,
    number: usize,
    from: IntType,
    to: IntType,
    tree: Box<Tree>,
) -> Result<(), AllocError>
    ensures { OnOk result
        (drafted draft.new ≡ rows.item_after (array_view array) site number from to (given tree.value draft.old)) }
{
    let index = Tree::constant(IntType::Int, number as i128);
    let tree = conversion(from, to, tree);
    draft.emit(Instr::store(array, site, false, index, tree))
}

// Element `number` of an array.
fn item(
    context: &Context<'_>,
    draft: &mut Draft,
    object: usize,
    number: usize,
    item: &Value,
) -> Result<(), AllocError>
    ensures { OnOk result (drafted draft.new ≡ rows.item (context_in context.now) object number
        (type_of (value_tree item.now)) (ways (context_in context.now) (value_tree item.now)) (drafted draft.old)) }
{
    let array = context.array(draft, Variable::Local(object));
    let site = context.site(draft.here().at);
    let tree = value(context, draft, item)?;
    let to = context.type_of_local(object);
    put_item(draft, array, site, number, item.int_type(), to, tree)
}

fn items(
    context: &Context<'_>,
    draft: &mut Draft,
    object: usize,
    list: &[Value],
) -> Result<(), AllocError>
    ensures { OnOk result (drafted draft.new
        ≡ rows.items (context_in context.now) object 0 (value_trees list.now) (drafted draft.old)) }
{
    for (number, value) in list.iter().enumerate() {
        item(context, draft, object, number, value)?;
    }
    Ok(())
}

fn begin_scalar(
    context: &Context<'_>,
    draft: &mut Draft,
    object: usize,
    first: &Option<Value>,
) -> Result<(), AllocError>
    ensures { OnOk result (drafted draft.new
        ≡ rows.scalar_first (context_in context.now) object (option_map value_tree first.now) (drafted draft.old)) }
{
    match first {
        None => anything(context, draft, object),
        Some(first) => {
            let variable = context.variable(draft, Variable::Local(object));
            let tree = value(context, draft, first)?;
            set(
                draft,
                context.type_of_local(object),
                first.int_type(),
                variable,
                tree,
            )
        }
    }
}

fn begin_array(
    context: &Context<'_>,
    draft: &mut Draft,
    object: usize,
    list: &Option<Vec<Value>>,
) -> Result<(), AllocError>
    ensures { OnOk result (drafted draft.new
        ≡ rows.array_first (context_in context.now) object (optional_values list.now) (drafted draft.old)) }
{
    match list {
        None => anything(context, draft, object),
        Some(list) => {
            let array = context.array(draft, Variable::Local(object));
            draft.emit(Instr::clear(array))?;
            items(context, draft, object, list.as_slice())
        }
    }
}

fn number_of(draft: &Draft, object: Variable) -> usize
    ensures { result ≡ rows.number_of object (drafted draft.now) }
{
    match object {
        Variable::File(number) => number,
        Variable::Local(number) => draft.object(number),
    }
}

/// A declared object.
#[tactic(auto, unfolding(pk_typed::specs::Views::declared_tree))]
pub fn declare(
    context: &Context<'_>,
    draft: &mut Draft,
    object: &Declared,
) -> Result<(), AllocError>
    ensures { OnOk result
        (drafted draft.new ≡ rows.declared (context_in context.now) (declared_tree object.now) (drafted draft.old)) }
{
    match object {
        Declared::Scalar(number, at, first) => {
            draft.on(*at);
            introduce(context, draft, *number)?;
            begin_scalar(context, draft, *number, first)
        }
        Declared::Array(number, at, list) => {
            draft.on(*at);
            introduce(context, draft, *number)?;
            begin_array(context, draft, *number, list)
        }
        Declared::Static(number, at) => {
            draft.on(*at);
            draft.name(*number)
        }
        Declared::Hiding(object, at) => {
            draft.on(*at);
            let variable = number_of(draft, *object);
            draft.hide(variable)
        }
    }
}

pub fn declare_all(
    context: &Context<'_>,
    draft: &mut Draft,
    objects: &[Declared],
) -> Result<(), AllocError>
    ensures { OnOk result (drafted draft.new
        ≡ rows.all_declared (context_in context.now) (declared_trees objects.now) (drafted draft.old)) }
{
    for object in objects {
        declare(context, draft, object)?;
    }
    Ok(())
}
