// The lowering of expressions.

ghost use Rattle.std.specs.Prelude.{◌≡◌, ◌+◌, ◌<◌, IfOk, OnOk};
ghost use Rattle.pk_typed.specs.Views.{place_tree, value_tree, effect_tree, value_trees};
ghost use Rattle.pk_typed.specs.Types.{type_of};
ghost use Rattle.pk_graph.specs.Trees as tree;
ghost use Rattle.pk_graph.specs.Views.{array_view};
ghost use Rattle.pk_draft.specs.Shown.{drafted};
ghost use Rattle.pk_lower_row.specs.Rows as rows;
ghost use Rattle.pk_lower_expression.specs.Expressions.{passed, performed, target, ways};
ghost use Rattle.pk_lower_row.specs.Contexts as contexts;
ghost use Rattle.pk_lower_row.specs.Shapes.{shape_of};
ghost use Rattle.pk_lower_row.specs.Views.{context_in, given, loaded_in, passed_in};

use crate::calls::{enter, held, last_making};
use pk_ctypes::{IntType, Op};
use pk_draft::{Draft, NOWHERE, represents};
use pk_graph::{Array, Site, Tree};
use pk_lower_row as rows;
use pk_lower_row::{Context, Loaded, Shape, Waiting, makes, shape_of, strong_if, strong_or_weak};
use pk_typed::{Effect, Place, Value};
use std::alloc::AllocError;

// The tree of an operand that waits for a later one.
#[cycle(expressions)]
fn waiting(
    context: &Context<'_>,
    draft: &mut Draft,
    how: Waiting,
    expression: &Value,
) -> Result<Box<Tree>, AllocError>
    ensures { IfOk result (λ e. given e.value draft.new
        ≡ rows.held how (shape_of (value_tree expression.now)) (type_of (value_tree expression.now))
        ((ways (context_in context.now) (value_tree expression.now)).value (drafted draft.old))) }
{
    let tree = value(context, draft, expression)?;
    held(context.alloc, draft, how, expression, tree)
}
// The tree of an operand, converted.
#[cycle(expressions)]
fn converted(
    context: &Context<'_>,
    draft: &mut Draft,
    int_type: IntType,
    expression: &Value,
) -> Result<Box<Tree>, AllocError>
    ensures { IfOk result (λ e. given e.value draft.new
        ≡ rows.convert_after (type_of (value_tree expression.now)) int_type
        ((ways (context_in context.now) (value_tree expression.now)).value (drafted draft.old))) }
{
    let tree = value(context, draft, expression)?;
    rows::converted(context.alloc, expression.int_type(), int_type, tree)
}
// What is read.
#[cycle(expressions)]
fn read(context: &Context<'_>, draft: &mut Draft, place: &Place) -> Result<Box<Tree>, AllocError>
    ensures { IfOk result (λ e. given e.value draft.new
        ≡ (rows.read_ways (target (context_in context.now) (place_tree place.now))).value (drafted draft.old)) }
{
    match place {
        Place::Scalar(_, object) => rows::variable(context.alloc, context.variable(draft, *object)),
        Place::Element(int_type, object, at, index) => {
            let array = context.array(draft, *object);
            let index = value(context, draft, index)?;
            rows::load(
                context.alloc,
                draft,
                *int_type,
                context.site(*at),
                array,
                index,
            )
        }
    }
}
// Of `++a[i]` the index, 1 and the element.
#[cycle(expressions)]
fn load_for_step(
    context: &Context<'_>,
    draft: &mut Draft,
    int_type: IntType,
    site: Site,
    array: Array,
    expression: &Value,
) -> Result<Loaded, AllocError>
    ensures { IfOk result (λ l. loaded_in l.index.value l.right.value l.element.value draft.new
        ≡ rows.loaded int_type site (array_view array)
        (rows.operand (value_tree expression.now)
        (ways (context_in context.now) (value_tree expression.now))) rows.one (drafted draft.old)) }
{
    let index = waiting(context, draft, Waiting::Weak, expression)?;
    let one = rows::one(context.alloc)?;
    rows::load_between(
        context.alloc,
        draft,
        int_type,
        site,
        array,
        Shape::Fixed(1),
        IntType::Int,
        index,
        one,
    )
}
// `++x`, used.
#[cycle(expressions)]
fn step(
    context: &Context<'_>,
    draft: &mut Draft,
    op: Op,
    site: Site,
    in_type: IntType,
    place: &Place,
) -> Result<Box<Tree>, AllocError>
    ensures { IfOk result (λ e. given e.value draft.new
        ≡ (rows.update_ways op site in_type (target (context_in context.now) (place_tree place.now)) rows.one).value
        (drafted draft.old)) }
{
    match place {
        Place::Scalar(int_type, object) => {
            let variable = context.variable(draft, *object);
            rows::step_kept(context.alloc, draft, op, site, in_type, *int_type, variable)
        }
        Place::Element(int_type, object, at, index) => {
            let array = context.array(draft, *object);
            let place = context.site(*at);
            let loaded = load_for_step(context, draft, *int_type, place, array, index)?;
            rows::renew_kept(
                context.alloc,
                draft,
                op,
                site,
                in_type,
                *int_type,
                place,
                array,
                IntType::Int,
                loaded,
            )
        }
    }
}
// `x++`, used.
#[cycle(expressions)]
fn step_after(
    context: &Context<'_>,
    draft: &mut Draft,
    op: Op,
    site: Site,
    in_type: IntType,
    place: &Place,
) -> Result<Box<Tree>, AllocError>
    ensures { IfOk result (λ e. given e.value draft.new
        ≡ (rows.after_ways op site in_type (target (context_in context.now) (place_tree place.now))).value
        (drafted draft.old)) }
{
    match place {
        Place::Scalar(int_type, object) => {
            let variable = context.variable(draft, *object);
            rows::step_after(context.alloc, draft, op, site, in_type, *int_type, variable)
        }
        Place::Element(int_type, object, at, index) => {
            let array = context.array(draft, *object);
            let place = context.site(*at);
            let loaded = load_for_step(context, draft, *int_type, place, array, index)?;
            rows::renew_after(
                context.alloc,
                draft,
                op,
                site,
                in_type,
                *int_type,
                place,
                array,
                loaded,
            )
        }
    }
}
// `++x` or `x++`, not used.
#[cycle(expressions)]
fn step_unused(
    context: &Context<'_>,
    draft: &mut Draft,
    op: Op,
    site: Site,
    in_type: IntType,
    place: &Place,
) -> Result<(), AllocError>
    ensures { OnOk result
        (drafted draft.new
        ≡ (rows.after_ways op site in_type (target (context_in context.now) (place_tree place.now))).unused
        (drafted draft.old)) }
{
    match place {
        Place::Scalar(int_type, object) => {
            let variable = context.variable(draft, *object);
            rows::step(context.alloc, draft, op, site, in_type, *int_type, variable)
        }
        Place::Element(int_type, object, at, index) => {
            let array = context.array(draft, *object);
            let place = context.site(*at);
            let loaded = load_for_step(context, draft, *int_type, place, array, index)?;
            rows::renew(
                context.alloc,
                draft,
                op,
                site,
                in_type,
                *int_type,
                place,
                array,
                IntType::Int,
                loaded,
            )
        }
    }
}
// Arguments in order, each of which waits for the later ones.
#[cycle(expressions)]
fn pass(
    context: &Context<'_>,
    draft: &mut Draft,
    arguments: &[Value],
) -> Result<Vec<Tree>, AllocError>
    ensures { IfOk result (λ es. passed_in es.items draft.new
        ≡ passed (context_in context.now) (value_trees arguments.now) (drafted draft.old)) }
{
    let last = last_making(arguments);
    let mut trees = Vec::new(context.alloc);
    for number in 0..arguments.len() {
        let how = strong_if(number + 1 < last);
        let tree = waiting(context, draft, how, &arguments[number])?;
        trees.push(Box::into_inner(tree))?;
    }
    Ok(trees)
}
// A call, and the variable of its result.
#[cycle(expressions)]
fn call(
    context: &Context<'_>,
    draft: &mut Draft,
    function: usize,
    site: usize,
    arguments: &[Value],
) -> Result<usize, AllocError>
    ensures { IfOk result (λ x. (tree.variable x, drafted draft.new)
        ≡ rows.called (context_in context.now) function site (rows.types_of (value_trees arguments.now))
        (passed (context_in context.now) (value_trees arguments.now)) (drafted draft.old)) }
{
    let trees = pass(context, draft, arguments)?;
    let path = context.callee(site)?;
    enter(
        context.alloc,
        draft,
        path,
        context.size(function),
        context.parameters(function),
        arguments,
        &trees,
    )
}
/// The tree of an expression.
#[cycle(expressions)]
pub fn value(
    context: &Context<'_>,
    draft: &mut Draft,
    expression: &Value,
) -> Result<Box<Tree>, AllocError>
    ensures { IfOk result (λ e. given e.value draft.new
        ≡ (ways (context_in context.now) (value_tree expression.now)).value (drafted draft.old)) }
{
    match expression {
        Value::Constant(int_type, number) => rows::constant(context.alloc, *int_type, number),
        Value::Read(place) => read(context, draft, place),
        Value::Assign(_, place, right) => match place {
            Place::Scalar(int_type, object) => {
                let variable = context.variable(draft, *object);
                let tree = value(context, draft, right)?;
                rows::set_kept(
                    context.alloc,
                    draft,
                    *int_type,
                    right.int_type(),
                    variable,
                    tree,
                )
            }
            Place::Element(int_type, object, at, index) => {
                let array = context.array(draft, *object);
                let site = context.site(*at);
                let how = strong_or_weak(makes(right));
                let index = waiting(context, draft, how, index)?;
                let tree = value(context, draft, right)?;
                rows::put_kept(
                    context.alloc,
                    draft,
                    *int_type,
                    right.int_type(),
                    site,
                    array,
                    index,
                    tree,
                )
            }
        },
        Value::Update(op, at, in_type, place, right) => match place {
            Place::Scalar(int_type, object) => {
                let site = context.site(*at);
                let variable = context.variable(draft, *object);
                let tree = value(context, draft, right)?;
                rows::update_kept(
                    context.alloc,
                    draft,
                    *op,
                    site,
                    *in_type,
                    *int_type,
                    right.int_type(),
                    variable,
                    tree,
                )
            }
            Place::Element(int_type, object, place, index) => {
                let site = context.site(*at);
                let array = context.array(draft, *object);
                let place = context.site(*place);
                let how = strong_or_weak(makes(right));
                let index = waiting(context, draft, how, index)?;
                let tree = value(context, draft, right)?;
                rows::update_element_kept(
                    context.alloc,
                    draft,
                    *op,
                    site,
                    *in_type,
                    *int_type,
                    place,
                    array,
                    shape_of(right),
                    right.int_type(),
                    index,
                    tree,
                )
            }
        },
        Value::Step {
            operator,
            at,
            int_type,
            place,
            is_prefix,
        } => {
            let site = context.site(*at);
            if *is_prefix {
                step(context, draft, *operator, site, *int_type, place)
            } else {
                step_after(context, draft, *operator, site, *int_type, place)
            }
        }
        Value::Call {
            int_type: _,
            function,
            site,
            at: _,
            arguments,
        } => {
            let result = call(context, draft, *function, *site, arguments.as_slice())?;
            rows::variable(context.alloc, result)
        }
        Value::Any(int_type, _) => rows::any(context.alloc, draft, *int_type),
        Value::Unary(op, at, int_type, operand) => {
            let site = context.site(*at);
            let from = operand.int_type();
            let tree = value(context, draft, operand)?;
            rows::unary(context.alloc, *op, site, from, *int_type, tree)
        }
        Value::Convert(int_type, operand) => converted(context, draft, *int_type, operand),
        Value::Binary {
            operator,
            at,
            int_type,
            left,
            right,
        } => {
            let site = context.site(*at);
            let how = strong_if(makes(right));
            let first = waiting(context, draft, how, left)?;
            let second = value(context, draft, right)?;
            rows::binary(
                context.alloc,
                *operator,
                site,
                *int_type,
                left.int_type(),
                right.int_type(),
                first,
                second,
            )
        }
        Value::And { left, right } => {
            let join = rows::begin_join(context.alloc, draft, IntType::Int)?;
            let between = draft.fresh(1)?;
            choose(context, draft, between, join.if_false, left)?;
            draft.at(between);
            choose(context, draft, join.if_true, join.if_false, right)?;
            rows::end_truth(context.alloc, draft, join)
        }
        Value::Or { left, right } => {
            let join = rows::begin_join(context.alloc, draft, IntType::Int)?;
            let between = draft.fresh(1)?;
            choose(context, draft, join.if_true, between, left)?;
            draft.at(between);
            choose(context, draft, join.if_true, join.if_false, right)?;
            rows::end_truth(context.alloc, draft, join)
        }
        Value::Conditional {
            int_type,
            condition,
            if_true,
            if_false,
        } => {
            let join = rows::begin_join(context.alloc, draft, *int_type)?;
            choose(context, draft, join.if_true, join.if_false, condition)?;
            draft.at(join.if_true);
            let first = converted(context, draft, *int_type, if_true)?;
            rows::set_between(draft, join.variable, join.behind, join.if_false, first)?;
            let second = converted(context, draft, *int_type, if_false)?;
            rows::end_join(context.alloc, draft, join, second)
        }
        Value::Then(first, second) => {
            perform(context, draft, first)?;
            value(context, draft, second)
        }
    }
}
// An expression with a tree decides between two points.
#[cycle(expressions)]
fn decide(
    context: &Context<'_>,
    draft: &mut Draft,
    if_true: usize,
    if_false: usize,
    expression: &Value,
) -> Result<(), AllocError>
    ensures { OnOk result (drafted draft.new ≡ rows.guards if_true if_false
        ((ways (context_in context.now) (value_tree expression.now)).value (drafted draft.old))) }
{
    let tree = value(context, draft, expression)?;
    rows::guards(context.alloc, draft, if_true, if_false, tree)
}
/// An expression decides between two points.
#[cycle(expressions)]
pub fn choose(
    context: &Context<'_>,
    draft: &mut Draft,
    if_true: usize,
    if_false: usize,
    expression: &Value,
) -> Result<(), AllocError>
    ensures { OnOk result (drafted draft.new
        ≡ (ways (context_in context.now) (value_tree expression.now)).choice if_true if_false (drafted draft.old)) }
{
    match expression {
        Value::Constant(_, _) => decide(context, draft, if_true, if_false, expression),
        Value::Read(_) => decide(context, draft, if_true, if_false, expression),
        Value::Assign(_, _, _) => decide(context, draft, if_true, if_false, expression),
        Value::Update(_, _, _, _, _) => decide(context, draft, if_true, if_false, expression),
        Value::Step { .. } => decide(context, draft, if_true, if_false, expression),
        Value::Call { .. } => decide(context, draft, if_true, if_false, expression),
        Value::Any(_, _) => decide(context, draft, if_true, if_false, expression),
        Value::Unary(op, _, _, operand) => {
            if rows::is_not(*op) {
                choose(context, draft, if_false, if_true, operand)
            } else {
                decide(context, draft, if_true, if_false, expression)
            }
        }
        Value::Convert(_, _) => decide(context, draft, if_true, if_false, expression),
        Value::Binary { .. } => decide(context, draft, if_true, if_false, expression),
        Value::And { left, right } => {
            let between = draft.fresh(1)?;
            choose(context, draft, between, if_false, left)?;
            draft.at(between);
            choose(context, draft, if_true, if_false, right)
        }
        Value::Or { left, right } => {
            let between = draft.fresh(1)?;
            choose(context, draft, if_true, between, left)?;
            draft.at(between);
            choose(context, draft, if_true, if_false, right)
        }
        Value::Conditional { .. } => decide(context, draft, if_true, if_false, expression),
        Value::Then(first, second) => {
            perform(context, draft, first)?;
            choose(context, draft, if_true, if_false, second)
        }
    }
}
// An expression whose tree isn't used.
#[cycle(expressions)]
fn discard(context: &Context<'_>, draft: &mut Draft, expression: &Value) -> Result<(), AllocError>
    ensures { OnOk result (drafted draft.new ≡ rows.dropped (shape_of (value_tree expression.now))
        (type_of (value_tree expression.now))
        ((ways (context_in context.now) (value_tree expression.now)).value (drafted draft.old))) }
{
    let tree = value(context, draft, expression)?;
    rows::dropped(
        context.alloc,
        draft,
        shape_of(expression),
        expression.int_type(),
        tree,
    )
}
/// An expression that isn't used.
#[cycle(expressions)]
pub fn unused(
    context: &Context<'_>,
    draft: &mut Draft,
    expression: &Value,
) -> Result<(), AllocError>
    ensures { OnOk result
        (drafted draft.new ≡ (ways (context_in context.now) (value_tree expression.now)).unused (drafted draft.old)) }
{
    match expression {
        Value::Constant(_, _) => discard(context, draft, expression),
        Value::Read(_) => discard(context, draft, expression),
        Value::Assign(_, place, right) => match place {
            Place::Scalar(_, _) => discard(context, draft, expression),
            Place::Element(int_type, object, at, index) => {
                let array = context.array(draft, *object);
                let site = context.site(*at);
                let how = strong_if(makes(right));
                let index = waiting(context, draft, how, index)?;
                let tree = value(context, draft, right)?;
                rows::put(draft, *int_type, right.int_type(), site, array, index, tree)
            }
        },
        Value::Update(op, at, in_type, place, right) => match place {
            Place::Scalar(_, _) => discard(context, draft, expression),
            Place::Element(int_type, object, place, index) => {
                let site = context.site(*at);
                let array = context.array(draft, *object);
                let place = context.site(*place);
                let how = strong_or_weak(makes(right));
                let index = waiting(context, draft, how, index)?;
                let tree = value(context, draft, right)?;
                rows::update_element(
                    context.alloc,
                    draft,
                    *op,
                    site,
                    *in_type,
                    *int_type,
                    place,
                    array,
                    shape_of(right),
                    right.int_type(),
                    index,
                    tree,
                )
            }
        },
        Value::Step {
            operator,
            at,
            int_type,
            place,
            ..
        } => step_unused(
            context,
            draft,
            *operator,
            context.site(*at),
            *int_type,
            place,
        ),
        Value::Call { .. } => discard(context, draft, expression),
        Value::Any(_, _) => discard(context, draft, expression),
        Value::Unary(_, _, _, _) => discard(context, draft, expression),
        Value::Convert(_, _) => discard(context, draft, expression),
        Value::Binary { .. } => discard(context, draft, expression),
        Value::And { .. } => discard(context, draft, expression),
        Value::Or { .. } => discard(context, draft, expression),
        Value::Conditional { .. } => discard(context, draft, expression),
        Value::Then(first, second) => {
            perform(context, draft, first)?;
            unused(context, draft, second)
        }
    }
}
// A condition that is true from here on.
#[cycle(expressions)]
fn assume(context: &Context<'_>, draft: &mut Draft, expression: &Value) -> Result<(), AllocError>
    ensures { OnOk result (drafted draft.new ≡ rows.assumed
        (rows.as_int (rows.operand (value_tree expression.now)
        (ways (context_in context.now) (value_tree expression.now)))) (drafted draft.old)) }
{
    let after = draft.fresh(1)?;
    if represents(IntType::Int, expression.int_type()) {
        choose(context, draft, after, NOWHERE, expression)?;
        draft.at(after);
        Ok(())
    } else {
        let tree = converted(context, draft, IntType::Int, expression)?;
        rows::guards(context.alloc, draft, after, NOWHERE, tree)?;
        draft.at(after);
        Ok(())
    }
}
/// An expression for its effect alone.
#[cycle(expressions)]
pub fn perform(context: &Context<'_>, draft: &mut Draft, effect: &Effect) -> Result<(), AllocError>
    ensures { OnOk result
        (drafted draft.new ≡ performed (context_in context.now) (effect_tree effect.now) (drafted draft.old)) }
{
    match effect {
        Effect::Unused(expression) => unused(context, draft, expression),
        Effect::Call {
            function,
            site,
            at: _,
            arguments,
        } => {
            call(context, draft, *function, *site, arguments.as_slice())?;
            Ok(())
        }
        Effect::Assume(_, condition) => assume(context, draft, condition),
        Effect::Assert(at, condition) => {
            let site = context.site(*at);
            let tree = value(context, draft, condition)?;
            rows::check(draft, site, condition.int_type(), tree)
        }
        Effect::Abort(_) => rows::abort(context.alloc, draft),
        Effect::Then(first, second) => {
            perform(context, draft, first)?;
            perform(context, draft, second)
        }
    }
}
