// What each form of expression makes of its checked parts. Each notes the rules that fail at it.

ghost use Rattle.std.specs.Prelude.{◌≡◌, ◌&&◌, pos, is_some, option_map, IfOk, OnOk};
ghost use Rattle.pk_typed.specs.Trees as typed_trees;
ghost use Rattle.pk_typed.specs.Views.{place_tree, value_tree, effect_tree};
ghost use Rattle.pk_ctypes.specs.Conversions.{usual_of};
ghost use Rattle.pk_ctypes.specs.declared.types.IntType.TheVariants as int_types;
ghost use Rattle.pk_type_expression.specs.Forms as forms;
ghost use Rattle.pk_type_expression.specs.Mentions as mentions;
ghost use Rattle.pk_type_expression.specs.Rules as rules;
ghost use Rattle.pk_type_expression.specs.Typed as typed;
ghost use Rattle.pk_type_expression.specs.Types as types;
ghost use Rattle.pk_type_scope.specs.Notes.{noted_in, with_failures};
ghost use Rattle.pk_type_expression.specs.Views.{evaluated_tree, operand_tree, mentioned_in, known_of};

use crate::boxes::{both, boxed_option};
use crate::checked::{Checked, Operand, operand_of};
use crate::evaluated::{Evaluated, effect_of, place_of, value_of, valued, without_value};
use crate::mentions::{Mentions, is_among};
use crate::names::{Target, typing_of};
use pk_ast::{AssignmentOperator, BinaryOperator, StepOperator, UnaryOperator};
use pk_ctypes::{IntType, Op, Pos, Rule, promote, result_type, usual};
use pk_type_scope::{Declaration, Notes, Object, Typing, is_array, is_object, is_scalar};
use pk_typed::{Effect, Place, Value};
use std::alloc::{AllocError, Global};

fn operand_type(op: Op, left: IntType, right: IntType) -> IntType
    ensures { result ≡ types.operand_type op left right }
{
    match op {
        Op::Shl | Op::Shr => promote(left),
        Op::Add | Op::Sub | Op::Mul | Op::Div | Op::Rem => usual(left, right),
        Op::And | Op::Or | Op::Xor => usual(left, right),
        Op::Lt | Op::Gt | Op::Le | Op::Ge | Op::Eq | Op::Ne => usual(left, right),
        Op::Neg | Op::BitNot | Op::Not => usual(left, right),
    }
}

fn scalar_target(declared: Option<Declaration>) -> Option<Target>
    ensures { result ≡ types.of_object types.scalar_target declared }
{
    match declared {
        None => None,
        Some(Declaration::Function(_)) => None,
        Some(Declaration::Enumerator(_)) => None,
        Some(Declaration::TypeName(_)) => None,
        Some(Declaration::Object(o)) => if o.is_array {
            None
        } else {
            Some(Target {
                variable: o.variable,
                int_type: o.int_type,
                is_const: o.is_const,
                bracket: None,
            })
        },
    }
}

fn element_target(at: Pos, declared: Option<Declaration>) -> Option<Target>
    ensures { result ≡ types.of_object (types.element_target at) declared }
{
    match declared {
        None => None,
        Some(Declaration::Function(_)) => None,
        Some(Declaration::Enumerator(_)) => None,
        Some(Declaration::TypeName(_)) => None,
        Some(Declaration::Object(o)) => if o.is_array {
            Some(Target {
                variable: o.variable,
                int_type: o.int_type,
                is_const: o.is_const,
                bracket: Some(at),
            })
        } else {
            None
        },
    }
}

fn type_of_target(target: Option<Target>) -> Typing
    ensures { result ≡ types.type_of_target target }
{
    match target {
        None => Typing::Unknown,
        Some(t) => typing_of(t.int_type),
    }
}

fn type_of_name(declared: Option<Declaration>, target: Option<Target>) -> Typing
    requires { target ≡ types.of_object types.scalar_target declared }
    ensures { result ≡ types.type_of_name declared }
{
    match declared {
        Some(Declaration::Enumerator(_)) => Typing::Integer(IntType::Int),
        _ => type_of_target(target),
    }
}

fn scalar_value(object: Object) -> Option<Value>
    ensures { option_map value_tree result ≡ typed.scalar_value object }
{
    if object.is_array {
        return None;
    }
    match object.int_type {
        None => None,
        Some(t) => Some(Value::read(Place::scalar(t, object.variable))),
    }
}

fn enumerator_value(value: Option<i32>) -> Option<Value>
    ensures { option_map value_tree result ≡ option_map (typed_trees.constant int_types.Int) value }
{
    match value {
        None => None,
        Some(number) => Some(Value::constant(IntType::Int, i128::from(number))),
    }
}

fn name_value(declared: Option<Declaration>) -> Option<Value>
    ensures { option_map value_tree result ≡ typed.name_value declared }
{
    match declared {
        None => None,
        Some(Declaration::Object(o)) => scalar_value(o),
        Some(Declaration::Function(_)) => None,
        Some(Declaration::Enumerator(value)) => enumerator_value(value),
        Some(Declaration::TypeName(_)) => None,
    }
}

/// A name as an expression, at the name.
pub(crate) fn name(
    alloc: Global,
    notes: &mut Notes,
    at: Pos,
    declared: Option<Declaration>,
) -> Result<Checked, AllocError>
    ensures notes { OnOk result
        (noted_in notes.new ≡ with_failures (noted_in notes.old) (forms.name_failures at declared)) }
    ensures known { IfOk result (λ c. known_of c ≡ forms.known_name declared) }
{
    notes.fail_if(!is_object(declared), Rule::Undeclared, at);
    notes.fail_if(is_array(declared), Rule::Array, at);
    let target = scalar_target(declared);
    let mentions = Mentions::of_name(alloc, declared)?;
    let tree = valued(alloc, name_value(declared))?;
    Ok(Checked {
        typing: type_of_name(declared, target),
        target,
        mentions,
        tree,
    })
}

fn element_of(at: Pos, index: Option<Box<Value>>, object: Object) -> Option<Value>
    ensures { option_map value_tree result
        ≡ typed.element_value at (option_map (λ v. value_tree v.value) index) object }
{
    if !object.is_array {
        return None;
    }
    match both(object.int_type, index) {
        None => None,
        Some((t, index)) => Some(Value::read(Place::element(t, object.variable, at, index))),
    }
}

fn element_value(at: Pos, index: Option<Box<Value>>, declared: Option<Declaration>) -> Option<Value>
    ensures { option_map value_tree result
        ≡ types.of_object (typed.element_value at (option_map (λ v. value_tree v.value) index)) declared }
{
    match declared {
        None => None,
        Some(Declaration::Function(_)) => None,
        Some(Declaration::Enumerator(_)) => None,
        Some(Declaration::TypeName(_)) => None,
        Some(Declaration::Object(o)) => element_of(at, index, o),
    }
}

/// An element of an array: its name at `at`, its `[` at `bracket`.
pub(crate) fn element(
    alloc: Global,
    notes: &mut Notes,
    at: Pos,
    bracket: Pos,
    declared: Option<Declaration>,
    index: Checked,
) -> Result<Checked, AllocError>
    ensures notes { OnOk result
        (noted_in notes.new ≡ with_failures (noted_in notes.old) (forms.element_failures at declared)) }
    ensures known { IfOk result (λ c. known_of c ≡ forms.known_element bracket declared (known_of index)) }
{
    notes.fail_if(!is_object(declared), Rule::Undeclared, at);
    notes.fail_if(is_scalar(declared), Rule::Array, at);
    let target = element_target(bracket, declared);
    let mut mentions = Mentions::of_name(alloc, declared)?;
    mentions.join(&index.mentions)?;
    let tree = valued(
        alloc,
        element_value(bracket, value_of(index.tree), declared),
    )?;
    Ok(Checked {
        typing: type_of_target(target),
        target,
        mentions,
        tree,
    })
}

/// An element of a row, by two indices: its name at `at`. No array has rows and columns.
pub(crate) fn row_element(
    alloc: Global,
    notes: &mut Notes,
    at: Pos,
    declared: Option<Declaration>,
    row: Checked,
    column: Checked,
) -> Result<Checked, AllocError>
    ensures notes { OnOk result
        (noted_in notes.new ≡ with_failures (noted_in notes.old) (forms.row_element_failures at declared)) }
    ensures known { IfOk result (λ c. known_of c ≡ forms.known_row_element declared (known_of row) (known_of column)) }
{
    notes.fail_if(!is_object(declared), Rule::Undeclared, at);
    notes.fail_if(true, Rule::Array, at);
    let mut mentions = Mentions::of_name(alloc, declared)?;
    mentions.join(&row.mentions)?;
    mentions.join(&column.mentions)?;
    Ok(Checked {
        typing: Typing::Unknown,
        target: None,
        mentions,
        tree: None,
    })
}

fn number(alloc: Global, int_type: IntType, number: i128) -> Result<Checked, AllocError>
    ensures { IfOk result (λ c. known_of c ≡ forms.known_constant int_type number) }
{
    let tree = valued(alloc, Some(Value::constant(int_type, number)))?;
    Ok(Checked {
        typing: Typing::Integer(int_type),
        target: None,
        mentions: Mentions::none(alloc),
        tree,
    })
}

/// A constant with its type.
pub(crate) fn constant(alloc: Global, int_type: IntType, value: u64) -> Result<Checked, AllocError>
    ensures { IfOk result (λ c. known_of c ≡ forms.known_constant int_type (pos value)) }
{
    number(alloc, int_type, i128::from(value))
}

/// A character constant.
pub(crate) fn character(alloc: Global, value: &i8) -> Result<Checked, AllocError>
    ensures { IfOk result (λ c. known_of c ≡ forms.known_constant int_types.Int value.now) }
{
    number(alloc, IntType::Int, i128::from(*value))
}

fn is_const(target: Option<Target>) -> bool
    ensures { result ≡ rules.is_const target }
{
    match target {
        None => false,
        Some(t) => t.is_const,
    }
}

fn step_value(op: StepOperator, is_prefix: bool, at: Pos, place: Option<Place>) -> Option<Value>
    ensures { option_map value_tree result
        ≡ option_map (typed.step_value op is_prefix at) (option_map place_tree place) }
{
    match place {
        None => None,
        Some(place) => {
            let int_type = usual(place.int_type(), IntType::Int);
            Some(Value::step(op.number_operator(), at, int_type, place, is_prefix))
        }
    }
}

/// `++` or `--`, at its place.
pub(crate) fn step(
    alloc: Global,
    notes: &mut Notes,
    op: StepOperator,
    is_prefix: bool,
    at: Pos,
    operand: Checked,
) -> Result<Checked, AllocError>
    ensures notes { OnOk result
        (noted_in notes.new ≡ with_failures (noted_in notes.old) (forms.step_failures at (known_of operand))) }
    ensures known { IfOk result (λ c. known_of c ≡ forms.known_step op is_prefix at (known_of operand)) }
{
    let target = operand.target;
    notes.fail_if(target.is_none(), Rule::Place, at);
    notes.fail_if(is_const(target), Rule::Const, at);
    let mut mentions = operand.mentions;
    mentions.change(target)?;
    let tree = valued(alloc, step_value(op, is_prefix, at, place_of(operand.tree)))?;
    Ok(Checked {
        typing: type_of_target(target),
        target: None,
        mentions,
        tree,
    })
}

fn unary_type(op: Option<Op>, typing: Typing) -> Typing
    ensures { result ≡ types.of_integer (types.unary_type op) typing }
{
    match typing {
        Typing::Void => Typing::Unknown,
        Typing::Integer(t) => match op {
            None => Typing::Integer(promote(t)),
            Some(op) => Typing::Integer(result_type(op, promote(t))),
        },
        Typing::Unknown => Typing::Unknown,
    }
}

fn unary_value(op: Option<Op>, at: Pos, operand: Option<Operand>) -> Option<Value>
    ensures { option_map value_tree result ≡ option_map (typed.unary_value op at) (option_map operand_tree operand) }
{
    match operand {
        None => None,
        Some(x) => {
            let int_type = promote(x.int_type);
            match op {
                None => Some(Value::convert(int_type, x.tree)),
                Some(op) => Some(Value::unary(op, at, int_type, x.tree)),
            }
        }
    }
}

/// A prefix operator on a value, at its place.
pub(crate) fn unary(
    alloc: Global,
    op: UnaryOperator,
    at: Pos,
    operand: Checked,
) -> Result<Checked, AllocError>
    ensures { IfOk result (λ c. known_of c ≡ forms.known_unary op at (known_of operand)) }
{
    let op = op.number_operator();
    let typing = unary_type(op, operand.typing);
    let value = unary_value(op, at, operand_of(operand.typing, operand.tree));
    let tree = valued(alloc, value)?;
    Ok(Checked {
        typing,
        target: None,
        mentions: operand.mentions,
        tree,
    })
}

fn converted(to: IntType, value: Option<Box<Value>>) -> Option<Value>
    ensures { option_map value_tree result
        ≡ option_map (typed_trees.convert to) (option_map (λ v. value_tree v.value) value) }
{
    match value {
        None => None,
        Some(value) => Some(Value::convert(to, value)),
    }
}

fn typed_cast(
    alloc: Global,
    to: Typing,
    tree: Option<Evaluated>,
) -> Result<Option<Evaluated>, AllocError>
    ensures { IfOk result (λ e. option_map evaluated_tree e ≡ typed.typed_cast to (option_map evaluated_tree tree)) }
{
    match to {
        Typing::Void => without_value(alloc, effect_of(tree)),
        Typing::Integer(t) => valued(alloc, converted(t, value_of(tree))),
        Typing::Unknown => Ok(None),
    }
}

/// A conversion to a type.
pub(crate) fn cast(alloc: Global, to: Typing, operand: Checked) -> Result<Checked, AllocError>
    ensures { IfOk result (λ c. known_of c ≡ forms.known_cast to (known_of operand)) }
{
    let tree = typed_cast(alloc, to, operand.tree)?;
    Ok(Checked {
        typing: to,
        target: None,
        mentions: operand.mentions,
        tree,
    })
}

fn binary_type(op: Option<Op>, left: IntType, right: IntType) -> IntType
    ensures { result ≡ types.binary_type op left right }
{
    match op {
        None => IntType::Int,
        Some(op) => result_type(op, operand_type(op, left, right)),
    }
}

fn type_of_binary(op: Option<Op>, left: Typing, right: Typing) -> Typing
    ensures { result ≡ types.of_integers (types.binary_type op) left right }
{
    match left {
        Typing::Void => Typing::Unknown,
        Typing::Integer(t) => match right {
            Typing::Void => Typing::Unknown,
            Typing::Integer(u) => Typing::Integer(binary_type(op, t, u)),
            Typing::Unknown => Typing::Unknown,
        },
        Typing::Unknown => Typing::Unknown,
    }
}

fn is_or(op: BinaryOperator) -> bool
    ensures { result ≡ typed.is_or op }
{
    matches!(op, BinaryOperator::LogicalOr)
}

fn binary_value(
    op: Option<Op>,
    is_or: bool,
    at: Pos,
    left: Option<Operand>,
    right: Option<Operand>,
) -> Option<Value>
    ensures { option_map value_tree result
        ≡ typed.of_both (typed.binary_value op is_or at) (option_map operand_tree left)
        (option_map operand_tree right) }
{
    match both(left, right) {
        None => None,
        Some((x, y)) => match op {
            None => if is_or {
                Some(Value::or(x.tree, y.tree))
            } else {
                Some(Value::and(x.tree, y.tree))
            },
            Some(op) => {
                let int_type = operand_type(op, x.int_type, y.int_type);
                Some(Value::binary(op, at, int_type, x.tree, y.tree))
            }
        },
    }
}

fn operands_clash(
    alloc: Global,
    op: Option<Op>,
    left: &Mentions,
    right: &Mentions,
) -> Result<bool, AllocError>
    ensures { IfOk result (λ r. r ≡ (is_some op && mentions.clash (mentioned_in left.now) (mentioned_in right.now))) }
{
    if op.is_none() {
        return Ok(false);
    }
    left.clash(alloc, right)
}

/// A binary operator, at its place.
pub(crate) fn binary(
    alloc: Global,
    notes: &mut Notes,
    op: BinaryOperator,
    at: Pos,
    left: Checked,
    right: Checked,
) -> Result<Checked, AllocError>
    ensures notes { OnOk result (noted_in notes.new
        ≡ with_failures (noted_in notes.old) (forms.binary_failures op at (known_of left) (known_of right))) }
    ensures known { IfOk result (λ c. known_of c ≡ forms.known_binary op at (known_of left) (known_of right)) }
{
    let number = op.number_operator();
    let clash = operands_clash(alloc, number, &left.mentions, &right.mentions)?;
    notes.fail_if(clash, Rule::Unsequenced, at);
    let typing = type_of_binary(number, left.typing, right.typing);
    let mut mentions = left.mentions;
    mentions.join(&right.mentions)?;
    let first = operand_of(left.typing, left.tree);
    let second = operand_of(right.typing, right.tree);
    let tree = valued(alloc, binary_value(number, is_or(op), at, first, second))?;
    Ok(Checked {
        typing,
        target: None,
        mentions,
        tree,
    })
}

fn type_of_conditional(left: Typing, right: Typing) -> Typing
    ensures { result ≡ types.of_integers usual_of left right }
{
    match left {
        Typing::Void => Typing::Unknown,
        Typing::Integer(t) => match right {
            Typing::Void => Typing::Unknown,
            Typing::Integer(u) => Typing::Integer(usual(t, u)),
            Typing::Unknown => Typing::Unknown,
        },
        Typing::Unknown => Typing::Unknown,
    }
}

fn conditional_value(
    condition: Option<Operand>,
    left: Option<Operand>,
    right: Option<Operand>,
) -> Option<Value>
    ensures { option_map value_tree result
        ≡ typed.typed_conditional (option_map operand_tree condition) (option_map operand_tree left)
        (option_map operand_tree right) }
{
    match condition {
        None => None,
        Some(condition) => match both(left, right) {
            None => None,
            Some((x, y)) => {
                let int_type = usual(x.int_type, y.int_type);
                Some(Value::conditional(int_type, condition.tree, x.tree, y.tree))
            }
        },
    }
}

/// `condition ? left : right`.
pub(crate) fn conditional(
    alloc: Global,
    condition: Checked,
    left: Checked,
    right: Checked,
) -> Result<Checked, AllocError>
    ensures { IfOk result
        (λ c. known_of c ≡ forms.known_conditional (known_of condition) (known_of left) (known_of right)) }
{
    let typing = type_of_conditional(left.typing, right.typing);
    let mut mentions = condition.mentions;
    mentions.join(&left.mentions)?;
    mentions.join(&right.mentions)?;
    let first = operand_of(condition.typing, condition.tree);
    let second = operand_of(left.typing, left.tree);
    let third = operand_of(right.typing, right.tree);
    let tree = valued(alloc, conditional_value(first, second, third))?;
    Ok(Checked {
        typing,
        target: None,
        mentions,
        tree,
    })
}

fn assignment_clash(
    alloc: Global,
    target: Option<Target>,
    left: &Mentions,
    right: &Mentions,
) -> Result<bool, AllocError>
    ensures { IfOk result (λ r. r ≡ rules.assignment_clash target (mentioned_in left.now) (mentioned_in right.now)) }
{
    match target {
        None => Ok(false),
        Some(t) => {
            let clash = left.clash(alloc, right)?;
            Ok(clash || is_among(&left.changed, t.variable))
        }
    }
}

fn assignment_place(target: Option<Target>, at: Pos) -> Pos
    ensures { result ≡ rules.assignment_place target at }
{
    match target {
        None => at,
        Some(t) => match t.bracket {
            None => at,
            Some(bracket) => bracket,
        },
    }
}

fn assignment_value(
    op: Option<Op>,
    at: Pos,
    place: Option<Place>,
    right: Option<Operand>,
) -> Option<Value>
    ensures { option_map value_tree result
        ≡ typed.of_both (typed.assignment_value op at) (option_map place_tree place) (option_map operand_tree right) }
{
    match both(place, right) {
        None => None,
        Some((place, x)) => match op {
            None => Some(Value::assign(at, place, x.tree)),
            Some(op) => {
                let int_type = operand_type(op, place.int_type(), x.int_type);
                Some(Value::update(op, at, int_type, place, x.tree))
            }
        },
    }
}

/// An assignment, at its operator.
pub(crate) fn assignment(
    alloc: Global,
    notes: &mut Notes,
    op: AssignmentOperator,
    at: Pos,
    left: Checked,
    right: Checked,
) -> Result<Checked, AllocError>
    ensures notes { OnOk result (noted_in notes.new
        ≡ with_failures (noted_in notes.old) (forms.assignment_failures at (known_of left) (known_of right))) }
    ensures known { IfOk result (λ c. known_of c ≡ forms.known_assignment op at (known_of left) (known_of right)) }
{
    let target = left.target;
    let clash = assignment_clash(alloc, target, &left.mentions, &right.mentions)?;
    notes.fail_if(target.is_none(), Rule::Place, at);
    notes.fail_if(is_const(target), Rule::Const, at);
    notes.fail_if(clash, Rule::Unsequenced, assignment_place(target, at));
    let mut mentions = left.mentions;
    mentions.join(&right.mentions)?;
    mentions.change(target)?;
    let place = place_of(left.tree);
    let second = operand_of(right.typing, right.tree);
    let tree = valued(
        alloc,
        assignment_value(op.number_operator(), at, place, second),
    )?;
    Ok(Checked {
        typing: type_of_target(target),
        target: None,
        mentions,
        tree,
    })
}

#[tactic(auto, unfolding(crate::specs::Views::evaluated_tree))]
fn comma_tree(
    alloc: Global,
    first: Option<Effect>,
    second: Option<Evaluated>,
) -> Result<Option<Evaluated>, AllocError>
    ensures { IfOk result (λ e. option_map evaluated_tree e
        ≡ typed.of_both typed.comma_after (option_map effect_tree first) (option_map evaluated_tree second)) }
{
    let first = boxed_option(alloc, first)?;
    match both(first, second) {
        None => Ok(None),
        Some((first, second)) => match second {
            Evaluated::Value(value) => valued(alloc, Some(Value::then(first, value))),
            Evaluated::Effect(effect) => without_value(alloc, Some(Effect::then(first, effect))),
        },
    }
}

/// `left, right`.
pub(crate) fn comma(alloc: Global, left: Checked, right: Checked) -> Result<Checked, AllocError>
    ensures { IfOk result (λ c. known_of c ≡ forms.known_comma (known_of left) (known_of right)) }
{
    let mut mentions = left.mentions;
    mentions.join(&right.mentions)?;
    let tree = comma_tree(alloc, effect_of(left.tree), right.tree)?;
    Ok(Checked {
        typing: right.typing,
        target: None,
        mentions,
        tree,
    })
}
