// Trees as the lowering makes them.

ghost use Rattle.std.specs.Prelude.{◌≡◌, Ok, IfSome, IfOk};
ghost use Rattle.pk_graph.specs.Trees as tree;
ghost use Rattle.pk_graph.specs.Views.{tree_view};
ghost use Rattle.pk_ctypes.specs.Types.{InType, represents};
ghost use Rattle.pk_ctypes.specs.declared.types.Op.TheVariants.{Eq};
ghost use Rattle.pk_ctypes.specs.declared.types.IntType.TheVariants.{Int};
ghost use Rattle.pk_ctypes.specs.Operators.{HasRight, truth};
ghost use Rattle.pk_draft.specs.Folding as folding;

use pk_ctypes::{IntType, Op, apply, convert, promote, range, result_type};
use pk_graph::{Site, Tree};
use std::alloc::{AllocError, Global};

// The number of a constant.
#[tactic(auto, using(crate::proofs::FoldingLemmas::of_constant))]
fn number_in(tree: &Tree) -> Option<i128>
    ensures { result ≡ folding.number_in (tree_view tree.now) }
{
    match tree {
        Tree::Constant(_, number) => Some(*number),
        Tree::Variable(_) => None,
        Tree::Converted(_, _) => None,
        Tree::Unary(_, _, _, _) => None,
        Tree::Binary {
            operator: _,
            site: _,
            int_type: _,
            left: _,
            right: _,
        } => None,
    }
}

/// Whether a type has each number of another.
pub fn represents(t: IntType, other: IntType) -> bool
    ensures { result ≡ represents t other }
{
    let (low, high) = range(t);
    let (least, greatest) = range(other);
    low <= least && greatest <= high
}

fn is_shift(op: Op) -> bool
    ensures { result ≡ folding.is_shift op }
{
    match op {
        Op::Shl | Op::Shr => true,
        _ => false,
    }
}

/// The type to which an operator's right operand is converted, where the left has type `t`: a shift's count is promoted alone.
pub fn right_type(op: Op, u: IntType, t: IntType) -> IntType
    ensures { result ≡ folding.right_type op u t }
{
    if is_shift(op) { promote(u) } else { t }
}

/// The conversion to a type of the tree of an expression of type `from`.
pub fn conversion(from: IntType, to: IntType, tree: Box<Tree>) -> Tree
    ensures { tree_view result ≡ folding.conversion from to (tree_view tree.value) }
{
    match number_in(&tree) {
        Some(number) => Tree::constant(to, convert(to, number)),
        None => {
            if represents(to, from) {
                Box::into_inner(tree)
            } else {
                Tree::converted(to, tree)
            }
        }
    }
}

/// The same on the heap, where the tree stays if no conversion is needed.
pub fn boxed_conversion(
    alloc: Global,
    u: IntType,
    t: IntType,
    tree: Box<Tree>,
) -> Result<Box<Tree>, AllocError>
    ensures { IfOk result (λ e. tree_view e.value ≡ folding.conversion u t (tree_view tree.value)) }
{
    match number_in(&tree) {
        Some(number) => constant_boxed(alloc, t, &convert(t, number)),
        None => {
            if represents(t, u) {
                Ok(tree)
            } else {
                boxed(alloc, Tree::converted(t, tree))
            }
        }
    }
}

/// An operator with one operand in a type, whose operand has been converted to it.
pub fn unary_tree(op: Op, site: Site, int_type: IntType, operand: Box<Tree>) -> Tree
    requires { IfSome (folding.number_in (tree_view operand.value)) (InType int_type) }
    ensures { tree_view result ≡ folding.unary_tree op site int_type (tree_view operand.value) }
{
    match number_in(&operand) {
        Some(number) => match apply(op, int_type, number, number) {
            Ok(value) => Tree::constant(result_type(op, int_type), value),
            Err(_) => Tree::unary(op, site, int_type, operand),
        },
        None => Tree::unary(op, site, int_type, operand),
    }
}

/// An operator with two operands in a type, to which they have been converted.
pub fn binary_tree(op: Op, site: Site, int_type: IntType, left: Box<Tree>, right: Box<Tree>) -> Tree
    requires left { IfSome (folding.number_in (tree_view left.value)) (InType int_type) }
    requires right { IfSome (folding.number_in (tree_view right.value)) (HasRight op int_type) }
    ensures { tree_view result ≡ folding.binary_tree op site int_type (tree_view left.value) (tree_view right.value) }
{
    match (number_in(&left), number_in(&right)) {
        (Some(a), Some(b)) => match apply(op, int_type, a, b) {
            Ok(value) => Tree::constant(result_type(op, int_type), value),
            Err(_) => Tree::binary(op, site, int_type, left, right),
        },
        (Some(_), None) => Tree::binary(op, site, int_type, left, right),
        (None, _) => Tree::binary(op, site, int_type, left, right),
    }
}

/// An operator in a type, of operands that have the types `u` and `v`.
pub fn operated_tree(
    alloc: Global,
    op: Op,
    site: Site,
    int_type: IntType,
    u: IntType,
    v: IntType,
    left: Box<Tree>,
    right: Box<Tree>,
) -> Result<Tree, AllocError>
    ensures { IfOk result (λ e.
        tree_view e ≡ folding.operated_tree op site int_type u v (tree_view left.value) (tree_view right.value)) }
{
    let a = boxed_conversion(alloc, u, int_type, left);
    let b = boxed_conversion(alloc, v, right_type(op, v, int_type), right);
    let (a, b) = both(a, b)?;
    Ok(binary_tree(op, site, int_type, a, b))
}

// Two values, where there was memory for both. It is generic, so that what is dropped where memory ends is one value to the prover, and not each variant of a tree.
fn both<A: Drop, B: Drop>(
    first: Result<A, AllocError>,
    second: Result<B, AllocError>,
) -> Result<(A, B), AllocError>
    ensures first { IfOk result (λ r. first ≡ Ok r.0) }
    ensures second { IfOk result (λ r. second ≡ Ok r.1) }
{
    let first = first?;
    let second = second?;
    Ok((first, second))
}

/// Whether a tree has a number.
pub fn equals(
    alloc: Global,
    site: Site,
    int_type: IntType,
    left: Box<Tree>,
    number: &i128,
) -> Result<Tree, AllocError>
    ensures { IfOk result (λ e. tree_view e
        ≡ folding.binary_tree Eq site int_type (tree_view left.value) (tree.constant int_type number.now)) }
{
    match number_in(&left) {
        Some(value) => Ok(truth(value == *number)),
        None => {
            let right = constant_boxed(alloc, int_type, number)?;
            Ok(Tree::binary(Op::Eq, site, int_type, left, right))
        }
    }
}

// 1 or 0, of type int.
fn truth(value: bool) -> Tree
    ensures { tree_view result ≡ tree.constant Int (truth value) }
{
    if value {
        Tree::constant(IntType::Int, 1)
    } else {
        Tree::constant(IntType::Int, 0)
    }
}

fn constant_boxed(alloc: Global, int_type: IntType, number: &i128) -> Result<Box<Tree>, AllocError>
    ensures { IfOk result (λ e. tree_view e.value ≡ tree.constant int_type number.now) }
{
    boxed(alloc, Tree::constant(int_type, *number))
}

// It is generic, so that what is dropped where memory ends is one value to the prover.
fn boxed<T: Drop>(alloc: Global, value: T) -> Result<Box<T>, AllocError>
    ensures { IfOk result (λ b. b.value ≡ value) }
{
    Ok(Box::new(alloc, value)?)
}
