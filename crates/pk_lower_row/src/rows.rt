// Rows of the table that don't recurse: each takes what lowering the parts gave.

ghost use Rattle.std.specs.Prelude.{◌≡◌, ◌+◌, ◌<◌, pos, IfOk, OnOk};
ghost use Rattle.pk_ctypes.specs.declared.types.IntType.TheVariants.{Int};
ghost use Rattle.pk_ctypes.specs.Operators.{is_not};
ghost use Rattle.pk_graph.specs.Views.{tree_view, array_view};
ghost use Rattle.pk_draft.specs.Drafts as drafts;
ghost use Rattle.pk_draft.specs.Folding as folding;
ghost use Rattle.pk_draft.specs.Shown.{drafted};
ghost use Rattle.pk_lower_row.specs.Rows as rows;
ghost use Rattle.pk_lower_row.specs.Joins.{IsJoin};
ghost use Rattle.pk_lower_row.specs.Views.{given, two_in, loaded_in};

use crate::boxes::boxed;
use crate::shapes::{Shape, Waiting, is_plain, stays};
use pk_ctypes::{IntType, Op, result_type};
use pk_draft::{Draft, NOWHERE, boxed_conversion, conversion, operated_tree, unary_tree};
use pk_graph::{Array, Instr, Site, Tree};
use std::alloc::{AllocError, Global};

/// A tree in a fresh temporary.
fn stored(
    alloc: Global,
    draft: &mut Draft,
    int_type: IntType,
    tree: Tree,
) -> Result<Box<Tree>, AllocError>
    ensures { IfOk result (λ e. given e.value draft.new ≡ drafts.stored int_type (tree_view tree) (drafted draft.old)) }
{
    let tree = draft.store(alloc, int_type, tree)?;
    boxed(alloc, tree)
}

/// A tree waits for a later operand.
pub fn held(
    alloc: Global,
    draft: &mut Draft,
    how: Waiting,
    shape: Shape,
    int_type: IntType,
    tree: Box<Tree>,
) -> Result<Box<Tree>, AllocError>
    ensures { IfOk result (λ e. given e.value draft.new ≡ rows.held how shape int_type (given tree.value draft.old)) }
{
    if stays(how, shape) {
        Ok(tree)
    } else {
        stored(alloc, draft, int_type, Box::into_inner(tree))
    }
}

/// A tree that isn't used.
pub fn dropped(
    alloc: Global,
    draft: &mut Draft,
    shape: Shape,
    int_type: IntType,
    tree: Box<Tree>,
) -> Result<(), AllocError>
    ensures { OnOk result (drafted draft.new ≡ rows.dropped shape int_type (given tree.value draft.old)) }
{
    if !is_plain(shape) {
        draft.store(alloc, int_type, Box::into_inner(tree))?;
    }
    Ok(())
}

/// A tree decides between two points.
pub fn guards(
    alloc: Global,
    draft: &mut Draft,
    if_true: usize,
    if_false: usize,
    tree: Box<Tree>,
) -> Result<(), AllocError>
    ensures { OnOk result (drafted draft.new ≡ rows.guards if_true if_false (given tree.value draft.old)) }
{
    let first = tree.copy(alloc)?;
    draft.link(Instr::guard(first, true), if_true)?;
    draft.link(Instr::guard(Box::into_inner(tree), false), if_false)
}

pub fn constant(alloc: Global, int_type: IntType, number: &i128) -> Result<Box<Tree>, AllocError>
    ensures { IfOk result (λ e. tree_view e.value ≡ tree.constant int_type number.now) }
{
    boxed(alloc, Tree::constant(int_type, *number))
}

ghost use Rattle.pk_graph.specs.Trees as tree;

pub fn variable(alloc: Global, variable: usize) -> Result<Box<Tree>, AllocError>
    ensures { IfOk result (λ e. tree_view e.value ≡ tree.variable variable) }
{
    boxed(alloc, Tree::variable(variable))
}

/// An element, by its index, in a temporary.
#[tactic(auto, unfolding(pk_draft::specs::Shown::drafted))]
pub fn load(
    alloc: Global,
    draft: &mut Draft,
    int_type: IntType,
    site: Site,
    array: Array,
    index: Box<Tree>,
) -> Result<Box<Tree>, AllocError>
    ensures { IfOk result
        (λ e. given e.value draft.new ≡ rows.load int_type site (array_view array) (given index.value draft.old)) }
{
    let number = draft.variables();
    draft.temporary(alloc, int_type)?;
    draft.emit(Instr::load(number, array, site, true, Box::into_inner(index)))?;
    variable(alloc, number)
}

/// `a[i] = e`, not used, behind both.
pub fn put(
    draft: &mut Draft,
    int_type: IntType,
    from: IntType,
    site: Site,
    array: Array,
    index: Box<Tree>,
    value: Box<Tree>,
) -> Result<(), AllocError>
    ensures { OnOk result (drafted draft.new
        ≡ rows.put_after int_type from site (array_view array) (two_in index.value value.value draft.old)) }
{
    let value = conversion(from, int_type, value);
    draft.emit(Instr::store(array, site, true, Box::into_inner(index), value))
}

/// A stored value goes into an element, and is given.
fn write(
    alloc: Global,
    draft: &mut Draft,
    array: Array,
    site: Site,
    is_access: bool,
    index: Box<Tree>,
    value: Box<Tree>,
) -> Result<Box<Tree>, AllocError>
    ensures { IfOk result (λ e. given e.value draft.new
        ≡ rows.written (array_view array) site is_access (tree_view index.value) (given value.value draft.old)) }
{
    let copy = value.copy(alloc)?;
    draft.emit(Instr::store(array, site, is_access, Box::into_inner(index), copy))?;
    Ok(value)
}

/// `a[i] = e`, used, behind both.
pub fn put_kept(
    alloc: Global,
    draft: &mut Draft,
    int_type: IntType,
    from: IntType,
    site: Site,
    array: Array,
    index: Box<Tree>,
    value: Box<Tree>,
) -> Result<Box<Tree>, AllocError>
    ensures { IfOk result (λ e. given e.value draft.new
        ≡ rows.kept_after int_type from site (array_view array) (two_in index.value value.value draft.old)) }
{
    let value = conversion(from, int_type, value);
    let value = stored(alloc, draft, int_type, value)?;
    write(alloc, draft, array, site, true, index, value)
}

/// `x = e` behind its right side.
pub fn set(
    draft: &mut Draft,
    int_type: IntType,
    from: IntType,
    variable: usize,
    value: Box<Tree>,
) -> Result<(), AllocError>
    ensures { OnOk result (drafted draft.new ≡ rows.set_after int_type from variable (given value.value draft.old)) }
{
    draft.emit(Instr::set(variable, conversion(from, int_type, value)))
}

/// The same, used.
pub fn set_kept(
    alloc: Global,
    draft: &mut Draft,
    int_type: IntType,
    from: IntType,
    number: usize,
    value: Box<Tree>,
) -> Result<Box<Tree>, AllocError>
    ensures { IfOk result (λ e. given e.value draft.new
        ≡ (tree.variable number, rows.set_after int_type from number (given value.value draft.old))) }
{
    set(draft, int_type, from, number, value)?;
    variable(alloc, number)
}

/// What an assignment with an operator in a type writes to a place.
fn updated_tree(
    alloc: Global,
    op: Op,
    site: Site,
    in_type: IntType,
    int_type: IntType,
    from: IntType,
    old: Box<Tree>,
    value: Box<Tree>,
) -> Result<Tree, AllocError>
    ensures { IfOk result (λ e. tree_view e
        ≡ folding.updated_tree op site in_type int_type from (tree_view old.value) (tree_view value.value)) }
{
    let tree = operated_tree(alloc, op, site, in_type, int_type, from, old, value)?;
    let tree = boxed(alloc, tree)?;
    Ok(conversion(result_type(op, in_type), int_type, tree))
}

/// `x op= e` behind its right side.
pub fn update(
    alloc: Global,
    draft: &mut Draft,
    op: Op,
    site: Site,
    in_type: IntType,
    int_type: IntType,
    from: IntType,
    number: usize,
    value: Box<Tree>,
) -> Result<(), AllocError>
    ensures { OnOk result
        (drafted draft.new ≡ rows.update_after op site in_type int_type from number (given value.value draft.old)) }
{
    let old = variable(alloc, number)?;
    let tree = updated_tree(alloc, op, site, in_type, int_type, from, old, value)?;
    draft.emit(Instr::set(number, tree))
}

/// The same, used.
pub fn update_kept(
    alloc: Global,
    draft: &mut Draft,
    op: Op,
    site: Site,
    in_type: IntType,
    int_type: IntType,
    from: IntType,
    number: usize,
    value: Box<Tree>,
) -> Result<Box<Tree>, AllocError>
    ensures { IfOk result (λ e. given e.value draft.new
        ≡ (
          tree.variable number,
          rows.update_after op site in_type int_type from number (given value.value draft.old),
        )) }
{
    update(
        alloc, draft, op, site, in_type, int_type, from, number, value,
    )?;
    variable(alloc, number)
}

/// Of `a[i] op= e` the index, the right side and the element.
#[derive(Drop)]
pub struct Loaded {
    pub index: Box<Tree>,
    pub right: Box<Tree>,
    pub element: Box<Tree>,
}

/// Of `a[i] op= e`, behind both operands, of which the right side waits while the element is loaded.
pub fn load_between(
    alloc: Global,
    draft: &mut Draft,
    int_type: IntType,
    site: Site,
    array: Array,
    shape: Shape,
    from: IntType,
    index: Box<Tree>,
    right: Box<Tree>,
) -> Result<Loaded, AllocError>
    ensures { IfOk result (λ l. loaded_in l.index.value l.right.value l.element.value draft.new
        ≡ rows.loaded_after int_type site (array_view array) shape from (two_in index.value right.value draft.old)) }
{
    let right = held(alloc, draft, Waiting::Weak, shape, from, right)?;
    let copy = index.copy(alloc)?;
    let copy = boxed(alloc, copy)?;
    let element = load(alloc, draft, int_type, site, array, copy)?;
    Ok(Loaded {
        index,
        right,
        element,
    })
}

/// What is written back, not used.
pub fn renew(
    alloc: Global,
    draft: &mut Draft,
    op: Op,
    site: Site,
    in_type: IntType,
    int_type: IntType,
    place: Site,
    array: Array,
    from: IntType,
    loaded: Loaded,
) -> Result<(), AllocError>
    ensures { OnOk result (drafted draft.new ≡ rows.renew_unused op site in_type int_type place
        (array_view array) from (loaded_in loaded.index.value loaded.right.value loaded.element.value draft.old)) }
{
    let tree = updated_tree(
        alloc,
        op,
        site,
        in_type,
        int_type,
        from,
        loaded.element,
        loaded.right,
    )?;
    draft.emit(Instr::store(array, place, false, Box::into_inner(loaded.index), tree))
}

/// What is written back, used.
pub fn renew_kept(
    alloc: Global,
    draft: &mut Draft,
    op: Op,
    site: Site,
    in_type: IntType,
    int_type: IntType,
    place: Site,
    array: Array,
    from: IntType,
    loaded: Loaded,
) -> Result<Box<Tree>, AllocError>
    ensures { IfOk result (λ e. given e.value draft.new
        ≡ rows.renew_used op site in_type int_type place (array_view array) from
        (loaded_in loaded.index.value loaded.right.value loaded.element.value draft.old)) }
{
    let tree = updated_tree(
        alloc,
        op,
        site,
        in_type,
        int_type,
        from,
        loaded.element,
        loaded.right,
    )?;
    let value = stored(alloc, draft, int_type, tree)?;
    write(alloc, draft, array, place, false, loaded.index, value)
}

/// `a[i] op= e`, not used, behind both operands.
pub fn update_element(
    alloc: Global,
    draft: &mut Draft,
    op: Op,
    site: Site,
    in_type: IntType,
    int_type: IntType,
    place: Site,
    array: Array,
    shape: Shape,
    from: IntType,
    index: Box<Tree>,
    right: Box<Tree>,
) -> Result<(), AllocError>
    ensures { OnOk result (drafted draft.new ≡ rows.renew_unused op site in_type int_type place (array_view array) from
        (rows.loaded_after int_type place (array_view array) shape from (two_in index.value right.value draft.old))) }
{
    let loaded = load_between(
        alloc, draft, int_type, place, array, shape, from, index, right,
    )?;
    renew(
        alloc, draft, op, site, in_type, int_type, place, array, from, loaded,
    )
}

/// The same, used.
pub fn update_element_kept(
    alloc: Global,
    draft: &mut Draft,
    op: Op,
    site: Site,
    in_type: IntType,
    int_type: IntType,
    place: Site,
    array: Array,
    shape: Shape,
    from: IntType,
    index: Box<Tree>,
    right: Box<Tree>,
) -> Result<Box<Tree>, AllocError>
    ensures { IfOk result
        (λ e. given e.value draft.new ≡ rows.renew_used op site in_type int_type place (array_view array) from
        (rows.loaded_after int_type place (array_view array) shape from (two_in index.value right.value draft.old))) }
{
    let loaded = load_between(
        alloc, draft, int_type, place, array, shape, from, index, right,
    )?;
    renew_kept(
        alloc, draft, op, site, in_type, int_type, place, array, from, loaded,
    )
}

/// `a[i]++`, used: the old value is given.
pub fn renew_after(
    alloc: Global,
    draft: &mut Draft,
    op: Op,
    site: Site,
    in_type: IntType,
    int_type: IntType,
    place: Site,
    array: Array,
    loaded: Loaded,
) -> Result<Box<Tree>, AllocError>
    ensures { IfOk result (λ e. given e.value draft.new
        ≡ rows.renew_old op site in_type int_type place (array_view array)
        (loaded_in loaded.index.value loaded.right.value loaded.element.value draft.old)) }
{
    let old = loaded.element.copy(alloc)?;
    let old = boxed(alloc, old)?;
    renew(
        alloc,
        draft,
        op,
        site,
        in_type,
        int_type,
        place,
        array,
        IntType::Int,
        loaded,
    )?;
    Ok(old)
}

/// The constant 1.
pub fn one(alloc: Global) -> Result<Box<Tree>, AllocError>
    ensures { IfOk result (λ e. tree_view e.value ≡ tree.constant Int (pos 1)) }
{
    constant(alloc, IntType::Int, &1)
}

pub fn zero(alloc: Global) -> Result<Box<Tree>, AllocError>
    ensures { IfOk result (λ e. tree_view e.value ≡ tree.constant Int (pos 0)) }
{
    constant(alloc, IntType::Int, &0)
}

/// `++x`.
pub fn step(
    alloc: Global,
    draft: &mut Draft,
    op: Op,
    site: Site,
    in_type: IntType,
    int_type: IntType,
    number: usize,
) -> Result<(), AllocError>
    ensures { OnOk result
        (drafted draft.new ≡ rows.update_scalar op site in_type int_type number rows.one (drafted draft.old)) }
{
    let one = one(alloc)?;
    update(
        alloc,
        draft,
        op,
        site,
        in_type,
        int_type,
        IntType::Int,
        number,
        one,
    )
}

/// `++x`, used.
pub fn step_kept(
    alloc: Global,
    draft: &mut Draft,
    op: Op,
    site: Site,
    in_type: IntType,
    int_type: IntType,
    number: usize,
) -> Result<Box<Tree>, AllocError>
    ensures { IfOk result (λ e. given e.value draft.new
        ≡ (tree.variable number, rows.update_scalar op site in_type int_type number rows.one (drafted draft.old))) }
{
    step(alloc, draft, op, site, in_type, int_type, number)?;
    variable(alloc, number)
}

/// `x++`, used.
pub fn step_after(
    alloc: Global,
    draft: &mut Draft,
    op: Op,
    site: Site,
    in_type: IntType,
    int_type: IntType,
    number: usize,
) -> Result<Box<Tree>, AllocError>
    ensures { IfOk result
        (λ e. given e.value draft.new ≡ rows.after_scalar op site in_type int_type number (drafted draft.old)) }
{
    let old = stored(alloc, draft, int_type, Tree::variable(number))?;
    step(alloc, draft, op, site, in_type, int_type, number)?;
    Ok(old)
}

/// Any number of a type.
#[tactic(auto, unfolding(pk_draft::specs::Shown::drafted))]
pub fn any(alloc: Global, draft: &mut Draft, int_type: IntType) -> Result<Box<Tree>, AllocError>
    ensures { IfOk result (λ e. given e.value draft.new ≡ rows.any_value int_type (drafted draft.old)) }
{
    let number = draft.variables();
    draft.temporary(alloc, int_type)?;
    draft.emit(Instr::havoc(number, int_type, 1))?;
    variable(alloc, number)
}

pub fn converted(
    alloc: Global,
    from: IntType,
    to: IntType,
    tree: Box<Tree>,
) -> Result<Box<Tree>, AllocError>
    ensures { IfOk result (λ e. tree_view e.value ≡ folding.conversion from to (tree_view tree.value)) }
{
    boxed_conversion(alloc, from, to, tree)
}

/// An operator with one operand, of a type.
pub fn unary(
    alloc: Global,
    op: Op,
    site: Site,
    from: IntType,
    int_type: IntType,
    operand: Box<Tree>,
) -> Result<Box<Tree>, AllocError>
    ensures { IfOk result (λ e. tree_view e.value
        ≡ folding.unary_tree op site int_type (folding.conversion from int_type (tree_view operand.value))) }
{
    let operand = converted(alloc, from, int_type, operand)?;
    boxed(alloc, unary_tree(op, site, int_type, operand))
}

/// An operator with two operands, of types `u` and `v`.
pub fn binary(
    alloc: Global,
    op: Op,
    site: Site,
    int_type: IntType,
    u: IntType,
    v: IntType,
    left: Box<Tree>,
    right: Box<Tree>,
) -> Result<Box<Tree>, AllocError>
    ensures { IfOk result (λ e. tree_view e.value
        ≡ folding.operated_tree op site int_type u v (tree_view left.value) (tree_view right.value)) }
{
    let tree = operated_tree(alloc, op, site, int_type, u, v, left, right)?;
    boxed(alloc, tree)
}

/// A tree is put into a variable on the way to a point; on at another.
pub fn set_between(
    draft: &mut Draft,
    variable: usize,
    to: usize,
    on: usize,
    tree: Box<Tree>,
) -> Result<(), AllocError>
    ensures { OnOk result (drafted draft.new ≡ rows.set_between variable to on (given tree.value draft.old)) }
{
    draft.link(Instr::set(variable, Box::into_inner(tree)), to)?;
    draft.at(on);
    Ok(())
}

/// An assertion behind its condition.
pub fn check(
    draft: &mut Draft,
    site: Site,
    from: IntType,
    tree: Box<Tree>,
) -> Result<(), AllocError>
    ensures { OnOk result (drafted draft.new ≡ rows.check_after site from (given tree.value draft.old)) }
{
    draft.emit(Instr::check(site, conversion(from, IntType::Int, tree)))
}

/// Where both truths of a condition begin, and the temporary into which a tree of each is put; they meet at the point behind both.
#[derive(Clone, Copy)]
pub struct Join {
    pub if_true: usize,
    pub if_false: usize,
    pub behind: usize,
    pub variable: usize,
}

/// New points for both truths and behind them, and a temporary.
pub fn begin_join(alloc: Global, draft: &mut Draft, int_type: IntType) -> Result<Join, AllocError>
    ensures draft { OnOk result
        (drafted draft.new ≡ drafts.with_temporary int_type (drafts.fresh 3 (drafted draft.old))) }
    ensures join { IfOk result (λ j. IsJoin j (drafted draft.old).points (drafted draft.old).variables) }
{
    let variable = draft.variables();
    let first = draft.fresh(3)?;
    draft.temporary(alloc, int_type)?;
    Ok(Join {
        if_true: first,
        if_false: first + 1,
        behind: first + 2,
        variable,
    })
}

/// The truths 1 and 0, each at its point, are put into the temporary.
pub fn end_truth(alloc: Global, draft: &mut Draft, join: Join) -> Result<Box<Tree>, AllocError>
    ensures { IfOk result (λ e. given e.value draft.new
        ≡ rows.truths join.if_true join.if_false join.behind join.variable (drafted draft.old)) }
{
    draft.at(join.if_true);
    let tree = one(alloc)?;
    set_between(draft, join.variable, join.behind, join.if_false, tree)?;
    let tree = zero(alloc)?;
    set_between(draft, join.variable, join.behind, join.behind, tree)?;
    variable(alloc, join.variable)
}

/// The second tree of a choice is put into the temporary.
pub fn end_join(
    alloc: Global,
    draft: &mut Draft,
    join: Join,
    last: Box<Tree>,
) -> Result<Box<Tree>, AllocError>
    ensures { IfOk result (λ e. given e.value draft.new
        ≡ (
          tree.variable join.variable,
          rows.set_between join.variable join.behind join.behind (given last.value draft.old),
        )) }
{
    set_between(draft, join.variable, join.behind, join.behind, last)?;
    variable(alloc, join.variable)
}

pub fn is_not(op: Op) -> bool
    ensures { result ≡ is_not op }
{
    match op {
        Op::Not => true,
        Op::Neg => false,
        Op::BitNot => false,
        Op::Add => false,
        Op::Sub => false,
        Op::Mul => false,
        Op::Div => false,
        Op::Rem => false,
        Op::Shl => false,
        Op::Shr => false,
        Op::And => false,
        Op::Or => false,
        Op::Xor => false,
        Op::Lt => false,
        Op::Gt => false,
        Op::Le => false,
        Op::Ge => false,
        Op::Eq => false,
        Op::Ne => false,
    }
}

/// `abort`: nothing comes behind it.
pub fn abort(alloc: Global, draft: &mut Draft) -> Result<(), AllocError>
    ensures { OnOk result (drafted draft.new ≡ rows.assumed rows.zero_ways (drafted draft.old)) }
{
    let after = draft.fresh(1)?;
    let tree = zero(alloc)?;
    guards(alloc, draft, after, NOWHERE, tree)?;
    draft.at(after);
    Ok(())
}
