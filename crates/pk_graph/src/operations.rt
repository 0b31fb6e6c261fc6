// Accesses: the operations of a graph that can fault.

ghost use Rattle.std.specs.Prelude.{◌≡◌, ◌∷◌, [], ◌++◌, OnOk, IfOk, map};
ghost use Rattle.pk_graph.specs.Views.{tree_view, instr_view};
ghost use Rattle.pk_graph.specs.Accesses.{of_unary, of_binary, of_tree, of_index, of_instr, of_edges, accesses_of, access, if_signed};
ghost use Rattle.pk_graph.specs.AccessViews.{access_views, operation_view};
ghost use Rattle.pk_graph.specs.Graphs.{edge_view};
ghost use Rattle.pk_graph.specs.Shown.{graph_view};

use crate::graphs::{Edge, Graph};
use crate::instructions::Instr;
use crate::trees::{Site, Tree};
use pk_ctypes::{IntType, Op, is_signed};
use std::alloc::{AllocError, Global};

/// How an operation can fault, with its operands.
#[derive(Clone, Copy)]
pub enum Operation<'a> {
    /// An index of an array of so many elements.
    Index(usize, &'a Tree),
    /// A division: its dividend, and the divisor, which may be 0.
    Divisor(&'a Tree, &'a Tree),
    /// A unary minus in a signed type.
    Negation(IntType, &'a Tree),
    /// `+`, `-`, `*`, `/` or `%` in a signed type, whose result may lie outside of it.
    Result(Op, IntType, &'a Tree, &'a Tree),
    /// A shift in a type: the left operand and the count.
    Shift(Op, IntType, &'a Tree, &'a Tree),
    /// An assertion.
    Assertion(&'a Tree),
}

/// An operation that can fault, at the point where its edge begins.
#[derive(Clone, Copy)]
pub struct Access<'a> {
    pub point: usize,
    pub site: Site,
    pub operation: Operation<'a>,
}

// One access more.
#[tactic(auto, unfolding(crate::specs::AccessViews::access_view))]
fn add<'a>(
    all: &mut Vec<Access<'a>>,
    point: usize,
    site: Site,
    operation: Operation<'a>,
) -> Result<(), AllocError>
    ensures { OnOk result (access_views all.new.items
        ≡ access_views all.old.items ++ access point site (operation_view operation.entry) ∷ []) }
{
    all.push(Access {
        point,
        site,
        operation,
    })?;
    Ok(())
}

// One more in a signed type.
fn add_if_signed<'a>(
    all: &mut Vec<Access<'a>>,
    point: usize,
    site: Site,
    int_type: IntType,
    operation: Operation<'a>,
) -> Result<(), AllocError>
    ensures { OnOk result (access_views all.new.items
        ≡ access_views all.old.items ++ if_signed int_type (access point site (operation_view operation.entry))) }
{
    if is_signed(int_type) {
        add(all, point, site, operation)?;
    }
    Ok(())
}

// Those of an operator with one operand itself.
#[tactic(auto, unfolding(crate::specs::AccessViews::operation_view))]
fn add_unary<'a>(
    all: &mut Vec<Access<'a>>,
    point: usize,
    operator: Op,
    site: Site,
    int_type: IntType,
    operand: &'a Tree,
) -> Result<(), AllocError>
    ensures { OnOk result (access_views all.new.items
        ≡ access_views all.old.items ++ of_unary point operator site int_type (tree_view operand.now)) }
{
    if operator == Op::Neg {
        add_if_signed(
            all,
            point,
            site,
            int_type,
            Operation::Negation(int_type, operand),
        )?;
    }
    Ok(())
}

// Those of an operator with two itself.
#[tactic(auto, unfolding(crate::specs::AccessViews::operation_view))]
fn add_binary<'a>(
    all: &mut Vec<Access<'a>>,
    point: usize,
    operator: Op,
    site: Site,
    int_type: IntType,
    left: &'a Tree,
    right: &'a Tree,
) -> Result<(), AllocError>
    ensures { OnOk result (access_views all.new.items
        ≡ access_views all.old.items
        ++ of_binary point operator site int_type (tree_view left.now) (tree_view right.now)) }
{
    let result = Operation::Result(operator, int_type, left, right);
    match operator {
        Op::Add | Op::Sub | Op::Mul => add_if_signed(all, point, site, int_type, result),
        Op::Div | Op::Rem => {
            add(all, point, site, Operation::Divisor(left, right))?;
            add_if_signed(all, point, site, int_type, result)
        }
        Op::Shl | Op::Shr => add(
            all,
            point,
            site,
            Operation::Shift(operator, int_type, left, right),
        ),
        _ => Ok(()),
    }
}

// Those of a tree.
#[tactic(auto, unfolding(crate::specs::Views::tree_view, crate::specs::Accesses::of_tree))]
fn add_tree<'a>(all: &mut Vec<Access<'a>>, point: usize, tree: &'a Tree) -> Result<(), AllocError>
    ensures { OnOk result
        (access_views all.new.items ≡ access_views all.old.items ++ of_tree point (tree_view tree.now)) }
{
    match tree {
        Tree::Constant(_, _) => Ok(()),
        Tree::Variable(_) => Ok(()),
        Tree::Converted(_, operand) => add_tree(all, point, operand),
        Tree::Unary(operator, site, int_type, operand) => {
            add_tree(all, point, operand)?;
            add_unary(all, point, *operator, *site, *int_type, operand)
        }
        Tree::Binary {
            operator,
            site,
            int_type,
            left,
            right,
        } => {
            add_tree(all, point, left)?;
            add_tree(all, point, right)?;
            add_binary(all, point, *operator, *site, *int_type, left, right)
        }
    }
}

// That of an index, if it is one.
#[tactic(auto, unfolding(crate::specs::AccessViews::operation_view))]
fn add_index<'a>(
    all: &mut Vec<Access<'a>>,
    point: usize,
    is_access: bool,
    site: Site,
    length: usize,
    index: &'a Tree,
) -> Result<(), AllocError>
    ensures { OnOk result (access_views all.new.items
        ≡ access_views all.old.items ++ of_index point is_access site length (tree_view index.now)) }
{
    if is_access {
        add(all, point, site, Operation::Index(length, index))?;
    }
    Ok(())
}

// Those of an instruction.
#[tactic(auto, unfolding(crate::specs::AccessViews::operation_view, crate::specs::Views::instr_view, crate::specs::Accesses::of_instr))]
fn add_instr<'a>(
    all: &mut Vec<Access<'a>>,
    point: usize,
    instr: &'a Instr,
) -> Result<(), AllocError>
    ensures { OnOk result
        (access_views all.new.items ≡ access_views all.old.items ++ of_instr point (instr_view instr.now)) }
{
    match instr {
        Instr::Skip => Ok(()),
        Instr::Set(_, value) => add_tree(all, point, value),
        Instr::Havoc { .. } => Ok(()),
        Instr::Clear(_) => Ok(()),
        Instr::Load {
            array,
            site,
            is_access,
            index,
            ..
        } => {
            add_tree(all, point, index)?;
            add_index(all, point, *is_access, *site, array.length, index)
        }
        Instr::Store {
            array,
            site,
            is_access,
            index,
            value,
        } => {
            add_tree(all, point, index)?;
            add_tree(all, point, value)?;
            add_index(all, point, *is_access, *site, array.length, index)
        }
        Instr::Guard(condition, _) => add_tree(all, point, condition),
        Instr::Check(site, condition) => {
            add_tree(all, point, condition)?;
            add(all, point, *site, Operation::Assertion(condition))
        }
    }
}

// Those of the edges of a point.
#[tactic(auto, unfolding(crate::specs::Graphs::edge_view))]
fn add_edges<'a>(
    all: &mut Vec<Access<'a>>,
    point: usize,
    edges: &'a [Edge],
) -> Result<(), AllocError>
    ensures { OnOk result
        (access_views all.new.items ≡ access_views all.old.items ++ of_edges point (map edge_view edges.now)) }
{
    match edges {
        [] => Ok(()),
        [first, ..] => add_instr(all, point, &first.instr),
    }
}

/// The accesses of a graph, by number of their points, those of a point in order of evaluation: operands from left to right, then their operator, an index where the element is read
/// or written. The two guards of one test share theirs.
pub fn accesses(alloc: Global, graph: &Graph) -> Result<Vec<Access<'_>>, AllocError>
    ensures { IfOk result (λ all. access_views all.items ≡ accesses_of (graph_view graph.now)) }
{
    let mut all = Vec::new(alloc);
    for point in 0..graph.points() {
        add_edges(&mut all, point, graph.edges(point))?;
    }
    Ok(all)
}
