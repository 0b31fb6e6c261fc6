// The variables that trees read.

ghost use Rattle.std.specs.Prelude.{◌≡◌, ◌++◌, OnOk, IfOk};
ghost use Rattle.pk_graph.specs.Views.{tree_view};
ghost use Rattle.pk_transfer.specs.Linear.{variables_of};

use pk_graph::Tree;
use std::alloc::{AllocError, Global};

// Adds a tree's, in the order in which they stand there.
#[tactic(auto, unfolding(pk_graph::specs::Views::tree_view))]
fn add_variables(over: &mut Vec<usize>, e: &Tree) -> Result<(), AllocError>
    ensures { OnOk result (over.new.items ≡ over.old.items ++ variables_of (tree_view e.now)) }
{
    match e {
        Tree::Variable(x) => {
            over.push(*x)?;
            Ok(())
        }
        Tree::Constant(_, _) => Ok(()),
        Tree::Converted(_, operand) => add_variables(over, operand),
        Tree::Unary(_, _, _, operand) => add_variables(over, operand),
        Tree::Binary { left, right, .. } => {
            add_variables(over, left)?;
            add_variables(over, right)
        }
    }
}

/// A tree's.
pub(crate) fn variables(alloc: Global, e: &Tree) -> Result<Vec<usize>, AllocError>
    ensures { IfOk result (λ v. v.items ≡ variables_of (tree_view e.now)) }
{
    let mut over = Vec::new(alloc);
    add_variables(&mut over, e)?;
    Ok(over)
}

/// Those of two trees.
pub(crate) fn variables_of_both(
    alloc: Global,
    left: &Tree,
    right: &Tree,
) -> Result<Vec<usize>, AllocError>
    ensures { IfOk result
        (λ v. v.items ≡ variables_of (tree_view left.now) ++ variables_of (tree_view right.now)) }
{
    let mut over = variables(alloc, left)?;
    add_variables(&mut over, right)?;
    Ok(over)
}
