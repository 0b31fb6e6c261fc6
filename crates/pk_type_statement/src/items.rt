// The items of a block.

ghost use Rattle.std.specs.Prelude.{◌≡◌, Some, option_map, map, IfOk, IfSome, OnOk};
ghost use Rattle.pk_ast.specs.Trees as trees;
ghost use Rattle.pk_ast.specs.Views as ast;
ghost use Rattle.pk_typed.specs.Trees as tree;
ghost use Rattle.pk_typed.specs.Views.{declared_trees, statement_tree};
ghost use Rattle.pk_typed.specs.declared.statements.Item.TheVariants as items;
ghost use Rattle.pk_type_statement.specs.Items.{and_objects, and_statement};
ghost use Rattle.pk_type_statement.specs.Views.{items_in, statement_in};

use pk_ast as ast;
use pk_ctypes::Pos;
use pk_type_declaration::Parts;
use pk_typed::{Declared, Item, Statement};
use std::alloc::{AllocError, Global};

// Declared objects as items of a block.
fn as_items(alloc: Global, objects: Vec<Declared>) -> Result<Vec<Item>, AllocError>
    ensures { IfOk result (λ v. v.items ≡ map items.Declared objects.items) }
{
    objects
        .into_iter()
        .map(|object| Item::Declared(object))
        .collect(alloc)
}

/// Adds declared objects, where each has a tree.
#[tactic(auto, using(crate::proofs::ItemLemmas::objects_added))]
pub(crate) fn add_objects(
    all: &mut Parts<Item>,
    alloc: Global,
    objects: Option<Vec<Declared>>,
) -> Result<(), AllocError>
    ensures { OnOk result (items_in all.new
        ≡ and_objects (items_in all.old) (option_map (λ v. declared_trees v.items) objects)) }
{
    match objects {
        None => all.is_whole = false,
        Some(objects) => {
            let mut more = as_items(alloc, objects)?;
            all.items.append(&mut more)?;
        }
    }
    Ok(())
}

/// Adds a statement, where it has a tree.
#[tactic(auto, using(crate::proofs::ItemLemmas::statement_added))]
pub(crate) fn add_statement(
    all: &mut Parts<Item>,
    statement: Option<Box<Statement>>,
) -> Result<(), AllocError>
    ensures { OnOk result (items_in all.new ≡ and_statement (items_in all.old) (statement_in statement)) }
{
    match statement {
        None => all.is_whole = false,
        Some(statement) => all.items.push(Item::Statement(Box::into_inner(statement)))?,
    }
    Ok(())
}

/// The place of a `;` alone, where the statement is that. It is added as it is, without a way over the heap.
#[tactic(auto, unfolding(pk_ast::specs::Views::statement_tree))]
pub(crate) fn empty_at(s: &ast::Statement) -> Option<Pos>
    ensures { IfSome result (λ at. ast.statement_tree s.now ≡ trees.empty at) }
{
    match s {
        ast::Statement::Empty(at) => Some(*at),
        _ => None,
    }
}

/// Adds a `;` alone.
#[tactic(auto, using(crate::proofs::ItemLemmas::empty_added))]
pub(crate) fn add_empty(all: &mut Parts<Item>, at: Pos) -> Result<(), AllocError>
    ensures { OnOk result (items_in all.new ≡ and_statement (items_in all.old) (Some (tree.empty at))) }
{
    all.items.push(Item::Statement(Statement::empty(at)))?;
    Ok(())
}
