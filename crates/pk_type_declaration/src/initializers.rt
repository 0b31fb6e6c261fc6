// What declared objects begin with.

ghost use Rattle.std.specs.Prelude.{◌≡◌, List, [], ◌∷◌, option_map, Some, None, IfOk, IfErr, OnOk, if◌then◌else◌};
ghost use Rattle.pk_ast.specs.Trees.{expression_then, InitializerItemTree};
ghost use Rattle.pk_ast.specs.Views.{
  expression_tree,
  expression_trees,
  initializer_item_tree,
  initializer_item_trees,
  initializer_tree,
};
ghost use Rattle.pk_typed.specs.Trees as tree;
ghost use Rattle.pk_typed.specs.Views.{value_tree, optional_values, declared_tree};
ghost use Rattle.pk_type_scope.specs.Failures.{noted};
ghost use Rattle.pk_type_declaration.specs.Rules as rules;
ghost use Rattle.pk_type_declaration.specs.Declarations as definitions;
ghost use Rattle.pk_type_declaration.specs.Initializers.{item_values, items_values};
ghost use Rattle.pk_type_declaration.specs.Parts.{joined};
ghost use Rattle.pk_type_declaration.specs.Views.{walked_in};
ghost use Rattle.pk_type_declaration.specs.Walks as walks;
ghost use Rattle.pk_type_declaration.specs.Rules.{first_misfit, noting};

use crate::walk::Walk;
use pk_ast::{Expression, Initializer, InitializerItem};
use pk_ctypes::{Pos, Rule};
use pk_typed::{Declared, Value};
use std::alloc::{AllocError, Global};

// One value, where it is there. Generic, since what is dropped where memory ends is then one value to the prover.
fn alone<T: Drop>(alloc: Global, value: Option<Box<T>>) -> Result<Option<Vec<T>>, AllocError>
    ensures { IfOk result (λ vs. option_map (λ v. v.items) vs ≡ option_map (λ b. b.value ∷ []) value) }
{
    let Some(value) = value else {
        return Ok(None);
    };
    let mut all = Vec::with_capacity(alloc, 1)?;
    all.push(Box::into_inner(value))?;
    Ok(Some(all))
}

// Values, and others behind them, where each list is there.
fn together<T: Drop>(
    first: Option<Vec<T>>,
    second: Option<Vec<T>>,
) -> Result<Option<Vec<T>>, AllocError>
    ensures { IfOk result (λ vs. option_map (λ v. v.items) vs
        ≡ joined (option_map (λ v. v.items) first) (option_map (λ v. v.items) second)) }
{
    let Some(mut first) = first else {
        return Ok(None);
    };
    let Some(mut second) = second else {
        return Ok(None);
    };
    first.append(&mut second)?;
    Ok(Some(first))
}

impl<'a> Walk<'a> {
    // Checks the values of a row, and gives them.
    fn row(
        &mut self,
        alloc: Global,
        first: &Expression,
        more: &[Expression],
    ) -> Result<Option<Vec<Value>>, AllocError>
        ensures walked { OnOk result (walked_in self.new ≡ walks.after_values noting
            (expression_then (expression_tree first.now) (expression_trees more.now)) (walked_in self.old)) }
        ensures values { IfOk result (λ vs. optional_values vs ≡ walks.values_at (walked_in self.old)
            (expression_then (expression_tree first.now) (expression_trees more.now))) }
    {
        let first = self.value(alloc, first)?;
        let first = alone(alloc, first)?;
        let more = self.values(alloc, more)?;
        together(first, more)
    }

    // Checks the values of an item, and gives them.
    #[tactic(auto, unfolding(pk_ast::specs::Views::initializer_item_tree))]
    fn item(
        &mut self,
        alloc: Global,
        item: &InitializerItem,
    ) -> Result<Option<Vec<Value>>, AllocError>
        ensures walked { OnOk result (walked_in self.new
            ≡ walks.after_values noting (item_values (initializer_item_tree item.now)) (walked_in self.old)) }
        ensures values { IfOk result (λ vs. optional_values vs
            ≡ walks.values_at (walked_in self.old) (item_values (initializer_item_tree item.now))) }
    {
        match item {
            InitializerItem::Value(e) => {
                let value = self.value(alloc, e)?;
                alone(alloc, value)
            }
            InitializerItem::Row(row) => self.row(alloc, &row.first, &row.more),
        }
    }

    // Checks the values of items, and gives them.
    fn items(
        &mut self,
        alloc: Global,
        list: &[InitializerItem],
    ) -> Result<Option<Vec<Value>>, AllocError>
        ensures walked { OnOk result (walked_in self.new
            ≡ walks.after_values noting (items_values (initializer_item_trees list.now)) (walked_in self.old)) }
        ensures values { IfOk result (λ vs. optional_values vs
            ≡ walks.values_at (walked_in self.old) (items_values (initializer_item_trees list.now))) }
    {
        let mut all = Some(Vec::new(alloc));
        for item in list {
            let values = self.item(alloc, item)?;
            all = together(all, values)?;
        }
        Ok(all)
    }

    // Checks the values in braces, and gives them.
    fn braced(
        &mut self,
        alloc: Global,
        first: &InitializerItem,
        more: &[InitializerItem],
    ) -> Result<Option<Vec<Value>>, AllocError>
        ensures walked { OnOk result (walked_in self.new ≡ walks.after_values noting
            (items_values (initializer_item_tree first.now ∷ initializer_item_trees more.now)) (walked_in self.old)) }
        ensures values { IfOk result (λ vs. optional_values vs ≡ walks.values_at (walked_in self.old)
            (items_values (initializer_item_tree first.now ∷ initializer_item_trees more.now))) }
    {
        let first = self.item(alloc, first)?;
        let more = self.items(alloc, more)?;
        together(first, more)
    }
}

// A scalar that begins with a value, where it is there.
fn scalar(number: usize, at: Pos, value: Option<Box<Value>>) -> Option<Declared>
    ensures { option_map declared_tree result
        ≡ option_map (λ v. tree.scalar_object number at (Some v)) (option_map (λ b. value_tree b.value) value) }
{
    match value {
        None => None,
        Some(value) => Some(Declared::scalar(number, at, Some(Box::into_inner(value)))),
    }
}

// An array that begins with values, where they are there.
fn array(number: usize, at: Pos, values: Option<Vec<Value>>) -> Option<Declared>
    ensures { option_map declared_tree result
        ≡ option_map (λ vs. tree.array_object number at (Some vs)) (optional_values values) }
{
    match values {
        None => None,
        Some(values) => Some(Declared::array(number, at, Some(values))),
    }
}

// An object that begins with nothing.
fn plain(is_array: bool, number: usize, at: Pos) -> Declared
    ensures { declared_tree result
        ≡ (if is_array then tree.array_object number at None else tree.scalar_object number at None) }
{
    if is_array {
        Declared::array(number, at, None)
    } else {
        Declared::scalar(number, at, None)
    }
}

// An object by its number, with what it begins with.
#[tactic(auto, unfolding(pk_ast::specs::Views::initializer_tree))]
pub(crate) fn first_value(
    walk: &mut Walk<'_>,
    alloc: Global,
    is_array: bool,
    number: usize,
    at: Pos,
    first: &Option<Initializer>,
) -> Result<Option<Declared>, AllocError>
    ensures walked { OnOk result (walked_in walk.new
        ≡ definitions.after_initializer noting (option_map initializer_tree first.now) (walked_in walk.old)) }
    ensures tree { IfOk result (λ d. option_map declared_tree d
        ≡ definitions.object_tree is_array number at (option_map initializer_tree first.now)
        (walked_in walk.old)) }
{
    match first {
        None => Ok(Some(plain(is_array, number, at))),
        Some(Initializer::Single(e)) => {
            let value = walk.value(alloc, e)?;
            Ok(if is_array {
                None
            } else {
                scalar(number, at, value)
            })
        }
        Some(Initializer::Braced { first, more, .. }) => {
            let values = walk.braced(alloc, first, more)?;
            Ok(if is_array {
                array(number, at, values)
            } else {
                None
            })
        }
    }
}

/// Notes braces on a scalar, or none on an array.
#[tactic(auto, unfolding(pk_ast::specs::Views::initializer_tree))]
pub fn note_braces(walk: &mut Walk<'_>, is_array: bool, first: &Option<Initializer>, at: Pos)
    ensures { walked_in walk.new
        ≡ rules.failing noted (rules.braces is_array (option_map initializer_tree first.now) at)
        (walked_in walk.old) }
{
    match first {
        None => {}
        Some(Initializer::Single(_)) => walk.fail_if(is_array, Rule::Array, at),
        Some(Initializer::Braced { .. }) => walk.fail_if(!is_array, Rule::Array, at),
    }
}

// How many elements are left after an item that fits in some of one dimension, or the place of one that doesn't fit.
#[tactic(auto, unfolding(pk_ast::specs::Views::initializer_item_tree))]
fn fitted(length: usize, item: &InitializerItem) -> Result<usize, Pos>
    ensures fits { IfOk result (λ left. (is : List InitializerItemTree) →
        first_misfit length (initializer_item_tree item.now ∷ is) ≡ first_misfit left is) }
    ensures misfit { IfErr result (λ at. (is : List InitializerItemTree) →
        first_misfit length (initializer_item_tree item.now ∷ is) ≡ Some at) }
{
    match item {
        InitializerItem::Row(row) => Err(row.at),
        InitializerItem::Value(e) => match length.checked_sub(1) {
            None => Err(e.first_place()),
            Some(left) => Ok(left),
        },
    }
}

// The place of the first item that doesn't fit in some elements of one dimension.
fn first_misfit(length: usize, list: &[InitializerItem]) -> Option<Pos>
    ensures { result ≡ first_misfit length (initializer_item_trees list.now) }
{
    let mut left = length;
    for item in list {
        match fitted(left, item) {
            Ok(next) => left = next,
            Err(at) => return Some(at),
        }
    }
    None
}

// The same, of the items in braces.
fn braced_misfit(length: usize, first: &InitializerItem, more: &[InitializerItem]) -> Option<Pos>
    ensures { result ≡ first_misfit length (initializer_item_tree first.now ∷ initializer_item_trees more.now) }
{
    match fitted(length, first) {
        Ok(left) => first_misfit(left, more),
        Err(at) => Some(at),
    }
}

fn note_place(walk: &mut Walk<'_>, at: Option<Pos>)
    ensures { walked_in walk.new ≡ rules.failing noted (rules.misfit_at at) (walked_in walk.old) }
{
    match at {
        None => {}
        Some(at) => walk.fail_if(true, Rule::Initialiser, at),
    }
}

/// Notes the first item in braces that doesn't fit in an array of a length: a row, or a value too many.
#[tactic(auto, unfolding(pk_ast::specs::Views::initializer_tree))]
pub fn note_misfit(walk: &mut Walk<'_>, length: Option<usize>, first: &Option<Initializer>)
    ensures { walked_in walk.new
        ≡ rules.failing noted (rules.misfit length (option_map initializer_tree first.now))
        (walked_in walk.old) }
{
    let Some(length) = length else {
        return;
    };
    match first {
        None => {}
        Some(Initializer::Single(_)) => {}
        Some(Initializer::Braced { first, more, .. }) => note_place(
            walk,
            braced_misfit(length, first, more),
        ),
    }
}
