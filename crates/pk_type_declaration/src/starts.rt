// What objects begin with that hold it when a run begins.

ghost use Rattle.std.specs.Prelude.{◌≡◌, ◌++◌, ◌∷◌, [], option_map, IfOk, OnOk};
ghost use Rattle.pk_ast.specs.Views.{
  expression_tree,
  expression_trees,
  initializer_item_tree,
  initializer_item_trees,
  initializer_tree,
};
ghost use Rattle.pk_typed.specs.Views.{start_tree};
ghost use Rattle.pk_type_declaration.specs.Constants.{after_constant};
ghost use Rattle.pk_type_declaration.specs.Initializers.{item_values, items_values, given};
ghost use Rattle.pk_type_declaration.specs.Starts as definitions;
ghost use Rattle.pk_type_declaration.specs.Views.{walked_in};
ghost use Rattle.pk_type_declaration.specs.Rules.{noting};

use crate::walk::Walk;
use pk_ast::{Expression, Initializer, InitializerItem};
use pk_ctypes::{IntType, convert};
use pk_typed::Start;
use std::alloc::{AllocError, Global};

fn number_or_0(int_type: IntType, number: Option<i128>) -> i128
    ensures { result ≡ definitions.number_or_0 int_type number }
{
    match number {
        None => 0,
        Some(number) => convert(int_type, number),
    }
}

fn first_or_0(numbers: &[i128]) -> i128
    ensures { result ≡ definitions.first_or_0 numbers.now }
{
    match numbers {
        [] => 0,
        [first, ..] => *first,
    }
}

#[tactic(auto, unfolding(pk_typed::specs::Views::start_tree))]
fn start_of(length: Option<usize>, items: Vec<i128>) -> Start
    ensures { start_tree result ≡ definitions.start_of length items.items }
{
    match length {
        None => Start::Scalar(first_or_0(&items)),
        Some(length) => Start::Array { length, items },
    }
}

// A value that an object begins with, after others.
fn number(
    walk: &mut Walk<'_>,
    alloc: Global,
    int_type: IntType,
    e: &Expression,
    all: &mut Vec<i128>,
) -> Result<(), AllocError>
    ensures walked { OnOk result
        (walked_in walk.new ≡ after_constant noting (expression_tree e.now) (walked_in walk.old)) }
    ensures numbers { OnOk result (all.new.items
        ≡ all.old.items ++ definitions.number_at int_type (walked_in walk.old) (expression_tree e.now) ∷ []) }
{
    let evaluated = walk.constant(alloc, e)?;
    all.push(number_or_0(int_type, evaluated.number()))?;
    Ok(())
}

// Values that an object begins with, after others.
fn numbers(
    walk: &mut Walk<'_>,
    alloc: Global,
    int_type: IntType,
    list: &[Expression],
    all: &mut Vec<i128>,
) -> Result<(), AllocError>
    ensures walked { OnOk result (walked_in walk.new
        ≡ definitions.after_numbers noting (expression_trees list.now) (walked_in walk.old)) }
    ensures numbers { OnOk result (all.new.items
        ≡ all.old.items ++ definitions.numbers_at noting int_type (expression_trees list.now) (walked_in walk.old)) }
{
    for e in list {
        number(walk, alloc, int_type, e, all)?;
    }
    Ok(())
}

// The values of an item, after others.
#[tactic(auto, unfolding(pk_ast::specs::Views::initializer_item_tree, crate::specs::Starts::after_numbers, crate::specs::Starts::numbers_at))]
fn item(
    walk: &mut Walk<'_>,
    alloc: Global,
    int_type: IntType,
    item: &InitializerItem,
    all: &mut Vec<i128>,
) -> Result<(), AllocError>
    ensures walked { OnOk result (walked_in walk.new
        ≡ definitions.after_numbers noting (item_values (initializer_item_tree item.now)) (walked_in walk.old)) }
    ensures numbers { OnOk result (all.new.items ≡ all.old.items
        ++ definitions.numbers_at noting int_type (item_values (initializer_item_tree item.now)) (walked_in walk.old)) }
{
    match item {
        InitializerItem::Value(e) => number(walk, alloc, int_type, e, all),
        InitializerItem::Row(row) => {
            number(walk, alloc, int_type, &row.first, all)?;
            numbers(walk, alloc, int_type, &row.more, all)
        }
    }
}

// The values of items, after others.
fn items(
    walk: &mut Walk<'_>,
    alloc: Global,
    int_type: IntType,
    list: &[InitializerItem],
    all: &mut Vec<i128>,
) -> Result<(), AllocError>
    ensures walked { OnOk result (walked_in walk.new
        ≡ definitions.after_numbers noting (items_values (initializer_item_trees list.now)) (walked_in walk.old)) }
    ensures numbers { OnOk result (all.new.items ≡ all.old.items ++ definitions.numbers_at noting int_type
        (items_values (initializer_item_trees list.now)) (walked_in walk.old)) }
{
    for i in list {
        item(walk, alloc, int_type, i, all)?;
    }
    Ok(())
}

// The values in braces, after others.
fn braced(
    walk: &mut Walk<'_>,
    alloc: Global,
    int_type: IntType,
    first: &InitializerItem,
    more: &[InitializerItem],
    all: &mut Vec<i128>,
) -> Result<(), AllocError>
    ensures walked { OnOk result (walked_in walk.new ≡ definitions.after_numbers noting
        (items_values (initializer_item_tree first.now ∷ initializer_item_trees more.now)) (walked_in walk.old)) }
    ensures numbers { OnOk result (all.new.items ≡ all.old.items ++ definitions.numbers_at noting int_type
        (items_values (initializer_item_tree first.now ∷ initializer_item_trees more.now)) (walked_in walk.old)) }
{
    item(walk, alloc, int_type, first, all)?;
    items(walk, alloc, int_type, more, all)
}

// What an object begins with.
#[tactic(auto, unfolding(pk_ast::specs::Views::initializer_tree, crate::specs::Starts::after_numbers, crate::specs::Starts::numbers_at))]
fn given(
    walk: &mut Walk<'_>,
    alloc: Global,
    int_type: IntType,
    first: &Option<Initializer>,
) -> Result<Vec<i128>, AllocError>
    ensures walked { OnOk result (walked_in walk.new
        ≡ definitions.after_numbers noting (given (option_map initializer_tree first.now))
        (walked_in walk.old)) }
    ensures numbers { IfOk result (λ v. v.items
        ≡ definitions.numbers_at noting int_type (given (option_map initializer_tree first.now))
        (walked_in walk.old)) }
{
    let mut all = Vec::new(alloc);
    match first {
        None => {}
        Some(Initializer::Single(e)) => {
            number(walk, alloc, int_type, e, &mut all)?;
        }
        Some(Initializer::Braced { first, more, .. }) => {
            braced(walk, alloc, int_type, first, more, &mut all)?;
        }
    }
    Ok(all)
}

impl<'a> Walk<'a> {
    /// Checks what an object of the file, or a static one, begins with, and gives it. An array has a length.
    pub fn start(
        &mut self,
        alloc: Global,
        int_type: IntType,
        length: Option<usize>,
        first: &Option<Initializer>,
    ) -> Result<Start, AllocError>
        ensures walked { OnOk result (walked_in self.new
            ≡ definitions.after_numbers noting (given (option_map initializer_tree first.now))
            (walked_in self.old)) }
        ensures start { IfOk result (λ s. start_tree s
            ≡ definitions.start_at noting int_type length (option_map initializer_tree first.now)
            (walked_in self.old)) }
    {
        let items = given(self, alloc, int_type, first)?;
        Ok(start_of(length, items))
    }
}
