// Bodies of functions.

ghost use Rattle.std.specs.Prelude.{◌≡◌, option_map, OnOk, IfOk};
ghost use Rattle.pk_ast.specs.Views.{block_tree};
ghost use Rattle.pk_typed.specs.Views.{item_trees, body_tree};
ghost use Rattle.pk_type_scope.specs.Failures.{noted};
ghost use Rattle.pk_type_declaration.specs.Views.{walked_in};
ghost use Rattle.pk_type_declaration.specs.Rules.{failing};
ghost use Rattle.pk_type_jump.specs.Labels.{labels_of};
ghost use Rattle.pk_type_jump.specs.Views.{listed_in, jumped_in};
ghost use Rattle.pk_type_statement.specs.Trees.{typed_items};
ghost use Rattle.pk_type_statement.specs.Views.{passed_in};
ghost use Rattle.pk_type.specs.Rules as rules;
ghost use Rattle.pk_type.specs.Functions as definitions;
ghost use Rattle.pk_type.specs.Rules.{noting};

use pk_ast::Block;
use pk_ctypes::{Pos, Rule};
use pk_type_declaration::Walk;
use pk_type_jump::{Jumps, Labels};
use pk_type_scope::Typing;
use pk_type_statement::{Around, Statements, body_items};
use pk_typed::{Body, Item};
use std::alloc::{AllocError, Global};
use std::mem;

fn note_all(walk: &mut Walk<'_>, rule: Rule, places: &[Pos])
    ensures { walked_in walk.new ≡ failing noted (rules.each_at rule places.now) (walked_in walk.old) }
{
    for at in places {
        walk.fail_if(true, rule, *at);
    }
}

// Notes the labels and jumps of a body that are out of place.
#[tactic(auto, using(pk_type_statement::proofs::CaseLemmas::failing_twice))]
fn note_jumps(walk: &mut Walk<'_>, labels: &Labels<'_>, jumps: &Jumps)
    ensures { walked_in walk.new
        ≡ failing noted (rules.about_jumps (listed_in labels.now) (jumped_in jumps.now))
        (walked_in walk.old) }
{
    note_all(walk, Rule::Label, &labels.repeated);
    note_all(walk, Rule::Label, &jumps.unknown);
    note_all(walk, Rule::Jump, &jumps.misplaced);
}

// The walk begins a body: no case is before it.
fn begin(to: &mut Statements<'_>, alloc: Global)
    ensures { passed_in to.new ≡ definitions.before_body (walked_in to.old.walk) }
{
    to.cases = Vec::new(alloc);
    to.has_default = false;
}

/// A body's labels, and its items.
#[derive(Drop)]
struct Checked {
    labels: usize,
    items: Option<Vec<Item>>,
}

// Checks a body, and gives its items.
fn walked_body(
    to: &mut Statements<'_>,
    alloc: Global,
    returns: Typing,
    block: &Block,
) -> Result<Checked, AllocError>
    ensures walked { OnOk result (walked_in to.new.walk
        ≡ definitions.after_body noting returns (block_tree block.now) (walked_in to.old.walk)) }
    ensures labels { IfOk result (λ r. r.labels
        ≡ (labels_of (walked_in to.old.walk).scoping.text (block_tree block.now).items).count) }
    ensures items { let labels = labels_of (walked_in to.old.walk).scoping.text (block_tree block.now).items in
        IfOk result (λ r. option_map (λ v. item_trees v.items) r.items
        ≡ typed_items noting.statements returns labels.labels (definitions.before_body (walked_in to.old.walk))
        (block_tree block.now).items) }
{
    let text = to.walk.scope.text;
    let labels = Labels::of(alloc, text, block)?;
    let jumps = Jumps::of(alloc, text, &labels, block)?;
    begin(to, alloc);
    let around = Around {
        alloc,
        returns,
        labels: &labels,
    };
    let items = body_items(to, &around, &block.items)?;
    note_jumps(&mut to.walk, &labels, &jumps);
    Ok(Checked {
        labels: labels.count,
        items,
    })
}

// A body of its items, with the calls and the objects of its function.
#[tactic(auto, unfolding(pk_ast::specs::Views::block_tree, pk_typed::specs::Views::body_tree))]
fn taken(
    to: &mut Statements<'_>,
    alloc: Global,
    visible: usize,
    block: &Block,
    checked: Checked,
) -> Option<Body>
    ensures walked { walked_in to.new.walk ≡ definitions.emptied (walked_in to.old.walk) }
    ensures body { option_map body_tree result
        ≡ option_map (definitions.body_of (block_tree block.now) visible checked.labels (walked_in to.old.walk))
        (option_map (λ v. item_trees v.items) checked.items) }
{
    let calls = mem::replace(&mut to.walk.notes.calls, Vec::new(alloc));
    let locals = mem::replace(&mut to.walk.locals, Vec::new(alloc));
    let Checked { labels, items } = checked;
    match items {
        None => None,
        Some(items) => Some(Body {
            open: block.open,
            close: block.close,
            locals,
            visible,
            labels,
            calls,
            items,
        }),
    }
}

/// Checks a function's body, in whose scope its parameters are, and gives its tree.
pub(crate) fn body(
    to: &mut Statements<'_>,
    alloc: Global,
    returns: Typing,
    visible: usize,
    block: &Block,
) -> Result<Option<Body>, AllocError>
    ensures walked { OnOk result (walked_in to.new.walk
        ≡ definitions.emptied (definitions.after_body noting returns (block_tree block.now) (walked_in to.old.walk))) }
    ensures body { IfOk result (λ b. option_map body_tree b
        ≡ definitions.body_at noting returns visible (block_tree block.now) (walked_in to.old.walk)) }
{
    let checked = walked_body(to, alloc, returns, block)?;
    Ok(taken(to, alloc, visible, block, checked))
}
