// The labels of a function.

ghost use Rattle.std.specs.Prelude.{◌≡◌, ◌+◌, ◌++◌, List, None, IfOk, OnOk, is_some};
ghost use Rattle.pk_ast.specs.Views.{statement_tree, item_trees, block_tree};
ghost use Rattle.pk_type_jump.specs.Labels as definitions;
ghost use Rattle.pk_type_scope.specs.Scopes.{spelled};
ghost use Rattle.pk_type_jump.specs.Views.{labels_in, listed_in};

use pk_ast::{Block, BlockItem, ForStart, Identifier, Statement};
use pk_ctypes::Pos;
use pk_type_scope::spelling;
use std::alloc::{AllocError, Global};
use std::collections::HashMap;

/// A place by the innermost scope of a declaration that holds it, and by how many of them hold it. Declarations are counted from 1; 0 is the function.
#[derive(Clone, Copy)]
pub struct Within {
    pub scope: usize,
    pub depth: usize,
}

/// A label: its number in the function, counted from 0 in the order of the text, and what holds it.
#[derive(Clone, Copy)]
pub struct Label {
    pub number: usize,
    pub within: Within,
}

/// The labels of a function by name, and the places of those that have the name of an earlier one.
#[derive(Drop)]
pub struct Labels<'a> {
    pub by_name: HashMap<&'a [u8], Label>,
    pub count: usize,
    pub declarations: usize,
    pub repeated: Vec<Pos>,
}

// The number after a number. One that memory can't count is want of memory.
pub(crate) fn next(number: usize) -> Result<usize, AllocError>
    ensures { IfOk result (λ n. n ≡ number + 1) }
{
    match number.checked_add(1) {
        Some(next) => Ok(next),
        None => Err(AllocError),
    }
}

// A place in the scope of the next declaration.
pub(crate) fn inside(declarations: usize, within: Within) -> Result<Within, AllocError>
    ensures { IfOk result (λ w. w ≡ definitions.inside declarations within) }
{
    let scope = next(declarations)?;
    let depth = next(within.depth)?;
    Ok(Within { scope, depth })
}

impl<'a> Labels<'a> {
    fn new(alloc: Global) -> Labels<'a>
        ensures { listed_in result ≡ definitions.nothing_listed }
    {
        Labels {
            by_name: HashMap::new(alloc),
            count: 0,
            declarations: 0,
            repeated: Vec::new(alloc),
        }
    }

    fn get(&self, name: &[u8]) -> Option<Label>
        ensures { result ≡ labels_in self.now name.now }
    {
        self.by_name.get(name).copied()
    }

    // Puts a label at a name, and answers whether there was one before.
    fn put(&mut self, name: &'a [u8], label: Label) -> Result<Option<Label>, AllocError>
        ensures again { IfOk result (λ r. r ≡ labels_in self.old name.now) }
        ensures named { OnOk result (labels_in self.new
            ≡ definitions.named (labels_in self.old) name.now label) }
        ensures count { self.new.count ≡ self.old.count }
        ensures declarations { self.new.declarations ≡ self.old.declarations }
        ensures repeated { self.new.repeated.items ≡ self.old.repeated.items }
    {
        let old = self.by_name.insert(name, label)?;
        Ok(old)
    }

    // Lists a label.
    fn label(&mut self, text: &'a [u8], within: Within, name: Identifier) -> Result<(), AllocError>
        ensures { OnOk result (listed_in self.new
            ≡ definitions.with_label text.now within name (listed_in self.old)) }
    {
        let number = self.count;
        let count = next(number)?;
        let old = self.put(spelling(text, name), Label { number, within })?;
        self.repeat(old, name.at)?;
        self.count = count;
        Ok(())
    }

    // Notes a label whose name an earlier one has.
    fn repeat(&mut self, old: Option<Label>, at: Pos) -> Result<(), AllocError>
        ensures names { self.new.by_name ≡ self.old.by_name }
        ensures declarations { self.new.declarations ≡ self.old.declarations }
        ensures repeated { OnOk result
            (self.new.repeated.items ≡ self.old.repeated.items ++ definitions.is_repeated old at) }
    {
        if old.is_some() {
            self.repeated.push(at)?;
        }
        Ok(())
    }

    // Counts a declaration.
    fn declaration(&mut self) -> Result<(), AllocError>
        ensures { OnOk result (listed_in self.new ≡ definitions.with_declaration (listed_in self.old)) }
    {
        self.declarations = next(self.declarations)?;
        Ok(())
    }

    /// The labels of a function's body.
    pub fn of(alloc: Global, text: &'a [u8], body: &Block) -> Result<Labels<'a>, AllocError>
        ensures { IfOk result (λ labels. listed_in labels
            ≡ definitions.labels_of text.now (block_tree body.now).items) }
    {
        let mut labels = Labels::new(alloc);
        let within = Within { scope: 0, depth: 0 };
        items(&mut labels, text, within, &body.items)?;
        Ok(labels)
    }

    /// The last label of a name.
    pub fn lookup(&self, text: &[u8], name: Identifier) -> Option<Label>
        ensures { result ≡ (listed_in self.now).labels (spelled text.now name) }
    {
        self.get(spelling(text, name))
    }
}

#[cycle(labels)]
#[tactic(auto, using(pk_ast::proofs::ViewLemmas::tree_of_block), unfolding(pk_ast::specs::Views::statement_tree, pk_ast::specs::Views::for_start_tree, crate::specs::Labels::listed))]
fn statement<'a>(
    labels: &mut Labels<'a>,
    text: &'a [u8],
    within: Within,
    s: &Statement,
) -> Result<(), AllocError>
    ensures { OnOk result (listed_in labels.new
        ≡ definitions.listed text.now within (listed_in labels.old) (statement_tree s.now)) }
{
    match s {
        Statement::Block(block) => items(labels, text, within, &block.items),
        Statement::Empty(_) => Ok(()),
        Statement::Expression(_) => Ok(()),
        Statement::Label(name, body) => {
            labels.label(text, within, *name)?;
            statement(labels, text, within, body)
        }
        Statement::Case(_, _, body) => statement(labels, text, within, body),
        Statement::Default(_, body) => statement(labels, text, within, body),
        Statement::If(_, _, body) => statement(labels, text, within, body),
        Statement::IfElse {
            then_branch,
            else_branch,
            ..
        } => {
            statement(labels, text, within, then_branch)?;
            statement(labels, text, within, else_branch)
        }
        Statement::Switch(_, _, body) => statement(labels, text, within, body),
        Statement::While(_, _, body) => statement(labels, text, within, body),
        Statement::Do(_, body, _) => statement(labels, text, within, body),
        Statement::For(_, head, body) => match &head.start {
            ForStart::Declaration(_) => {
                let within = inside(labels.declarations, within)?;
                labels.declaration()?;
                statement(labels, text, within, body)
            }
            ForStart::Expression(_) => statement(labels, text, within, body),
        },
        Statement::Goto(_, _) => Ok(()),
        Statement::Continue(_) => Ok(()),
        Statement::Break(_) => Ok(()),
        Statement::Return(_, _) => Ok(()),
    }
}

#[cycle(labels)]
fn items<'a>(
    labels: &mut Labels<'a>,
    text: &'a [u8],
    within: Within,
    list: &[BlockItem],
) -> Result<(), AllocError>
    ensures { OnOk result (listed_in labels.new
        ≡ definitions.listed_items text.now within (listed_in labels.old) (item_trees list.now)) }
{
    let mut within = within;
    for item in list {
        match item {
            BlockItem::Declaration(_, _) => {
                within = inside(labels.declarations, within)?;
                labels.declaration()?;
            }
            BlockItem::Statement(s) => statement(labels, text, within, s)?,
        }
    }
    Ok(())
}
