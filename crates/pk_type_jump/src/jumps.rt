// Jumps out of place.

ghost use Rattle.std.specs.Prelude.{◌≡◌, ◌+◌, ◌++◌, ◌∷◌, ◌||◌, [], true, Some, not, is_some, IfOk, OnOk, take};
ghost use Rattle.pk_ast.specs.Views.{statement_tree, item_trees, block_tree};
ghost use Rattle.pk_type_jump.specs.Jumps as definitions;
ghost use Rattle.pk_type_jump.specs.Views.{labels_in, around_of, jumped_in};

use crate::labels::{Label, Labels, next};
use pk_ast::{Block, BlockItem, ForStart, Statement};
use pk_ctypes::Pos;
use std::alloc::{AllocError, Global};

/// What is around a place: the innermost scope of a declaration, whether a loop is around it, and the innermost scope around its `switch`.
#[derive(Clone, Copy)]
pub struct Here {
    pub scope: usize,
    pub in_loop: bool,
    pub switch: Option<usize>,
}

/// The places of a function's labels and jumps that are out of place.
#[derive(Drop)]
pub struct Jumps {
    /// The scopes that hold a place, the outermost first.
    pub scopes: Vec<usize>,
    pub declarations: usize,
    pub has_default: bool,
    /// Each `goto` of a name that no label has, at the name.
    pub unknown: Vec<Pos>,
    /// Each other label or jump out of place: at its word, a `goto` at its name.
    pub misplaced: Vec<Pos>,
}

fn is_number(number: Option<usize>, other: usize) -> bool
    ensures { result ≡ definitions.is_number number other }
{
    match number {
        None => false,
        Some(number) => number == other,
    }
}

fn either(a: bool, b: bool) -> bool
    ensures { result ≡ (a || b) }
{
    a || b
}

impl Here {
    // In a loop.
    fn looped(self) -> Here
        ensures { result ≡ record self { in_loop = true } }
    {
        Here {
            scope: self.scope,
            in_loop: true,
            switch: self.switch,
        }
    }

    // In a `switch`.
    fn switched(self) -> Here
        ensures { result ≡ record self { switch = Some self.scope } }
    {
        Here {
            scope: self.scope,
            in_loop: self.in_loop,
            switch: Some(self.scope),
        }
    }

    // Whether a case or a default is out of place.
    fn is_out_of_place(self) -> bool
        ensures { result ≡ not (definitions.is_number self.switch self.scope) }
    {
        !is_number(self.switch, self.scope)
    }

    // Whether there is nothing to break out of.
    fn is_unbroken(self) -> bool
        ensures { result ≡ not (self.in_loop || is_some self.switch) }
    {
        !either(self.in_loop, self.switch.is_some())
    }
}

impl Jumps {
    fn new(alloc: Global) -> Result<Jumps, AllocError>
        ensures jumped { IfOk result (λ jumps. jumped_in jumps ≡ definitions.nothing_jumped) }
        ensures scopes { IfOk result (λ jumps. jumps.scopes.items ≡ 0 ∷ []) }
    {
        let mut scopes = Vec::new(alloc);
        scopes.push(0)?;
        Ok(Jumps {
            scopes,
            declarations: 0,
            has_default: false,
            unknown: Vec::new(alloc),
            misplaced: Vec::new(alloc),
        })
    }

    fn misplaced_if(&mut self, is_misplaced: bool, at: Pos) -> Result<(), AllocError>
        ensures jumped { OnOk result (jumped_in self.new
            ≡ definitions.misplaced_if is_misplaced at (jumped_in self.old)) }
        ensures scopes { self.new.scopes ≡ self.old.scopes }
    {
        if is_misplaced {
            self.misplaced.push(at)?;
        }
        Ok(())
    }

    // Whether a label's scope holds the place.
    fn holds(&self, label: Label) -> bool
        ensures { result ≡ definitions.holds label self.now.scopes.items }
    {
        let scope = self.scopes.get(label.within.depth).copied();
        is_number(scope, label.within.scope)
    }

    fn goto(&mut self, label: Option<Label>, here: Here, at: Pos) -> Result<(), AllocError>
        ensures jumped { OnOk result (jumped_in self.new
            ≡ definitions.gone label (around_of self.old.scopes.items here) at (jumped_in self.old)) }
        ensures scopes { self.new.scopes ≡ self.old.scopes }
    {
        match label {
            None => {
                self.unknown.push(at)?;
                Ok(())
            }
            Some(label) => {
                let is_held = self.holds(label);
                self.misplaced_if(!is_held, at)
            }
        }
    }

    fn default(&mut self, here: Here, at: Pos) -> Result<(), AllocError>
        ensures jumped { OnOk result (jumped_in self.new
            ≡ definitions.with_default (around_of self.old.scopes.items here) at (jumped_in self.old)) }
        ensures scopes { self.new.scopes ≡ self.old.scopes }
    {
        let is_misplaced = either(here.is_out_of_place(), self.has_default);
        self.has_default = true;
        self.misplaced_if(is_misplaced, at)
    }

    // Enters the scope of a declaration.
    fn enter(&mut self, here: Here) -> Result<Here, AllocError>
        ensures around { IfOk result (λ inner. around_of self.new.scopes.items inner
            ≡ definitions.within_next (jumped_in self.old) (around_of self.old.scopes.items here)) }
        ensures jumped { OnOk result (jumped_in self.new ≡ definitions.with_declaration (jumped_in self.old)) }
        ensures scopes { OnOk result
            (self.new.scopes.items ≡ self.old.scopes.items ++ (self.old.declarations + 1) ∷ []) }
    {
        let scope = next(self.declarations)?;
        self.scopes.push(scope)?;
        self.declarations = scope;
        Ok(Here {
            scope,
            in_loop: here.in_loop,
            switch: here.switch,
        })
    }

    // Leaves scopes but this many.
    fn leave(&mut self, depth: usize)
        ensures jumped { jumped_in self.new ≡ jumped_in self.old }
        ensures scopes { self.new.scopes.items ≡ take depth self.old.scopes.items }
    {
        self.scopes.truncate(depth);
    }

    /// Those of a function's body, whose labels are these.
    pub fn of(
        alloc: Global,
        text: &[u8],
        labels: &Labels<'_>,
        body: &Block,
    ) -> Result<Jumps, AllocError>
        ensures { IfOk result (λ jumps. jumped_in jumps
            ≡ definitions.jumps_of text.now (labels_in labels.now) (block_tree body.now).items) }
    {
        let mut jumps = Jumps::new(alloc)?;
        let here = Here {
            scope: 0,
            in_loop: false,
            switch: None,
        };
        items(&mut jumps, text, labels, here, &body.items)?;
        Ok(jumps)
    }
}

#[cycle(jumps)]
#[tactic(auto, using(pk_ast::proofs::ViewLemmas::tree_of_block), unfolding(pk_ast::specs::Views::statement_tree, pk_ast::specs::Views::for_start_tree, crate::specs::Jumps::jumped))]
fn statement(
    jumps: &mut Jumps,
    text: &[u8],
    labels: &Labels<'_>,
    here: Here,
    s: &Statement,
) -> Result<(), AllocError>
    ensures jumped { OnOk result (jumped_in jumps.new
        ≡ definitions.jumped text.now (labels_in labels.now) (around_of jumps.old.scopes.items here)
        (jumped_in jumps.old) (statement_tree s.now)) }
    ensures scopes { OnOk result (jumps.new.scopes.items ≡ jumps.old.scopes.items) }
{
    match s {
        Statement::Block(block) => items(jumps, text, labels, here, &block.items),
        Statement::Empty(_) => Ok(()),
        Statement::Expression(_) => Ok(()),
        Statement::Label(_, body) => statement(jumps, text, labels, here, body),
        Statement::Case(at, _, body) => {
            jumps.misplaced_if(here.is_out_of_place(), *at)?;
            statement(jumps, text, labels, here, body)
        }
        Statement::Default(at, body) => {
            jumps.default(here, *at)?;
            statement(jumps, text, labels, here, body)
        }
        Statement::If(_, _, body) => statement(jumps, text, labels, here, body),
        Statement::IfElse {
            then_branch,
            else_branch,
            ..
        } => {
            statement(jumps, text, labels, here, then_branch)?;
            statement(jumps, text, labels, here, else_branch)
        }
        Statement::Switch(_, _, body) => {
            let had_default = jumps.has_default;
            jumps.has_default = false;
            statement(jumps, text, labels, here.switched(), body)?;
            jumps.has_default = had_default;
            Ok(())
        }
        Statement::While(_, _, body) => statement(jumps, text, labels, here.looped(), body),
        Statement::Do(_, body, _) => statement(jumps, text, labels, here.looped(), body),
        Statement::For(_, head, body) => match &head.start {
            ForStart::Declaration(_) => {
                let depth = jumps.scopes.len();
                let inner = jumps.enter(here)?;
                statement(jumps, text, labels, inner.looped(), body)?;
                jumps.leave(depth);
                Ok(())
            }
            ForStart::Expression(_) => statement(jumps, text, labels, here.looped(), body),
        },
        Statement::Goto(_, name) => {
            let label = labels.lookup(text, *name);
            jumps.goto(label, here, name.at)
        }
        Statement::Continue(at) => jumps.misplaced_if(!here.in_loop, *at),
        Statement::Break(at) => jumps.misplaced_if(here.is_unbroken(), *at),
        Statement::Return(_, _) => Ok(()),
    }
}

#[cycle(jumps)]
fn items(
    jumps: &mut Jumps,
    text: &[u8],
    labels: &Labels<'_>,
    here: Here,
    list: &[BlockItem],
) -> Result<(), AllocError>
    ensures jumped { OnOk result (jumped_in jumps.new
        ≡ definitions.jumped_items text.now (labels_in labels.now) (around_of jumps.old.scopes.items here)
        (jumped_in jumps.old) (item_trees list.now)) }
    ensures scopes { OnOk result (jumps.new.scopes.items ≡ jumps.old.scopes.items) }
{
    let depth = jumps.scopes.len();
    let mut here = here;
    for item in list {
        match item {
            BlockItem::Declaration(_, _) => here = jumps.enter(here)?,
            BlockItem::Statement(s) => statement(jumps, text, labels, here, s)?,
        }
    }
    jumps.leave(depth);
    Ok(())
}
