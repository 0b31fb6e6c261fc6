// Scopes: a row of the table is an object, before the scope behind it.

ghost use Rattle.std.specs.Prelude.{◌≡◌, ◌≤◌, ◌∷◌, ◌++◌, [], length, IfOk, OnOk, IsTrue};
ghost use Rattle.pk_typed.specs.Views.{declared_tree, declared_trees};
ghost use Rattle.pk_meaning.specs.Programs as programs;
ghost use Rattle.pk_runner_frame.specs.Frames.{Reading, object_in, scope_in};
ghost use Rattle.pk_runner_state.specs.Shown.{program_in, Agrees};
ghost use Rattle.pk_runner_state.specs.Rows.{rows_of_scope, IsOrderly, reading_of};

use crate::programs::{Program, has_name, parameters, visible};
use pk_ctypes::IntType;
use pk_runner_frame::{Object, Scope};
use pk_typed::Declared;
use std::alloc::{AllocError, Global};

/// An object in scope, and the scope behind it.
#[derive(Clone, Copy)]
pub struct Row {
    pub object: Object,
    pub parent: Scope,
}

/// For each object of the file, and for each path and object of its function, the row that was made of it last.
#[derive(Drop)]
pub struct Lasts {
    pub files: Vec<usize>,
    pub locals: Vec<Vec<usize>>,
}

/// The rows, and those that were made last.
#[derive(Drop)]
pub struct Table {
    pub rows: Vec<Row>,
    pub lasts: Lasts,
    ghost orderly: { IsOrderly rows.items },
}

fn is_same_scope(a: Scope, b: Scope) -> bool
    ensures { IsTrue result → a ≡ b }
{
    match a {
        Scope::File(n) => match b {
            Scope::File(m) => n == m,
            Scope::Row(_) => false,
        },
        Scope::Row(n) => match b {
            Scope::File(_) => false,
            Scope::Row(m) => n == m,
        },
    }
}

fn is_same_object(a: Object, b: Object) -> bool
    ensures { IsTrue result → a ≡ b }
{
    match a {
        Object::File(i) => match b {
            Object::File(j) => i == j,
            Object::Local(_, _) => false,
            Object::Result(_) => false,
        },
        Object::Local(k, i) => match b {
            Object::File(_) => false,
            Object::Local(m, j) => k == m && i == j,
            Object::Result(_) => false,
        },
        Object::Result(k) => match b {
            Object::File(_) => false,
            Object::Local(_, _) => false,
            Object::Result(m) => k == m,
        },
    }
}

fn is_row(row: &Row, object: Object, parent: Scope) -> bool
    ensures { IsTrue result → row.now ≡ record { object = object; parent = parent } }
{
    is_same_object(row.object, object) && is_same_scope(row.parent, parent)
}

fn number_at(list: &[usize], place: usize) -> usize {
    if place < list.len() { list[place] } else { 0 }
}

// The row that was made of an object last, if it is known.
fn last(lasts: &Lasts, object: Object) -> usize {
    match object {
        Object::File(place) => number_at(&lasts.files, place),
        Object::Local(path, place) => {
            if path < lasts.locals.len() {
                number_at(&lasts.locals[path], place)
            } else {
                0
            }
        }
        Object::Result(_) => 0,
    }
}

fn set_number(list: &mut Vec<usize>, place: usize, number: usize) {
    if place < list.len() {
        list[place] = number;
    }
}

fn set_last(lasts: &mut Lasts, object: Object, number: usize) {
    match object {
        Object::File(place) => set_number(&mut lasts.files, place, number),
        Object::Local(path, place) => {
            if path < lasts.locals.len() {
                set_number(&mut lasts.locals[path], place, number);
            }
        }
        Object::Result(_) => {}
    }
}

// A row behind the others.
fn add(table: &mut Table, row: Row) -> Result<(), AllocError>
    requires { rows_of_scope row.parent ≤ length table.old.rows.items }
    ensures rows { OnOk result (table.new.rows.items ≡ table.old.rows.items ++ row ∷ []) }
    ensures before { (s : Reading) → Agrees s table.new.rows.items → Agrees s table.old.rows.items }
{
    table.rows.push(row)?;
    Ok(())
}

const FILLER: Row = Row {
    object: Object::File(0),
    parent: Scope::File(0),
};

/// Rows as far as that of a scope, which is there in every run.
pub fn reach(table: &mut Table, scope: Scope) -> Result<(), AllocError>
    ensures there { OnOk result (rows_of_scope scope ≤ length table.new.rows.items) }
    ensures before { (s : Reading) → Agrees s table.new.rows.items → Agrees s table.old.rows.items }
{
    match scope {
        Scope::File(_) => {}
        Scope::Row(number) => {
            while table.rows.len() <= number {
                add(table, FILLER)?;
            }
        }
    }
    Ok(())
}

// An object comes into scope. The row that was made of it last stands for the same, if it has the same scope behind it.
fn extend(table: &mut Table, object: Object, scope: Scope) -> Result<Scope, AllocError>
    ensures scope { (s : Reading) → Agrees s table.new.rows.items →
        IfOk result (λ x. scope_in s x ≡ object_in object ∷ scope_in s scope) }
    ensures before { (s : Reading) → Agrees s table.new.rows.items → Agrees s table.old.rows.items }
{
    let last = last(&table.lasts, object);
    if last < table.rows.len() {
        if is_row(&table.rows[last], object, scope) {
            return Ok(Scope::Row(last));
        }
    }
    reach(table, scope)?;
    let number = table.rows.len();
    let row = Row {
        object,
        parent: scope,
    };
    add(table, row)?;
    set_last(&mut table.lasts, object, number);
    Ok(Scope::Row(number))
}

/// An object of a path comes into scope, if it has a name.
pub fn with_local(
    program: &Program<'_>,
    table: &mut Table,
    path: usize,
    object: usize,
    scope: Scope,
) -> Result<Scope, AllocError>
    ensures scope { (s : Reading) → Agrees s table.new.rows.items →
        IfOk result (λ x.
        scope_in s x ≡ programs.with_local (program_in program.now) path object (scope_in s scope)) }
    ensures before { (s : Reading) → Agrees s table.new.rows.items → Agrees s table.old.rows.items }
{
    if has_name(program, path, object) {
        extend(table, Object::Local(path, object), scope)
    } else {
        Ok(scope)
    }
}

#[tactic(auto, unfolding(pk_typed::specs::Views::declared_tree))]
pub fn with_declared(
    program: &Program<'_>,
    table: &mut Table,
    path: usize,
    declared: &Declared,
    scope: Scope,
) -> Result<Scope, AllocError>
    ensures scope { (s : Reading) → Agrees s table.new.rows.items →
        IfOk result (λ x. scope_in s x
        ≡ programs.with_declared (program_in program.now) path (declared_tree declared.now) (scope_in s scope)) }
    ensures before { (s : Reading) → Agrees s table.new.rows.items → Agrees s table.old.rows.items }
{
    match declared {
        Declared::Scalar(number, _, _) => with_local(program, table, path, *number, scope),
        Declared::Array(number, _, _) => with_local(program, table, path, *number, scope),
        Declared::Static(number, _) => extend(table, Object::File(*number), scope),
        Declared::Hiding(_, _) => Ok(scope),
    }
}

pub fn with_all_declared(
    program: &Program<'_>,
    table: &mut Table,
    path: usize,
    objects: &[Declared],
    scope: Scope,
) -> Result<Scope, AllocError>
    ensures scope { (s : Reading) → Agrees s table.new.rows.items →
        IfOk result (λ x. scope_in s x
        ≡ programs.with_all_declared (program_in program.now) path (declared_trees objects.now) (scope_in s scope)) }
    ensures before { (s : Reading) → Agrees s table.new.rows.items → Agrees s table.old.rows.items }
{
    let mut inner = scope;
    for number in 0..objects.len() {
        inner = with_declared(program, table, path, &objects[number], inner)?;
    }
    Ok(inner)
}

fn with_parameters(
    program: &Program<'_>,
    table: &mut Table,
    path: usize,
    types: &[IntType],
    scope: Scope,
) -> Result<Scope, AllocError>
    ensures scope { (s : Reading) → Agrees s table.new.rows.items →
        IfOk result (λ x.
        scope_in s x ≡ programs.with_parameters (program_in program.now) path 0 types.now (scope_in s scope)) }
    ensures before { (s : Reading) → Agrees s table.new.rows.items → Agrees s table.old.rows.items }
{
    let mut inner = scope;
    for number in 0..types.len() {
        inner = with_local(program, table, path, number, inner)?;
    }
    Ok(inner)
}

/// Between the braces of a path's function, and outside the blocks there.
pub fn body_scope(
    program: &Program<'_>,
    table: &mut Table,
    path: usize,
) -> Result<Scope, AllocError>
    ensures scope { (s : Reading) → Agrees s table.new.rows.items →
        IfOk result (λ x. scope_in s x ≡ programs.body_scope (program_in program.now) path) }
    ensures before { (s : Reading) → Agrees s table.new.rows.items → Agrees s table.old.rows.items }
{
    let outer = Scope::File(visible(program, path));
    with_parameters(program, table, path, parameters(program, path), outer)
}

// A place for the row of each object.
fn no_rows(alloc: Global, program: &Program<'_>) -> Result<Lasts, AllocError> {
    let mut locals = Vec::new(alloc);
    for path in 0..program.paths.len() {
        let function = program.paths.path(path).function;
        let count = if function < program.unit.functions.len() {
            match &program.unit.functions[function].body {
                Some(body) => body.locals.len(),
                None => 0,
            }
        } else {
            0
        };
        locals.push(vec![in alloc; 0usize; count]?)?;
    }
    Ok(Lasts {
        files: vec![in alloc; 0usize; program.unit.objects.len()]?,
        locals,
    })
}

impl Table {
    /// What each row stands for.
    pub fn is_readable(&self)
        ensures { Agrees (reading_of self.now.rows.items) self.now.rows.items }
    {}

    pub fn new(alloc: Global, program: &Program<'_>) -> Result<Table, AllocError>
        ensures { IfOk result (λ t. t.rows.items ≡ []) }
    {
        Ok(Table {
            rows: Vec::new(alloc),
            lasts: no_rows(alloc, program)?,
        })
    }
}
