// What is seen of a run.

ghost use Rattle.std.specs.Prelude.{◌≡◌, ◌≤◌, ◌<◌, ◌++◌, length, map, IfOk, OnOk, option_map};
ghost use Rattle.pk_meaning.specs.Objects as definition;
ghost use Rattle.pk_meaning.specs.Programs.{file_scope};
ghost use Rattle.pk_meaning.specs.Runs.{known_of};
ghost use Rattle.pk_runner_frame.specs.Frames.{Reading, object_in, scope_in};
ghost use Rattle.pk_runner_state.specs.declared.states.State as state;
ghost use Rattle.pk_runner_state.specs.Rows.{rows_of_scope};
ghost use Rattle.pk_runner_state.specs.Shown.{program_in, objects_in, shown, is_visit, Agrees};
ghost use Rattle.pk_runner_visit.specs.Seen.{known_in, visit_in, visit_if};

use pk_ctypes::Pos;
use pk_runner_frame::{Object, Scope};
use pk_runner_state::{Objects, Program, State, Table, Visited, name_of};
use std::alloc::{AllocError, Global};

/// A name in scope, and what its object holds.
#[derive(Drop)]
pub struct Known<'a> {
    pub name: &'a str,
    pub numbers: Vec<i128>,
}

/// A call path, a place, and the names in scope there, newest first: a name hides the same name behind it.
#[derive(Drop)]
pub struct Visit<'a> {
    pub path: usize,
    pub at: Pos,
    pub known: Vec<Known<'a>>,
}

// The objects of a scope's rows, newest first, and how many of the file's come behind them.
fn rows_in(alloc: Global, table: &Table, scope: Scope) -> Result<(Vec<Object>, usize), AllocError>
    requires { rows_of_scope scope ≤ length table.now.rows.items }
    ensures { (s : Reading) → Agrees s table.now.rows.items →
        IfOk result (λ r. map object_in r.0.items ++ file_scope r.1 ≡ scope_in s scope) }
{
    let mut list = Vec::new(alloc);
    let mut left = scope;
    loop {
        match left {
            Scope::File(count) => return Ok((list, count)),
            Scope::Row(number) => {
                let row = table.rows[number];
                list.push(row.object)?;
                left = row.parent;
            }
        }
    }
}

// The first objects of the file, newest first.
fn with_files(list: &mut Vec<Object>, count: usize) -> Result<(), AllocError>
    ensures { OnOk result (map object_in list.new.items ≡ map object_in list.old.items ++ file_scope count) }
{
    let mut left = count;
    while 0 < left {
        left -= 1;
        list.push(Object::File(left))?;
    }
    Ok(())
}

// The objects in scope, newest first.
fn in_scope(alloc: Global, table: &Table, scope: Scope) -> Result<Vec<Object>, AllocError>
    requires { rows_of_scope scope ≤ length table.now.rows.items }
    ensures { (s : Reading) → Agrees s table.now.rows.items →
        IfOk result (λ xs. map object_in xs.items ≡ scope_in s scope) }
{
    let (mut list, count) = rows_in(alloc, table, scope)?;
    with_files(&mut list, count)?;
    Ok(list)
}

fn is_same(a: Object, b: Object) -> bool
    ensures { result ≡ definition.is_same (object_in a) (object_in b) }
{
    match a {
        Object::File(i) => match b {
            Object::File(j) => i == j,
            Object::Local(_, _) => false,
            Object::Result(_) => false,
        },
        Object::Local(k, i) => match b {
            Object::File(_) => false,
            Object::Local(m, j) => k == m && i == j,
            Object::Result(_) => false,
        },
        Object::Result(k) => match b {
            Object::File(_) => false,
            Object::Local(_, _) => false,
            Object::Result(m) => k == m,
        },
    }
}

fn is_among(object: Object, list: &[Object]) -> bool
    ensures { result ≡ definition.is_in_scope (object_in object) (map object_in list.now) }
{
    for place in 0..list.len() {
        if is_same(object, list[place]) {
            return true;
        }
    }
    false
}

// Whether the last step came to a visit, where these objects are in scope.
fn is_seen(visited: Visited, list: &[Object]) -> bool
    ensures { (s : Reading) (c : state.State) → map object_in list.now ≡ scope_in s c.here.scope →
        result ≡ is_visit s c visited }
{
    match visited {
        Visited::No => false,
        Visited::Yes => true,
        Visited::Wrote(object) => is_among(object, list),
    }
}

fn all_known<'a>(
    program: &Program<'a>,
    objects: &Objects,
    list: &[Object],
) -> Result<Vec<Known<'a>>, AllocError>
    ensures { IfOk result (λ known. map known_in known.items
        ≡ map (known_of (program_in program.now) (objects_in objects.now)) (map object_in list.now)) }
{
    let mut known = Vec::new(program.alloc);
    for place in 0..list.len() {
        let numbers = Vec::from_slice(program.alloc, objects.numbers(list[place]))?;
        known.push(Known {
            name: name_of(program, list[place]),
            numbers,
        })?;
    }
    Ok(known)
}

/// What is seen where a run is, if the last step came to a visit.
#[tactic(auto, unfolding(pk_runner_state::specs::Shown::shown))]
pub fn seen<'a>(
    program: &Program<'a>,
    state: &State<'a>,
    table: &Table,
) -> Result<Option<Visit<'a>>, AllocError>
    requires { rows_of_scope state.now.here.scope ≤ length table.now.rows.items }
    ensures { (s : Reading) → Agrees s table.now.rows.items →
        IfOk result (λ v. option_map visit_in v ≡ visit_if (program_in program.now) (shown s state.now)) }
{
    let list = in_scope(program.alloc, table, state.here.scope)?;
    if is_seen(state.visited, &list) {
        Ok(Some(Visit {
            path: state.path,
            at: state.here.at,
            known: all_known(program, &state.objects, &list)?,
        }))
    } else {
        Ok(None)
    }
}
