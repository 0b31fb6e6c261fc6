// Declarations.

ghost use Rattle.std.specs.Prelude.{◌≡◌, IfOk, option_map};
ghost use Rattle.pk_typed.specs.Views.{value_tree, declared_tree, declared_trees, optional_values, item_trees};
ghost use Rattle.pk_meaning.specs.Programs as programs;
ghost use Rattle.pk_meaning.specs.Steps as steps;
ghost use Rattle.pk_runner_frame.specs.Frames.{Reading, held, work_at, ahead_at, scope_in, place_in};
ghost use Rattle.pk_runner_state.specs.Shown.{program_in, shown, Told, Agrees};
ghost use Rattle.pk_runner_statement.specs.Afters.{after_in};

use pk_ctypes::Pos;
use pk_runner_frame::{Ahead, Array, Expression, Frame, Object, Scope, Spot, Work, before, then};
use pk_runner_state::{
    Answer, Program, State, Table, are_chosen, go_on, local_count, local_type, resume,
    with_declared, write_all, zeros,
};
use pk_typed::{Declared, Item, Value};
use std::alloc::AllocError;

/// What comes behind a declared object: the rest of its block, or of its declaration.
#[derive(Clone, Copy)]
pub enum After<'a> {
    Items(&'a [Item], usize),
    Objects(&'a [Declared], usize),
}

// The frame of what comes behind a declared object, with its scope.
fn lay_after<'a>(
    frames: &mut Vec<Frame<'a>>,
    scope: Scope,
    after: After<'a>,
) -> Result<usize, AllocError>
    ensures { (s : Reading) →
        IfOk result (λ n.
        work_at (held s frames.new.items) n ≡ after_in s (held s frames.old.items) (scope_in s scope) after.entry) }
{
    match after {
        After::Items(items, ahead) => before(frames, Ahead::Rest(scope, items, ahead)),
        After::Objects(objects, number) => then(frames, Work::Declare(objects, number)),
    }
}

// An object without initialiser holds any numbers.
fn anything<'a>(
    program: &Program<'a>,
    state: &mut State<'a>,
    chosen: &[i128],
    here: Spot,
    object: usize,
    after: After<'a>,
) -> Result<Answer, AllocError>
    ensures { (s : Reading) →
        IfOk result (λ r. Told s state.old state.new r
        (steps.anything (program_in program.now) chosen.now (steps.standing (place_in s here)
        (shown s state.old)) object (after_in s (held s state.old.frames.items) (scope_in s here.scope) after.entry))) }
{
    let int_type = local_type(program, state.path, object);
    let count = local_count(program, state.path, object);
    if are_chosen(int_type, count, chosen) {
        let numbers = Vec::from_slice(program.alloc, chosen)?;
        let number = lay_after(&mut state.frames, here.scope, after)?;
        state.here = here;
        Ok(write_all(state, Object::Local(state.path, object), numbers, number))
    } else {
        Ok(Answer::Wants(int_type, count))
    }
}

fn begin_scalar<'a>(
    program: &Program<'a>,
    state: &mut State<'a>,
    chosen: &[i128],
    here: Spot,
    object: usize,
    first: &'a Option<Value>,
    after: After<'a>,
) -> Result<Answer, AllocError>
    ensures { (s : Reading) →
        IfOk result (λ r. Told s state.old state.new r
        (steps.scalar_first (program_in program.now) chosen.now (steps.standing (place_in s here)
        (shown s state.old)) object (option_map value_tree first.now)
        (after_in s (held s state.old.frames.items) (scope_in s here.scope) after.entry))) }
{
    match first {
        None => anything(program, state, chosen, here, object, after),
        Some(value) => {
            let number = lay_after(&mut state.frames, here.scope, after)?;
            let put = then(
                &mut state.frames,
                Work::Put(
                    local_type(program, state.path, object),
                    Object::Local(state.path, object),
                    number,
                ),
            )?;
            state.here = here;
            Ok(go_on(state, Work::Evaluate(Expression::Tree(value, false), put)))
        }
    }
}

fn begin_array<'a>(
    program: &Program<'a>,
    state: &mut State<'a>,
    chosen: &[i128],
    here: Spot,
    object: usize,
    list: &'a Option<Vec<Value>>,
    after: After<'a>,
) -> Result<Answer, AllocError>
    ensures { (s : Reading) →
        IfOk result (λ r. Told s state.old state.new r
        (steps.array_first (program_in program.now) chosen.now (steps.standing (place_in s here)
        (shown s state.old)) object (optional_values list.now)
        (after_in s (held s state.old.frames.items) (scope_in s here.scope) after.entry))) }
{
    match list {
        None => anything(program, state, chosen, here, object, after),
        Some(list) => {
            let array = Array {
                object: Object::Local(state.path, object),
                int_type: local_type(program, state.path, object),
                length: local_count(program, state.path, object),
            };
            let cleared = zeros(program.alloc, array.length)?;
            let number = lay_after(&mut state.frames, here.scope, after)?;
            let fill = then(
                &mut state.frames,
                Work::Fill(array, 0, list.as_slice(), number),
            )?;
            state.here = here;
            Ok(write_all(state, array.object, cleared, fill))
        }
    }
}

// A static object comes into scope, or a constant hides one: no more.
fn go_past<'a>(state: &mut State<'a>, here: Spot, after: After<'a>) -> Result<Answer, AllocError>
    ensures { (s : Reading) →
        IfOk result (λ r. Told s state.old state.new r
        (steps.on (steps.standing (place_in s here) (shown s state.old))
        (after_in s (held s state.old.frames.items) (scope_in s here.scope) after.entry)
        (shown s state.old).values)) }
{
    let number = lay_after(&mut state.frames, here.scope, after)?;
    state.here = here;
    Ok(resume(state, number))
}

fn declare<'a>(
    program: &Program<'a>,
    state: &mut State<'a>,
    table: &mut Table,
    chosen: &[i128],
    scope: Scope,
    declared: &'a Declared,
    after: After<'a>,
) -> Result<Answer, AllocError>
    ensures told { (s : Reading) (at : Pos) → Agrees s table.new.rows.items →
        IfOk result (λ r. Told s state.old state.new r
        (steps.declares (program_in program.now) chosen.now
        (steps.standing (steps.place at (scope_in s scope)) (shown s state.old))
        (declared_tree declared.now) (after_in s (held s state.old.frames.items)
        (programs.with_declared (program_in program.now) state.old.path (declared_tree declared.now)
        (scope_in s scope)) after.entry))) }
    ensures before { (s : Reading) → Agrees s table.new.rows.items → Agrees s table.old.rows.items }
{
    let inner = with_declared(program, table, state.path, declared, scope)?;
    match declared {
        Declared::Scalar(object, at, first) => {
            let here = Spot {
                at: *at,
                scope: inner,
            };
            begin_scalar(program, state, chosen, here, *object, first, after)
        }
        Declared::Array(object, at, list) => {
            let here = Spot {
                at: *at,
                scope: inner,
            };
            begin_array(program, state, chosen, here, *object, list, after)
        }
        Declared::Static(_file, at) => {
            let here = Spot {
                at: *at,
                scope: inner,
            };
            go_past(state, here, after)
        }
        Declared::Hiding(_object, at) => {
            let here = Spot {
                at: *at,
                scope: inner,
            };
            go_past(state, here, after)
        }
    }
}

ghost use Rattle.pk_ctypes.specs.declared.places.Pos.{Pos};

/// The objects of a declaration that are left.
pub fn declare_all<'a>(
    program: &Program<'a>,
    state: &mut State<'a>,
    table: &mut Table,
    chosen: &[i128],
    objects: &'a [Declared],
    number: usize,
) -> Result<Answer, AllocError>
    ensures told { (s : Reading) → Agrees s table.new.rows.items →
        IfOk result (λ r. Told s state.old state.new r
        (steps.all_declared (program_in program.now) chosen.now (shown s state.old) (declared_trees objects.now)
        (work_at
        (held s state.old.frames.items) number))) }
    ensures before { (s : Reading) → Agrees s table.new.rows.items → Agrees s table.old.rows.items }
{
    if objects.len() == 0 {
        Ok(resume(state, number))
    } else {
        declare(
            program,
            state,
            table,
            chosen,
            state.here.scope,
            &objects[0],
            After::Objects(&objects[1..], number),
        )
    }
}

/// On with the items of a block.
pub fn rest<'a>(
    program: &Program<'a>,
    state: &mut State<'a>,
    table: &mut Table,
    chosen: &[i128],
    scope: Scope,
    items: &'a [Item],
    ahead: usize,
) -> Result<Answer, AllocError>
    ensures told { (s : Reading) → Agrees s table.new.rows.items →
        IfOk result (λ r. Told s state.old state.new r
        (steps.rest (program_in program.now) chosen.now (shown s state.old) (scope_in s scope)
        (item_trees items.now) (ahead_at
        (held s state.old.frames.items) ahead))) }
    ensures before { (s : Reading) → Agrees s table.new.rows.items → Agrees s table.old.rows.items }
{
    if items.len() == 0 {
        Ok(go_on(state, Work::Go(ahead)))
    } else {
        match &items[0] {
            Item::Declared(declared) => declare(
                program,
                state,
                table,
                chosen,
                scope,
                declared,
                After::Items(&items[1..], ahead),
            ),
            Item::Statement(statement) => {
                let rest = before(&mut state.frames, Ahead::Rest(scope, &items[1..], ahead))?;
                state.here = Spot {
                    at: state.here.at,
                    scope,
                };
                Ok(go_on(state, Work::Do(statement, rest)))
            }
        }
    }
}
