// One step.

ghost use Rattle.std.specs.Prelude.{IfOk};
ghost use Rattle.pk_meaning.specs.Steps.{step};
ghost use Rattle.pk_runner_frame.specs.Frames.{Reading};
ghost use Rattle.pk_runner_state.specs.Shown.{program_in, shown, Told, Agrees};

use pk_runner_expression::{evaluate, filled, passed, performed, tested};
use pk_runner_frame::Work;
use pk_runner_operation::{
    advance, apply, assign, bind, branch, claim, converted, discard, item, load, operate, put,
    reload, renew, renewed, replace, store, store_kept, update,
};
use pk_runner_state::{Answer, Program, State, Table, give, go_on, resume};
use pk_runner_statement::{
    choose, declare_all, enter, execute, go_back, go_back_to_loop, leave, proceed, turn_loop,
};
use std::alloc::AllocError;

/// One step, with the numbers that are chosen where some are.
pub fn step_state<'a>(
    program: &Program<'a>,
    state: &mut State<'a>,
    table: &mut Table,
    chosen: &[i128],
) -> Result<Answer, AllocError>
    ensures told { (s : Reading) → Agrees s table.new.rows.items →
        IfOk result (λ r.
        Told s state.old state.new r (step (program_in program.now) chosen.now (shown s state.old))) }
    ensures before { (s : Reading) → Agrees s table.new.rows.items → Agrees s table.old.rows.items }
{
    let work = state.work;
    let path = state.path;
    let here = state.here;
    match work {
        Work::Go(ahead) => proceed(program, state, table, chosen, ahead),
        Work::Do(statement, ahead) => execute(program, state, table, statement, ahead),
        Work::Declare(objects, number) => {
            declare_all(program, state, table, chosen, objects, number)
        }
        Work::Perform(task, number) => {
            let next = performed(program, &mut state.frames, path, here, task, number)?;
            Ok(go_on(state, next))
        }
        Work::Evaluate(expression, number) => {
            evaluate(program, state, chosen, expression, number)
        }
        Work::Test(expression, yes, no) => {
            let next = tested(&mut state.frames, here, expression, yes, no)?;
            Ok(go_on(state, next))
        }
        Work::Keep(number) => Ok(resume(state, number)),
        Work::Branch(yes, no) => Ok(branch(state, yes, no)),
        Work::Apply(op, at, int_type, number) => apply(state, op, at, int_type, number),
        Work::Operate(op, at, int_type, number) => operate(state, op, at, int_type, number),
        Work::Convert(int_type, number) => converted(state, int_type, number),
        Work::Settle(int_type, number) => converted(state, int_type, number),
        Work::Truth(value, number) => give(state, &value, number),
        Work::Discard(number) => Ok(discard(state, number)),
        Work::Assign(int_type, object, number) => assign(state, int_type, object, number),
        Work::Put(int_type, object, number) => put(state, int_type, object, number),
        Work::Update(op, at, in_type, int_type, object, number) => {
            update(state, op, at, in_type, int_type, object, number)
        }
        Work::Advance(op, at, in_type, int_type, object, number) => {
            advance(state, op, at, in_type, int_type, object, number)
        }
        Work::Fetch(_, object, number) => {
            let value = state.objects.number(object);
            give(state, &value, number)
        }
        Work::Load(at, array, number) => load(state, at, array, number),
        Work::Reload(at, array, number) => reload(state, at, array, number),
        Work::Store(at, array, number) => Ok(store(state, at, array, number)),
        Work::StoreKept(at, array, number) => store_kept(state, at, array, number),
        Work::Renew(op, at, in_type, bracket, array, number) => {
            Ok(renew(state, op, at, in_type, bracket, array, number))
        }
        Work::Renewed(op, at, in_type, int_type, number) => {
            renewed(state, op, at, in_type, int_type, number)
        }
        Work::Replace(op, at, in_type, bracket, array, number) => {
            replace(state, op, at, in_type, bracket, array, number)
        }
        Work::Fill(array, place, items, number) => {
            let next = filled(&mut state.frames, array, place, items, number)?;
            Ok(go_on(state, next))
        }
        Work::Item(array, place, number) => Ok(item(state, array, place, number)),
        Work::Claim(at, number) => Ok(claim(state, at, number)),
        Work::Pass(arguments, number) => {
            let next = passed(&mut state.frames, arguments, number)?;
            Ok(go_on(state, next))
        }
        Work::Bind(callee, parameter, types, number) => {
            bind(state, callee, parameter, types, number)
        }
        Work::Enter(callee, number) => enter(program, state, table, callee, number),
        Work::Leave(caller) => leave(program, state, table, caller),
        Work::Return(caller) => Ok(go_back(program, state, caller)),
        Work::Turn(number) => Ok(turn_loop(program, state, number)),
        Work::Back(number) => Ok(go_back_to_loop(program, state, number)),
        Work::Choose(int_type, cases, number, has_default, body, here, ahead) => choose(
            program,
            state,
            table,
            int_type,
            cases,
            number,
            has_default,
            body,
            here,
            ahead,
        ),
    }
}
