// What begins with an expression.

ghost use Rattle.std.specs.Prelude.{◌≡◌, ◌∷◌, IfOk, pos};
ghost use Rattle.pk_typed.specs.Views.{place_tree, value_tree, effect_tree, value_trees};
ghost use Rattle.pk_meaning.specs.Steps as steps;
ghost use Rattle.pk_runner_frame.specs.Frames.{Reading, held, work_at, work_in, way_in, place_in, array_in, expression_in, task_in};
ghost use Rattle.pk_runner_state.specs.Shown.{program_in, shown, Told};

use pk_ctypes::{IntType, Op, Pos, range};
use pk_runner_frame::{Array, Expression, Frame, Object, Spot, Task, Way, Work, known, take, then};
use pk_runner_state::{
    Answer, Program, State, are_chosen, array_of, callee, give, go_on, object_of, parameters,
};
use pk_typed::{Effect, Place, Value};
use std::alloc::AllocError;

// `a[i] op= e`, `a[i]++`: index, right side, the element.
fn reload<'a>(
    frames: &mut Vec<Frame<'a>>,
    at: Pos,
    array: Array,
    index: &'a Value,
    right: Expression<'a>,
    number: usize,
) -> Result<Work<'a>, AllocError>
    ensures { (s : Reading) →
        IfOk result (λ w. work_in s (held s frames.new.items) w
        ≡ steps.reload at (array_in array) (value_tree index.now) (expression_in right.entry)
        (work_at (held s frames.old.items) number)) }
{
    let last = then(frames, Work::Reload(at, array, number))?;
    let keep = then(frames, Work::Keep(last))?;
    let second = then(frames, Work::Evaluate(right, keep))?;
    let first = then(frames, Work::Keep(second))?;
    Ok(Work::Evaluate(Expression::Tree(index, false), first))
}

// A call of a path: its arguments, its parameters, its body.
fn called<'a>(
    program: &Program<'a>,
    frames: &mut Vec<Frame<'a>>,
    path: usize,
    call: usize,
    arguments: &'a [Value],
    number: usize,
) -> Result<Work<'a>, AllocError>
    ensures { (s : Reading) →
        IfOk result (λ w. work_in s (held s frames.new.items) w
        ≡ steps.called (program_in program.now) path call (value_trees arguments.now)
        (work_at (held s frames.old.items) number)) }
{
    let callee = callee(program, path, call);
    let enter = then(frames, Work::Enter(callee, number))?;
    let bind = then(
        frames,
        Work::Bind(callee, 0, parameters(program, callee), enter),
    )?;
    Ok(Work::Pass(arguments, bind))
}

// A place that is assigned, as a value.
#[tactic(auto, unfolding(pk_runner_frame::specs::Frames::work_in, pk_runner_frame::specs::Frames::expression_in, pk_typed::specs::Views::place_tree))]
fn assigned<'a>(
    program: &Program<'a>,
    frames: &mut Vec<Frame<'a>>,
    path: usize,
    place: &'a Place,
    right: &'a Value,
    number: usize,
) -> Result<Work<'a>, AllocError>
    ensures { (s : Reading) → IfOk result (λ w. work_in s (held s frames.new.items) w
        ≡ steps.assigned (program_in program.now) path (place_tree place.now) (value_tree right.now)
        (work_at (held s frames.old.items) number)) }
{
    match place {
        Place::Scalar(int_type, variable) => {
            let last = then(
                frames,
                Work::Assign(*int_type, object_of(path, *variable), number),
            )?;
            Ok(Work::Evaluate(Expression::Tree(right, false), last))
        }
        Place::Element(int_type, variable, at, index) => {
            let array = array_of(program, path, *int_type, *variable);
            let last = then(frames, Work::StoreKept(*at, array, number))?;
            let settle = then(frames, Work::Settle(*int_type, last))?;
            let second = then(
                frames,
                Work::Evaluate(Expression::Tree(right, false), settle),
            )?;
            let keep = then(frames, Work::Keep(second))?;
            Ok(Work::Evaluate(Expression::Tree(index, false), keep))
        }
    }
}

// A place that is changed by an operator, as a value.
#[tactic(auto, unfolding(pk_runner_frame::specs::Frames::work_in, pk_runner_frame::specs::Frames::expression_in, pk_typed::specs::Views::place_tree))]
fn updated<'a>(
    program: &Program<'a>,
    frames: &mut Vec<Frame<'a>>,
    path: usize,
    op: Op,
    at: Pos,
    in_type: IntType,
    place: &'a Place,
    right: Expression<'a>,
    number: usize,
) -> Result<Work<'a>, AllocError>
    ensures { (s : Reading) → IfOk result (λ w. work_in s (held s frames.new.items) w
        ≡ steps.updated (program_in program.now) path op at in_type (place_tree place.now)
        (expression_in right.entry) (work_at (held s frames.old.items) number)) }
{
    match place {
        Place::Scalar(int_type, variable) => {
            let last = then(
                frames,
                Work::Update(
                    op,
                    at,
                    in_type,
                    *int_type,
                    object_of(path, *variable),
                    number,
                ),
            )?;
            Ok(Work::Evaluate(right, last))
        }
        Place::Element(int_type, variable, bracket, index) => {
            let array = array_of(program, path, *int_type, *variable);
            let last = then(frames, Work::StoreKept(*bracket, array, number))?;
            let renewed = then(frames, Work::Renewed(op, at, in_type, *int_type, last))?;
            reload(frames, *bracket, array, index, right, renewed)
        }
    }
}

// A value that isn't used.
fn dropped<'a>(
    frames: &mut Vec<Frame<'a>>,
    value: &'a Value,
    number: usize,
) -> Result<Work<'a>, AllocError>
    ensures { (s : Reading) →
        IfOk result (λ w. work_in s (held s frames.new.items) w
        ≡ works.Evaluate (value_tree value.now) (works.Drop (work_at (held s frames.old.items) number))) }
{
    let last = then(frames, Work::Discard(number))?;
    Ok(Work::Evaluate(Expression::Tree(value, false), last))
}

ghost use Rattle.pk_meaning.specs.Work as works;

// An assignment whose value isn't used.
#[tactic(auto, unfolding(pk_runner_frame::specs::Frames::work_in, pk_runner_frame::specs::Frames::expression_in, pk_typed::specs::Views::place_tree))]
fn put_place<'a>(
    program: &Program<'a>,
    frames: &mut Vec<Frame<'a>>,
    path: usize,
    place: &'a Place,
    whole: &'a Value,
    right: &'a Value,
    number: usize,
) -> Result<Work<'a>, AllocError>
    ensures { (s : Reading) → IfOk result (λ w. work_in s (held s frames.new.items) w
        ≡ steps.put_place (program_in program.now) path (place_tree place.now) (value_tree whole.now)
        (value_tree right.now) (work_at (held s frames.old.items) number)) }
{
    match place {
        Place::Scalar(_, _) => dropped(frames, whole, number),
        Place::Element(int_type, variable, at, index) => {
            let array = array_of(program, path, *int_type, *variable);
            let last = then(frames, Work::Store(*at, array, number))?;
            let second = then(frames, Work::Evaluate(Expression::Tree(right, false), last))?;
            let keep = then(frames, Work::Keep(second))?;
            Ok(Work::Evaluate(Expression::Tree(index, false), keep))
        }
    }
}

// An element that is changed by an operator, whose value isn't used.
#[tactic(auto, unfolding(pk_runner_frame::specs::Frames::work_in, pk_runner_frame::specs::Frames::expression_in, pk_typed::specs::Views::place_tree))]
fn renew<'a>(
    program: &Program<'a>,
    frames: &mut Vec<Frame<'a>>,
    path: usize,
    op: Op,
    at: Pos,
    in_type: IntType,
    place: &'a Place,
    whole: &'a Value,
    right: &'a Value,
    number: usize,
) -> Result<Work<'a>, AllocError>
    ensures { (s : Reading) → IfOk result (λ w. work_in s (held s frames.new.items) w
        ≡ steps.renew_place (program_in program.now) path op at in_type (place_tree place.now) (value_tree whole.now)
        (value_tree right.now) (work_at (held s frames.old.items) number)) }
{
    match place {
        Place::Scalar(_, _) => dropped(frames, whole, number),
        Place::Element(int_type, variable, bracket, index) => {
            let array = array_of(program, path, *int_type, *variable);
            let last = then(
                frames,
                Work::Renew(op, at, in_type, *bracket, array, number),
            )?;
            reload(
                frames,
                *bracket,
                array,
                index,
                Expression::Tree(right, false),
                last,
            )
        }
    }
}

// `x++` or `++x` whose value isn't used.
#[tactic(auto, unfolding(pk_runner_frame::specs::Frames::work_in, pk_runner_frame::specs::Frames::expression_in, pk_typed::specs::Views::place_tree))]
fn advance<'a>(
    program: &Program<'a>,
    frames: &mut Vec<Frame<'a>>,
    path: usize,
    op: Op,
    at: Pos,
    in_type: IntType,
    place: &'a Place,
    number: usize,
) -> Result<Work<'a>, AllocError>
    ensures { (s : Reading) →
        IfOk result (λ w. work_in s (held s frames.new.items) w
        ≡ steps.advance_place (program_in program.now) path op at in_type (place_tree place.now)
        (work_at (held s frames.old.items) number)) }
{
    match place {
        Place::Scalar(int_type, variable) => Ok(Work::Advance(
            op,
            at,
            in_type,
            *int_type,
            object_of(path, *variable),
            number,
        )),
        Place::Element(int_type, variable, bracket, index) => {
            let array = array_of(program, path, *int_type, *variable);
            let last = then(
                frames,
                Work::Renew(op, at, in_type, *bracket, array, number),
            )?;
            reload(frames, *bracket, array, index, Expression::Int(1), last)
        }
    }
}

// An expression whose value isn't used.
#[tactic(auto, unfolding(pk_runner_frame::specs::Frames::work_in, pk_runner_frame::specs::Frames::expression_in, pk_runner_frame::specs::Frames::task_in, pk_typed::specs::Views::value_tree))]
fn unused<'a>(
    program: &Program<'a>,
    frames: &mut Vec<Frame<'a>>,
    path: usize,
    value: &'a Value,
    number: usize,
) -> Result<Work<'a>, AllocError>
    ensures { (s : Reading) →
        IfOk result (λ w. work_in s (held s frames.new.items) w
        ≡ steps.unused (program_in program.now) path (value_tree value.now)
        (work_at (held s frames.old.items) number)) }
{
    match value {
        Value::Assign(_, place, right) => {
            put_place(program, frames, path, place, value, right, number)
        }
        Value::Update(op, at, in_type, place, right) => renew(
            program, frames, path, *op, *at, *in_type, place, value, right, number,
        ),
        Value::Step {
            operator,
            at,
            int_type,
            place,
            is_prefix: _,
        } => advance(
            program, frames, path, *operator, *at, *int_type, place, number,
        ),
        Value::Then(first, second) => {
            let last = then(frames, Work::Perform(Task::Unused(second), number))?;
            Ok(Work::Perform(Task::Tree(first), last))
        }
        Value::Constant(_, _) => dropped(frames, value, number),
        Value::Read(_) => dropped(frames, value, number),
        Value::Call { .. } => dropped(frames, value, number),
        Value::Any(_, _) => dropped(frames, value, number),
        Value::Unary(_, _, _, _) => dropped(frames, value, number),
        Value::Convert(_, _) => dropped(frames, value, number),
        Value::Binary { .. } => dropped(frames, value, number),
        Value::And { .. } => dropped(frames, value, number),
        Value::Or { .. } => dropped(frames, value, number),
        Value::Conditional { .. } => dropped(frames, value, number),
    }
}

// Whether int has each number of a type.
fn is_within_int(int_type: IntType) -> bool
    ensures { result ≡ represents Int int_type }
{
    let (low, high) = range(IntType::Int);
    let (least, greatest) = range(int_type);
    low <= least && greatest <= high
}

ghost use Rattle.pk_ctypes.specs.Types.{represents};
ghost use Rattle.pk_ctypes.specs.Operators.{is_not};
ghost use Rattle.pk_ctypes.specs.declared.types.IntType.TheVariants.{Int};

// Converted to int, where that changes a value.
fn as_int<'a>(value: &'a Value) -> Expression<'a>
    ensures { expression_in result ≡ steps.as_int (value_tree value.now) }
{
    let is_int = is_within_int(value.int_type());
    Expression::Tree(value, !is_int)
}

#[tactic(auto, unfolding(pk_runner_frame::specs::Frames::work_in, pk_runner_frame::specs::Frames::expression_in, pk_runner_frame::specs::Frames::task_in, pk_typed::specs::Views::effect_tree))]
fn performed_tree<'a>(
    program: &Program<'a>,
    frames: &mut Vec<Frame<'a>>,
    path: usize,
    here: Spot,
    effect: &'a Effect,
    number: usize,
) -> Result<Work<'a>, AllocError>
    ensures { (s : Reading) → IfOk result (λ w. work_in s (held s frames.new.items) w
        ≡ steps.performed (program_in program.now) path (place_in s here) (effect_tree effect.now)
        (work_at (held s frames.old.items) number)) }
{
    match effect {
        Effect::Unused(value) => unused(program, frames, path, value, number),
        Effect::Call {
            function: _,
            site,
            at: _,
            arguments,
        } => called(program, frames, path, *site, arguments.as_slice(), number),
        Effect::Assume(_, value) => Ok(Work::Test(
            as_int(value),
            Way::Onward(here, number),
            Way::Refused,
        )),
        Effect::Assert(at, value) => {
            let last = then(frames, Work::Claim(*at, number))?;
            Ok(Work::Evaluate(Expression::Tree(value, false), last))
        }
        Effect::Abort(_) => Ok(Work::Test(
            Expression::Int(0),
            Way::Onward(here, number),
            Way::Refused,
        )),
        Effect::Then(first, second) => {
            let last = then(frames, Work::Perform(Task::Tree(second), number))?;
            Ok(Work::Perform(Task::Tree(first), last))
        }
    }
}

/// What is evaluated for its effect.
#[tactic(auto, unfolding(pk_runner_frame::specs::Frames::task_in))]
pub fn performed<'a>(
    program: &Program<'a>,
    frames: &mut Vec<Frame<'a>>,
    path: usize,
    here: Spot,
    task: Task<'a>,
    number: usize,
) -> Result<Work<'a>, AllocError>
    ensures { (s : Reading) →
        IfOk result (λ w. work_in s (held s frames.new.items) w
        ≡ steps.performed (program_in program.now) path (place_in s here) (task_in task.entry)
        (work_at (held s frames.old.items) number)) }
{
    match task {
        Task::Tree(effect) => performed_tree(program, frames, path, here, effect, number),
        Task::Unused(value) => unused(program, frames, path, value, number),
    }
}

// A condition that is decided by its value.
fn decided<'a>(
    frames: &mut Vec<Frame<'a>>,
    expression: Expression<'a>,
    yes: Way,
    no: Way,
) -> Result<Work<'a>, AllocError>
    ensures { (s : Reading) → IfOk result (λ w. work_in s (held s frames.new.items) w
        ≡ works.Evaluate (expression_in expression.entry)
        (works.Branch (way_in s (held s frames.old.items) yes) (way_in s (held s frames.old.items) no))) }
{
    let branch = then(frames, Work::Branch(yes, no))?;
    Ok(Work::Evaluate(expression, branch))
}

fn is_not(op: Op) -> bool
    ensures { result ≡ is_not op }
{
    match op {
        Op::Not => true,
        _ => false,
    }
}

// A way that leads to the same, also when one more frame is laid.
fn known_way(frames: &mut Vec<Frame<'_>>, way: Way) -> Result<Way, AllocError>
    ensures same { (s : Reading) (w : code_way.Way) →
        OnOk result (way_in s (held s frames.new.items) w ≡ way_in s (held s frames.old.items) w) }
    ensures way { (s : Reading) →
        IfOk result (λ w. way_in s (held s frames.new.items) w ≡ way_in s (held s frames.old.items) way) }
    ensures stays { (s : Reading) (f : Frame) →
        IfOk result (λ w. way_in s (held s (frames.new.items ++ f ∷ [])) w ≡ way_in s (held s frames.new.items) w) }
{
    match way {
        Way::Onward(here, number) => Ok(Way::Onward(here, known(frames, number)?)),
        Way::Into(number) => Ok(Way::Into(known(frames, number)?)),
        Way::Head(number) => Ok(Way::Head(known(frames, number)?)),
        Way::Behind(number) => Ok(Way::Behind(known(frames, number)?)),
        Way::Refused => Ok(Way::Refused),
        Way::Lost => Ok(Way::Lost),
    }
}

ghost use Rattle.std.specs.Prelude.{◌++◌, OnOk};
ghost use Rattle.pk_runner_frame.specs.declared.works.Frame.{Frame};
ghost use Rattle.pk_runner_frame.specs.declared.works.Way as code_way;

// `a && b`
fn both<'a>(
    frames: &mut Vec<Frame<'a>>,
    here: Spot,
    left: &'a Value,
    right: &'a Value,
    yes: Way,
    no: Way,
) -> Result<Work<'a>, AllocError>
    ensures { (s : Reading) → IfOk result (λ w. work_in s (held s frames.new.items) w
        ≡ steps.tested (place_in s here) (tree.and (value_tree left.now) (value_tree right.now))
        (way_in s (held s frames.old.items) yes) (way_in s (held s frames.old.items) no)) }
{
    let no = known_way(frames, no)?;
    let second = frames.len();
    frames.push(Frame::Work(Work::Test(Expression::Tree(right, false), yes, no)))?;
    Ok(Work::Test(Expression::Tree(left, false), Way::Onward(here, second), no))
}

ghost use Rattle.pk_typed.specs.Trees as tree;

// `a || b`
fn either<'a>(
    frames: &mut Vec<Frame<'a>>,
    here: Spot,
    left: &'a Value,
    right: &'a Value,
    yes: Way,
    no: Way,
) -> Result<Work<'a>, AllocError>
    ensures { (s : Reading) → IfOk result (λ w. work_in s (held s frames.new.items) w
        ≡ steps.tested (place_in s here) (tree.or (value_tree left.now) (value_tree right.now))
        (way_in s (held s frames.old.items) yes) (way_in s (held s frames.old.items) no)) }
{
    let yes = known_way(frames, yes)?;
    let second = frames.len();
    frames.push(Frame::Work(Work::Test(Expression::Tree(right, false), yes, no)))?;
    Ok(Work::Test(
        Expression::Tree(left, false),
        yes,
        Way::Onward(here, second),
    ))
}

#[tactic(auto, unfolding(pk_runner_frame::specs::Frames::work_in, pk_runner_frame::specs::Frames::expression_in, pk_runner_frame::specs::Frames::task_in, pk_typed::specs::Views::value_tree))]
fn tested_tree<'a>(
    frames: &mut Vec<Frame<'a>>,
    here: Spot,
    value: &'a Value,
    yes: Way,
    no: Way,
) -> Result<Work<'a>, AllocError>
    ensures { (s : Reading) → IfOk result (λ w. work_in s (held s frames.new.items) w
        ≡ steps.tested (place_in s here) (value_tree value.now) (way_in s (held s frames.old.items) yes)
        (way_in s (held s frames.old.items) no)) }
{
    let expression = Expression::Tree(value, false);
    match value {
        Value::Unary(op, _, _, operand) => {
            if is_not(*op) {
                Ok(Work::Test(Expression::Tree(operand, false), no, yes))
            } else {
                decided(frames, expression, yes, no)
            }
        }
        Value::And { left, right } => both(frames, here, left, right, yes, no),
        Value::Or { left, right } => either(frames, here, left, right, yes, no),
        Value::Then(first, second) => {
            let last = then(frames, Work::Test(Expression::Tree(second, false), yes, no))?;
            Ok(Work::Perform(Task::Tree(first), last))
        }
        Value::Constant(_, _) => decided(frames, expression, yes, no),
        Value::Read(_) => decided(frames, expression, yes, no),
        Value::Assign(_, _, _) => decided(frames, expression, yes, no),
        Value::Update(_, _, _, _, _) => decided(frames, expression, yes, no),
        Value::Step { .. } => decided(frames, expression, yes, no),
        Value::Call { .. } => decided(frames, expression, yes, no),
        Value::Any(_, _) => decided(frames, expression, yes, no),
        Value::Convert(_, _) => decided(frames, expression, yes, no),
        Value::Binary { .. } => decided(frames, expression, yes, no),
        Value::Conditional { .. } => decided(frames, expression, yes, no),
    }
}

/// A condition: yes where it is true, else no.
#[tactic(auto, unfolding(pk_runner_frame::specs::Frames::work_in, pk_runner_frame::specs::Frames::expression_in))]
pub fn tested<'a>(
    frames: &mut Vec<Frame<'a>>,
    here: Spot,
    expression: Expression<'a>,
    yes: Way,
    no: Way,
) -> Result<Work<'a>, AllocError>
    ensures { (s : Reading) → IfOk result (λ w. work_in s (held s frames.new.items) w
        ≡ steps.tested (place_in s here) (expression_in expression.entry) (way_in s (held s frames.old.items) yes)
        (way_in s (held s frames.old.items) no)) }
{
    match expression {
        Expression::Tree(value, is_int) => {
            if is_int {
                decided(frames, expression, yes, no)
            } else {
                tested_tree(frames, here, value, yes, no)
            }
        }
        Expression::Int(_) => decided(frames, expression, yes, no),
    }
}

/// Arguments in order.
pub fn passed<'a>(
    frames: &mut Vec<Frame<'a>>,
    arguments: &'a [Value],
    number: usize,
) -> Result<Work<'a>, AllocError>
    ensures { (s : Reading) →
        IfOk result (λ w. work_in s (held s frames.new.items) w
        ≡ steps.pass (value_trees arguments.now) (work_at (held s frames.old.items) number)) }
{
    if arguments.len() == 0 {
        Ok(take(frames, number))
    } else {
        let pass = then(frames, Work::Pass(&arguments[1..], number))?;
        let keep = then(frames, Work::Keep(pass))?;
        Ok(Work::Evaluate(Expression::Tree(&arguments[0], false), keep))
    }
}

/// The items of a braced list, from an element on.
pub fn filled<'a>(
    frames: &mut Vec<Frame<'a>>,
    array: Array,
    place: usize,
    items: &'a [Value],
    number: usize,
) -> Result<Work<'a>, AllocError>
    ensures { (s : Reading) →
        IfOk result (λ w. work_in s (held s frames.new.items) w
        ≡ steps.fill (array_in array) place (value_trees items.now) (work_at (held s frames.old.items) number)) }
{
    if items.len() == 0 {
        Ok(take(frames, number))
    } else {
        let next = place.checked_add(1).ok_or(AllocError)?;
        let fill = then(frames, Work::Fill(array, next, &items[1..], number))?;
        let item = then(frames, Work::Item(array, place, fill))?;
        Ok(Work::Evaluate(Expression::Tree(&items[0], false), item))
    }
}

// A value that is read.
#[tactic(auto, unfolding(pk_runner_frame::specs::Frames::work_in, pk_runner_frame::specs::Frames::expression_in, pk_typed::specs::Views::place_tree, pk_runner_state::specs::Shown::shown))]
fn read<'a>(
    program: &Program<'a>,
    state: &mut State<'a>,
    place: &'a Place,
    number: usize,
) -> Result<Answer, AllocError>
    ensures { (s : Reading) →
        IfOk result (λ r. Told s state.old state.new r
        (steps.read_place (program_in program.now) (shown s state.old) (place_tree place.now)
        (work_at (held s state.old.frames.items) number))) }
{
    match place {
        Place::Scalar(_, variable) => {
            let value = state.objects.number(object_of(state.path, *variable));
            give(state, &value, number)
        }
        Place::Element(int_type, variable, at, index) => {
            let array = array_of(program, state.path, *int_type, *variable);
            let last = then(&mut state.frames, Work::Load(*at, array, number))?;
            Ok(go_on(state, Work::Evaluate(Expression::Tree(index, false), last)))
        }
    }
}

// `x++` as a value.
#[tactic(auto, unfolding(pk_runner_frame::specs::Frames::work_in, pk_runner_frame::specs::Frames::expression_in, pk_typed::specs::Views::place_tree, pk_runner_state::specs::Shown::shown))]
fn stepped<'a>(
    program: &Program<'a>,
    state: &mut State<'a>,
    op: Op,
    at: Pos,
    in_type: IntType,
    place: &'a Place,
    number: usize,
) -> Result<Answer, AllocError>
    ensures { (s : Reading) →
        IfOk result (λ r. Told s state.old state.new r
        (steps.stepped (program_in program.now) (shown s state.old) op at in_type (place_tree place.now) (work_at
        (held s state.old.frames.items) number))) }
{
    match place {
        Place::Scalar(int_type, variable) => {
            let object = object_of(state.path, *variable);
            let value = state.objects.number(object);
            state.values.push(value)?;
            Ok(go_on(
                state,
                Work::Advance(op, at, in_type, *int_type, object, number),
            ))
        }
        Place::Element(int_type, variable, bracket, index) => {
            let array = array_of(program, state.path, *int_type, *variable);
            let last = then(
                &mut state.frames,
                Work::Replace(op, at, in_type, *bracket, array, number),
            )?;
            let work = reload(
                &mut state.frames,
                *bracket,
                array,
                index,
                Expression::Int(1),
                last,
            )?;
            Ok(go_on(state, work))
        }
    }
}

// `++x` or `x++` as a value.
#[tactic(auto, unfolding(pk_runner_frame::specs::Frames::expression_in, pk_runner_state::specs::Shown::shown))]
fn step_value<'a>(
    program: &Program<'a>,
    state: &mut State<'a>,
    op: Op,
    at: Pos,
    in_type: IntType,
    place: &'a Place,
    is_prefix: bool,
    number: usize,
) -> Result<Answer, AllocError>
    ensures { (s : Reading) →
        IfOk result (λ r. Told s state.old state.new r
        (steps.evaluate (program_in program.now) [] (shown s state.old) (tree.step op at in_type
        (place_tree place.now) is_prefix) (work_at (held s state.old.frames.items) number))) }
{
    if is_prefix {
        let work = updated(
            program,
            &mut state.frames,
            state.path,
            op,
            at,
            in_type,
            place,
            Expression::Int(1),
            number,
        )?;
        Ok(go_on(state, work))
    } else {
        stepped(program, state, op, at, in_type, place, number)
    }
}

ghost use Rattle.std.specs.Prelude.{[]};
ghost use Rattle.pk_graph.specs.Steps.{number_at};

// Any number of a type.
fn any(
    state: &mut State<'_>,
    chosen: &[i128],
    int_type: IntType,
    number: usize,
) -> Result<Answer, AllocError>
    ensures { (s : Reading) →
        IfOk result (λ r.
        Told s state.old state.new r (steps.with_choice int_type 1 chosen.now (steps.on (shown s state.old) (work_at
        (held s state.old.frames.items) number) (number_at chosen.now 0 ∷ (shown s state.old).values)))) }
{
    if are_chosen(int_type, 1, chosen) {
        give(state, &chosen[0], number)
    } else {
        Ok(Answer::Wants(int_type, 1))
    }
}

// `a && b`, `a || b` as a value.
fn truth<'a>(state: &mut State<'a>, value: &'a Value, number: usize) -> Result<Answer, AllocError>
    ensures { (s : Reading) →
        IfOk result (λ r. Told s state.old state.new r
        (steps.on (shown s state.old) (works.Test (value_tree value.now) (works.Onward (shown s state.old).here
        (works.Truth (pos 1) (work_at (held s state.old.frames.items) number)))
        (works.Onward (shown s state.old).here (works.Truth (pos 0) (work_at
        (held s state.old.frames.items) number)))) (shown s state.old).values)) }
{
    let here = state.here;
    let number = known(&mut state.frames, number)?;
    let last = then(&mut state.frames, Work::Truth(0, number))?;
    let first = then(&mut state.frames, Work::Truth(1, number))?;
    Ok(go_on(
        state,
        Work::Test(
            Expression::Tree(value, false),
            Way::Onward(here, first),
            Way::Onward(here, last),
        ),
    ))
}

// `c ? a : b`
fn conditional<'a>(
    state: &mut State<'a>,
    int_type: IntType,
    condition: &'a Value,
    if_true: &'a Value,
    if_false: &'a Value,
    number: usize,
) -> Result<Answer, AllocError>
    ensures { (s : Reading) →
        IfOk result (λ r. Told s state.old state.new r
        (steps.on (shown s state.old) (works.Test (value_tree condition.now) (works.Onward (shown s state.old).here
        (works.Evaluate (value_tree if_true.now) (works.Settle int_type
        (work_at (held s state.old.frames.items) number)))) (works.Onward (shown s state.old).here (works.Evaluate
        (value_tree if_false.now) (works.Settle int_type (work_at (held s state.old.frames.items) number)))))
        (shown s state.old).values)) }
{
    let here = state.here;
    let settle = then(&mut state.frames, Work::Settle(int_type, number))?;
    let yes = then(
        &mut state.frames,
        Work::Evaluate(Expression::Tree(if_true, false), settle),
    )?;
    let no = then(
        &mut state.frames,
        Work::Evaluate(Expression::Tree(if_false, false), settle),
    )?;
    Ok(go_on(
        state,
        Work::Test(
            Expression::Tree(condition, false),
            Way::Onward(here, yes),
            Way::Onward(here, no),
        ),
    ))
}

#[tactic(auto, unfolding(crate::proofs::Shown::work_in, crate::proofs::Shown::expression_in, crate::proofs::Shown::task_in, crate::proofs::Shown::value_tree, crate::proofs::Shown::shown))]
fn evaluate_tree<'a>(
    program: &Program<'a>,
    state: &mut State<'a>,
    chosen: &[i128],
    value: &'a Value,
    number: usize,
) -> Result<Answer, AllocError>
    ensures { (s : Reading) →
        IfOk result (λ r. Told s state.old state.new r
        (steps.evaluate (program_in program.now) chosen.now (shown s state.old) (value_tree value.now) (work_at
        (held s state.old.frames.items) number))) }
{
    let path = state.path;
    match value {
        Value::Constant(_, constant) => give(state, constant, number),
        Value::Read(place) => read(program, state, place, number),
        Value::Assign(_, place, right) => {
            let work = assigned(program, &mut state.frames, path, place, right, number)?;
            Ok(go_on(state, work))
        }
        Value::Update(op, at, in_type, place, right) => {
            let right = Expression::Tree(right, false);
            let work = updated(
                program,
                &mut state.frames,
                path,
                *op,
                *at,
                *in_type,
                place,
                right,
                number,
            )?;
            Ok(go_on(state, work))
        }
        Value::Step {
            operator,
            at,
            int_type,
            place,
            is_prefix,
        } => step_value(
            program, state, *operator, *at, *int_type, place, *is_prefix, number,
        ),
        Value::Call {
            int_type,
            function: _,
            site,
            at: _,
            arguments,
        } => {
            let result = Object::Result(callee(program, path, *site));
            let fetch = then(&mut state.frames, Work::Fetch(*int_type, result, number))?;
            let work = called(
                program,
                &mut state.frames,
                path,
                *site,
                arguments.as_slice(),
                fetch,
            )?;
            Ok(go_on(state, work))
        }
        Value::Any(int_type, _) => any(state, chosen, *int_type, number),
        Value::Unary(op, at, int_type, operand) => {
            let last = then(&mut state.frames, Work::Apply(*op, *at, *int_type, number))?;
            Ok(go_on(
                state,
                Work::Evaluate(Expression::Tree(operand, false), last),
            ))
        }
        Value::Convert(int_type, operand) => {
            let last = then(&mut state.frames, Work::Convert(*int_type, number))?;
            Ok(go_on(
                state,
                Work::Evaluate(Expression::Tree(operand, false), last),
            ))
        }
        Value::Binary {
            operator,
            at,
            int_type,
            left,
            right,
        } => {
            let last = then(
                &mut state.frames,
                Work::Operate(*operator, *at, *int_type, number),
            )?;
            let second = then(
                &mut state.frames,
                Work::Evaluate(Expression::Tree(right, false), last),
            )?;
            let keep = then(&mut state.frames, Work::Keep(second))?;
            Ok(go_on(state, Work::Evaluate(Expression::Tree(left, false), keep)))
        }
        Value::And { .. } => truth(state, value, number),
        Value::Or { .. } => truth(state, value, number),
        Value::Conditional {
            int_type,
            condition,
            if_true,
            if_false,
        } => conditional(state, *int_type, condition, if_true, if_false, number),
        Value::Then(first, second) => {
            let last = then(
                &mut state.frames,
                Work::Evaluate(Expression::Tree(second, false), number),
            )?;
            Ok(go_on(state, Work::Perform(Task::Tree(first), last)))
        }
    }
}

/// The value of an expression.
#[tactic(auto, unfolding(pk_runner_frame::specs::Frames::work_in, pk_runner_frame::specs::Frames::expression_in, pk_runner_state::specs::Shown::shown))]
pub fn evaluate<'a>(
    program: &Program<'a>,
    state: &mut State<'a>,
    chosen: &[i128],
    expression: Expression<'a>,
    number: usize,
) -> Result<Answer, AllocError>
    ensures { (s : Reading) →
        IfOk result (λ r. Told s state.old state.new r
        (steps.evaluate (program_in program.now) chosen.now (shown s state.old) (expression_in expression.entry)
        (work_at (held s state.old.frames.items) number))) }
{
    match &expression {
        Expression::Tree(value, is_int) => {
            if *is_int {
                let last = then(&mut state.frames, Work::Convert(IntType::Int, number))?;
                Ok(go_on(state, Work::Evaluate(Expression::Tree(value, false), last)))
            } else {
                evaluate_tree(program, state, chosen, value, number)
            }
        }
        Expression::Int(constant) => give(state, constant, number),
    }
}
