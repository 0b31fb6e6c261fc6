// The work that waits, as it is kept: what comes behind it stands in frames, by number.

ghost use Rattle.std.specs.Prelude.{◌≡◌, option_map};
ghost use Rattle.pk_typed.specs.Views.{statement_tree};
ghost use Rattle.pk_runner_frame.specs.Frames.{loop_in, loop_of, loop_body};

use pk_ctypes::{IntType, Op, Pos};
use pk_typed::{Declared, Effect, Item, Statement, Value};

/// The objects in scope: the first of the file's, or those of a row of the table.
#[derive(Clone, Copy)]
pub enum Scope {
    File(usize),
    Row(usize),
}

/// A place with the objects in scope.
#[derive(Clone, Copy)]
pub struct Spot {
    pub at: Pos,
    pub scope: Scope,
}

#[derive(Clone, Copy)]
pub enum Object {
    File(usize),
    Local(usize, usize),
    Result(usize),
}

#[derive(Clone, Copy)]
pub struct Array {
    pub object: Object,
    pub int_type: IntType,
    pub length: usize,
}

/// A value: of the text, maybe converted to int, or an int that isn't in the text.
#[derive(Clone, Copy)]
pub enum Expression<'a> {
    Tree(&'a Value, bool),
    Int(i128),
}

/// What is evaluated for its effect: of the text, or a value of the text that isn't used.
#[derive(Clone, Copy)]
pub enum Task<'a> {
    Tree(&'a Effect),
    Unused(&'a Value),
}

/// A loop, of a `for` without its first part.
#[derive(Clone, Copy)]
pub enum Loop<'a> {
    While(&'a Value, &'a Statement),
    DoWhile(&'a Statement, &'a Value),
    For(&'a Option<Value>, &'a Option<Effect>, &'a Statement),
}

/// A way leads to a place and a frame, or into, to or behind the loop whose end of the body is a frame.
#[derive(Clone, Copy)]
pub enum Way {
    Onward(Spot, usize),
    Into(usize),
    Head(usize),
    Behind(usize),
    Refused,
    Lost,
}

#[derive(Clone, Copy)]
pub enum Caller {
    Nobody,
    Path(usize, Spot, usize),
}

/// What comes behind a statement.
#[derive(Clone, Copy)]
pub enum Ahead<'a> {
    Rest(Scope, &'a [Item], usize),
    Join(Spot, usize),
    Again(Spot, &'a Statement, Spot, usize),
    Close(Spot, usize),
    End(Caller),
}

/// Each kind ends with the frame of what is done next.
#[derive(Clone, Copy)]
pub enum Work<'a> {
    Go(usize),
    Do(&'a Statement, usize),
    Declare(&'a [Declared], usize),
    Perform(Task<'a>, usize),
    Evaluate(Expression<'a>, usize),
    Test(Expression<'a>, Way, Way),
    Keep(usize),
    Branch(Way, Way),
    Apply(Op, Pos, IntType, usize),
    Operate(Op, Pos, IntType, usize),
    Convert(IntType, usize),
    Settle(IntType, usize),
    Truth(i128, usize),
    Discard(usize),
    Assign(IntType, Object, usize),
    Put(IntType, Object, usize),
    Update(Op, Pos, IntType, IntType, Object, usize),
    Advance(Op, Pos, IntType, IntType, Object, usize),
    Fetch(IntType, Object, usize),
    Load(Pos, Array, usize),
    Reload(Pos, Array, usize),
    Store(Pos, Array, usize),
    StoreKept(Pos, Array, usize),
    Renew(Op, Pos, IntType, Pos, Array, usize),
    Renewed(Op, Pos, IntType, IntType, usize),
    Replace(Op, Pos, IntType, Pos, Array, usize),
    Fill(Array, usize, &'a [Value], usize),
    Item(Array, usize, usize),
    Claim(Pos, usize),
    Pass(&'a [Value], usize),
    Bind(usize, usize, &'a [IntType], usize),
    Enter(usize, usize),
    Leave(Caller),
    Return(Caller),
    // of the loop whose end of the body is a frame
    Turn(usize),
    Back(usize),
    Choose(IntType, &'a [i128], usize, bool, &'a Statement, Spot, usize),
}

/// What a number stands for.
#[derive(Clone, Copy)]
pub enum Frame<'a> {
    Work(Work<'a>),
    Ahead(Ahead<'a>),
}

/// The loop that a statement is.
#[tactic(auto, unfolding(pk_typed::specs::Views::statement_tree, crate::specs::Frames::loop_of, crate::specs::Frames::loop_in))]
pub fn loop_of<'a>(statement: &'a Statement) -> Option<Loop<'a>>
    ensures { option_map loop_in result ≡ loop_of (statement_tree statement.now) }
{
    match statement {
        Statement::While(_, test, body) => Some(Loop::While(test, body)),
        Statement::Do(_, body, test) => Some(Loop::DoWhile(body, test)),
        Statement::For(_, head, body) => Some(Loop::For(&head.test, &head.step, body)),
        Statement::Block(_, _) => None,
        Statement::Empty(_) => None,
        Statement::Effect(_, _) => None,
        Statement::Label(_, _, _) => None,
        Statement::Case(_, _, _) => None,
        Statement::Default(_, _) => None,
        Statement::If(_, _, _) => None,
        Statement::IfElse { .. } => None,
        Statement::Switch { .. } => None,
        Statement::Goto(_, _) => None,
        Statement::Continue(_) => None,
        Statement::Break(_) => None,
        Statement::Return(_, _) => None,
    }
}

impl<'a> Loop<'a> {
    #[tactic(auto, unfolding(crate::specs::Frames::loop_in))]
    pub fn body(&self) -> &'a Statement
        ensures { statement_tree result.now ≡ loop_body (loop_in self.now) }
    {
        match *self {
            Loop::While(_, body) => body,
            Loop::DoWhile(body, _) => body,
            Loop::For(_, _, body) => body,
        }
    }
}
