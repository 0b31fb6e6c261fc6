// What follows from the definitions alone.

ghost use Rattle.pk_calls.specs.Laws.{AnswerIsDetermined, NoFunctionTwice, PathsAreAll, RefusalsAreMet};

/// A unit and a name have one answer at most, want of memory aside.
pub fn answer_is_determined()
    ensures { AnswerIsDetermined }
{}

/// Where the walk isn't refused no call path has a function twice.
pub fn no_function_twice()
    ensures { NoFunctionTwice }
{}

/// Where the walk isn't refused the listed paths are the call paths, each once, and there is such a list.
pub fn paths_are_all()
    ensures { PathsAreAll }
{}

/// What the walk is refused for is met by a call path: a function that it has twice, or a call of a function without a body.
pub fn refusals_are_met()
    ensures { RefusalsAreMet }
{}
