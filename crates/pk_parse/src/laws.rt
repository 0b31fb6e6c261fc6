// What follows from the definitions alone.

ghost use Rattle.pk_parse.specs.Refusals.{AnswerIsDetermined, LexedIsEnded};

/// Tokens are accepted with one list of trees at most, or refused in one way at most, and not both.
pub fn answers_are_determined()
    ensures { AnswerIsDetermined }
{}

/// The tokens of a text are what `parse` asks for.
pub fn tokens_are_ended()
    ensures { LexedIsEnded }
{}
