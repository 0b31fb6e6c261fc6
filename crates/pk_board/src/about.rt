// What a board is about.

ghost use Rattle.std.specs.Prelude.{◌≡◌};
ghost use Rattle.pk_words.specs.Reads.{HasEnd};

use crate::boards::Board;
use pk_words::{Parted, Subject};

impl<'a, Y: Parted> Board<'a, Y> {
    /// The system with its plan, its slots, and how often each element may run.
    pub fn subject(&self) -> &Subject<'a, Y>
        ensures { result.now ≡ self.now.subject }
    {
        &self.subject
    }

    /// The recursion over the plan ends.
    pub fn ends(&self)
        ensures { HasEnd (Y.meaning self.now.subject.system) self.now.subject.wiring.plan }
    {
        let _subject = &self.subject;
    }
}
