//! What is told of a line whose answer was written.

ghost use Rattle.std.specs.Prelude.{◌≡◌};
ghost use Rattle.console_answer.specs.Told.{told_of_end, told_of};

use crate::answer::Answer;
use crate::fault::Fault;
use bt_interp::{Abort, End};
use program_step::Action;

/// What is told of a line whose answer was written: what counts and what went wrong.
#[derive(Clone, Copy, PartialEq, Eq, Debug)]
pub enum Told {
    /// It has no words.
    Empty,
    Accepted,
    /// It was accepted, and its program was aborted.
    Aborted(Abort),
    /// It was accepted, and its program ended with EXIT and returned 0, or a number that is no action.
    NoAction,
    Refused(Fault),
    /// It was the end of a batch.
    Processed,
}

impl Told {
    /// What is told of a line that answers so.
    pub fn of(answer: &Option<Answer>) -> Told
        ensures { result ≡ told_of answer.now }
    {
        match answer {
            None => Told::Empty,
            Some(Answer::Refused(fault)) => Told::Refused(*fault),
            Some(Answer::Processed(_)) => Told::Processed,
            Some(Answer::Ended(end) | Answer::Stopped { end, .. }) => Told::of_end(end),
            Some(_) => Told::Accepted,
        }
    }

    /// What is told of a line whose program ended so.
    pub(crate) fn of_end(end: &End) -> Told
        ensures { result ≡ told_of_end end.now }
    {
        match end {
            End::Aborted(abort) => Told::Aborted(*abort),
            End::Done(Action::Aborted) => Told::NoAction,
            End::Done(_) | End::NoProgram => Told::Accepted,
        }
    }
}
