//! What a change and a frame answer.

ghost use Rattle.std.specs.Prelude.{◌≡◌, Some};
ghost use Rattle.console_answer.specs.Answers.{change_answer};
ghost use Rattle.console_answer.specs.ShortAnswers.{answer_of};
ghost use Rattle.console_answer.specs.Told.{told_of};
ghost use Rattle.console_answer.specs.declared.answer.Answer.TheVariants.{Refused, Ended};

use crate::answer::Answer;
use crate::fault::Fault;
use crate::told::Told;
use bt_interp::End;
use host_state::{Refusal, Reply};
use std::marker::Model;

/// The parts of a short answer.
#[derive(Debug, Drop)]
pub enum ShortForm {
    /// A change was recorded under this serial.
    Recorded { serial: u64, reply: Reply },
    /// A frame ended so.
    Ended(End),
    /// The line was refused.
    Refused(Fault),
}

/// What a change or a frame answers. Contracts see the [`Answer`], which has room for a key and a value; this has none, so
/// that it is cheap to hand up.
#[derive(Debug, Drop)]
pub struct ShortAnswer {
    form: ShortForm,
}

impl Model for ShortAnswer {
    ghost use Rattle.console_answer.specs.declared.answer.Answer.{Answer};
    ghost use Rattle.console_answer.specs.ShortAnswers.{answer_of};

    ghost Value = { Answer };

    ghost view = { λ a. answer_of a.form };
}

impl ShortAnswer {
    /// The answer to a change, from what the book answers.
    pub fn of_change(done: Result<(u64, Reply), Refusal>) -> ShortAnswer
        ensures { result ≡ change_answer done }
    {
        let form = match done {
            Ok((serial, reply)) => ShortForm::Recorded { serial, reply },
            Err(refusal) => ShortForm::Refused(Fault::of_refusal(refusal)),
        };
        ShortAnswer { form }
    }

    /// That a frame ended so.
    pub fn ended(end: End) -> ShortAnswer
        ensures { result ≡ Ended end }
    {
        ShortAnswer {
            form: ShortForm::Ended(end),
        }
    }

    /// That the line was refused.
    pub fn refused(fault: Fault) -> ShortAnswer
        ensures { result ≡ Refused fault }
    {
        ShortAnswer {
            form: ShortForm::Refused(fault),
        }
    }

    /// Its parts.
    pub fn form(&self) -> &ShortForm
        ensures { self.now ≡ answer_of result.now }
    {
        &self.form
    }

    /// This answer as one of all that a line can get.
    pub fn into_answer(self) -> Answer
        ensures { result ≡ self }
    {
        match self.form {
            ShortForm::Recorded { serial, reply } => Answer::Changed { serial, reply },
            ShortForm::Ended(end) => Answer::Ended(end),
            ShortForm::Refused(fault) => Answer::Refused(fault),
        }
    }

    /// What is told of a line that answers so.
    pub fn told(&self) -> Told
        ensures { result ≡ told_of (Some self.now) }
    {
        match &self.form {
            ShortForm::Recorded { .. } => Told::Accepted,
            ShortForm::Ended(end) => Told::of_end(end),
            ShortForm::Refused(fault) => Told::Refused(*fault),
        }
    }
}
