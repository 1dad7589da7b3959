//! What some lines came to: how many were accepted and refused, and what went wrong.

ghost use Rattle.std.specs.Prelude.{◌≡◌};
ghost use Rattle.console_script.specs.Tallies.{fresh, tallied, tallied_told, mishap_told};

use crate::summary::Summary;
use console_answer::{Answer, Mishap, Told};

/// What some lines came to.
#[derive(Clone, Copy, PartialEq, Eq, Debug)]
pub struct Tally {
    /// How many lines were accepted and refused so far.
    pub summary: Summary,
    /// What went wrong last in these lines; `None` if nothing did.
    pub mishap: Option<Mishap>,
}

impl Tally {
    /// Before the first of these lines, after others that came to so many.
    pub fn fresh(summary: Summary) -> Tally
        ensures { result ≡ fresh summary }
    {
        Tally {
            summary,
            mishap: None,
        }
    }

    /// What the lines came to with one more answer.
    pub fn with(self, answer: &Option<Answer>) -> Tally
        ensures { result ≡ tallied self answer.now }
    {
        self.with_told(Told::of(answer))
    }

    /// What the lines came to with one more, of which this was told.
    pub fn with_told(self, told: Told) -> Tally
        ensures { result ≡ tallied_told self told }
    {
        Tally {
            summary: self.summary.with_told(told),
            mishap: mishap_behind(self.mishap, told),
        }
    }
}

// What went wrong last, if this did up to a line of which this was told.
fn mishap_behind(before: Option<Mishap>, told: Told) -> Option<Mishap>
    ensures { result ≡ mishap_told before told }
{
    match told {
        Told::Refused(fault) => Some(Mishap::Refused(fault)),
        Told::Aborted(abort) => Some(Mishap::Aborted(abort)),
        Told::NoAction => Some(Mishap::NoAction),
        Told::Empty | Told::Accepted | Told::Processed => before,
    }
}
