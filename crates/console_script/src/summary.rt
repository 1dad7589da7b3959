//! How many lines were accepted, and how many refused.

ghost use Rattle.std.specs.Prelude.{◌≡◌};
ghost use Rattle.console_script.specs.Tallies.{counted_told, both_counts};
ghost use Rattle.console_script.specs.Transcript.{counted};

use console_answer::{Answer, Told};

/// How many lines were accepted, and how many refused; lines without words are neither, nor is the end of
/// a batch. At the greatest u64 a count stays.
#[derive(Clone, Copy, PartialEq, Eq, Debug)]
pub struct Summary {
    pub accepted: u64,
    pub refused: u64,
}

impl Summary {
    /// The counts with one more answer.
    pub fn with(self, answer: &Option<Answer>) -> Summary
        ensures { result ≡ counted self answer.now }
    {
        self.with_told(Told::of(answer))
    }

    /// The counts with one more line, of which this was told.
    pub fn with_told(self, told: Told) -> Summary
        ensures { result ≡ counted_told self told }
    {
        match told {
            Told::Empty | Told::Processed => self,
            Told::Refused(_) => Summary {
                accepted: self.accepted,
                refused: self.refused.saturating_add(1),
            },
            Told::Accepted | Told::Aborted(_) | Told::NoAction => Summary {
                accepted: self.accepted.saturating_add(1),
                refused: self.refused,
            },
        }
    }

    /// The counts of both.
    pub fn plus(self, other: Summary) -> Summary
        ensures { result ≡ both_counts self other }
    {
        Summary {
            accepted: self.accepted.saturating_add(other.accepted),
            refused: self.refused.saturating_add(other.refused),
        }
    }
}
