//! What a range came to.

ghost use Rattle.std.specs.Prelude.{◌≡◌};
ghost use Rattle.kept_host.specs.Taking.{counts_taken};

use console_answer::Fault;
use console_script::Summary;

/// What a range came to.
#[derive(Clone, Copy, PartialEq, Eq, Debug)]
pub enum Taken {
    /// All its changes in force are taken out, so many.
    All(u64),
    /// It has no change in force.
    NoneInForce,
    /// One of them is refused, and so none is taken out.
    Refused(Fault),
}

impl Taken {
    /// How a range counts: each change that it takes out as an accepted line, and else as a refused one.
    pub fn counts(self) -> Summary
        ensures { result ≡ counts_taken self }
    {
        match self {
            Taken::All(count) => Summary {
                accepted: count,
                refused: 0,
            },
            Taken::NoneInForce | Taken::Refused(_) => Summary {
                accepted: 0,
                refused: 1,
            },
        }
    }
}
