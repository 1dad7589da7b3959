//! Where a run stops.

ghost use Rattle.std.specs.Prelude.{◌≡◌};
ghost use Rattle.program_step.specs.Outcome as outcomes;

use bt_verify::Program;
use program_access::Access;
use program_machine::Reason;

/// What an XDP program decides about its frame (include/uapi/linux/bpf.h, enum xdp_action).
#[derive(Clone, Copy, Debug, PartialEq, Eq)]
pub enum Action {
    Aborted,
    Drop,
    Pass,
    Tx,
    Redirect,
}

impl Action {
    ghost use Rattle.std.specs.Prelude.{◌≡◌};
    ghost use Rattle.program_step.specs.Outcome as outcomes;

    /// The action that this number means: the low 32 bits count, and no other number than 0 to 4 is one but for
    /// `Aborted`.
    pub fn of(number: u64) -> Action
        ensures { result ≡ outcomes.action_of number }
    {
        match number & 0xffff_ffff {
            1 => Action::Drop,
            2 => Action::Pass,
            3 => Action::Tx,
            4 => Action::Redirect,
            _ => Action::Aborted,
        }
    }

    /// Its number.
    pub fn number(self) -> u32
        ensures { result ≡ outcomes.number_of self }
    {
        match self {
            Action::Aborted => 0,
            Action::Drop => 1,
            Action::Pass => 2,
            Action::Tx => 3,
            Action::Redirect => 4,
        }
    }
}

/// Where a run stops: at an access, which is to be answered, or at its end.
#[derive(PartialEq, Eq, Debug, Drop)]
pub enum Outcome {
    /// It asks for this and waits for the reply.
    Access(Access),
    /// It ended with EXIT.
    Done(Action),
    /// It was aborted.
    Abort(Reason),
}

/// How a reply leaves it.
#[derive(Debug, Drop)]
pub enum Answered {
    /// At the next instruction.
    Next,
    /// At the start of another program.
    Start(Program),
    /// At its end.
    End(Reason),
}
