//! How many frames ended how.

use bt_interp::End;
use bt_workers::FrameEnd;
use journal_model::StartFault;
use program_step::Action;

/// How many frames ended how. A number stays at 2^64 - 1 once it is there.
#[derive(Clone, Copy, Debug, Default, PartialEq, Eq)]
pub struct Tally {
    /// All frames that have ended.
    pub frames: u64,
    /// Their program decided XDP_ABORTED.
    pub aborted: u64,
    /// XDP_DROP.
    pub drop: u64,
    /// XDP_PASS.
    pub pass: u64,
    /// XDP_TX.
    pub tx: u64,
    /// XDP_REDIRECT.
    pub redirect: u64,
    /// Their program was aborted, for whatever reason.
    pub faulted: u64,
    /// No program was attached to their device.
    pub no_program: u64,
    /// There was no such device.
    pub no_device: u64,
    /// There was no memory for a copy of the frame, or to start its program.
    pub no_memory: u64,
    /// The seat of their worker had no calls left.
    pub spent: u64,
}

impl Tally {
    ghost use Rattle.std.specs.Prelude.{◌≡◌};
    ghost use Rattle.thread_rounds.specs.Counted.{decided, counted};

    // Counts a frame whose program decided this.
    fn decide(&mut self, action: Action)
        ensures { self.new ≡ decided self.old action }
    {
        match action {
            Action::Aborted => self.aborted = self.aborted.saturating_add(1),
            Action::Drop => self.drop = self.drop.saturating_add(1),
            Action::Pass => self.pass = self.pass.saturating_add(1),
            Action::Tx => self.tx = self.tx.saturating_add(1),
            Action::Redirect => self.redirect = self.redirect.saturating_add(1),
        }
    }

    /// Counts a frame that ended so.
    pub fn count(&mut self, end: FrameEnd)
        ensures { self.new ≡ counted self.old end }
    {
        self.frames = self.frames.saturating_add(1);
        match end {
            FrameEnd::Ended(End::Done(action)) => self.decide(action),
            FrameEnd::Ended(End::Aborted(_)) => self.faulted = self.faulted.saturating_add(1),
            FrameEnd::Ended(End::NoProgram) => {
                self.no_program = self.no_program.saturating_add(1);
            }
            FrameEnd::NotStarted(StartFault::NoDevice) => {
                self.no_device = self.no_device.saturating_add(1);
            }
            FrameEnd::NotStarted(StartFault::NoMemory) => {
                self.no_memory = self.no_memory.saturating_add(1);
            }
            FrameEnd::SeatSpent => self.spent = self.spent.saturating_add(1),
        }
    }
}
