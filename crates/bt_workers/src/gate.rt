//! What a caller does between the calls of a frame.

ghost use Rattle.std.specs.Prelude.{◌≡◌, ⊤};
ghost use Rattle.bt_workers.specs.Gates.{Notice, Pass, Answered};

use std::sync::Wait;

/// What is told of each call that a worker is about to make, and of each frame that has ended. A caller may count, wait, or
/// call the desk by a seat of its own; no lock and no book is held meanwhile.
pub trait Gate<R: Wait>: Send + Drop {
    /// What may become of it when it is told this. A gate of which nothing is known says nothing here.
    ghost told: { Self → Notice → Self → Type 0 } = { λ _ _ _. ⊤ };

    /// Comes before each call at the desk that a frame makes, with the frame's number and the number of the call, from 1. It
    /// comes also before the call for which the seat has none left.
    fn pass(&mut self, rt: &R, frame: u64, nth: u64)
        ensures { told self.old (Pass frame nth) self.new };

    /// Comes when the frame of this number has ended.
    fn answered(&mut self, frame: u64)
        ensures { told self.old (Answered frame) self.new };
}

/// A gate that does nothing.
#[derive(Clone, Copy, Debug)]
pub struct OpenGate;

impl<R: Wait> Gate<R> for OpenGate {
    ghost told = { λ gate _ after. after ≡ gate };

    fn pass(&mut self, _rt: &R, _frame: u64, _nth: u64) {}

    fn answered(&mut self, _frame: u64) {}
}
