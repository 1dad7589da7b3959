//! How a run of a program on a frame ends.

use program_machine::Reason;
use program_step::Action;

/// Why a program was aborted, and where.
#[derive(Clone, Copy, PartialEq, Eq, Debug)]
pub struct Abort {
    pub reason: Reason,
    /// The id of the program that was running: after a tail call, that of the program it called.
    pub prog: u32,
    /// The slot of the instruction that ended it in that program, from 0.
    pub slot: usize,
}

/// How a frame, or a run of its own, ended.
#[derive(Clone, Copy, PartialEq, Eq, Debug)]
pub enum End {
    /// The program ended with EXIT and decided this.
    Done(Action),
    /// The program was aborted.
    Aborted(Abort),
    /// No program is attached to the device.
    NoProgram,
}
