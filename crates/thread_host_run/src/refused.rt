//! Frames that were refused something.

ghost use Rattle.std.specs.Prelude.{◌≡◌, count_by};
ghost use Rattle.thread_host_run.specs.Refused.{is_refusal, is_refused, is_refused_end};

use bt_interp::End;
use bt_workers::{FrameEnd, FrameResult};
use journal_model::StartFault;
use program_machine::Reason;

fn is_refusal(reason: Reason) -> bool
    ensures { result ≡ is_refusal reason }
{
    matches!(reason, Reason::Refused)
}

// Whether a frame that ended so was refused memory at its start, or an access.
fn is_refused_end(end: FrameEnd) -> bool
    ensures { result ≡ is_refused_end end }
{
    match end {
        FrameEnd::NotStarted(StartFault::NoMemory) => true,
        FrameEnd::Ended(End::Aborted(abort)) => is_refusal(abort.reason),
        FrameEnd::Ended(End::Done(_) | End::NoProgram)
        | FrameEnd::NotStarted(StartFault::NoDevice)
        | FrameEnd::SeatSpent => false,
    }
}

/// How many of these frames were refused memory at their start, or an access, for which memory was lacking or the journal full.
pub fn refused_in(ends: &[FrameResult]) -> usize
    ensures { result ≡ count_by is_refused ends.now }
{
    ends.iter().filter(|row| is_refused_end(row.end)).count()
}
