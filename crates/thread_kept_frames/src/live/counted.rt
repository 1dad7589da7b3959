//! Frames counted by how they ended.

ghost use Rattle.std.specs.Prelude.{◌≡◌};
ghost use Rattle.thread_kept_frames.specs.Courses.{tallied};

use bt_workers::FrameResult;
use thread_rounds::Tally;

/// A tally in which frames that ended so are counted, too.
pub(crate) fn tallied(tally: Tally, ends: &[FrameResult]) -> Tally
    ensures { result ≡ tallied tally ends.now }
{
    let mut tally = tally;
    for it in ends {
        tally.count(it.end);
    }
    tally
}
