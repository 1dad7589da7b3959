//! A worker: frames served one after another.

ghost use Rattle.std.specs.Prelude.{◌≡◌, IfOk, OnErr};
ghost use Rattle.bt_desk.specs.Seats.{IsSeatAt};
ghost use Rattle.thread_frames.specs.Deal.{TakesEach};
ghost use Rattle.thread_frames.specs.Takes.{IsTakeOf, all_of, taken_of, parts_of, count_of};
ghost use Rattle.thread_frames.specs.declared.deal.TheConstants.{MOST_PARTS};
ghost use Rattle.bt_workers.specs.Worked.{Works, Tells};

use crate::gate::Gate;
use crate::result::FrameResult;
use crate::serve::serve;
use bt_desk::{Desk, Seat};
use bt_mapkind::MapKind;
use host_words::NoMemory;
use std::alloc::Global;
use std::sync::Wait;
use thread_frames::{Frames, Take};

/// Takes frames until none is left and serves each; the ends, in the order in which it took the frames.
///
/// What the seat gained as its own calls is, frame by frame, the start of the frame and what its program asks on the answers
/// that it got; a frame whose next call finds the seat without calls ends by that. A take with all parts has then taken each
/// frame once. The gate was told of each of these calls before it was made, frame by frame, and of each frame that it has ended.
///
/// # Errors
/// `NoMemory` if room for the ends is refused: then no frame was taken and no call made.
pub fn worker<K: MapKind, R: Wait, G: Gate<R>>(
    rt: &R,
    alloc: Global,
    desk: &Desk<K>,
    seat: &mut Seat<K>,
    frames: &Frames,
    take: &mut Take,
    gate: &mut G,
) -> Result<Vec<FrameResult>, NoMemory>
    requires seat { IsSeatAt desk.now seat.old }
    requires take { IsTakeOf frames.now take.old }
    ensures seat { IsSeatAt desk.now seat.new }
    ensures take { IsTakeOf frames.now take.new }
    ensures works { IfOk result (λ ends. Works seat.old take.old ends.items seat.new take.new) }
    ensures told { IfOk result (λ ends. Tells G.told (all_of take.old) seat.old gate.old ends.items seat.new gate.new) }
    ensures all_taken { IfOk result (λ ends. parts_of take.old ≡ MOST_PARTS → TakesEach (taken_of take.new) (count_of frames.now)) }
    ensures refused { OnErr result ((seat.new ≡ seat.old) × (take.new ≡ take.old)) }
    ensures untold { OnErr result (gate.new ≡ gate.old) }
{
    let mut ends = Vec::new(alloc);
    ends.reserve(frames.len())?;
    let mut room = None;
    'frames: while let Some(it) = frames.next(rt, take) {
        let number = it.number;
        let end = serve(rt, desk, seat, gate, &mut room, it);
        gate.answered(number);
        ends.push_reserved(FrameResult { number, end });
    }
    Ok(ends)
}
