//! A worker that serves its share of the frames, pass after pass.

ghost use Rattle.std.specs.Prelude.{◌≡◌, ◌<◌, ◌≤◌, [], ◌∷◌, length, All, IfOk, IfSome, IfNone};
ghost use Rattle.std.specs.Bool.{OnTrue};
ghost use Rattle.bt_desk.specs.Seats.{IsSeatAt};
ghost use Rattle.thread_frames.specs.Faults.{IsShort};
ghost use Rattle.bt_workers.specs.Worked.{ServesFrames};
ghost use Rattle.thread_rounds.specs.Rounds.{ending, IsCopyAt, ServesRounds};

use crate::counts::Counts;
use crate::orders::Orders;
use crate::pace::Pace;
use crate::place::Place;
use crate::share::Share;
use bt_desk::{Desk, Seat};
use bt_interp::Run;
use bt_mapkind::MapKind;
use bt_workers::serve::serve;
use bt_workers::{FrameEnd, OpenGate};
use host_words::NoMemory;
use journal_model::StartFault;
use std::alloc::Global;
use std::sync::Wait;
use std::time::Clock;
use thread_frames::{FrameIn, Numbered};

// A copy of the frame of this number, from 1.
fn copy_at(alloc: Global, frames: &[FrameIn], number: u64) -> Result<Numbered, NoMemory>
    requires number { (0 < number) × (number ≤ length frames.now) }
    requires short { All IsShort frames.now }
    ensures number { IfOk result (λ it. it.number ≡ number) }
    ensures copy { IfOk result (IsCopyAt frames.now) }
{
    let index = (number - 1) as usize;
    let frame = &frames[index];
    let device = frame.device.copy()?;
    let bytes = Vec::from_slice(alloc, frame.bytes.as_slice())?;
    let frame = FrameIn { device, bytes };
    Ok(Numbered { number, frame })
}

// Serves a copy of the frame of this number. None if there is no memory for the copy; the frame then makes no call.
fn serve_copy<K: MapKind, R: Wait>(
    rt: &R,
    alloc: Global,
    desk: &Desk<K>,
    seat: &mut Seat<K>,
    room: &mut Option<Run>,
    frames: &[FrameIn],
    number: u64,
) -> Option<FrameEnd>
    requires seat { IsSeatAt desk.now seat.old }
    requires number { (0 < number) × (number ≤ length frames.now) }
    requires short { All IsShort frames.now }
    ensures seat { IsSeatAt desk.now seat.new }
    ensures served { IfSome result (λ end. ServesFrames frames.now seat.old (ending number end ∷ []) seat.new) }
    ensures left_out { IfNone result (seat.new ≡ seat.old) }
{
    let mut gate = OpenGate;
    match copy_at(alloc, frames, number) {
        Ok(it) => Some(serve(rt, desk, seat, &mut gate, room, it)),
        Err(_) => None,
    }
}

// Whether a worker at this position goes on, with so many passes to do over so many frames. While it is to rest, and until its
// next frame is due, it waits.
fn goes_on<R: Wait + Clock>(
    rt: &R,
    place: Place,
    passes: u64,
    count: u64,
    pace: &Pace,
    orders: &Orders,
) -> bool
    ensures { OnTrue result ((place.pass < passes) × (place.number ≤ count)) }
{
    place.pass < passes && place.number <= count && pace.await_frame(rt, orders)
}

/// Serves the frames of a share, pass after pass, until so many passes are done, the signal is stop, or the seat has no
/// calls left. Where the worker then stands. Without a number of passes there is no last one. A share that has none of the
/// frames is done at once. Between two frames the worker waits until the next one is due by the pace.
///
/// What the seat gained as its own calls is what some frames make, one after another, each as a frame of a `worker` does.
/// They are the frames of the share, pass after pass and in order, up to the position at which the worker is, but for those
/// that it left out: a frame for whose copy there was no memory makes no call, and is counted under `no_memory`. At the
/// end it leaves. Nothing is said of when that is.
pub fn serve_rounds<K: MapKind, R: Wait + Clock>(
    rt: &R,
    alloc: Global,
    desk: &Desk<K>,
    seat: &mut Seat<K>,
    frames: &[FrameIn],
    share: Share,
    passes: Option<u64>,
    pace: &Pace,
    orders: &Orders,
    counts: &Counts,
) -> Place
    requires seat { IsSeatAt desk.now seat.old }
    requires short { All IsShort frames.now }
    ensures seat { IsSeatAt desk.now seat.new }
    ensures served { ServesRounds share frames.now passes seat.old result seat.new }
{
    let count = frames.len() as u64;
    let most = passes.unwrap_or(u64::MAX);
    let mut place = Place::start(share);
    let mut room = None;
    let mut spent = false;
    orders.come(rt);
    'turns: for _ in rt.forever() {
        if spent || !goes_on(rt, place, most, count, pace, orders) {
            break;
        }
        let end = serve_copy(rt, alloc, desk, seat, &mut room, frames, place.number);
        counts.add(
            rt,
            end.unwrap_or(FrameEnd::NotStarted(StartFault::NoMemory)),
        );
        place = place.after(share, count);
        spent = end == Some(FrameEnd::SeatSpent);
    }
    orders.leave(rt);
    place
}
