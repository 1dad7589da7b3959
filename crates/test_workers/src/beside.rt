//! Frames that two workers serve, while a third thread makes one call at the desk.

ghost use Rattle.std.specs.Prelude.{◌≡◌, [], IfOk};
ghost use denote.Param.Send.{IsSync};
ghost use Rattle.bt_desk.specs.Seats.{IsSeatAt};
ghost use Rattle.thread_frames.specs.Takes.{IsTakeOf, taken_of, parts_of};
ghost use Rattle.thread_frames.specs.declared.deal.TheConstants.{MOST_PARTS};

use crate::watch::{Holding, Watch, reaches};
use bt_desk::{Answer, Desk, Event, Seat};
use bt_journal::Book;
use bt_mapkind::MapKind;
use bt_workers::{FrameIn, FrameResult, Frames, RunFault, Take, run_two};
use std::alloc::Global;
use std::process::Abort;
use std::sync::Wait;
use std::sync::atomic::Ordering;
use std::thread::{Threads, join};
use std::time::Clock;

/// How many calls a desk is opened for.
const CALLS: u64 = 100_000;

// Waits until a frame is held and so many have ended, makes its call, and lets the frame go on.
fn call_once<K: MapKind, R: Wait + Clock + Abort>(
    rt: &R,
    desk: &Desk<K>,
    mut seat: Seat<K>,
    watch: &Watch,
    ended: u64,
    event: Event<K>,
) -> (Seat<K>, Answer)
    requires { IsSeatAt desk.now seat }
    ensures { IsSeatAt desk.now result.0 }
{
    assert!(rt; reaches(rt, &watch.held, 1) && reaches(rt, &watch.ended, ended));
    let Ok(answer) = desk.call(rt, &mut seat, event) else {
        panic!(rt; "a call left")
    };
    watch.done.store(1, Ordering::SeqCst);
    (seat, answer)
}

// What two workers leave.
type Served<K> = Result<(Seat<K>, Seat<K>, Vec<FrameResult>), RunFault>;

// Has two workers serve the frames beside the third thread; the seats that are left, the ends, and the answer to its call.
fn serve_beside<K: MapKind + Send, R: Threads + Wait + Clock + Abort + Sync>(
    rt: &R,
    alloc: Global,
    desk: &Desk<K>,
    seats: (Seat<K>, Seat<K>, Seat<K>),
    frames: (&Frames, Take),
    watch: (&Watch, u64, u64),
    event: Event<K>,
) -> ((Seat<K>, Answer), Served<K>)
    requires seats { IsSeatAt desk.now seats.0 × IsSeatAt desk.now seats.1 × IsSeatAt desk.now seats.2 }
    requires take { IsTakeOf frames.0.now frames.1 × (parts_of frames.1 ≡ MOST_PARTS) × (taken_of frames.1 ≡ []) }
    ensures third { IsSeatAt desk.now result.0.0 }
    ensures workers { IfOk result.1 (λ r. IsSeatAt desk.now r.0 × IsSeatAt desk.now r.1) }
{
    let (first, second, third) = seats;
    let (frames, take) = frames;
    let (watch, call, ended) = watch;
    join(
        rt,
        || -> (Seat<K>, Answer)
            requires { IsSync R.row × IsSeatAt desk.now third }
            ensures { IsSeatAt desk.entry.now result.0 }
        { call_once(rt, desk, third, watch, ended, event) },
        || -> Served<K>
            requires { IsSync R.row × IsSeatAt desk.now first × IsSeatAt desk.now second × IsTakeOf frames.now take × (parts_of take ≡ MOST_PARTS) × (taken_of take ≡ []) }
            ensures { IfOk result (λ r. IsSeatAt desk.entry.now r.0 × IsSeatAt desk.entry.now r.1) }
        {
            let one = Holding { watch, call };
            let two = Holding { watch, call };
            run_two(rt, alloc, desk, first, second, frames, take, one, two)
        },
    )
}

/// Shares the book, has two workers serve the frames, of which the first that comes to its call of the number `call` waits at
/// its gate, and a third thread make its call once so many have ended: the closed book, the ends, and the answer to the call.
pub(crate) fn run_beside<K: MapKind + Send, R: Threads + Wait + Clock + Abort + Sync>(
    rt: &R,
    alloc: Global,
    book: Book<K>,
    frames: Vec<FrameIn>,
    watch: (&Watch, u64, u64),
    event: Event<K>,
) -> (Book<K>, Vec<FrameResult>, Answer) {
    let Ok((frames, take)) = Frames::new(rt, alloc, frames) else {
        panic!(rt; "frames")
    };
    let Ok((desk, mut first)) = Desk::open(alloc, book, CALLS) else {
        panic!(rt; "a desk")
    };
    let third = desk.split(&mut first);
    let second = desk.split(&mut first);
    let seats = (first, second, third);
    let ((third, answer), served) = serve_beside(
        rt,
        alloc,
        &desk,
        seats,
        (&frames, take),
        watch,
        event,
    );
    let Ok((mut one, two, ends)) = served else {
        panic!(rt; "two threads")
    };
    desk.join(&mut one, two);
    desk.join(&mut one, third);
    (desk.close(rt, one), ends, answer)
}
