//! Two workers whose gates call the desk by seats of their own.

ghost use Rattle.std.specs.Prelude.{◌≡◌, []};
ghost use denote.Param.Send.{IsSync};
ghost use Rattle.bt_desk.specs.Seats.{IsSeatAt};
ghost use Rattle.thread_frames.specs.Takes.{IsTakeOf, taken_of, parts_of};
ghost use Rattle.thread_frames.specs.declared.deal.TheConstants.{MOST_PARTS};

use crate::books::found;
use crate::watch::{UNTOLD, Watch, reaches};
use bt_desk::{Answer, Desk, Event, Seat};
use bt_journal::Book;
use bt_mapkind::MapKind;
use bt_workers::{FrameIn, FrameResult, Frames, Gate, Take, run_two, worker};
use console_script::HostKind;
use std::alloc::Global;
use std::marker::Model;
use std::process::Abort;
use std::sync::Wait;
use std::sync::atomic::Ordering;
use std::thread::{Threads, join};
use std::time::Clock;

// How many calls the desk is opened for.
const CALLS: u64 = 1_000;

// A gate with a seat of its own. The first frame that comes to its call of this number waits until so many have ended; then its
// gate calls the desk itself, and writes down what it was told.
#[derive(Drop)]
struct Calling<'a> {
    watch: &'a Watch,
    desk: &'a Desk<HostKind>,
    seat: Seat<HostKind>,
    nth: u64,
    ended: u64,
    event: Option<Event<HostKind>>,
}

impl<'a> Model for Calling<'a> {
    ghost use Rattle.bt_desk.specs.Seats.{IsSeatAt};

    ghost Value = { Unit {0} };

    ghost view = { λ g. tt };

    ghost invariant = { λ g. IsSeatAt g.desk.now g.seat };
}

impl<'a> Calling<'a> {
    fn call<R: Wait>(&mut self, rt: &R) {
        let Some(event) = self.event.take() else {
            return;
        };
        if let Ok(answer) = self.desk.call(rt, &mut self.seat, event) {
            self.watch.told.store(number_in(&answer), Ordering::SeqCst);
        }
    }
}

impl<'a, R: Wait + Clock> Gate<R> for Calling<'a> {
    fn pass(&mut self, rt: &R, frame: u64, nth: u64) {
        self.watch.note(frame, nth);
        if nth == self.nth
            && self.watch.holds(frame)
            && reaches(rt, &self.watch.ended, self.ended)
        {
            self.call(rt);
        }
    }

    fn answered(&mut self, frame: u64) {
        self.watch.note_end(frame);
    }
}

// How many moments were undone, or the first byte that was found.
fn number_in(answer: &Answer) -> u64 {
    match answer {
        Answer::UndoneTo(Ok(count)) => *count,
        Answer::Asked(_) => match found(answer) {
            Some(byte) => byte as u64,
            None => UNTOLD,
        },
        _ => UNTOLD,
    }
}

// What a worker works with: its seat and its gate.
type Shift<'a> = (Seat<HostKind>, Calling<'a>);

// What two workers leave: their seats, and the ends of their frames.
type Served = (Seat<HostKind>, Seat<HostKind>, Vec<FrameResult>);

// Serves the frames by `run_two`.
fn serve_by_run_two<'a, R: Threads + Wait + Clock + Abort + Sync>(
    rt: &R,
    alloc: Global,
    desk: &'a Desk<HostKind>,
    frames: (&Frames, Take),
    shifts: (Shift<'a>, Shift<'a>),
) -> Served
    requires seats { IsSeatAt desk.now shifts.0.0 × IsSeatAt desk.now shifts.1.0 }
    requires take { IsTakeOf frames.0.now frames.1 × (parts_of frames.1 ≡ MOST_PARTS) × (taken_of frames.1 ≡ []) }
    ensures { IsSeatAt desk.now result.0 × IsSeatAt desk.now result.1 }
{
    let (frames, take) = frames;
    let ((first, one), (second, two)) = shifts;
    let Ok(served) = run_two(rt, alloc, desk, first, second, frames, take, one, two) else {
        panic!(rt; "two threads")
    };
    served
}

// What one worker leaves: its seat, and the ends of its frames.
type Left<K> = (Seat<K>, Vec<FrameResult>);

// Does the part of one worker.
fn work<K: MapKind, R: Wait + Abort, G: Gate<R>>(
    rt: &R,
    alloc: Global,
    desk: &Desk<K>,
    frames: &Frames,
    take: Take,
    shift: (Seat<K>, G),
) -> Left<K>
    requires { IsSeatAt desk.now shift.0 × IsTakeOf frames.now take }
    ensures { IsSeatAt desk.now result.0 }
{
    let mut take = take;
    let (mut seat, mut gate) = shift;
    let Ok(ends) = worker(rt, alloc, desk, &mut seat, frames, &mut take, &mut gate) else {
        panic!(rt; "room for the ends")
    };
    (seat, ends)
}

// Does the parts of two workers on two threads.
fn work_beside<K: MapKind + Send, R: Threads + Wait + Abort + Sync, G: Gate<R>>(
    rt: &R,
    alloc: Global,
    desk: &Desk<K>,
    frames: &Frames,
    takes: (Take, Take),
    shifts: ((Seat<K>, G), (Seat<K>, G)),
) -> (Left<K>, Left<K>)
    requires seats { IsSeatAt desk.now shifts.0.0 × IsSeatAt desk.now shifts.1.0 }
    requires takes { IsTakeOf frames.now takes.0 × IsTakeOf frames.now takes.1 }
    ensures first { IsSeatAt desk.now result.0.0 }
    ensures second { IsSeatAt desk.now result.1.0 }
{
    let (take, other) = takes;
    let (one, two) = shifts;
    join(
        rt,
        || -> Left<K>
            requires { IsSync R.row × IsSeatAt desk.now one.0 × IsTakeOf frames.now take }
            ensures { IsSeatAt desk.entry.now result.0 }
        { work(rt, alloc, desk, frames, take, one) },
        || -> Left<K>
            requires { IsSync R.row × IsSeatAt desk.now two.0 × IsTakeOf frames.now other }
            ensures { IsSeatAt desk.entry.now result.0 }
        { work(rt, alloc, desk, frames, other, two) },
    )
}

// Serves the frames by a call of `worker` on each of two threads.
fn serve_by_two_calls<'a, R: Threads + Wait + Clock + Abort + Sync>(
    rt: &R,
    alloc: Global,
    desk: &'a Desk<HostKind>,
    frames: (&Frames, Take),
    shifts: (Shift<'a>, Shift<'a>),
) -> Served
    requires seats { IsSeatAt desk.now shifts.0.0 × IsSeatAt desk.now shifts.1.0 }
    requires take { IsTakeOf frames.0.now frames.1 }
    ensures { IsSeatAt desk.now result.0 × IsSeatAt desk.now result.1 }
{
    let (frames, mut take) = frames;
    let Some(other) = frames.split(&mut take) else {
        panic!(rt; "two takes")
    };
    let takes = (take, other);
    let (one, two) = work_beside(rt, alloc, desk, frames, takes, shifts);
    let (first, mut ends) = one;
    let (second, mut others) = two;
    assert!(rt; ends.append(&mut others).is_ok());
    (first, second, ends)
}

/// How the two workers are run: by `run_two`, or by a call of `worker` on each of two threads.
#[derive(Clone, Copy)]
pub(crate) enum Workers {
    ByRunTwo,
    ByTwoCalls,
}

// Has two workers serve the frames.
fn serve<'a, R: Threads + Wait + Clock + Abort + Sync>(
    rt: &R,
    alloc: Global,
    desk: &'a Desk<HostKind>,
    frames: (&Frames, Take),
    shifts: (Shift<'a>, Shift<'a>),
    workers: Workers,
) -> Served
    requires seats { IsSeatAt desk.now shifts.0.0 × IsSeatAt desk.now shifts.1.0 }
    requires take { IsTakeOf frames.0.now frames.1 × (parts_of frames.1 ≡ MOST_PARTS) × (taken_of frames.1 ≡ []) }
    ensures { IsSeatAt desk.now result.0 × IsSeatAt desk.now result.1 }
{
    match workers {
        Workers::ByRunTwo => serve_by_run_two(rt, alloc, desk, frames, shifts),
        Workers::ByTwoCalls => serve_by_two_calls(rt, alloc, desk, frames, shifts),
    }
}

/// Shares the book, and has two workers serve the frames, each with a gate that has a seat and an event: the closed book, and
/// the ends. The gate of the first frame that comes to its call of the number `nth` makes its event, once so many frames have
/// ended.
pub(crate) fn run_calling<R: Threads + Wait + Clock + Abort + Sync>(
    rt: &R,
    alloc: Global,
    book: Book<HostKind>,
    frames: Vec<FrameIn>,
    watch: (&Watch, u64, u64),
    events: (Event<HostKind>, Event<HostKind>),
    workers: Workers,
) -> (Book<HostKind>, Vec<FrameResult>) {
    let Ok((frames, take)) = Frames::new(rt, alloc, frames) else {
        panic!(rt; "frames")
    };
    let Ok((desk, mut first)) = Desk::open(alloc, book, CALLS) else {
        panic!(rt; "a desk")
    };
    let (watch, nth, ended) = watch;
    let second = desk.split(&mut first);
    let one = Calling {
        watch,
        desk: &desk,
        seat: desk.split(&mut first),
        nth,
        ended,
        event: Some(events.0),
    };
    let two = Calling {
        watch,
        desk: &desk,
        seat: desk.split(&mut first),
        nth,
        ended,
        event: Some(events.1),
    };
    let shifts = ((first, one), (second, two));
    let (mut first, second, ends) = serve(rt, alloc, &desk, (&frames, take), shifts, workers);
    desk.join(&mut first, second);
    (desk.close(rt, first), ends)
}
