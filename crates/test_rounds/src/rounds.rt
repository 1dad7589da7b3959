//! Two workers on threads of their own, and a third thread that gives them signals.

ghost use Rattle.std.specs.Prelude.{◌<◌, All};
ghost use denote.Param.Send.{IsSync};
ghost use Rattle.bt_desk.specs.Seats.{IsSeatAt};
ghost use Rattle.thread_frames.specs.Faults.{IsShort};

use crate::counting::{counted, counting_book, frames};
use bt_desk::{Desk, Seat};
use bt_journal::Book;
use bt_mapkind::MapKind;
use std::alloc::Global;
use std::process::Abort;
use std::sync::Wait;
use std::thread;
use std::thread::{Threads, join};
use std::time::{Clock, Duration, Instant};
use thread_rounds::{Counts, FrameIn, Order, Orders, Pace, Share, serve_rounds};

// What the workers are told, and how far they are.
#[derive(Drop)]
struct Floor {
    passes: Option<u64>,
    pace: Pace,
    orders: Orders,
    counts: Counts,
}

impl Floor {
    fn new(passes: Option<u64>, rate: u64) -> Floor {
        Floor {
            passes,
            pace: Pace::new(rate),
            orders: Orders::new(Order::Go, 2),
            counts: Counts::new(),
        }
    }

    // Has the workers stop after so many milliseconds. Without a number it has them rest after one, and sees that no frame ends
    // before they are to go on.
    fn order<R: Wait + Clock + Abort>(&self, rt: &R, stop: Option<u64>) {
        thread::sleep(rt, Duration::from_millis(stop.unwrap_or(1)));
        if stop.is_some() {
            self.orders.give(rt, Order::Stop);
            return;
        }
        self.orders.give(rt, Order::Rest);
        self.orders.await_idle(rt);
        let before = self.counts.read(rt);
        thread::sleep(rt, Duration::from_millis(1));
        assert!(rt; self.counts.read(rt) == before);
        self.orders.give(rt, Order::Go);
    }
}

// What one of two workers does, whose first frame has this number.
fn work<K: MapKind, R: Wait + Clock>(
    rt: &R,
    alloc: Global,
    desk: &Desk<K>,
    mut seat: Seat<K>,
    frames: &[FrameIn],
    first: u64,
    floor: &Floor,
) -> Seat<K>
    requires seat { IsSeatAt desk.now seat }
    requires short { All IsShort frames.now }
    requires first { 0 < first }
    ensures { IsSeatAt desk.now result }
{
    let share = Share { first, stride: 2 };
    let _place = serve_rounds(
        rt,
        alloc,
        desk,
        &mut seat,
        frames,
        share,
        floor.passes,
        &floor.pace,
        &floor.orders,
        &floor.counts,
    );
    seat
}

// Both workers, on two threads.
fn work_beside<K: MapKind + Send, R: Threads + Wait + Clock + Sync>(
    rt: &R,
    alloc: Global,
    desk: &Desk<K>,
    seats: (Seat<K>, Seat<K>),
    frames: &[FrameIn],
    floor: &Floor,
) -> (Seat<K>, Seat<K>)
    requires seats { IsSeatAt desk.now seats.0 × IsSeatAt desk.now seats.1 }
    requires short { All IsShort frames.now }
    ensures { IsSeatAt desk.now result.0 × IsSeatAt desk.now result.1 }
{
    let (one, two) = seats;
    join(
        rt,
        || -> Seat<K>
            requires { IsSync R.row × IsSeatAt desk.now one × All IsShort frames.now }
            ensures { IsSeatAt desk.entry.now result }
        { work(rt, alloc, desk, one, frames, 1, floor) },
        || -> Seat<K>
            requires { IsSync R.row × IsSeatAt desk.now two × All IsShort frames.now }
            ensures { IsSeatAt desk.entry.now result }
        { work(rt, alloc, desk, two, frames, 2, floor) },
    )
}

// Has both workers serve frames of a book while a third thread gives orders. The closed book.
fn serve<K: MapKind + Send, R: Threads + Wait + Clock + Abort + Sync>(
    rt: &R,
    alloc: Global,
    book: Book<K>,
    frames: &[FrameIn],
    floor: &Floor,
    stop: Option<u64>,
) -> Book<K>
    requires { All IsShort frames.now }
{
    let Ok((desk, mut one)) = Desk::open(alloc, book, 100_000) else {
        panic!(rt; "a desk")
    };
    let two = desk.split(&mut one);
    let shared = &desk;
    let ((mut one, two), _) = join(
        rt,
        || -> (Seat<K>, Seat<K>)
            requires { IsSync R.row × IsSeatAt shared.now one × IsSeatAt shared.now two × All IsShort frames.now }
            ensures { IsSeatAt shared.entry.now result.0 × IsSeatAt shared.entry.now result.1 }
        { work_beside(rt, alloc, shared, (one, two), frames, floor) },
        || floor.order(rt, stop),
    );
    desk.join(&mut one, two);
    desk.close(rt, one)
}

// How many of 41 frames a pass passed: as many as the program counted, and as there are moments of it.
fn passed<R: Threads + Wait + Clock + Abort + Sync>(
    rt: &R,
    alloc: Global,
    passes: Option<u64>,
    rate: u64,
    stop: Option<u64>,
) -> u64 {
    let floor = Floor::new(passes, rate);
    let frames = frames(rt, alloc, 41);
    let book = counting_book(rt, alloc);
    let mut book = serve(rt, alloc, book, frames.as_slice(), &floor, stop);
    let passed = floor.counts.read(rt).pass;
    assert_eq!(rt; book.moments().checked_sub(3), Some(passed));
    assert_eq!(rt; counted(rt, alloc, &mut book), Some(passed));
    passed
}

#[test]
fn three_passes_with_a_rest_serve_each_frame_three_times(rt: HostRuntime) {
    for _ in 0..20u32 {
        for rate in [0u64, 20_000] {
            assert_eq!(rt; passed(&rt, rt.alloc(), Some(3), rate, None), 123);
        }
    }
}

// At one frame a second a worker that no stop wakes would sleep for a second, and the test for minutes.
#[test]
fn a_stop_ends_workers_at_once(rt: HostRuntime) {
    for _ in 0..100u32 {
        for rate in [0u64, 1] {
            let _passed = passed(&rt, rt.alloc(), None, rate, Some(3));
        }
    }
}

#[test]
fn a_rate_of_1000_lets_a_frame_pass_each_millisecond(rt: HostRuntime) {
    let start = Instant::now(&rt).expect(&rt, "a clock");
    let passed = passed(&rt, rt.alloc(), None, 1_000, Some(50));
    let took = start.elapsed(&rt).expect(&rt, "a clock");
    assert!(rt;
        Duration::from_millis(passed.saturating_sub(1)) <= took,
        "{passed}"
    );
}
