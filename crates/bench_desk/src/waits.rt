//! How long a call takes at a desk while two workers serve frames as fast as they can.

ghost use denote.Param.Send.{IsSync};
ghost use Rattle.bt_desk.specs.Seats.{IsSeatAt};
ghost use Rattle.thread_frames.specs.Takes.{IsTakeOf};

use crate::frames::desk::share;
use crate::frames::{JOURNAL, MOST_FRAMES};
use crate::host::{Host, frames_of, refused};
use crate::soak::calls::question;
use bt_desk::{Desk, Event, MOST_CALLS, Seat};
use bt_journal::Book;
use bt_mapkind::MapKind;
use bt_workers::{Frames, Take};
use std::alloc::Global;
use std::rt::Clock;
use std::sync::Wait;
use std::thread::{Threads, join};
use std::time::{Duration, Instant};
use std::{io, thread};

// From one call to the next.
const PAUSE: u64 = 50;

// How many nanoseconds a look-up took; none if the clock cannot be read.
fn time_call<K: MapKind, R: Wait + Clock>(
    rt: &R,
    alloc: Global,
    desk: &Desk<K>,
    seat: &mut Seat<K>,
) -> Option<u64>
    requires { IsSeatAt desk.now seat.old }
    ensures { IsSeatAt desk.now seat.new }
{
    let question = question(alloc);
    let Ok(start) = Instant::now(rt) else {
        return None;
    };
    let _answer = desk.call(rt, seat, Event::Ask(question));
    match start.elapsed(rt) {
        Ok(took) => Some(took.as_nanos().min(1 << 40) as u64),
        Err(_) => None,
    }
}

// Puts a time after the others, if there is one and memory for it.
fn is_noted(times: &mut Vec<u64>, took: Option<u64>) -> bool {
    match took {
        Some(took) => times.push(took).is_ok(),
        None => false,
    }
}

// Looks up so often, with a pause before each, and notes how many nanoseconds each took.
fn call_often<K: MapKind, R: Wait + Clock>(
    rt: &R,
    alloc: Global,
    desk: &Desk<K>,
    mut seat: Seat<K>,
    count: u64,
) -> (Seat<K>, Vec<u64>)
    requires { IsSeatAt desk.now seat }
    ensures { IsSeatAt desk.now result.0 }
{
    let mut times = Vec::new(alloc);
    for _ in 0..count {
        thread::sleep(rt, Duration::from_micros(PAUSE));
        let took = time_call(rt, alloc, desk, &mut seat);
        if !is_noted(&mut times, took) {
            break;
        }
    }
    (seat, times)
}

// Has two workers serve the frames beside a thread that calls so often: the closed book's moments, and how long each call took.
fn time<K: MapKind + Send, R: Threads + Wait + Clock + Sync>(
    rt: &R,
    alloc: Global,
    book: Book<K>,
    frames: (Frames, Take),
    count: u64,
) -> io::Result<Vec<u64>>
    requires { IsTakeOf frames.0 frames.1 }
{
    let (frames, take) = frames;
    let Ok((desk, mut seat)) = Desk::open(alloc, book, MOST_CALLS) else {
        return Err(refused());
    };
    let caller = desk.split(&mut seat);
    let shared = &desk;
    let dealt = &frames;
    let ((caller, times), mut seat) = join(
        rt,
        || -> (Seat<K>, Vec<u64>)
            requires { IsSync R.row × IsSeatAt shared.now caller }
            ensures { IsSeatAt shared.entry.now result.0 }
        { call_often(rt, alloc, shared, caller, count) },
        || -> Seat<K>
            requires { IsSync R.row × IsSeatAt shared.now seat × IsTakeOf dealt.now take }
            ensures { IsSeatAt shared.entry.now result }
        { share(rt, alloc, shared, seat, dealt, take, 1) },
    );
    desk.join(&mut seat, caller);
    let _book = desk.close(rt, seat);
    Ok(times)
}

// The nanoseconds below which so many of a hundred calls stay.
fn at_percent(times: &[u64], percent: usize) -> u64 {
    let index = times.len().saturating_mul(percent) / 100;
    match times.get(index.min(times.len().saturating_sub(1))) {
        Some(took) => *took,
        None => 0,
    }
}

/// Prints how many calls were made, and how long they took: the median, the 99th of a hundred, and the longest.
pub(crate) fn tell<R: Threads + Wait + Clock + Print + Eprint + AllocGlobal + Sync>(
    rt: &R,
    count: u64,
) -> io::Result<()> {
    let alloc = rt.alloc();
    let book = Host::OfACounter.book(alloc, JOURNAL)?;
    let mut times = match frames_of(rt, alloc, MOST_FRAMES as usize, &[0]) {
        Ok(frames) => time(rt, alloc, book, frames, count)?,
        Err(error) => return Err(error),
    };
    times.sort()?;
    println!(rt; "{} calls among two workers", times.len())?;
    eprintln!(rt;
        "a call among two workers: median {} ns, 99 of 100 within {} ns, the longest {} ns",
        at_percent(&times, 50),
        at_percent(&times, 99),
        at_percent(&times, 100)
    )
}
