//! Frames served by 1, 2 and 4 workers at a desk, and by as many threads with a `Mutex` round the same book: on one counter
//! that all programs add to, and by programs that ask only for their start.

pub(crate) mod desk;
mod mutex;

use crate::host::{Host, frames_of};
use crate::timed::Timed;
use std::io;
use std::rt::Clock;
use std::sync::Wait;
use std::thread::Threads;

/// The most frames, which leave room in the journal for what makes their host.
pub(crate) const MOST_FRAMES: u64 = 65_000;

pub(crate) const JOURNAL: u64 = 65_536;

// So many frames served by 2^doublings workers at a desk of this host.
fn time_desk<R: Threads + Wait + Clock + AllocGlobal + Sync>(
    rt: &R,
    host: Host,
    count: u64,
    doublings: u32,
) -> io::Result<Timed> {
    let alloc = rt.alloc();
    let book = host.book(alloc, JOURNAL)?;
    match frames_of(rt, alloc, count as usize, &[0]) {
        Ok(frames) => desk::time(rt, alloc, book, frames, doublings),
        Err(error) => Err(error),
    }
}

// As many frames by as many threads with a mutex.
fn time_mutex<R: Threads + Wait + Clock + AllocGlobal + Sync>(
    rt: &R,
    host: Host,
    count: u64,
    doublings: u32,
) -> io::Result<Timed> {
    let book = host.book(rt.alloc(), JOURNAL)?;
    mutex::time(rt, book, count, doublings)
}

// Prints how many moments the frames make, and the nanoseconds a frame.
fn tell<R: Threads + Wait + Clock + Print + Eprint + AllocGlobal + Sync>(
    rt: &R,
    name: &str,
    host: Host,
    count: u64,
) -> io::Result<()> {
    for (threads, doublings) in [(1u32, 0u32), (2, 1), (4, 2)] {
        let shared = time_desk(rt, host, count, doublings)?;
        let locked = time_mutex(rt, host, count, doublings)?;
        println!(rt;
            "{name}, threads {threads}: {} moments at a desk, {} by a mutex",
            shared.moments, locked.moments
        )?;
        eprintln!(rt;
            "{name}, threads {threads}: {} ns a frame at a desk, {} by a mutex",
            shared.each(count),
            locked.each(count)
        )?;
    }
    Ok(())
}

/// Prints how many moments so many frames make in each way, and the nanoseconds a frame.
pub(crate) fn compare<R: Threads + Wait + Clock + Print + Eprint + AllocGlobal + Sync>(
    rt: &R,
    count: u64,
) -> io::Result<()> {
    let frames = count.min(MOST_FRAMES);
    tell(rt, "one counter", Host::OfACounter, frames)?;
    tell(rt, "starts alone", Host::OfAThinker, frames)
}
