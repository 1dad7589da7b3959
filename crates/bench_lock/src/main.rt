//! Counts by 1, 2, 4 and 8 threads, under the lock of `thread_lock` and under a `Mutex`. The counts go to standard output,
//! the calls a second to standard error.
#![tactic(auto)]

ghost use Rattle.std.specs.Prelude.{◌<◌, ◌≤◌};
ghost use denote.Param.Send.{IsSync};
ghost use Rattle.thread_lock.specs.Counter.{Counts};
ghost use Rattle.thread_lock.specs.Seats.{IsSeatOf};

use std::alloc::{AllocError, Global};
use std::rt::Clock;
use std::sync::{Mutex, Wait};
use std::thread::{Threads, join};
use std::time::{Duration, Instant};
use std::{env, io};
use thread_lock::{Ask, Counter, Seat, Turns};

/// How often each counter is called, if no argument says it.
const CALLS: u64 = 1000;

/// How often it is called at most.
const MOST: u64 = 1 << 32;

// Adds one as often as the seat has calls.
fn add_by_turns<R: Wait>(rt: &R, turns: &Turns<Counter>, mut seat: Seat<Counter>) -> Seat<Counter>
    requires { IsSeatOf turns.now seat }
    ensures { IsSeatOf turns.now result }
{
    for _ in 0..MOST {
        let added = turns.call(
            rt,
            &mut seat,
            Ask::Add(1),
            |counter: &mut Counter, ask: Ask| -> u64
                ensures { Counts counter.old ask result counter.new }
            { counter.step(ask) },
        );
        if added.is_err() {
            break;
        }
    }
    seat
}

// Takes the turns by 2^doublings threads.
#[cycle(turns)]
fn share_turns<R: Threads + Wait + Sync>(
    rt: &R,
    turns: &Turns<Counter>,
    mut seat: Seat<Counter>,
    doublings: u32,
) -> Seat<Counter>
    requires { IsSeatOf turns.now seat }
    ensures { IsSeatOf turns.now result }
{
    if doublings == 0 {
        return add_by_turns(rt, turns, seat);
    }
    let other = turns.split(&mut seat);
    let (mut seat, other) = join(
        rt,
        || -> Seat<Counter>
            requires { IsSync R.row × IsSeatOf turns.now seat × (0 < doublings) }
            ensures { IsSeatOf turns.entry.now result }
        { share_turns(rt, turns, seat, doublings - 1) },
        || -> Seat<Counter>
            requires { IsSync R.row × IsSeatOf turns.now other × (0 < doublings) }
            ensures { IsSeatOf turns.entry.now result }
        { share_turns(rt, turns, other, doublings - 1) },
    );
    turns.join(&mut seat, other);
    seat
}

fn add_by_mutex<R: Wait>(rt: &R, count: &Mutex<u64>, calls: u64) {
    for _ in 0..calls {
        let mut count = count.lock(rt);
        *count = count.wrapping_add(1);
    }
}

#[cycle(mutex)]
fn share_mutex<R: Threads + Wait + Sync>(rt: &R, count: &Mutex<u64>, calls: u64, doublings: u32) {
    if doublings == 0 {
        return add_by_mutex(rt, count, calls);
    }
    join(
        rt,
        || -> ()
            requires { IsSync R.row × (0 < doublings) }
        { share_mutex(rt, count, calls / 2, doublings - 1) },
        || -> ()
            requires { IsSync R.row × (0 < doublings) }
        { share_mutex(rt, count, calls - calls / 2, doublings - 1) },
    );
}

fn per_second(calls: u64, took: Duration) -> u64
    requires { calls ≤ MOST }
{
    calls * 1_000_000 / u64::try_from(took.as_micros()).unwrap_or(u64::MAX).max(1)
}

// The count and the calls a second.
fn time_turns<R: Threads + Wait + Clock + Sync>(
    rt: &R,
    alloc: Global,
    calls: u64,
    doublings: u32,
) -> io::Result<(u64, u64)>
    requires { calls ≤ MOST }
{
    let Ok((turns, seat)) = Turns::open(alloc, Counter { count: 0 }, calls) else {
        return Err(AllocError.into());
    };
    let start = Instant::now(rt)?;
    let seat = share_turns(rt, &turns, seat, doublings);
    let took = start.elapsed(rt)?;
    Ok((turns.close(rt, seat).count, per_second(calls, took)))
}

fn time_mutex<R: Threads + Wait + Clock + Sync>(
    rt: &R,
    calls: u64,
    doublings: u32,
) -> io::Result<(u64, u64)>
    requires { calls ≤ MOST }
{
    let count = Mutex::new(0);
    let start = Instant::now(rt)?;
    share_mutex(rt, &count, calls, doublings);
    let took = start.elapsed(rt)?;
    Ok((count.into_inner(), per_second(calls, took)))
}

fn main(rt: HostRuntime) -> io::Result<()> {
    let calls = env::args(&rt)?
        .nth(1)
        .and_then(|word| word.parse().ok())
        .unwrap_or(CALLS)
        .min(MOST);
    // The first figures are those of a processor that was at rest, so they are not told.
    time_turns(&rt, rt.alloc(), calls, 0)?;
    time_mutex(&rt, calls, 0)?;
    for (threads, doublings) in [(1u32, 0u32), (2, 1), (4, 2), (8, 3)] {
        let (turned, by_turns) = time_turns(&rt, rt.alloc(), calls, doublings)?;
        let (locked, by_mutex) = time_mutex(&rt, calls, doublings)?;
        println!(rt; "threads {threads}: {turned} by turns, {locked} by a mutex")?;
        eprintln!(rt; "threads {threads}: {by_turns} a second by turns, {by_mutex} by a mutex")?;
    }
    Ok(())
}
