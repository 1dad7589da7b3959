//! Frames at a desk.

ghost use Rattle.std.specs.Prelude.{◌<◌};
ghost use denote.Param.Send.{IsSync};
ghost use Rattle.bt_desk.specs.Seats.{IsSeatAt};
ghost use Rattle.thread_frames.specs.Takes.{IsTakeOf};

use crate::host::refused;
use crate::timed::Timed;
use bt_desk::{Desk, MOST_CALLS, Seat};
use bt_journal::Book;
use bt_mapkind::MapKind;
use bt_workers::{Frames, OpenGate, Take, worker};
use std::alloc::Global;
use std::io;
use std::rt::Clock;
use std::sync::Wait;
use std::thread::{Threads, join};
use std::time::Instant;

// Serves frames until none is left.
fn work<K: MapKind, R: Wait>(
    rt: &R,
    alloc: Global,
    desk: &Desk<K>,
    mut seat: Seat<K>,
    frames: &Frames,
    mut take: Take,
) -> Seat<K>
    requires { IsSeatAt desk.now seat × IsTakeOf frames.now take }
    ensures { IsSeatAt desk.now result }
{
    let _ends = worker(rt, alloc, desk, &mut seat, frames, &mut take, &mut OpenGate);
    seat
}

/// Serves frames by 2^doublings threads until none is left.
#[cycle(desk)]
pub(crate) fn share<K: MapKind + Send, R: Threads + Wait + Sync>(
    rt: &R,
    alloc: Global,
    desk: &Desk<K>,
    mut seat: Seat<K>,
    frames: &Frames,
    mut take: Take,
    doublings: u32,
) -> Seat<K>
    requires { IsSeatAt desk.now seat × IsTakeOf frames.now take }
    ensures { IsSeatAt desk.now result }
{
    if doublings == 0 {
        return work(rt, alloc, desk, seat, frames, take);
    }
    let Some(half) = frames.split(&mut take) else {
        return work(rt, alloc, desk, seat, frames, take);
    };
    let other = desk.split(&mut seat);
    let (mut seat, other) = join(
        rt,
        || -> Seat<K>
            requires { IsSync R.row × IsSeatAt desk.now seat × IsTakeOf frames.now take × (0 < doublings) }
            ensures { IsSeatAt desk.entry.now result }
        { share(rt, alloc, desk, seat, frames, take, doublings - 1) },
        || -> Seat<K>
            requires { IsSync R.row × IsSeatAt desk.now other × IsTakeOf frames.now half × (0 < doublings) }
            ensures { IsSeatAt desk.entry.now result }
        { share(rt, alloc, desk, other, frames, half, doublings - 1) },
    );
    desk.join(&mut seat, other);
    seat
}

/// Has 2^doublings workers serve the frames.
pub(crate) fn time<K: MapKind + Send, R: Threads + Wait + Clock + Sync>(
    rt: &R,
    alloc: Global,
    book: Book<K>,
    frames: (Frames, Take),
    doublings: u32,
) -> io::Result<Timed>
    requires { IsTakeOf frames.0 frames.1 }
{
    let (frames, take) = frames;
    let Ok((desk, seat)) = Desk::open(alloc, book, MOST_CALLS) else {
        return Err(refused());
    };
    let start = Instant::now(rt)?;
    let seat = share(rt, alloc, &desk, seat, &frames, take, doublings);
    let took = start.elapsed(rt)?;
    Ok(Timed {
        moments: desk.close(rt, seat).moments(),
        took,
    })
}
