//! Two workers on two threads.

ghost use Rattle.std.specs.Prelude.{◌≡◌, ◌+◌, ◌++◌, [], length, IfOk, IfSome};
ghost use Rattle.std.specs.List.{range_with_len};
ghost use Rattle.std.specs.List.Sorted.{IsPermutation, IsNonDecreasingBy};
ghost use denote.Param.Send.{IsSync};
ghost use Rattle.bt_desk.specs.Seats.{IsSeatAt};
ghost use Rattle.thread_frames.specs.Deal.{TakesEach};
ghost use Rattle.thread_frames.specs.Takes.{IsTakeOf, all_of, taken_of, parts_of};
ghost use Rattle.thread_frames.specs.declared.deal.TheConstants.{MOST_PARTS};
ghost use Rattle.bt_workers.specs.Worked.{ServesFrames, number_of, numbers_of};
ghost use Rattle.bt_workers.specs.Two.{WorksAt, WorkBoth};

use crate::gate::Gate;
use crate::result::FrameResult;
use crate::workers::worker;
use bt_desk::{Desk, Seat};
use bt_mapkind::MapKind;
use host_words::NoMemory;
use std::alloc::{AllocError, Global};
use std::snapshot::Snapshot;
use std::sync::Wait;
use std::thread;
use std::thread::{Promise, Threads};
use thread_frames::{Frames, Take};

/// Why two workers gave no ends. The seats and the take are given up then; what the workers did stands.
#[derive(Clone, Copy, Debug, PartialEq, Eq)]
pub enum RunFault {
    /// An allocation failed.
    NoMemory,
    /// No second thread could be started. No frame was taken.
    NoThread,
}

impl From<AllocError> for RunFault {
    ghost use Rattle.std.specs.Prelude.{◌≡◌};
    ghost use Rattle.bt_workers.specs.declared.two.RunFault.TheVariants.{NoMemory};

    ghost from_gives = { λ error made. made ≡ NoMemory };

    fn from(_error: AllocError) -> RunFault {
        RunFault::NoMemory
    }
}

// What a worker works with: its seat, its take and its gate.
type Shift<K, G> = (Seat<K>, Take, G);

// What it leaves, and the ends of its frames.
type Left<K, G> = (Seat<K>, Take, G, Result<Vec<FrameResult>, NoMemory>);

// What a worker's thread promises of what it leaves, by what it began with.
#[derive(Drop)]
struct Begun<D, S> {
    desk: Snapshot<D>,
    frames: Snapshot<Frames>,
    seat: Snapshot<S>,
    take: Snapshot<Take>,
}

impl<K: MapKind, G> Promise<Left<K, G>> for Begun<Desk<K>, Seat<K>> {
    ghost use Rattle.bt_workers.specs.Two.{WorksAt};

    ghost kept_by = { λ p r. WorksAt p.desk.value p.frames.value p.seat.value p.take.value r.0 r.1 r.3 };
}

// Does a worker's part.
fn work<K: MapKind, R: Wait, G: Gate<R>>(
    rt: &R,
    alloc: Global,
    desk: &Desk<K>,
    frames: &Frames,
    shift: Shift<K, G>,
) -> Left<K, G>
    requires { IsSeatAt desk.now shift.0 × IsTakeOf frames.now shift.1 }
    ensures { WorksAt desk.now frames.now shift.0 shift.1 result.0 result.1 result.3 }
{
    let (mut seat, mut take, mut gate) = shift;
    let ends = worker(rt, alloc, desk, &mut seat, frames, &mut take, &mut gate);
    (seat, take, gate, ends)
}

// Does the first part on a thread of its own, and the second one on this thread. None if no thread could be started.
fn work_beside<K: MapKind + Send, R: Threads + Wait + Sync, G: Gate<R>>(
    rt: &R,
    alloc: Global,
    desk: &Desk<K>,
    frames: &Frames,
    first: Shift<K, G>,
    second: Shift<K, G>,
) -> Option<(Left<K, G>, Left<K, G>)>
    requires first { IsSeatAt desk.now first.0 × IsTakeOf frames.now first.1 }
    requires second { IsSeatAt desk.now second.0 × IsTakeOf frames.now second.1 }
    ensures first { IfSome result (λ r. WorksAt desk.now frames.now first.0 first.1 r.0.0 r.0.1 r.0.3) }
    ensures second { IfSome result (λ r. WorksAt desk.now frames.now second.0 second.1 r.1.0 r.1.1 r.1.3) }
{
    thread::scope(
        thread::scope_env(),
        rt,
        |scope| -> Option<(Left<K, G>, Left<K, G>)>
            requires { IsSync R.row × IsSeatAt desk.now first.0 × IsTakeOf frames.now first.1 × IsSeatAt desk.now second.0 × IsTakeOf frames.now second.1 }
            ensures { IfSome result (λ r. WorksAt desk.entry.now frames.entry.now first.0 first.1 r.0.0 r.0.1 r.0.3 × WorksAt desk.entry.now frames.entry.now second.0 second.1 r.1.0 r.1.1 r.1.3) }
        {
            let begun = Begun {
                desk: Snapshot::of(desk),
                frames: Snapshot::of(frames),
                seat: Snapshot::of(&first.0),
                take: Snapshot::of(&first.1),
            };
            let started = scope.spawn_with(
                begun,
                move || -> Left<K, G>
                    requires { IsSync R.row × IsSeatAt desk.now first.0 × IsTakeOf frames.now first.1 }
                    ensures { WorksAt desk.entry.now frames.entry.now first.0 first.1 result.0 result.1 result.3 }
                { work(rt, alloc, desk, frames, first) },
            );
            let Ok(running) = started else {
                return None;
            };
            let second = work(rt, alloc, desk, frames, second);
            Some((running.join(rt), second))
        },
    )
}

// Serves the frames that neither take took, if there are any; the takes together have then taken each frame.
fn serve_rest<K: MapKind, R: Wait, G: Gate<R>>(
    rt: &R,
    alloc: Global,
    desk: &Desk<K>,
    seat: &mut Seat<K>,
    frames: &Frames,
    takes: (Take, Take),
    gate: &mut G,
) -> Result<Vec<FrameResult>, NoMemory>
    requires seat { IsSeatAt desk.now seat.old }
    requires takes { IsTakeOf frames.now takes.0 × IsTakeOf frames.now takes.1 × (parts_of takes.0 + parts_of takes.1 ≡ MOST_PARTS) }
    ensures seat { IsSeatAt desk.now seat.new }
    ensures served { IfOk result (λ ends. ServesFrames (all_of takes.0) seat.old ends.items seat.new) }
    ensures each { IfOk result (λ ends. TakesEach ((taken_of takes.0 ++ taken_of takes.1) ++ numbers_of ends.items) (length (all_of takes.0))) }
{
    let (mut take, other) = takes;
    frames.join(&mut take, other);
    worker(rt, alloc, desk, seat, frames, &mut take, gate)
}

// Puts ends in the order of their numbers.
fn sort(ends: &mut [FrameResult])
    ensures order { IsPermutation ends.old ends.new }
    ensures rises { IsNonDecreasingBy number_of ends.new }
{
    ends.sort_unstable_by_key(|ended| ended.number);
}

// All ends, by ascending number.
fn in_order(
    ones: Vec<FrameResult>,
    rest: Vec<FrameResult>,
    twos: Vec<FrameResult>,
) -> Result<Vec<FrameResult>, AllocError>
    ensures order { IfOk result (λ ends. IsPermutation ((ones.items ++ rest.items) ++ twos.items) ends.items) }
    ensures rises { IfOk result (λ ends. IsNonDecreasingBy number_of ends.items) }
{
    let mut ends = ones;
    let mut rest = rest;
    let mut twos = twos;
    ends.append(&mut rest)?;
    ends.append(&mut twos)?;
    sort(ends.as_mut_slice());
    Ok(ends)
}

/// Has two workers serve all frames, the first on a thread of its own and the second on this thread: the seats, and the end
/// of each frame by ascending number.
///
/// Each frame was served by one of the two, once. What each seat gained as its own calls is, frame by frame in the order in
/// which its worker took them, what a [`worker`] promises.
///
/// # Errors
/// `NoThread` if no second thread could be started, and `NoMemory` if an allocation failed.
pub fn run_two<K: MapKind + Send, R: Threads + Wait + Sync, G: Gate<R>>(
    rt: &R,
    alloc: Global,
    desk: &Desk<K>,
    first: Seat<K>,
    second: Seat<K>,
    frames: &Frames,
    take: Take,
    first_gate: G,
    second_gate: G,
) -> Result<(Seat<K>, Seat<K>, Vec<FrameResult>), RunFault>
    requires seats { IsSeatAt desk.now first × IsSeatAt desk.now second }
    requires take { IsTakeOf frames.now take × (parts_of take ≡ MOST_PARTS) × (taken_of take ≡ []) }
    ensures seats { IfOk result (λ r. IsSeatAt desk.now r.0 × IsSeatAt desk.now r.1) }
    ensures works { IfOk result (λ r. WorkBoth (all_of take) first second r.0 r.1 r.2.items) }
    ensures each { IfOk result (λ r. numbers_of r.2.items ≡ range_with_len 1 (length (all_of take))) }
{
    let mut take = take;
    let Some(other) = frames.split(&mut take) else {
        unreachable!()
    };
    let first = (first, take, first_gate);
    let second = (second, other, second_gate);
    let Some((first, second)) = work_beside(rt, alloc, desk, frames, first, second) else {
        return Err(RunFault::NoThread);
    };
    let (mut one, take, mut gate, ones) = first;
    let (two, other, _, twos) = second;
    let ones = ones?;
    let twos = twos?;
    let rest = serve_rest(rt, alloc, desk, &mut one, frames, (take, other), &mut gate)?;
    Ok((one, two, in_order(ones, rest, twos)?))
}
