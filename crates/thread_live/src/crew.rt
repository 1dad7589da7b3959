//! The workers of a live host and the keeper of its tries on threads of their own, beside its console.

ghost use Rattle.std.specs.Prelude.{◌≡◌, ◌<◌, ◌+◌, ◌-◌, ◌≤◌, IfOk, IfErr};
ghost use denote.Param.Send.{IsSync};
ghost use Rattle.bt_desk.specs.Seats.{IsSeatAt};
ghost use Rattle.thread_trial.specs.Kept.{Keeps};
ghost use Rattle.thread_live.specs.Crew.{Works, Man, Talks, TalksAndEnds, Beside};

use crate::traffic::Traffic;
use crate::trying::end_try;
use bt_desk::{Desk, Seat};
use bt_mapkind::MapKind;
use std::alloc::Global;
use std::sync::Wait;
use std::thread::{Threads, join};
use std::time::{Clock, Duration};
use thread_rounds::{Order, Share, serve_rounds};
use thread_trial::keep;

/// What the thread of a live host does that serves no frames.
pub trait Console<K: MapKind, R>: Sized + Drop {
    /// What it leaves.
    type Told: Drop;

    /// What it did by its seat, if it leaves this.
    ghost talks: { Talks Self R K Self.Told };

    /// Talks, and comes back when the host is to end.
    fn talk(self, rt: &R, desk: &Desk<K>, seat: &mut Seat<K>, traffic: &Traffic) -> Self::Told
        requires { IsSeatAt desk.now seat.old }
        ensures seat { IsSeatAt desk.now seat.new }
        ensures talks { talks _ self rt.now desk.now traffic.now seat.old result seat.new };
}

// How many seconds the console waits at most for the other threads to come.
const PATIENCE: u64 = 10;

// The part of one worker, from its first frame until it is told to stop.
fn work<K: MapKind, R: Wait + Clock>(
    rt: &R,
    alloc: Global,
    desk: &Desk<K>,
    traffic: &Traffic,
    seat: Seat<K>,
    number: u64,
) -> Seat<K>
    requires seat { IsSeatAt desk.now seat }
    requires number { 0 < number }
    ensures seat { IsSeatAt desk.now result }
    ensures works { Works traffic.now number seat result }
{
    let mut seat = seat;
    let share = Share {
        first: number,
        stride: traffic.workers,
    };
    let _place = serve_rounds(
        rt,
        alloc,
        desk,
        &mut seat,
        traffic.frames.as_slice(),
        share,
        traffic.passes,
        &traffic.pace,
        &traffic.orders,
        &traffic.counts,
    );
    seat
}

// So many workers from this number on, each on a thread of its own, until they are told to stop. They leave the calls of the
// seat, and what it has seen with all of theirs.
fn man<K: MapKind + Send, R: Threads + Wait + Clock + Sync>(
    rt: &R,
    alloc: Global,
    desk: &Desk<K>,
    traffic: &Traffic,
    seat: Seat<K>,
    first: u64,
    count: u64,
) -> Seat<K>
    requires seat { IsSeatAt desk.now seat }
    requires numbers { (0 < first) × (0 < count) × (first + count ≤ 1024) }
    ensures seat { IsSeatAt desk.now result }
    ensures mans { Man traffic.now first count seat result }
{
    if count == 1 {
        return work(rt, alloc, desk, traffic, seat, first);
    }
    let half = count / 2;
    let mut seat = seat;
    let other = desk.split(&mut seat);
    let (other, mut seat) = join(
        rt,
        move || -> Seat<K>
            requires { IsSync R.row × IsSeatAt desk.now other × (0 < first) × (0 < half) × (half < count) × (first + count ≤ 1024) }
            ensures { IsSeatAt desk.entry.now result × Man traffic.entry.now (first + half) (count - half) other result }
        { man(rt, alloc, desk, traffic, other, first + half, count - half) },
        move || -> Seat<K>
            requires { IsSync R.row × IsSeatAt desk.now seat × (0 < first) × (0 < half) × (first + half ≤ 1024) }
            ensures { IsSeatAt desk.entry.now result × Man traffic.entry.now first half seat result }
        { man(rt, alloc, desk, traffic, seat, first, half) },
    );
    desk.join(&mut seat, other);
    seat
}

// The part of the keeper, until no change is tried any more.
fn watch<K: MapKind, R: Wait + Clock + Eprint>(
    rt: &R,
    desk: &Desk<K>,
    traffic: &Traffic,
    seat: Seat<K>,
) -> Seat<K>
    requires { IsSeatAt desk.now seat }
    ensures seat { IsSeatAt desk.now result }
    ensures kept { Keeps desk.now seat result }
{
    let mut seat = seat;
    traffic.orders.come(rt);
    keep(rt, desk, &mut seat, &traffic.trials);
    seat
}

// Has the console talk, and then undoes what it still tries. If not all threads have come, it comes back, and the keeper is only
// told to: nothing is tried, and the stacks of the others may have taken what an undo needs.
fn talk_if<K: MapKind, R: Wait + Clock + Eprint, C: Console<K, R>>(
    rt: &R,
    desk: &Desk<K>,
    traffic: &Traffic,
    seat: &mut Seat<K>,
    console: C,
    have_come: bool,
) -> Result<C::Told, C>
    requires { IsSeatAt desk.now seat.old }
    ensures seat { IsSeatAt desk.now seat.new }
    ensures talks { IfOk result (λ told. TalksAndEnds desk.now (C.talks _ console rt.now desk.now traffic.now) seat.old told seat.new) }
    ensures back { IfErr result (λ back. back ≡ console) }
{
    if !have_come {
        traffic.trials.end(rt);
        return Err(console);
    }
    let told = console.talk(rt, desk, seat, traffic);
    end_try(rt, desk, seat, traffic);
    Ok(told)
}

// Has the console talk once all workers and the keeper have come, and has them end when it is done. The console comes back if
// they did not all come.
fn talk<K: MapKind, R: Wait + Clock + Eprint, C: Console<K, R>>(
    rt: &R,
    desk: &Desk<K>,
    traffic: &Traffic,
    seat: Seat<K>,
    console: C,
) -> (Seat<K>, Result<C::Told, C>)
    requires { IsSeatAt desk.now seat }
    ensures seat { IsSeatAt desk.now result.0 }
    ensures talks { IfOk result.1 (λ told. TalksAndEnds desk.now (C.talks _ console rt.now desk.now traffic.now) seat told result.0) }
    ensures back { IfErr result.1 (λ back. back ≡ console) }
{
    let mut seat = seat;
    let threads = traffic.workers.saturating_add(1);
    let patience = Duration::from_secs(PATIENCE);
    let have_come = traffic.orders.await_all(rt, threads, patience);
    let told = talk_if(rt, desk, traffic, &mut seat, console, have_come);
    traffic.orders.give(rt, Order::Stop);
    (seat, told)
}

// Has the console talk beside the keeper, whose thread is another: the seat of the keeper, that of the console, and what it
// leaves.
fn talk_kept<K: MapKind + Send, R: Threads + Wait + Clock + Eprint + Sync, C: Console<K, R>>(
    rt: &R,
    desk: &Desk<K>,
    traffic: &Traffic,
    keeper: Seat<K>,
    seat: Seat<K>,
    console: C,
) -> (Seat<K>, (Seat<K>, Result<C::Told, C>))
    requires { IsSeatAt desk.now keeper × IsSeatAt desk.now seat }
    ensures keeper { IsSeatAt desk.now result.0 × Keeps desk.now keeper result.0 }
    ensures seat { IsSeatAt desk.now result.1.0 }
    ensures talks { IfOk result.1.1 (λ told. TalksAndEnds desk.now (C.talks _ console rt.now desk.now traffic.now) seat told result.1.0) }
    ensures back { IfErr result.1.1 (λ back. back ≡ console) }
{
    join(
        rt,
        move || -> Seat<K>
            requires { IsSync R.row × IsSeatAt desk.now keeper }
            ensures { IsSeatAt desk.entry.now result × Keeps desk.entry.now keeper result }
        { watch(rt, desk, traffic, keeper) },
        move || -> (Seat<K>, Result<C::Told, C>)
            requires { IsSeatAt desk.now seat }
            ensures { IsSeatAt desk.entry.now result.0
                × IfOk result.1 (λ told. TalksAndEnds desk.entry.now (C.talks _ console rt.entry.now desk.entry.now traffic.entry.now) seat told result.0)
                × IfErr result.1 (λ back. back ≡ console) }
        { talk(rt, desk, traffic, seat, console) },
    )
}

/// Has the workers of a live host serve its frames, each on a thread of its own, while its console talks on this one and a keeper
/// takes back what the console tries and does not confirm. When the console comes back a pending try is undone, and the workers are
/// told to stop; each ends after the frame that it has, and all have ended when this returns.
/// The seat has then seen what all seats did, and what the console told comes with it. If a thread could not be started, the
/// console did not talk, and comes back.
pub fn serve_beside<K: MapKind + Send, R: Threads + Wait + Clock + Eprint + Sync, C: Console<K, R>>(
    rt: &R,
    alloc: Global,
    desk: &Desk<K>,
    traffic: &Traffic,
    seat: Seat<K>,
    console: C,
) -> (Seat<K>, Result<C::Told, C>)
    requires { IsSeatAt desk.now seat }
    ensures seat { IsSeatAt desk.now result.0 }
    ensures served { IfOk result.1 (λ told. Beside desk.now traffic.now
        (λ old new. TalksAndEnds desk.now (C.talks _ console rt.now desk.now traffic.now) old told new) seat result.0) }
    ensures back { IfErr result.1 (λ back. back ≡ console) }
{
    let mut seat = seat;
    let crew = desk.split(&mut seat);
    let keeper = desk.split(&mut seat);
    let (crew, (keeper, (mut seat, told))) = join(
        rt,
        move || -> Seat<K>
            requires { IsSync R.row × IsSeatAt desk.now crew }
            ensures { IsSeatAt desk.entry.now result × Man traffic.entry.now 1 traffic.entry.now.workers crew result }
        { man(rt, alloc, desk, traffic, crew, 1, traffic.workers) },
        move || -> (Seat<K>, (Seat<K>, Result<C::Told, C>))
            requires { IsSync R.row × IsSeatAt desk.now keeper × IsSeatAt desk.now seat }
            ensures { IsSeatAt desk.entry.now result.0 × Keeps desk.entry.now keeper result.0 × IsSeatAt desk.entry.now result.1.0
                × IfOk result.1.1 (λ told. TalksAndEnds desk.entry.now (C.talks _ console rt.entry.now desk.entry.now traffic.entry.now) seat told result.1.0)
                × IfErr result.1.1 (λ back. back ≡ console) }
        { talk_kept(rt, desk, traffic, keeper, seat, console) },
    );
    desk.join(&mut seat, keeper);
    desk.join(&mut seat, crew);
    (seat, told)
}
