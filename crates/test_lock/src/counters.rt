//! Counters by one thread and by several, and a state of any make.
ghost use Rattle.std.specs.Prelude.{◌≡◌, ◌<◌, ◌≤◌};
ghost use denote.Param.Send.{IsSync};
ghost use Rattle.thread_lock.specs.History.{HasStep};
ghost use Rattle.thread_lock.specs.Seats.{IsSeatOf};

use crate::{shelf, worker};
use std::alloc::Global;
use std::hint;
use std::sync::Wait;
use std::test::Fail;
use std::thread::{Threads, join};
use thread_lock::{Ask, Counter, MOST_CALLS, Seat, SeatSpent, Sequential, Turns};

// A counter whose steps take so long that threads sleep.
#[derive(Drop)]
struct Slow {
    count: u64,
}

impl Sequential for Slow {
    type Event = Ask;

    type Answer = u64;

    ghost steps = { λ before ask answer after. answer ≡ after.count };
}

// A state that is asked as a counter is.
trait Asked: Sequential<Event = Ask> {
    fn answer(&mut self, ask: Ask) -> Self::Answer
        ensures { Self.steps self.old ask result self.new };

    // Asks, waits, adds one and asks again. Whether that is one more.
    fn add_one_alone(&mut self) -> bool
        ensures { HasStep Self.steps self.old self.new };
}

// Lets time pass, in which another thread would come in between if it could.
fn linger(rounds: u32) {
    for _ in 0..rounds {
        hint::spin_loop();
    }
}

impl Asked for Counter {
    fn answer(&mut self, ask: Ask) -> u64 {
        self.step(ask)
    }

    fn add_one_alone(&mut self) -> bool {
        let found = self.step(Ask::Read);
        linger(200);
        self.step(Ask::Add(1));
        self.step(Ask::Read) == found.wrapping_add(1)
    }
}

impl Asked for Slow {
    fn answer(&mut self, ask: Ask) -> u64 {
        linger(20_000);
        let mut counter = Counter { count: self.count };
        self.count = counter.step(ask);
        self.count
    }

    fn add_one_alone(&mut self) -> bool {
        self.answer(Ask::Add(1)) == self.count
    }
}

// How a thread adds to a counter.
#[derive(Clone, Copy)]
enum Way {
    Call,
    Visit,
}

// A call of the turns.
fn call<S: Asked, R: Wait>(
    rt: &R,
    turns: &Turns<S>,
    seat: &mut Seat<S>,
    ask: Ask,
) -> Result<S::Answer, SeatSpent>
    requires { IsSeatOf turns.now seat.old }
    ensures { IsSeatOf turns.now seat.new }
{
    turns.call(
        rt,
        seat,
        ask,
        |state: &mut S, ask: Ask| -> S::Answer
            ensures { S.steps state.old ask result state.new }
        { state.answer(ask) },
    )
}

// A visit of the turns that adds one and counts itself. Whether it found what it left.
fn visit<S: Asked, R: Wait>(
    rt: &R,
    turns: &Turns<S>,
    seat: &mut Seat<S>,
    visits: &mut u64,
) -> Result<bool, SeatSpent>
    requires { IsSeatOf turns.now seat.old }
    ensures { IsSeatOf turns.now seat.new }
{
    turns.visit(
        rt,
        seat,
        visits,
        |state: &mut S, visits: &mut u64| -> bool
            ensures { HasStep S.steps state.old state.new }
        {
            *visits = visits.wrapping_add(1);
            state.add_one_alone()
        },
    )
}

// Adds one. Whether that was done, and alone.
fn add_one<S: Asked, R: Wait>(rt: &R, turns: &Turns<S>, seat: &mut Seat<S>, way: Way) -> bool
where
    S::Answer: Drop,
    requires { IsSeatOf turns.now seat.old }
    ensures { IsSeatOf turns.now seat.new }
{
    match way {
        Way::Call => call(rt, turns, seat, Ask::Add(1)).is_ok(),
        Way::Visit => visit(rt, turns, seat, &mut 0) == Ok(true),
    }
}

// Adds one as often as the seat has calls.
fn add_ones<S: Asked, R: Wait>(rt: &R, turns: &Turns<S>, mut seat: Seat<S>, way: Way) -> Seat<S>
where
    S::Answer: Drop,
    requires { IsSeatOf turns.now seat }
    ensures { IsSeatOf turns.now result }
{
    for _ in 0..MOST_CALLS {
        if !add_one(rt, turns, &mut seat, way) {
            break;
        }
    }
    seat
}

// Adds ones by 2^doublings threads, each of which has an equal part of the calls.
#[cycle(doubling)]
fn add_ones_by<S: Asked + Send, R: Threads + Wait + Sync>(
    rt: &R,
    turns: &Turns<S>,
    mut seat: Seat<S>,
    doublings: u32,
    way: Way,
) -> Seat<S>
where
    S::Answer: Drop + Send,
    requires { IsSeatOf turns.now seat }
    ensures { IsSeatOf turns.now result }
{
    if doublings == 0 {
        return add_ones(rt, turns, seat, way);
    }
    let other = turns.split(&mut seat);
    let (mut seat, other) = join(
        rt,
        || -> Seat<S>
            requires { IsSync R.row × IsSeatOf turns.now seat × (0 < doublings) }
            ensures { IsSeatOf turns.entry.now result }
        { add_ones_by(rt, turns, seat, doublings - 1, way) },
        || -> Seat<S>
            requires { IsSync R.row × IsSeatOf turns.now other × (0 < doublings) }
            ensures { IsSeatOf turns.entry.now result }
        { add_ones_by(rt, turns, other, doublings - 1, way) },
    );
    turns.join(&mut seat, other);
    seat
}

fn shared_by<S: Asked + Send, R: Threads + Wait + Sync>(
    rt: &R,
    alloc: Global,
    state: S,
    calls: u64,
    doublings: u32,
    way: Way,
) -> S
where
    S::Answer: Drop + Send,
    requires { calls ≤ MOST_CALLS }
{
    match Turns::open(alloc, state, calls) {
        Ok((turns, seat)) => {
            let seat = add_ones_by(rt, &turns, seat, doublings, way);
            turns.close(rt, seat)
        }
        Err(state) => state,
    }
}

#[test]
fn one_thread_counts(rt: HostRuntime) -> Result<(), Fail> {
    assert_eq!(rt;
        shared_by(&rt, rt.alloc(), Counter { count: 0 }, 10, 0, Way::Call).count,
        10
    );
    Ok(())
}

#[test]
fn two_threads_count_to_2000(rt: HostRuntime) -> Result<(), Fail> {
    assert_eq!(rt;
        shared_by(&rt, rt.alloc(), Counter { count: 0 }, 2000, 1, Way::Call).count,
        2000
    );
    Ok(())
}

#[test]
fn eight_threads_count_to_8000(rt: HostRuntime) -> Result<(), Fail> {
    assert_eq!(rt;
        shared_by(&rt, rt.alloc(), Counter { count: 0 }, 8000, 3, Way::Call).count,
        8000
    );
    Ok(())
}

#[test]
fn a_hundred_runs_count_alike(rt: HostRuntime) -> Result<(), Fail> {
    for _ in 0..100 {
        assert_eq!(rt;
            shared_by(&rt, rt.alloc(), Counter { count: 0 }, 200, 1, Way::Call).count,
            200
        );
        assert_eq!(rt;
            shared_by(&rt, rt.alloc(), Counter { count: 0 }, 400, 3, Way::Call).count,
            400
        );
    }
    Ok(())
}

#[test]
fn sleeping_threads_are_woken(rt: HostRuntime) -> Result<(), Fail> {
    assert_eq!(rt;
        shared_by(&rt, rt.alloc(), Slow { count: 0 }, 400, 3, Way::Call).count,
        400
    );
    Ok(())
}

#[test]
fn a_hundred_runs_of_visits_count_alike(rt: HostRuntime) -> Result<(), Fail> {
    for run in 0..400 {
        let counter = Counter { count: 0 };
        let counter = shared_by(&rt, rt.alloc(), counter, 80, run % 4, Way::Visit);
        assert_eq!(rt; counter.count, 80);
    }
    Ok(())
}

#[test]
fn sleeping_threads_are_woken_by_the_end_of_a_visit(rt: HostRuntime) -> Result<(), Fail> {
    assert_eq!(rt;
        shared_by(&rt, rt.alloc(), Slow { count: 0 }, 400, 3, Way::Visit).count,
        400
    );
    Ok(())
}

#[test]
fn a_spent_seat_calls_no_function(rt: HostRuntime) -> Result<(), Fail> {
    let Ok((turns, mut seat)) = Turns::open(rt.alloc(), Counter { count: 7 }, 1) else {
        panic!(rt; "memory")
    };
    let mut visits = 0;
    assert_eq!(rt; visit(&rt, &turns, &mut seat, &mut visits), Ok(true));
    assert_eq!(rt; visit(&rt, &turns, &mut seat, &mut visits), Err(SeatSpent));
    assert_eq!(rt; visits, 1);
    assert_eq!(rt; turns.close(&rt, seat).count, 8);
    Ok(())
}

#[test]
fn a_spent_seat_meets_another(rt: HostRuntime) -> Result<(), Fail> {
    let Ok((turns, mut a)) = Turns::open(rt.alloc(), Counter { count: 7 }, 2) else {
        panic!(rt; "memory")
    };
    let mut b = turns.split(&mut a);
    assert_eq!(rt; call(&rt, &turns, &mut a, Ask::Add(3)), Ok(10));
    assert_eq!(rt; call(&rt, &turns, &mut a, Ask::Add(3)), Err(SeatSpent));
    turns.meet(&mut a, &mut b);
    assert_eq!(rt; call(&rt, &turns, &mut b, Ask::Read), Ok(10));
    assert_eq!(rt; turns.close(&rt, b).count, 10);
    Ok(())
}

#[test]
fn a_spent_seat_says_so(rt: HostRuntime) -> Result<(), Fail> {
    let text = format!(in rt.alloc(); "{SeatSpent}")?;
    assert_eq!(rt; text.as_str(), "the seat has no calls left");
    Ok(())
}

#[test]
fn a_joined_seat_has_the_calls_of_both(rt: HostRuntime) -> Result<(), Fail> {
    let Ok((turns, mut a)) = Turns::open(rt.alloc(), Counter { count: 0 }, 3) else {
        panic!(rt; "memory")
    };
    let mut b = turns.split(&mut a);
    assert_eq!(rt; call(&rt, &turns, &mut b, Ask::Add(1)), Ok(1));
    assert_eq!(rt; call(&rt, &turns, &mut b, Ask::Read), Err(SeatSpent));
    turns.join(&mut b, a);
    assert_eq!(rt; call(&rt, &turns, &mut b, Ask::Add(1)), Ok(2));
    assert_eq!(rt; call(&rt, &turns, &mut b, Ask::Add(u64::MAX)), Ok(1));
    assert_eq!(rt; call(&rt, &turns, &mut b, Ask::Read), Err(SeatSpent));
    assert_eq!(rt; turns.close(&rt, b).count, 1);
    Ok(())
}

#[test]
fn a_shelf_of_any_make_is_shared(rt: HostRuntime) -> Result<(), Fail> {
    let last = shelf::hand_in_two(&rt, rt.alloc(), shelf::Tray(3), shelf::Tray(3)).ok_or("memory")?;
    assert_eq!(rt; last, 3);
    Ok(())
}

#[test]
fn a_worker_keeps_its_answers(rt: HostRuntime) -> Result<(), Fail> {
    let Ok((turns, seat)) = Turns::open(rt.alloc(), Counter { count: 5 }, 3) else {
        panic!(rt; "memory")
    };
    let (seat, answers) = worker::work(&rt, rt.alloc(), &turns, seat, 8);
    assert_eq!(rt; answers.as_slice(), [6, 7, 8].as_slice());
    assert_eq!(rt; turns.close(&rt, seat).count, 8);
    Ok(())
}
