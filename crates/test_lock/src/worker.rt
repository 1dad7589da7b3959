//! A worker that keeps the answers that it got: its own calls in the history are these, and no others.
ghost use Rattle.std.specs.Prelude.{◌≡◌, ◌++◌, map};
ghost use Rattle.thread_lock.specs.declared.counter.Ask.TheVariants.{Add};
ghost use Rattle.thread_lock.specs.Counter.{Counts};
ghost use Rattle.thread_lock.specs.History.{entry};
ghost use Rattle.thread_lock.specs.Seats.{IsSeatOf, numbers, number, own_calls};

use std::alloc::Global;
use std::sync::Wait;
use thread_lock::{Ask, Counter, Seat, Turns};

fn add(counter: &mut Counter, ask: Ask) -> u64
    ensures { Counts counter.old ask result counter.new }
{
    counter.step(ask)
}

/// Adds one so many times, or until no call or no memory is left.
pub fn work<R: Wait>(
    rt: &R,
    alloc: Global,
    turns: &Turns<Counter>,
    mut seat: Seat<Counter>,
    times: u32,
) -> (Seat<Counter>, Vec<u64>)
    requires { IsSeatOf turns.now seat }
    ensures seat { IsSeatOf turns.now result.0 × (numbers result.0 ≡ numbers seat) }
    ensures own { own_calls result.0 ≡ own_calls seat ++ map (λ answer. entry (number seat) (Add 1) answer) result.1.items }
{
    let mut answers = Vec::new(alloc);
    for _ in 0..times {
        if answers.reserve(1).is_err() {
            break;
        }
        match turns.call(rt, &mut seat, Ask::Add(1), add) {
            Ok(answer) => answers.push_reserved(answer),
            Err(_) => break,
        }
    }
    (seat, answers)
}
