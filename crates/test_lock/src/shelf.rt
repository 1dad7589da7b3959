//! A state that holds a value of any make, and events that bring one.
ghost use Rattle.std.specs.Prelude.{◌≡◌, ℕ, Some};
ghost use Rattle.thread_lock.specs.Seats.{IsSeatOf};

use std::alloc::Global;
use std::marker::Model;
use std::sync::Wait;
use std::thread::{Threads, join};
use thread_lock::{Seat, Sequential, Turns};

/// What lies on a shelf, of some make.
pub trait Load: Drop {
    ghost weight_of: { Self → ℕ };

    fn weight(&self) -> u64
        ensures { result ≡ weight_of self.now };
}

#[derive(Drop)]
pub struct Tray(pub u64);

impl Load for Tray {
    ghost weight_of = { λ t. t.0 };

    fn weight(&self) -> u64 {
        self.0
    }
}

/// Contracts see it as the weight of its load.
#[derive(Drop)]
pub struct Shelf<L: Load> {
    load: Option<L>,
}

impl<L: Load> Model for Shelf<L> {
    ghost use Rattle.std.specs.Prelude.{ℕ, Option};
    ghost use Rattle.std.specs.Option.{option_map};

    ghost Value = { Option ℕ };

    ghost view = { λ s. option_map L.weight_of s.load };
}

/// Brings a load, which contracts see as its weight.
#[derive(Drop)]
pub struct Bring<L: Load> {
    load: L,
}

impl<L: Load> Model for Bring<L> {
    ghost use Rattle.std.specs.Prelude.{ℕ};

    ghost Value = { ℕ };

    ghost view = { λ b. L.weight_of b.load };
}

impl<L: Load> Sequential for Shelf<L> {
    type Event = Bring<L>;

    type Answer = u64;

    ghost use Rattle.std.specs.Prelude.{◌≡◌, Some};

    ghost steps = { λ before bring answer after. (answer ≡ bring) × (after ≡ Some bring) };
}

impl<L: Load> Shelf<L> {
    ghost use Rattle.std.specs.Prelude.{◌≡◌, Some};

    fn take_in(&mut self, bring: Bring<L>) -> u64
        ensures { (result ≡ bring) × (self.new ≡ Some bring) }
    {
        let Bring { load } = bring;
        let weight = load.weight();
        self.load = Some(load);
        weight
    }
}

fn hand_in<L: Load, R: Wait>(
    rt: &R,
    turns: &Turns<Shelf<L>>,
    mut seat: Seat<Shelf<L>>,
    load: L,
) -> Seat<Shelf<L>>
    requires { IsSeatOf turns.now seat }
    ensures { IsSeatOf turns.now result }
{
    let _ = turns.call(
        rt,
        &mut seat,
        Bring { load },
        |shelf: &mut Shelf<L>, bring: Bring<L>| -> u64
            ensures { (result ≡ bring) × (shelf.new ≡ Some bring) }
        { shelf.take_in(bring) },
    );
    seat
}

/// Two threads hand in a load each. The weight of the last one is the answer.
pub fn hand_in_two<L: Load + Send, R: Threads + Wait + Sync>(
    rt: &R,
    alloc: Global,
    one: L,
    two: L,
) -> Option<u64> {
    let Ok((turns, mut first)) = Turns::open(alloc, Shelf { load: None }, 2) else {
        return None;
    };
    let second = turns.split(&mut first);
    let shared = &turns;
    let (mut first, second) = join(
        rt,
        || -> Seat<Shelf<L>>
            requires { IsSeatOf shared.now first }
            ensures { IsSeatOf shared.entry.now result }
        { hand_in(rt, shared, first, one) },
        || -> Seat<Shelf<L>>
            requires { IsSeatOf shared.now second }
            ensures { IsSeatOf shared.entry.now result }
        { hand_in(rt, shared, second, two) },
    );
    turns.join(&mut first, second);
    let Shelf { load } = turns.close(rt, first);
    load.map(|l| l.weight())
}
