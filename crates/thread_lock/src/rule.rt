//! The table of the lock: what lies in it, what its seats know, and the rule that ties them.
use crate::entry::Entry;
use crate::sequential::Sequential;
use crate::witness::Witness;
use atomic_table::TableRule;
use std::alloc::Global;
use std::collections::LinkedList;

/// What the slot has while no seat holds it.
#[derive(Drop)]
pub struct Kept<S, E, A> {
    pub state: S,
    /// The last call, which has no bytes.
    pub last: Witness<Option<Last<E, A>>>,
    /// The state that the last visit found, which has no bytes either.
    pub before: Witness<S>,
}

/// A call, for proofs alone.
#[derive(Drop)]
pub struct Last<E, A> {
    pub event: Witness<E>,
    pub answer: Witness<A>,
}

/// What the table is told when it is made.
#[derive(Drop)]
pub struct Opening<S> {
    pub state: Witness<S>,
    pub calls: u64,
}

/// What a seat knows. No value of it is made.
pub struct View<S, E, A> {
    pub opening: Option<S>,
    pub seen: LinkedList<Entry<E, A>>,
    /// What another seat had seen.
    pub heard: LinkedList<Entry<E, A>>,
    pub numbers: LinkedList<u64>,
    /// The numbers of the seat that this one was split off.
    pub taken: LinkedList<u64>,
    pub left: u64,
    pub stage: Stage,
}

/// Where a seat stands. One that was split off is new until it has a number.
pub enum Stage {
    New,
    Idle,
    Waiting(u64),
    Turn(u64),
}

pub type Place<S, E, A> = atomic_table::Seat<Kept<S, E, A>, View<S, E, A>>;

pub type Table<S, E, A> = atomic_table::Table<
    Kept<S, E, A>,
    View<S, E, A>,
    Opening<S>,
    InTurn,
    Global,
>;

/// The word that counts the tickets drawn.
pub const DRAWN: usize = 0;

/// The word that counts the tickets that were let in.
pub const SERVED: usize = 1;

/// The word by which threads sleep.
pub const BELL: usize = 2;

pub struct InTurn;

impl<S: Sequential> TableRule<
    Kept<S, S::Event, S::Answer>,
    View<S, S::Event, S::Answer>,
    Opening<S>,
> for InTurn {
    ghost use Rattle.thread_lock.specs.Rule.{Ruled};
    ghost use Rattle.thread_lock.specs.Plays.{first_view};

    ghost holds = { λ k. Ruled S.steps k };

    ghost first = { λ k. first_view k };
}
