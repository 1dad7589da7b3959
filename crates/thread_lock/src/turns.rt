//! The state that threads share, from its opening to its close.
ghost use Rattle.std.specs.Prelude.{◌≡◌, ◌≤◌, [], ◌∷◌, IfOk, IfErr};

use crate::rule::{DRAWN, Kept, Opening, SERVED, Table};
use crate::seat::Seat;
use crate::sequential::Sequential;
use crate::witness::Witness;
use atomic_table::Refused;
use std::alloc::Global;
use std::sync::Wait;

/// The most calls that the lock may be opened for. At 100 million calls a second they would last 1,400 years.
pub const MOST_CALLS: u64 = 1 << 62;

/// A state that threads hold one after the other, for one call each.
///
/// All calls of all threads stand in one history, which is legal: each has the answer that the state gives at that point. No value of
/// the history is made; what a seat has seen of it is known to proofs alone. Nothing is said of who comes first, or when.
#[derive(Drop)]
pub struct Turns<S: Sequential> {
    pub(crate) table: Table<S, S::Event, S::Answer>,
    ghost shape: { (table.shared.table_id.words ≡ 3) × (table.shared.table_id.slots ≡ 1) },
}

impl<S: Sequential> Turns<S> {
    ghost use Rattle.thread_lock.specs.Seats.{IsSeatOf, IsLedTo, opening, total_calls, seen, numbers, number, calls_left, place_of};

    /// Shares the state for so many calls, and gives the first seat, which has them all. For lack of memory the state comes
    /// back.
    pub fn open(alloc: Global, state: S, calls: u64) -> Result<(Turns<S>, Seat<S>), S>
        requires { calls ≤ MOST_CALLS }
        ensures opening { IfOk result (λ r. opening r.0 ≡ state) }
        ensures calls { IfOk result (λ r. total_calls r.0 ≡ calls) }
        ensures seat { IfOk result (λ r. IsSeatOf r.0 r.1) }
        ensures new { IfOk result (λ r. (seen r.1 ≡ []) × (numbers r.1 ≡ number r.1 ∷ []) × (calls_left r.1 ≡ calls) × (place_of r.1 ≡ 0)) }
        ensures refused { IfErr result (λ back. back ≡ state) }
    {
        let about = Opening {
            state: Witness::of(&state),
            calls,
        };
        let mut slots = Vec::new(alloc);
        if slots.reserve(1).is_err() {
            slots.destroy_empty();
            return Err(state);
        }
        let before = Witness::of(&state);
        slots.push_reserved(Kept {
            state,
            last: Witness::of(&None),
            before,
        });
        match Table::new(alloc, &[0, 0, 0], slots, &about) {
            Ok((table, place)) => Ok((
                Turns { table },
                Seat {
                    place,
                    left: calls,
                    next: 0,
                },
            )),
            Err(Refused { mut slots }) => {
                let Some(
                    Kept {
                        state,
                        last: _,
                        before: _,
                    },
                ) = slots.pop()
                else {
                    unreachable!()
                };
                slots.destroy_empty();
                Err(state)
            }
        }
    }

    /// The state after the last call: the one that a legal history leads to, which begins with what the seat has seen and has no
    /// further call of the seat. If the calls in it and those that the seat has left are as many as there were, no other seat
    /// has made one.
    ///
    /// It waits forever if a ticket was drawn and not let in, which no use of the public calls leads to.
    pub fn close<R: Wait>(self, rt: &R, seat: Seat<S>) -> S
        requires { IsSeatOf self seat }
        ensures { IsLedTo self seat result }
    {
        let Turns { table } = self;
        let Seat {
            place,
            left: _,
            next: _,
        } = seat;
        let mut closed = table.close_with(place);
        if closed.word(DRAWN) != closed.word(SERVED) {
            for _ in rt.forever() {}
            unreachable!()
        }
        let Kept {
            state,
            last: _,
            before: _,
        } = closed.take(0);
        closed.free();
        state
    }
}
