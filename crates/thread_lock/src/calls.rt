//! Calls of the state: each does one event on it.
ghost use Rattle.std.specs.Prelude.{◌≡◌, ◌↔◌, ◌<◌, [], ◌∷◌, Some, length, IsErr, OnErr, IfOk};
ghost use Rattle.thread_lock.specs.declared.rule.Stage.TheVariants.{Idle};
ghost use Rattle.std.specs.Borrow.{MutBor};
ghost use Rattle.thread_lock.specs.Plays.{Works, Steps};

use crate::rule::{Last, Place};
use crate::seat::{Seat, SeatSpent};
use crate::sequential::Sequential;
use crate::turns::Turns;
use crate::witness::Witness;
use std::sync::Wait;

impl<S: Sequential> Turns<S> {
    ghost use Rattle.thread_lock.specs.Seats.{IsSeatOf, Called, opening, calls_left};

    /// Waits until the seat holds the state, does one event on it where it lies, and gives its answer.
    ///
    /// `SeatSpent` comes exactly when the seat has no calls left. The event is then dropped, and nothing has changed.
    pub fn call<R: Wait, F: FnOnce(&mut S, S::Event) -> S::Answer>(
        &self,
        rt: &R,
        seat: &mut Seat<S>,
        event: S::Event,
        step: F,
    ) -> Result<S::Answer, SeatSpent>
        requires seat { IsSeatOf self.now seat.old }
        requires callable { (state : MutBor S) → F.pre step state event }
        requires steps { (state state' : MutBor S) (answer : S.Answer) → F.post step state event answer state' → S.steps state.now event answer state'.now }
        ensures seat { IsSeatOf self.now seat.new }
        ensures spent { IsErr result ↔ (calls_left seat.old ≡ 0) }
        ensures unchanged { OnErr result (seat.new ≡ seat.old) }
        ensures called { IfOk result (λ answer. Called seat.old event answer seat.new) }
    {
        if seat.left == 0 {
            return Err(SeatSpent);
        }
        let answer = self.step_in_turn(rt, &mut seat.place, &mut seat.next, event, step);
        seat.left -= 1;
        Ok(answer)
    }

    fn step_in_turn<R: Wait, F: FnOnce(&mut S, S::Event) -> S::Answer>(
        &self,
        rt: &R,
        place: &mut Place<S, S::Event, S::Answer>,
        next: &mut u64,
        event: S::Event,
        step: F,
    ) -> S::Answer
        requires table { place.old.table_id ≡ self.now.table.shared.table_id }
        requires idle { (place.old.me.0.stage ≡ Idle) × (place.old.me.1 ≡ []) × (0 < place.old.me.0.left) }
        requires opened { place.old.me.0.opening ≡ Some (opening self.now) }
        requires numbered { 0 < length place.old.me.0.numbers }
        requires callable { (state : MutBor S) → F.pre step state event }
        requires steps { (state state' : MutBor S) (answer : S.Answer) → F.post step state event answer state' → S.steps state.now event answer state'.now }
        ensures table { place.new.table_id ≡ place.old.table_id }
        ensures empty { place.new.me.1 ≡ [] }
        ensures steps { Steps S.steps place.old.me.0 event result place.new.me.0 }
        ensures place { next.new ≡ length place.new.me.0.seen }
    {
        // This is the whole way while no other thread calls, so what may wait stands beside it.
        if !self.draw_next(place, *next) {
            *next = self.draw(rt, place);
        }
        if !self.is_served(place, *next) {
            self.await_turn(rt, place, *next);
        }
        let answer = self.work(place, event, step);
        *next = self.leave(place);
        answer
    }

    // Does one event on the state where it lies, and notes the call beside it.
    fn work<F: FnOnce(&mut S, S::Event) -> S::Answer>(
        &self,
        place: &mut Place<S, S::Event, S::Answer>,
        event: S::Event,
        step: F,
    ) -> S::Answer
        requires table { place.old.table_id ≡ self.now.table.shared.table_id }
        requires holds { (kept : _) × (place.old.me.1 ≡ (0, kept) ∷ []) }
        requires callable { (state : MutBor S) → F.pre step state event }
        requires steps { (state state' : MutBor S) (answer : S.Answer) → F.post step state event answer state' → S.steps state.now event answer state'.now }
        ensures table { place.new.table_id ≡ place.old.table_id }
        ensures works { Works S.steps place.old.me event result place.new.me }
    {
        let asked = Witness::of(&event);
        let kept = place.slot_mut(&self.table.shared, 0);
        let answer = step(&mut kept.state, event);
        let call = Some(Last {
            event: asked,
            answer: Witness::of(&answer),
        });
        kept.last = Witness::of(&call);
        answer
    }
}
