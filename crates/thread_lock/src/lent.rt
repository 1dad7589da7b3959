//! Calls that lend what they ask, so that the event which enters the history is never made.
ghost use Rattle.std.specs.Prelude.{◌≡◌, ◌↔◌, ◌<◌, [], ◌∷◌, Some, length, IsErr, OnErr, IfOk};
ghost use Rattle.std.specs.Borrow.{MutBor};
ghost use Rattle.thread_lock.specs.declared.rule.Stage.TheVariants.{Idle};
ghost use Rattle.thread_lock.specs.Plays.{Works, Steps};

use crate::rule::{Last, Place};
use crate::seat::{Seat, SeatSpent};
use crate::sequential::Sequential;
use crate::turns::Turns;
use crate::witness::Witness;
use std::sync::Wait;

/// What is lent to one call. It stands for an event, and what the function returns for an answer; neither is made.
pub trait Lent<S: Sequential> {
    /// What the function returns.
    type Told;

    ghost event: { Self → S.Event };

    ghost answer: { Self.Told → S.Answer };
}

impl<S: Sequential> Turns<S> {
    ghost use Rattle.thread_lock.specs.Seats.{IsSeatOf, Called, opening, calls_left};

    /// Waits until the seat holds the state, and has the function do one event on it where it lies, with `job` lent to it. This
    /// is a [`call`](Turns::call) whose event and answer are no values: the job's type says which event it stands for, and
    /// which answer what the function returns is.
    ///
    /// `SeatSpent` comes exactly when the seat has no calls left. The function is then not called, and nothing has changed.
    pub fn call_lent<R: Wait, J: Lent<S>, F: FnOnce(&mut S, &mut J) -> J::Told>(
        &self,
        rt: &R,
        seat: &mut Seat<S>,
        job: &mut J,
        step: F,
    ) -> Result<J::Told, SeatSpent>
        requires seat { IsSeatOf self.now seat.old }
        requires callable { (state : MutBor S) (lent : MutBor J) → F.pre step state lent }
        requires steps { (state state' : MutBor S) (lent lent' : MutBor J) (told : J.Told) → lent.now ≡ job.old → F.post step state lent told state' lent' → S.steps state.now (J.event job.old) (J.answer told) state'.now }
        ensures seat { IsSeatOf self.now seat.new }
        ensures spent { IsErr result ↔ (calls_left seat.old ≡ 0) }
        ensures unchanged { OnErr result ((seat.new ≡ seat.old) × (job.new ≡ job.old)) }
        ensures called { IfOk result (λ told. Called seat.old (J.event job.old) (J.answer told) seat.new) }
    {
        if seat.left == 0 {
            return Err(SeatSpent);
        }
        let told = self.lend_in_turn(rt, &mut seat.place, &mut seat.next, job, step);
        seat.left -= 1;
        Ok(told)
    }

    fn lend_in_turn<R: Wait, J: Lent<S>, F: FnOnce(&mut S, &mut J) -> J::Told>(
        &self,
        rt: &R,
        place: &mut Place<S, S::Event, S::Answer>,
        next: &mut u64,
        job: &mut J,
        step: F,
    ) -> J::Told
        requires table { place.old.table_id ≡ self.now.table.shared.table_id }
        requires idle { (place.old.me.0.stage ≡ Idle) × (place.old.me.1 ≡ []) × (0 < place.old.me.0.left) }
        requires opened { place.old.me.0.opening ≡ Some (opening self.now) }
        requires numbered { 0 < length place.old.me.0.numbers }
        requires callable { (state : MutBor S) (lent : MutBor J) → F.pre step state lent }
        requires steps { (state state' : MutBor S) (lent lent' : MutBor J) (told : J.Told) → lent.now ≡ job.old → F.post step state lent told state' lent' → S.steps state.now (J.event job.old) (J.answer told) state'.now }
        ensures table { place.new.table_id ≡ place.old.table_id }
        ensures empty { place.new.me.1 ≡ [] }
        ensures steps { Steps S.steps place.old.me.0 (J.event job.old) (J.answer result) place.new.me.0 }
        ensures place { next.new ≡ length place.new.me.0.seen }
    {
        self.enter(rt, place, next);
        let told = self.work_lent(place, job, step);
        *next = self.leave(place);
        told
    }

    // Does one event on the state where it lies, and notes the call beside it.
    fn work_lent<J: Lent<S>, F: FnOnce(&mut S, &mut J) -> J::Told>(
        &self,
        place: &mut Place<S, S::Event, S::Answer>,
        job: &mut J,
        step: F,
    ) -> J::Told
        requires table { place.old.table_id ≡ self.now.table.shared.table_id }
        requires holds { (kept : _) × (place.old.me.1 ≡ (0, kept) ∷ []) }
        requires callable { (state : MutBor S) (lent : MutBor J) → F.pre step state lent }
        requires steps { (state state' : MutBor S) (lent lent' : MutBor J) (told : J.Told) → lent.now ≡ job.old → F.post step state lent told state' lent' → S.steps state.now (J.event job.old) (J.answer told) state'.now }
        ensures table { place.new.table_id ≡ place.old.table_id }
        ensures works { Works S.steps place.old.me (J.event job.old) (J.answer result) place.new.me }
    {
        let kept = place.slot_mut(&self.table.shared, 0);
        let event = Witness::by(&*job);
        let told = step(&mut kept.state, job);
        let answer = Witness::by(&told);
        let call = Some(Last { event, answer });
        kept.last = Witness::of(&call);
        told
    }
}
