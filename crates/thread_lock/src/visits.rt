//! Visits: for one call a caller's function has the state to itself, and the history gets one call.
ghost use Rattle.std.specs.Prelude.{◌≡◌, ◌↔◌, ◌<◌, ◌+◌, [], ◌∷◌, Some, length, IsErr, OnErr, IfOk};
ghost use Rattle.std.specs.Borrow.{MutBor};
ghost use Rattle.thread_lock.specs.declared.rule.Stage.TheVariants.{Idle, Turn};
ghost use Rattle.thread_lock.specs.History.{HasStep};
ghost use Rattle.thread_lock.specs.Plays.{Enters, ServesVisit, HasVisited};
ghost use Rattle.thread_lock.specs.Visits.{Does, WorksOn, Visits};

use crate::plays::ServeVisit;
use crate::rule::{Place, SERVED};
use crate::seat::{Seat, SeatSpent};
use crate::sequential::Sequential;
use crate::turns::Turns;
use crate::witness::Witness;
use std::sync::Wait;

impl<S: Sequential> Turns<S> {
    ghost use Rattle.thread_lock.specs.Seats.{IsSeatOf, Visited, opening, calls_left};

    /// Waits until the seat holds the state, calls the function once on it and `job`, and returns what it returns. No thread
    /// comes in between. The function may ask the state as often as it likes, but its changes must come to one event: the
    /// history gets one call, an event and an answer that lead from the state that was found to the one that was left.
    ///
    /// What the function changes besides the state goes in `job`, since contracts do not follow what a closure borrows. It must
    /// not call this lock: it would wait for itself to end.
    ///
    /// `SeatSpent` comes exactly when the seat has no calls left. The function is then not called, and nothing has changed.
    pub fn visit<R: Wait, J, T, F: FnOnce(&mut S, &mut J) -> T>(
        &self,
        rt: &R,
        seat: &mut Seat<S>,
        job: &mut J,
        does: F,
    ) -> Result<T, SeatSpent>
        requires seat { IsSeatOf self.now seat.old }
        requires callable { (state : MutBor S) (lent : MutBor J) → F.pre does state lent }
        requires steps { (state state' : MutBor S) (lent lent' : MutBor J) (told : T) → F.post does state lent told state' lent' → HasStep S.steps state.now state'.now }
        ensures seat { IsSeatOf self.now seat.new }
        ensures spent { IsErr result ↔ (calls_left seat.old ≡ 0) }
        ensures unchanged { OnErr result ((seat.new ≡ seat.old) × (job.new ≡ job.old)) }
        ensures visited { IfOk result (λ told. Visited self.now (Does F.FnOnce does job.old told job.new) seat.old seat.new) }
    {
        if seat.left == 0 {
            return Err(SeatSpent);
        }
        let told = self.visit_in_turn(rt, &mut seat.place, &mut seat.next, job, does);
        seat.left -= 1;
        Ok(told)
    }

    fn visit_in_turn<R: Wait, J, T, F: FnOnce(&mut S, &mut J) -> T>(
        &self,
        rt: &R,
        place: &mut Place<S, S::Event, S::Answer>,
        next: &mut u64,
        job: &mut J,
        does: F,
    ) -> T
        requires table { place.old.table_id ≡ self.now.table.shared.table_id }
        requires idle { (place.old.me.0.stage ≡ Idle) × (place.old.me.1 ≡ []) × (0 < place.old.me.0.left) }
        requires opened { place.old.me.0.opening ≡ Some (opening self.now) }
        requires numbered { 0 < length place.old.me.0.numbers }
        requires callable { (state : MutBor S) (lent : MutBor J) → F.pre does state lent }
        requires steps { (state state' : MutBor S) (lent lent' : MutBor J) (told : T) → F.post does state lent told state' lent' → HasStep S.steps state.now state'.now }
        ensures table { place.new.table_id ≡ place.old.table_id }
        ensures empty { place.new.me.1 ≡ [] }
        ensures visits { Visits S.steps (opening self.now) (Does F.FnOnce does job.old result job.new) place.old.me.0 place.new.me.0 }
        ensures place { next.new ≡ length place.new.me.0.seen }
    {
        self.enter(rt, place, next);
        let told = self.work_on(place, job, does);
        *next = self.leave_visit(place);
        told
    }

    // Draws a ticket and waits until it is let in. The seat then has the slot. A call does this in its own body, since through
    // here it would take two more machine instructions.
    pub(crate) fn enter<R: Wait>(
        &self,
        rt: &R,
        place: &mut Place<S, S::Event, S::Answer>,
        next: &mut u64,
    )
        requires table { place.old.table_id ≡ self.now.table.shared.table_id }
        requires idle { (place.old.me.0.stage ≡ Idle) × (place.old.me.1 ≡ []) × (0 < place.old.me.0.left) }
        ensures table { place.new.table_id ≡ place.old.table_id }
        ensures enters { Enters S.steps place.old.me.0 place.new.me }
    {
        if !self.draw_next(place, *next) {
            *next = self.draw(rt, place);
        }
        if !self.is_served(place, *next) {
            self.await_turn(rt, place, *next);
        }
    }

    // Notes which state the visit found, and calls the function on it where it lies.
    fn work_on<J, T, F: FnOnce(&mut S, &mut J) -> T>(
        &self,
        place: &mut Place<S, S::Event, S::Answer>,
        job: &mut J,
        does: F,
    ) -> T
        requires table { place.old.table_id ≡ self.now.table.shared.table_id }
        requires holds { (kept : _) × (place.old.me.1 ≡ (0, kept) ∷ []) }
        requires callable { (state : MutBor S) (lent : MutBor J) → F.pre does state lent }
        ensures table { place.new.table_id ≡ place.old.table_id }
        ensures works { WorksOn (Does F.FnOnce does job.old result job.new) place.old.me place.new.me }
    {
        let kept = place.slot_mut(&self.table.shared, 0);
        kept.before = Witness::of(&kept.state);
        does(&mut kept.state, job)
    }

    // Gives the slot back, lets the next ticket in, which is the answer, and wakes a thread that sleeps.
    fn leave_visit(&self, place: &mut Place<S, S::Event, S::Answer>) -> u64
        requires table { place.old.table_id ≡ self.now.table.shared.table_id }
        requires turn { (t : _) × (place.old.me.0.stage ≡ Turn t) }
        requires numbered { 0 < length place.old.me.0.numbers }
        requires visited { HasVisited S.steps (opening self.now) place.old.me }
        ensures table { place.new.table_id ≡ place.old.table_id }
        ensures serves { ServesVisit S.steps place.old.me place.new.me }
        ensures place { result ≡ length place.old.me.0.seen + 1 }
    {
        let ticket = self.table.shared.fetch_add::<ServeVisit>(place, SERVED, 1);
        self.wake(place);
        ticket.wrapping_add(1)
    }
}
