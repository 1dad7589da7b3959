//! Tickets: a thread draws one, holds the state once it is let in, and lets the next one in when it leaves.
ghost use Rattle.std.specs.Prelude.{◌≡◌, ◌<◌, ◌+◌, Some, length, MatchBool, MatchOption};
ghost use Rattle.thread_lock.specs.declared.rule.Stage.TheVariants.{Idle, Turn, Waiting};
ghost use Rattle.thread_lock.specs.Plays.{Draws, TakesTurn, Serves, HasWorked};

use crate::plays::{Draw, DrawNext, Look, Serve};
use crate::rule::{DRAWN, Place, SERVED};
use crate::sequential::Sequential;
use crate::turns::Turns;
use std::sync::Wait;
use std::{hint, thread};

/// How often a thread tries for a ticket before it sleeps.
const TRIES: u32 = 128;

/// How often the pause between two tries doubles. A call takes half a microsecond, so a thread that paused for longer would
/// look too late, or leave the state to no one.
const DOUBLINGS: u32 = 3;

/// How often a thread sleeps before it draws a ticket that is not let in yet.
const SLEEPS: u32 = 8;

impl<S: Sequential> Turns<S> {
    ghost use Rattle.thread_lock.specs.Seats.{opening};

    // Draws a ticket. For a while it takes none but one that is let in at once: if each thread drew any, each would wait for
    // the one before it to be run.
    pub(crate) fn draw<R: Wait>(&self, rt: &R, place: &mut Place<S, S::Event, S::Answer>) -> u64
        requires table { place.old.table_id ≡ self.now.table.shared.table_id }
        requires idle { (place.old.me.0.stage ≡ Idle) × (0 < place.old.me.0.left) }
        ensures table { place.new.table_id ≡ place.old.table_id }
        ensures draws { Draws place.old.me result place.new.me }
    {
        'sleeps: for _ in 0..SLEEPS {
            if let Some(ticket) = self.try_draw(place) {
                return ticket;
            }
            self.sleep(rt, place);
        }
        self.table.shared.fetch_add::<Draw>(place, DRAWN, 1)
    }

    // Tries for a ticket that is let in at once, for about as long as a sleep would take.
    fn try_draw(&self, place: &mut Place<S, S::Event, S::Answer>) -> Option<u64>
        requires table { place.old.table_id ≡ self.now.table.shared.table_id }
        requires idle { (place.old.me.0.stage ≡ Idle) × (0 < place.old.me.0.left) }
        ensures table { place.new.table_id ≡ place.old.table_id }
        ensures draws { MatchOption result (place.new.me ≡ place.old.me) (λ ticket. Draws place.old.me ticket place.new.me) }
    {
        'tries: for round in 0..TRIES {
            let next = self.table.shared.peek(SERVED);
            if self.table.shared.peek(DRAWN) == next && self.draw_next(place, next) {
                return Some(next);
            }
            back_off(round.min(DOUBLINGS));
        }
        None
    }

    // Draws the ticket if it is the next one.
    pub(crate) fn draw_next(&self, place: &mut Place<S, S::Event, S::Answer>, ticket: u64) -> bool
        requires table { place.old.table_id ≡ self.now.table.shared.table_id }
        requires idle { (place.old.me.0.stage ≡ Idle) × (0 < place.old.me.0.left) }
        ensures table { place.new.table_id ≡ place.old.table_id }
        ensures draws { MatchBool result (Draws place.old.me ticket place.new.me) (place.new.me ≡ place.old.me) }
    {
        let found = self
            .table
            .shared
            .compare_exchange::<DrawNext>(place, DRAWN, ticket, ticket.wrapping_add(1));
        found == ticket
    }

    // Waits for those with lower tickets. Few threads do at a time, so it yields and does not sleep.
    pub(crate) fn await_turn<R: Wait>(
        &self,
        rt: &R,
        place: &mut Place<S, S::Event, S::Answer>,
        ticket: u64,
    )
        requires table { place.old.table_id ≡ self.now.table.shared.table_id }
        requires waits { place.old.me.0.stage ≡ Waiting ticket }
        ensures table { place.new.table_id ≡ place.old.table_id }
        ensures turn { TakesTurn S.steps place.old.me ticket place.new.me }
    {
        'looks: for _ in rt.forever() {
            if self.is_served(place, ticket) {
                return;
            }
            thread::yield_now();
        }
        unreachable!()
    }

    // Whether the ticket is let in. If so, the seat has the slot.
    pub(crate) fn is_served(&self, place: &mut Place<S, S::Event, S::Answer>, ticket: u64) -> bool
        requires table { place.old.table_id ≡ self.now.table.shared.table_id }
        requires waits { place.old.me.0.stage ≡ Waiting ticket }
        ensures table { place.new.table_id ≡ place.old.table_id }
        ensures turn { MatchBool result (TakesTurn S.steps place.old.me ticket place.new.me) (place.new.me ≡ place.old.me) }
    {
        self.table.shared.load::<Look>(place, SERVED) == ticket
    }

    // Gives the slot back, lets the next ticket in, which is the answer, and wakes a thread that sleeps.
    pub(crate) fn leave(&self, place: &mut Place<S, S::Event, S::Answer>) -> u64
        requires table { place.old.table_id ≡ self.now.table.shared.table_id }
        requires turn { (t : _) × (place.old.me.0.stage ≡ Turn t) }
        requires opened { place.old.me.0.opening ≡ Some (opening self.now) }
        requires numbered { 0 < length place.old.me.0.numbers }
        requires worked { HasWorked S.steps (opening self.now) place.old.me }
        ensures table { place.new.table_id ≡ place.old.table_id }
        ensures serves { Serves place.old.me place.new.me }
        ensures place { result ≡ length place.old.me.0.seen + 1 }
    {
        let ticket = self.table.shared.fetch_add::<Serve>(place, SERVED, 1);
        self.wake(place);
        ticket.wrapping_add(1)
    }
}

// Lets time pass, twice as much in each round.
fn back_off(round: u32)
    requires { round < 32 }
{
    for _ in 0..1u32 << round {
        hint::spin_loop();
    }
}
