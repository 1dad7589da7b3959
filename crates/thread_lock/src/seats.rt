//! Seats that are split, meet and are joined.
ghost use Rattle.std.specs.Prelude.{◌≡◌, ◌+◌, ◌/◌, ◌++◌, false, [], ◌∷◌};
ghost use Rattle.thread_lock.specs.declared.rule.Stage.TheVariants.{Idle};
ghost use Rattle.thread_lock.specs.History.{has, own, AreApart};
ghost use Rattle.thread_lock.specs.Plays.{TakesIn, IsSameBut};

use crate::plays::{Halve, Hear, Lend, Merge, Note, Number, Return, Settle, Stay};
use crate::rule::{Place, SERVED};
use crate::seat::Seat;
use crate::sequential::Sequential;
use crate::turns::Turns;

impl<S: Sequential> Turns<S> {
    ghost use Rattle.thread_lock.specs.Seats.{IsSeatOf, Heard, seen, numbers, number, calls_left, place_of};

    /// A new seat, with half of the calls left, rounded down. It has seen what the first has, and has a new number.
    pub fn split(&self, seat: &mut Seat<S>) -> Seat<S>
        requires { IsSeatOf self.now seat.old }
        ensures seats { IsSeatOf self.now seat.new × IsSeatOf self.now result }
        ensures seen { (seen seat.new ≡ seen seat.old) × (seen result ≡ seen seat.old) }
        ensures numbers { (numbers seat.new ≡ numbers seat.old) × (numbers result ≡ number result ∷ []) }
        ensures new { (has (numbers seat.old) (number result) ≡ false) × (own (numbers result) (seen seat.old) ≡ []) }
        ensures half { calls_left result ≡ calls_left seat.old / 2 }
        ensures place { (place_of seat.new ≡ place_of seat.old) × (place_of result ≡ 0) }
        ensures rest { calls_left seat.new + calls_left result ≡ calls_left seat.old }
    {
        let mut place = self.table.shared.split_seat::<Halve>(&mut seat.place);
        let left = seat.left / 2;
        seat.left -= left;
        self.table.shared.load::<Number>(&mut place, SERVED);
        Seat {
            place,
            left,
            next: 0,
        }
    }

    /// Each seat has then seen what both had. No number is one of both, whichever seats they were split off.
    pub fn meet(&self, a: &mut Seat<S>, b: &mut Seat<S>)
        requires { IsSeatOf self.now a.old × IsSeatOf self.now b.old }
        ensures seats { IsSeatOf self.now a.new × IsSeatOf self.now b.new }
        ensures seen { seen a.new ≡ seen b.new }
        ensures a { Heard a.old b.old a.new }
        ensures b { Heard b.old a.old b.new }
        ensures numbers { (numbers a.new ≡ numbers a.old) × (numbers b.new ≡ numbers b.old) }
        ensures left { (calls_left a.new ≡ calls_left a.old) × (calls_left b.new ≡ calls_left b.old) }
        ensures apart { AreApart (numbers a.old) (numbers b.old) }
        ensures place { (place_of a.new ≡ place_of a.old) × (place_of b.new ≡ place_of b.old) }
    {
        self.tell(&mut b.place, &mut a.place);
        self.tell(&mut a.place, &mut b.place);
        self.compare(&mut a.place, &mut b.place);
    }

    /// The first seat has then seen what both had, and has the numbers and the calls left of both.
    pub fn join(&self, seat: &mut Seat<S>, other: Seat<S>)
        requires { IsSeatOf self.now seat.old × IsSeatOf self.now other }
        ensures seat { IsSeatOf self.now seat.new }
        ensures heard { Heard seat.old other seat.new }
        ensures numbers { numbers seat.new ≡ numbers seat.old ++ numbers other }
        ensures left { calls_left seat.new ≡ calls_left seat.old + calls_left other }
        ensures place { place_of seat.new ≡ place_of seat.old }
    {
        let mut other = other;
        self.meet(seat, &mut other);
        let Seat {
            place,
            left,
            next: _,
        } = other;
        self.table.shared.join_seat::<Merge>(&mut seat.place, place);
        self.table.shared.load::<Stay>(&mut seat.place, SERVED);
        seat.left += left;
    }

    // Seats that have seen the same compare their numbers: for a moment the first has those of both, which differ.
    fn compare(&self, a: &mut Place<S, S::Event, S::Answer>, b: &mut Place<S, S::Event, S::Answer>)
        requires table { (a.old.table_id ≡ self.now.table.shared.table_id) × (b.old.table_id ≡ self.now.table.shared.table_id) }
        requires idle { (a.old.me.0.stage ≡ Idle) × (b.old.me.0.stage ≡ Idle) }
        requires seen { a.old.me.0.seen ≡ b.old.me.0.seen }
        ensures table { (a.new.table_id ≡ a.old.table_id) × (b.new.table_id ≡ b.old.table_id) }
        ensures slots { (a.new.me.1 ≡ a.old.me.1) × (b.new.me.1 ≡ b.old.me.1) }
        ensures same { IsSameBut a.old.me.0 a.new.me.0 × IsSameBut b.old.me.0 b.new.me.0 }
        ensures apart { AreApart a.old.me.0.numbers b.old.me.0.numbers }
    {
        let lent = self.table.shared.split_seat::<Lend>(b);
        self.table.shared.join_seat::<Merge>(a, lent);
        self.table.shared.load::<Stay>(a, SERVED);
        let back = self.table.shared.split_seat::<Return>(a);
        self.table.shared.join_seat::<Merge>(b, back);
    }

    // What `from` has seen, `to` has then seen too.
    fn tell(&self, from: &mut Place<S, S::Event, S::Answer>, to: &mut Place<S, S::Event, S::Answer>)
        requires table { (from.old.table_id ≡ self.now.table.shared.table_id) × (to.old.table_id ≡ self.now.table.shared.table_id) }
        requires idle { to.old.me.0.stage ≡ Idle }
        ensures table { (from.new.table_id ≡ from.old.table_id) × (to.new.table_id ≡ to.old.table_id) }
        ensures from { from.new.me ≡ from.old.me }
        ensures slot { to.new.me.1 ≡ to.old.me.1 }
        ensures to { TakesIn S.steps to.old.me.0 from.old.me.0.seen to.new.me.0 }
    {
        let note = self.table.shared.split_seat::<Note>(from);
        self.table.shared.join_seat::<Hear>(to, note);
        self.table.shared.load::<Settle>(to, SERVED);
    }
}
