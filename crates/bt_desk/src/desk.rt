//! A desk, and the seats from which threads call it.

ghost use Rattle.std.specs.Prelude.{◌≡◌, ◌↔◌, ◌+◌, ◌/◌, ◌≤◌, ◌++◌, false, [], ◌∷◌, IfOk, IfErr, IsErr, OnErr};
ghost use Rattle.journal_model.specs.Run.{PlainEvent, Start, Serve};
ghost use Rattle.thread_lock.specs.History.{has, own, AreApart};
ghost use Rattle.thread_lock.specs.Seats.{Called, Heard, seen, numbers, number, calls_left, place_of};
ghost use Rattle.thread_lock.specs.declared.turns.TheConstants.{MOST_CALLS};
ghost use Rattle.bt_without.specs.Events.{IsEvent};
ghost use Rattle.bt_without.specs.declared.events.Answer.TheVariants.{Started, Served};
ghost use Rattle.bt_desk.specs.Events.{Steps, device_of};

use crate::lent::{Picked, Serving, Starting};
use crate::shared::{Asked, Shared};
use bt_mapkind::MapKind;
use bt_without::{Answer, Book, Event};
use host_words::Word;
use program_access::{Access, AccessReply};
use std::alloc::Global;
use std::sync::Wait;
use thread_lock::{SeatSpent, Turns};

/// A thread's part in a desk. It has a number of its own and some calls left, and in proofs a history that it has seen.
/// Dropping it gives its calls up.
pub type Seat<K> = thread_lock::Seat<Shared<K>>;

/// A book that threads share, one event at a time.
///
/// All calls of all threads stand in one history, which is legal: the plain book, run over the same events from the book
/// that the desk was opened with, gives the same answers. A box stands in it as its blank. Nothing is said of who gets it
/// first, or when.
#[derive(Drop)]
pub struct Desk<K: MapKind> {
    turns: Turns<Shared<K>>,
}

impl<K: MapKind> Desk<K> {
    ghost use Rattle.journal_model.specs.Well.{IsWellBook};
    ghost use Rattle.bt_desk.specs.Seats.{IsSeatAt, ClosesAs, opened, total_calls};

    /// Shares a book for so many calls, and gives the first seat, which has them all. The book is well, as every book is, so
    /// what [`crate::laws`] says of well books holds of what the seats do to it. Takes memory; if an allocation fails, the
    /// book comes back.
    pub fn open(alloc: Global, book: Book<K>, calls: u64) -> Result<(Desk<K>, Seat<K>), Book<K>>
        requires { calls ≤ MOST_CALLS }
        ensures opening { IfOk result (λ r. opened r.0 ≡ book.plain) }
        ensures calls { IfOk result (λ r. total_calls r.0 ≡ calls) }
        ensures seat { IfOk result (λ r. IsSeatAt r.0 r.1) }
        ensures new { IfOk result (λ r. (seen r.1 ≡ []) × (numbers r.1 ≡ number r.1 ∷ []) × (calls_left r.1 ≡ calls) × (place_of r.1 ≡ 0)) }
        ensures well { IfOk result (λ r. IsWellBook (opened r.0)) }
        ensures refused { IfErr result (λ back. back.plain ≡ book.plain) }
    {
        book.is_well();
        match Turns::open(alloc, Shared { book }, calls) {
            Ok((turns, seat)) => Ok((Desk { turns }, seat)),
            Err(shared) => {
                let Shared { book } = shared;
                Err(book)
            }
        }
    }

    /// Waits until the seat holds the book, does one event of it, and gives its answer. The seat has then seen a legal history
    /// that begins with what it had seen and ends with this call, and between the two has calls of others alone.
    ///
    /// # Errors
    /// `SeatSpent` exactly when the seat has no calls left. The event is dropped, and nothing has changed.
    pub fn call<R: Wait>(
        &self,
        rt: &R,
        seat: &mut Seat<K>,
        event: Event<K>,
    ) -> Result<Answer, SeatSpent>
        requires { IsSeatAt self.now seat.old }
        ensures seat { IsSeatAt self.now seat.new }
        ensures spent { IsErr result ↔ (calls_left seat.old ≡ 0) }
        ensures unchanged { OnErr result (seat.new ≡ seat.old) }
        ensures called { IfOk result (λ answer. (plain : PlainEvent) × IsEvent K.seen event plain × Called seat.old plain answer seat.new) }
    {
        self.turns.call(
            rt,
            seat,
            Asked::new(event),
            |shared: &mut Shared<K>, asked: Asked<K>| -> Answer
                ensures { Steps shared.old asked result shared.new }
            { shared.step(asked) },
        )
    }

    /// Waits until the seat holds the book, and gives the program that is attached to a device, with its ifindex; none if no
    /// program is. This is a [`call`](Desk::call) of [`Event::Start`].
    ///
    /// # Errors
    /// `SeatSpent` exactly when the seat has no calls left. Nothing has changed then.
    pub fn start<R: Wait>(
        &self,
        rt: &R,
        seat: &mut Seat<K>,
        device: Word,
    ) -> Result<Picked, SeatSpent>
        requires { IsSeatAt self.now seat.old }
        ensures seat { IsSeatAt self.now seat.new }
        ensures spent { IsErr result ↔ (calls_left seat.old ≡ 0) }
        ensures unchanged { OnErr result (seat.new ≡ seat.old) }
        ensures called { IfOk result (λ picked. Called seat.old (Start device) (Started picked) seat.new) }
    {
        let mut asked = Starting {
            device: Some(device),
        };
        self.turns.call_lent(
            rt,
            seat,
            &mut asked,
            |shared: &mut Shared<K>, lent: &mut Starting| -> Picked
                ensures { Steps shared.old (Start (device_of lent.old.device)) (Started result) shared.new }
            { shared.start(lent) },
        )
    }

    /// Waits until the seat holds the book, and answers an access of the running program of this id. This is a
    /// [`call`](Desk::call) of [`Event::Serve`] to which the access is lent: it is not moved.
    ///
    /// # Errors
    /// `SeatSpent` exactly when the seat has no calls left. Nothing has changed then.
    pub fn serve<R: Wait>(
        &self,
        rt: &R,
        seat: &mut Seat<K>,
        prog: u32,
        access: &Access,
    ) -> Result<AccessReply, SeatSpent>
        requires { IsSeatAt self.now seat.old }
        ensures seat { IsSeatAt self.now seat.new }
        ensures spent { IsErr result ↔ (calls_left seat.old ≡ 0) }
        ensures unchanged { OnErr result (seat.new ≡ seat.old) }
        ensures called { IfOk result (λ reply. Called seat.old (Serve prog access.now) (Served reply) seat.new) }
    {
        let mut asked = Serving { prog, access };
        self.turns.call_lent(
            rt,
            seat,
            &mut asked,
            |shared: &mut Shared<K>, lent: &mut Serving<'_>| -> AccessReply
                ensures { Steps shared.old (Serve lent.old.prog lent.old.access.now) (Served result) shared.new }
            { shared.serve(lent) },
        )
    }

    /// The lock of the desk, whose `visit` holds the book for one call: a function may then ask it as often as it likes, and
    /// change it by one event.
    pub fn turns(&self) -> &Turns<Shared<K>>
        ensures { result.now ≡ self.now.turns }
    {
        &self.turns
    }

    /// A new seat, with half of the calls left, rounded down. It has seen what the first has, and has a new number.
    pub fn split(&self, seat: &mut Seat<K>) -> Seat<K>
        requires { IsSeatAt self.now seat.old }
        ensures seats { IsSeatAt self.now seat.new × IsSeatAt self.now result }
        ensures seen { (seen seat.new ≡ seen seat.old) × (seen result ≡ seen seat.old) }
        ensures numbers { (numbers seat.new ≡ numbers seat.old) × (numbers result ≡ number result ∷ []) }
        ensures new { (has (numbers seat.old) (number result) ≡ false) × (own (numbers result) (seen seat.old) ≡ []) }
        ensures half { calls_left result ≡ calls_left seat.old / 2 }
        ensures place { (place_of seat.new ≡ place_of seat.old) × (place_of result ≡ 0) }
        ensures rest { calls_left seat.new + calls_left result ≡ calls_left seat.old }
    {
        self.turns.split(seat)
    }

    /// Each seat has then seen what both had: the longer of two histories, which the other one begins, with each seat's own
    /// calls in it, each once. No number is one of both.
    pub fn meet(&self, a: &mut Seat<K>, b: &mut Seat<K>)
        requires { IsSeatAt self.now a.old × IsSeatAt self.now b.old }
        ensures seats { IsSeatAt self.now a.new × IsSeatAt self.now b.new }
        ensures seen { seen a.new ≡ seen b.new }
        ensures a { Heard a.old b.old a.new }
        ensures b { Heard b.old a.old b.new }
        ensures numbers { (numbers a.new ≡ numbers a.old) × (numbers b.new ≡ numbers b.old) }
        ensures left { (calls_left a.new ≡ calls_left a.old) × (calls_left b.new ≡ calls_left b.old) }
        ensures apart { AreApart (numbers a.old) (numbers b.old) }
        ensures place { (place_of a.new ≡ place_of a.old) × (place_of b.new ≡ place_of b.old) }
    {
        self.turns.meet(a, b);
    }

    /// The first seat has then seen what both had, and has the numbers and the calls left of both.
    pub fn join(&self, seat: &mut Seat<K>, other: Seat<K>)
        requires { IsSeatAt self.now seat.old × IsSeatAt self.now other }
        ensures seat { IsSeatAt self.now seat.new }
        ensures heard { Heard seat.old other seat.new }
        ensures numbers { numbers seat.new ≡ numbers seat.old ++ numbers other }
        ensures left { calls_left seat.new ≡ calls_left seat.old + calls_left other }
        ensures place { place_of seat.new ≡ place_of seat.old }
    {
        self.turns.join(seat, other);
    }

    /// Waits until no other call is under way, and gives the book back: the one that a legal history leads to, which begins
    /// with what the seat has seen and has no further call of the seat. If the calls in it and those that the seat has left
    /// are as many as the desk was opened for, no other seat has made one.
    pub fn close<R: Wait>(self, rt: &R, seat: Seat<K>) -> Book<K>
        requires { IsSeatAt self seat }
        ensures { ClosesAs self seat result.plain }
    {
        let Shared { book } = self.turns.close(rt, seat);
        book
    }
}
