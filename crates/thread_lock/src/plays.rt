//! The kinds of things that threads do on the table.
use crate::rule::{Kept, View};
use crate::sequential::Sequential;
use atomic_table::{Join, Play, Split};

/// A ticket is drawn.
pub struct Draw;

impl<S, E, A> Play<Kept<S, E, A>, View<S, E, A>> for Draw {
    ghost use Rattle.thread_lock.specs.Plays.{Draws};

    ghost then = { λ step m found m'. Draws m found m' };
}

/// A ticket is drawn if it is the one expected.
pub struct DrawNext;

impl<S, E, A> Play<Kept<S, E, A>, View<S, E, A>> for DrawNext {
    ghost use Rattle.thread_lock.specs.Plays.{DrawsNext};

    ghost then = { λ step m found m'. DrawsNext step.first m found m' };
}

/// The number that is let in is looked at. If it is the seat's ticket, the slot is taken.
pub struct Look;

impl<S: Sequential> Play<Kept<S, S::Event, S::Answer>, View<S, S::Event, S::Answer>> for Look {
    ghost use Rattle.thread_lock.specs.Plays.{Looks};

    ghost then = { λ step m found m'. Looks S.steps m found m' };
}

/// The slot is given back, and the next ticket let in.
pub struct Serve;

impl<S, E, A> Play<Kept<S, E, A>, View<S, E, A>> for Serve {
    ghost use Rattle.thread_lock.specs.Plays.{ServesAt};

    ghost then = { λ step m found m'. ServesAt found m m' };
}

/// The slot is given back after a visit, and the next ticket let in.
pub struct ServeVisit;

impl<S: Sequential> Play<Kept<S, S::Event, S::Answer>, View<S, S::Event, S::Answer>>
    for ServeVisit {
    ghost use Rattle.thread_lock.specs.Plays.{ServesVisitAt};

    ghost then = { λ step m found m'. ServesVisitAt S.steps found m m' };
}

/// Half of the calls left go to a new seat.
pub struct Halve;

impl<S, E, A> Split<View<S, E, A>> for Halve {
    ghost use Rattle.thread_lock.specs.Plays.{first_half, other_half};

    ghost left = { first_half };

    ghost right = { other_half };
}

/// A new seat gets its number.
pub struct Number;

impl<S, E, A> Play<Kept<S, E, A>, View<S, E, A>> for Number {
    ghost use Rattle.thread_lock.specs.Plays.{GetsNumber};

    ghost then = { λ step m found m'. GetsNumber m m' };
}

/// A note of what a seat has seen is made.
pub struct Note;

impl<S, E, A> Split<View<S, E, A>> for Note {
    ghost use Rattle.thread_lock.specs.Plays.{note_view};

    ghost left = { λ v. v };

    ghost right = { note_view };
}

/// Another seat gets the note.
pub struct Hear;

impl<S, E, A> Join<View<S, E, A>> for Hear {
    ghost use Rattle.thread_lock.specs.Plays.{told_view, spent_view};

    ghost both = { told_view };

    ghost spent = { spent_view };
}

/// What was heard is taken in.
pub struct Settle;

impl<S: Sequential> Play<Kept<S, S::Event, S::Answer>, View<S, S::Event, S::Answer>> for Settle {
    ghost use Rattle.thread_lock.specs.Plays.{Settles};

    ghost then = { λ step m found m'. Settles S.steps m m' };
}

/// A seat lends its numbers to a new one.
pub struct Lend;

impl<S, E, A> Split<View<S, E, A>> for Lend {
    ghost use Rattle.thread_lock.specs.Plays.{bare_view, lent_view};

    ghost left = { bare_view };

    ghost right = { lent_view };
}

/// The numbers that came last go to a new seat.
pub struct Return;

impl<S, E, A> Split<View<S, E, A>> for Return {
    ghost use Rattle.thread_lock.specs.Plays.{kept_view, back_view};

    ghost left = { kept_view };

    ghost right = { back_view };
}

/// Two seats become one.
pub struct Merge;

impl<S, E, A> Join<View<S, E, A>> for Merge {
    ghost use Rattle.thread_lock.specs.Plays.{joint_view, spent_view};

    ghost both = { joint_view };

    ghost spent = { spent_view };
}

/// A thing that changes nothing for the seat.
pub struct Stay;

impl<S, E, A> Play<Kept<S, E, A>, View<S, E, A>> for Stay {
    ghost use Rattle.thread_lock.specs.Plays.{Stays};

    ghost then = { λ step m found m'. Stays m m' };
}
