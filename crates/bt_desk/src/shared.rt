//! The book as threads share it.

ghost use Rattle.bt_without.specs.Events.{IsEvent};
ghost use Rattle.bt_desk.specs.Events.{plain_of};

use bt_mapkind::MapKind;
use bt_without::{Answer, Book, Event, step};
use std::marker::Model;
use thread_lock::Sequential;

/// A book that threads share. Contracts see the plain book. A visit of [`Desk::turns`](crate::Desk::turns) holds it for one
/// call.
#[derive(Drop)]
pub struct Shared<K: MapKind> {
    pub book: Book<K>,
}

impl<K: MapKind> Model for Shared<K> {
    ghost use Rattle.journal_model.specs.Book.{PlainBook};
    ghost use Rattle.bt_without.specs.BookView.{book_code};

    ghost Value = { PlainBook };

    ghost coded = { book_code };

    ghost view = { λ s. s.book.plain };
}

/// An event for a shared book. Contracts see the plain book's event, in which a box stands as its blank: its attributes,
/// its charge, and whether it is fresh.
#[derive(Drop)]
pub struct Asked<K: MapKind> {
    event: Event<K>,
    /// Whether the box that comes with the event is fresh.
    fresh: bool,
}

impl<K: MapKind> Model for Asked<K> {
    ghost use Rattle.journal_model.specs.Run.{PlainEvent};
    ghost use Rattle.bt_without.specs.Events.{IsEvent};
    ghost use Rattle.bt_desk.specs.Codes.{event_code};
    ghost use Rattle.bt_desk.specs.Events.{plain_of};

    ghost Value = { PlainEvent };

    ghost coded = { event_code };

    ghost view = { λ a. plain_of K.seen a.event a.fresh };

    ghost invariant = { λ a. IsEvent K.seen a.event (plain_of K.seen a.event a.fresh) };
}

impl<K: MapKind> Asked<K> {
    /// The event, with what is to be known of its box.
    pub(crate) fn new(event: Event<K>) -> Asked<K>
        ensures { IsEvent K.seen event result }
    {
        let fresh = is_fresh(&event);
        Asked { event, fresh }
    }
}

// Whether a box comes with the event and is fresh.
fn is_fresh<K: MapKind>(event: &Event<K>) -> bool
    ensures { IsEvent K.seen event.now (plain_of K.seen event.now result) }
{
    match event {
        Event::Record(_, Some(kind)) => kind.is_fresh(),
        _ => false,
    }
}

impl<K: MapKind> Sequential for Shared<K> {
    type Event = Asked<K>;

    type Answer = Answer;

    ghost use Rattle.bt_desk.specs.Events.{Steps};

    ghost steps = { Steps };
}

impl<K: MapKind> Shared<K> {
    ghost use Rattle.bt_desk.specs.Events.{Steps};

    /// Does the event as the plain book does it, and answers it.
    pub(crate) fn step(&mut self, asked: Asked<K>) -> Answer
        ensures { Steps self.old asked result self.new }
    {
        let Asked { event, fresh: _ } = asked;
        step(&mut self.book, event)
    }
}
