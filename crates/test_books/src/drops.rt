//! When a book drops its boxes.

use crate::books::{
    ARRAY, AnyMap, LIMITS, book, book_within, is_recorded, is_refused, making, path_of, word, write,
};
use bt_array::ArrayKind;
use bt_journal::Book;
use bt_mapkind::{Back, Errno, MapAttr, MapFault, MapKind, MapOp, MapReply, Query};
use host_state::{Change, Refusal, Reply};
use journal_model::Limits;
use std::alloc::Global;
use std::process::Abort;
use std::sync::Arc;
use std::sync::atomic::{AtomicU64, Ordering};

// An array of longer values than those of the boxes.
const WIDER: MapAttr = MapAttr {
    value_size: 2,
    ..ARRAY
};

// How often boxes were dropped.
type Drops = Arc<AtomicU64, Global>;

// An array that counts how often it is dropped.
struct Counted {
    kind: ArrayKind,
    drops: Drops,
}

impl Drop for Counted {
    fn drop(self) {
        let _ = self.drops.fetch_add(1, Ordering::SeqCst);
        let Counted { kind: _, drops: _ } = self;
    }
}

impl MapKind for Counted {
    ghost seen = { λ c. ⟦<ArrayKind as MapKind>⟧.seen c.kind };

    fn attr(&self) -> MapAttr {
        self.kind.attr()
    }

    fn charge(&self) -> u64 {
        self.kind.charge()
    }

    fn is_fresh(&self) -> bool {
        self.kind.is_fresh()
    }

    fn read(&self, query: &Query) -> Result<MapReply, MapFault> {
        self.kind.read(query)
    }

    fn change(&mut self, op: &MapOp) -> Result<(MapReply, Back), MapFault> {
        self.kind.change(op)
    }

    fn fits(&self, back: &Back) -> bool {
        self.kind.fits(back)
    }

    fn turn(&mut self, back: &mut Back) {
        self.kind.turn(back);
    }
}

fn counter(rt: &impl Abort, alloc: Global) -> Drops {
    Arc::new(alloc, AtomicU64::new(0))
        .ok()
        .expect(rt, "a counter")
}

fn counting(rt: &impl Abort, alloc: Global, drops: &Drops) -> AnyMap {
    let kind = Counted {
        kind: ArrayKind::new(alloc, ARRAY).expect(rt, "an array"),
        drops: drops.clone().expect(rt, "a share"),
    };
    Box::new(alloc, kind).ok().expect(rt, "a box")
}

fn dropped(drops: &Drops, count: u64) -> bool {
    drops.load(Ordering::SeqCst) == count
}

// What ends the moments that have the second of two maps.
#[derive(Clone, Copy)]
enum Ending {
    Undone,
    Forgotten,
}

// Two maps are made, each charged 5.
fn are_made<K: MapKind>(rt: &impl Abort, alloc: Global, book: &mut Book<K>, kinds: (K, K)) {
    let (first, second) = kinds;
    let making_first = making(rt, alloc, ARRAY, 1, None);
    assert!(rt; is_recorded(book, making_first, Some(first), 1, Reply::Id(1)));
    let making_second = making(rt, alloc, ARRAY, 2, None);
    assert!(rt; is_recorded(book, making_second, Some(second), 2, Reply::Id(2)));
    assert!(rt; book.charged() == 10);
}

// The making of the second map is undone, and its box goes with the next change, to the first map.
fn is_given_up<K: MapKind>(rt: &impl Abort, alloc: Global, book: &mut Book<K>, second: &Drops) {
    assert!(rt; book.undo_last().is_ok());
    assert!(rt; dropped(second, 0));
    let writing = write(rt, alloc, 1, 5);
    assert!(rt; is_recorded(book, writing, None, 3, Reply::Done));
    assert!(rt; dropped(second, 1));
}

// The second map retires with its pin, and its box goes when the past in which it was live is forgotten.
fn is_forgotten<K: MapKind>(rt: &impl Abort, alloc: Global, book: &mut Book<K>, second: &Drops) {
    let path = path_of(rt, alloc, 2);
    assert!(rt; is_recorded(book, Change::Unpin { path }, None, 3, Reply::Done));
    assert!(rt; book.mark(word(rt, alloc, b"retired")).is_ok());
    assert!(rt; dropped(second, 0));
    assert!(rt; book.forget(&word(rt, alloc, b"retired")).is_ok());
    assert!(rt; dropped(second, 1));
}

// The box of the second map goes with the moments that have it, and the charge with the box. The other box stays until the
// book is dropped.
fn is_dropped<K: MapKind>(
    rt: &impl Abort,
    alloc: Global,
    kinds: (K, K),
    ending: Ending,
    drops: (&Drops, &Drops),
) {
    let (first, second) = drops;
    let mut book = book(rt, alloc);
    are_made(rt, alloc, &mut book, kinds);
    match ending {
        Ending::Undone => is_given_up(rt, alloc, &mut book, second),
        Ending::Forgotten => is_forgotten(rt, alloc, &mut book, second),
    }
    assert!(rt; book.charged() == 5);
    assert!(rt; dropped(first, 0));
}

// Each of the two boxes is dropped once.
fn are_dropped_once(rt: &impl Abort, alloc: Global, ending: Ending) {
    let first = counter(rt, alloc);
    let second = counter(rt, alloc);
    let kinds = (counting(rt, alloc, &first), counting(rt, alloc, &second));
    is_dropped::<AnyMap>(rt, alloc, kinds, ending, (&first, &second));
    assert!(rt; dropped(&first, 1));
    assert!(rt; dropped(&second, 1));
}

#[test]
fn a_box_goes_when_its_moment_does(rt: HostRuntime) {
    for _ in 0..100u32 {
        are_dropped_once(&rt, rt.alloc(), Ending::Undone);
        are_dropped_once(&rt, rt.alloc(), Ending::Forgotten);
    }
}

// A refused box is dropped at once: one that no change wants, one of other attributes, and one whose path is taken.
fn refused<K: MapKind>(rt: &impl Abort, alloc: Global, kinds: (K, K, K, K), drops: &Drops) {
    let (unwanted, other, taking, taken) = kinds;
    let mut book = book(rt, alloc);
    let making_one = making(rt, alloc, ARRAY, 1, None);
    assert!(rt; is_refused(&mut book, making_one, None, Refusal::WrongBlank));
    let writing = write(rt, alloc, 1, 5);
    assert!(rt; is_refused(&mut book, writing, Some(unwanted), Refusal::WrongBlank));
    assert!(rt; dropped(drops, 1));
    let making_wider = making(rt, alloc, WIDER, 1, None);
    assert!(rt; is_refused(&mut book, making_wider, Some(other), Refusal::WrongBlank));
    assert!(rt; dropped(drops, 2));
    let making_one = making(rt, alloc, ARRAY, 1, None);
    assert!(rt; is_recorded(&mut book, making_one, Some(taking), 1, Reply::Id(1)));
    let making_again = making(rt, alloc, ARRAY, 1, None);
    assert!(rt;
        is_refused(
            &mut book,
            making_again,
            Some(taken),
            Refusal::Errno(Errno::EEXIST)
        )
    );
    assert!(rt; dropped(drops, 3));
}

// So is one whose charge would go past the budget.
fn over_budget<K: MapKind>(rt: &impl Abort, alloc: Global, kind: K, drops: &Drops) {
    let limits = Limits {
        budget: 4,
        ..LIMITS
    };
    let mut book = book_within(rt, alloc, limits);
    let making_one = making(rt, alloc, ARRAY, 1, None);
    assert!(rt; is_refused(&mut book, making_one, Some(kind), Refusal::BudgetFull));
    assert!(rt; dropped(drops, 1));
    assert!(rt; book.charged() == 0);
}

// Each refused box is dropped once, and the one that was taken with its book.
fn are_refused(rt: &impl Abort, alloc: Global) {
    let drops = counter(rt, alloc);
    let kinds = (
        counting(rt, alloc, &drops),
        counting(rt, alloc, &drops),
        counting(rt, alloc, &drops),
        counting(rt, alloc, &drops),
    );
    refused::<AnyMap>(rt, alloc, kinds, &drops);
    assert!(rt; dropped(&drops, 4));
}

fn is_refused_once(rt: &impl Abort, alloc: Global) {
    let drops = counter(rt, alloc);
    let kind = counting(rt, alloc, &drops);
    over_budget::<AnyMap>(rt, alloc, kind, &drops);
    assert!(rt; dropped(&drops, 1));
}

#[test]
fn a_refused_box_goes_at_once(rt: HostRuntime) {
    for _ in 0..100u32 {
        are_refused(&rt, rt.alloc());
        is_refused_once(&rt, rt.alloc());
    }
}
