//! A change that is taken out of a book, at a second call if the first one wants memory: until then the book is as it was.

use crate::books::{first_byte, lookup};
use bt_journal::Book;
use bt_mapkind::{Bytes, MapAttr, MapKind, MapOp, MapType};
use bt_without::without;
use host_state::{Change, Origin};
use host_words::Word;
use journal_model::{JournalList, Limits, WithoutFault};
use std::alloc::Global;
use std::process::Abort;

const LIMITS: Limits = Limits {
    journal: 16,
    budget: 1_000,
    last_id: 8,
    last_serial: 32,
};

pub(crate) const THREE_KEYS: MapAttr = MapAttr {
    kind: MapType::Hash,
    key_size: 1,
    value_size: 1,
    max_entries: 3,
    flags: 0,
};

// The serial of the delete that is taken out.
const DELETE: u64 = 4;

// What stands under each key, with the delete in force and without it.
const WITH_IT: [(u8, Option<u8>); 3] = [(1, None), (2, Some(21)), (3, Some(30))];

const WITHOUT_IT: [(u8, Option<u8>); 3] = [(1, Some(10)), (2, Some(21)), (3, Some(30))];

fn byte(alloc: Global, byte: u8) -> Bytes {
    Bytes::of(alloc, &[byte]).unwrap()
}

fn update(alloc: Global, key: u8, value: u8) -> Change {
    Change::Operate {
        origin: Origin::Console,
        map: 1,
        op: MapOp::Update {
            key: byte(alloc, key),
            value: byte(alloc, value),
            flag: 0,
        },
    }
}

fn delete(alloc: Global, key: u8) -> Change {
    Change::Operate {
        origin: Origin::Console,
        map: 1,
        op: MapOp::Delete {
            key: byte(alloc, key),
        },
    }
}

// One device.
fn devices(alloc: Global) -> Option<Vec<Word>> {
    match Word::new(alloc, b"e") {
        Ok(device) => Vec::from_array(alloc, [device]).ok(),
        Err(_) => None,
    }
}

fn making(alloc: Global) -> Option<Change> {
    match (Word::new(alloc, b"h"), Word::new(alloc, b"/h")) {
        (Ok(name), Ok(path)) => Some(Change::Create {
            id: 0,
            attr: THREE_KEYS,
            charge: 0,
            name,
            path,
            template: None,
        }),
        _ => None,
    }
}

// A book of one device; `None` if an allocation failed.
fn empty<K: MapKind>(alloc: Global) -> Option<Book<K>> {
    match devices(alloc) {
        Some(devices) => Book::new(alloc, devices, LIMITS).ok(),
        None => None,
    }
}

// Whether a map was made.
fn is_made<K: MapKind>(alloc: Global, book: &mut Book<K>, kind: K) -> bool {
    match making(alloc) {
        Some(making) => book.record(making, Some(kind)).is_ok(),
        None => false,
    }
}

fn is_marked<K: MapKind>(alloc: Global, book: &mut Book<K>) -> bool {
    match Word::new(alloc, b"deleted") {
        Ok(name) => book.mark(name).is_ok(),
        Err(_) => false,
    }
}

// Whether a change was done.
fn is_done<K: MapKind>(book: &mut Book<K>, change: Change) -> bool {
    book.record(change, None).is_ok()
}

// Whether two keys were written, of which one was deleted, a mark was set, and three later writes were done, of which the
// last was undone.
fn is_written<K: MapKind>(alloc: Global, book: &mut Book<K>) -> bool {
    is_done(book, update(alloc, 1, 10))
        && is_done(book, update(alloc, 2, 20))
        && is_done(book, delete(alloc, 1))
        && is_marked(alloc, book)
        && is_done(book, update(alloc, 2, 21))
        && is_done(book, update(alloc, 3, 30))
        && is_done(book, update(alloc, 3, 31))
        && book.undo_last().is_ok()
}

/// Two keys, of which one is deleted, a mark, two later writes, and one that was undone; `None` if an allocation
/// failed.
pub(crate) fn written<K: MapKind>(alloc: Global, kind: K) -> Option<Book<K>> {
    let Some(mut book) = empty(alloc) else {
        return None;
    };
    if is_made(alloc, &mut book, kind) && is_written(alloc, &mut book) {
        Some(book)
    } else {
        None
    }
}

// What a lookup finds; it takes no memory.
fn found<K: MapKind>(alloc: Global, book: &mut Book<K>, key: u8) -> Option<u8> {
    let told = book.ask(&lookup(1, byte(alloc, key)));
    first_byte(&told)
}

fn holds<K: MapKind>(
    rt: &impl Abort,
    alloc: Global,
    book: &mut Book<K>,
    entries: [(u8, Option<u8>); 3],
) {
    for (key, value) in entries {
        assert!(rt; found(alloc, book, key) == value, "key {key}");
    }
}

// The changes in force and the marks are those of the list, and the undone moment comes back and goes again.
fn is_as_it_was<K: MapKind>(
    rt: &impl Abort,
    alloc: Global,
    book: &mut Book<K>,
    list: &JournalList,
) {
    holds(rt, alloc, book, WITH_IT);
    assert!(rt; book.list().expect(rt, "a list") == *list);
    assert!(rt; book.redo().is_ok());
    assert!(rt; found(alloc, book, 3) == Some(31));
    assert!(rt; book.undo_last().is_ok());
    holds(rt, alloc, book, WITH_IT);
}

// The delete is taken out, at a second call if the first one wants memory; the next serial is that of the taking out,
// whether it was refused once or not.
fn takes_out<K: MapKind>(rt: &impl Abort, alloc: Global, book: &mut Book<K>, list: &JournalList) {
    let taken = match without(book, DELETE) {
        Err(WithoutFault::NoMemory) => {
            is_as_it_was(rt, alloc, book, list);
            without(book, DELETE)
        }
        others => others,
    };
    assert!(rt; matches!(&taken, Ok(taken) if taken.serial == 8));
    holds(rt, alloc, book, WITHOUT_IT);
    assert!(rt; book.undo_last().is_ok());
    holds(rt, alloc, book, WITH_IT);
}

/// The delete is taken out; `false` if there is no memory to list what is in force before.
pub(crate) fn is_taken_out<K: MapKind>(rt: &impl Abort, alloc: Global, book: &mut Book<K>) -> bool {
    let listed = book.list();
    match &listed {
        Ok(list) => {
            takes_out(rt, alloc, book, list);
            true
        }
        Err(_) => false,
    }
}
