//! Which devices and limits a book is made with.

use crate::books::{AnyMap, LIMITS, word};
use bt_journal::Book;
use bt_mapkind::MapKind;
use journal_model::{BookFault, Limits};
use std::alloc::Global;
use std::process::Abort;

// Why no book is made with these devices, a letter each, and a journal of so many moments.
fn fault_of<K: MapKind>(
    rt: &impl Abort,
    alloc: Global,
    letters: &[u8],
    journal: u64,
) -> Option<BookFault> {
    let mut devices = Vec::new(alloc);
    for letter in letters {
        assert!(rt; devices.push(word(rt, alloc, &[*letter])).is_ok());
    }
    let limits = Limits { journal, ..LIMITS };
    let book: Result<Book<K>, BookFault> = Book::new(alloc, devices, limits);
    book.err()
}

#[test]
fn what_a_book_is_made_with(rt: HostRuntime) {
    for (letters, journal, fault) in [
        (b"".as_slice(), 0u64, Some(BookFault::BadDevices)),
        (b"abcdefghijklmnopq", 0, Some(BookFault::BadDevices)),
        (b"a/", 0, Some(BookFault::BadDevices)),
        (b"aba", 0, Some(BookFault::BadDevices)),
        (b"abcdefghijklmnop", 100, None),
        (b"e", 0, Some(BookFault::BadLimits)),
        (b"e", 1_000_001, Some(BookFault::BadLimits)),
        (b"e", 1, None),
        (b"e", 1_000_000, None),
    ] {
        let found = fault_of::<AnyMap>(&rt, rt.alloc(), letters, journal);
        assert!(rt; found == fault, "{letters:?} {journal}");
    }
}
