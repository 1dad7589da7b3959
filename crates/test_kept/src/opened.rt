//! A book that is opened again is the one that was kept.

use crate::kept::{kept, opened, word};
use bt_array::ArrayKind;
use bt_journal::Book;
use bt_mapkind::{Bytes, MapReply, Query};
use host_state::{Ask, AskReply};
use host_words::NoMemory;
use std::alloc::Global;
use std::process::Abort;

fn first_byte(told: &Result<AskReply, NoMemory>) -> Option<u8> {
    match told {
        Ok(AskReply::Answered(MapReply::Found { key: _, value })) => {
            value.as_slice().first().copied()
        }
        _ => None,
    }
}

// The byte in the map.
fn found(rt: &impl Abort, alloc: Global, book: &mut Book<ArrayKind>) -> Option<u8> {
    let told = book.ask(&Ask::Map {
        id: 1,
        query: Query::Lookup(Bytes::of(alloc, &[0; 4]).expect(rt, "a key")),
    });
    first_byte(&told)
}

#[test]
fn a_book_is_opened_again_and_undone_to_its_marks(rt: HostRuntime) {
    let mut conn = kept(&rt, rt.alloc());
    let mut book = opened(rt.alloc(), &mut conn).expect(&rt, "a book");
    assert_eq!(rt; book.last_serial(), 6);
    assert_eq!(rt; found(&rt, rt.alloc(), &mut book), Some(10));
    let late = word(&rt, rt.alloc(), b"late");
    assert_eq!(rt; book.undo_to(&late), Ok(0));
    let good = word(&rt, rt.alloc(), b"good");
    assert_eq!(rt; book.undo_to(&good), Ok(4));
    assert_eq!(rt; found(&rt, rt.alloc(), &mut book), Some(7));
}
