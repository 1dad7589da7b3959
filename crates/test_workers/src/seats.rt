//! Seats of one thread.

use crate::books::{ARRAY, found, look, made_by, write};
use bt_desk::{Answer, Desk, Event, SeatSpent};
use bt_journal::Book;
use bt_mapkind::MapKind;
use host_state::Reply;
use std::alloc::Global;
use std::process::Abort;
use std::sync::Wait;

// Two seats with a call each: one writes and is spent, both meet, and the other sees the write, as the closed book does.
fn two_seats<K: MapKind, R: Wait + Abort>(rt: &R, alloc: Global, book: Book<K>) {
    let mut book = book;
    assert!(rt; book.record(write(rt, alloc, 7), None).is_ok());
    let Ok((desk, mut a)) = Desk::open(alloc, book, 2) else {
        panic!(rt; "memory")
    };
    let mut b = desk.split(&mut a);
    let told = desk.call(rt, &mut a, Event::Record(write(rt, alloc, 5), None));
    assert!(rt; matches!(told, Ok(Answer::Recorded(Ok((3, Reply::Done))))));
    let told = desk.call(rt, &mut a, Event::Record(write(rt, alloc, 6), None));
    assert!(rt; matches!(told, Err(SeatSpent)));
    desk.meet(&mut a, &mut b);
    let told = desk.call(rt, &mut b, Event::Ask(look(rt, alloc)));
    assert!(rt; matches!(&told, Ok(answer) if found(answer) == Some(5)));
    let mut book = desk.close(rt, b);
    let told = Answer::Asked(book.ask(&look(rt, alloc)));
    assert!(rt; found(&told) == Some(5));
}

#[test]
fn a_seat_sees_what_another_wrote(rt: HostRuntime) {
    two_seats(&rt, rt.alloc(), made_by(&rt, rt.alloc(), ARRAY));
}
