//! Threads that share a book.

ghost use denote.Param.Send.{IsSync};
ghost use Rattle.bt_desk.specs.Seats.{IsSeatAt};

use crate::books::{ARRAY, made_by, write as write_first};
use bt_desk::{Answer, Desk, Event, Seat};
use bt_journal::Book;
use bt_mapkind::MapKind;
use std::alloc::Global;
use std::process::Abort;
use std::sync::Wait;
use std::thread::{Threads, join};

// Writes so many bytes to the array.
fn write<K: MapKind, R: Wait + Abort>(
    rt: &R,
    alloc: Global,
    desk: &Desk<K>,
    mut seat: Seat<K>,
    count: u32,
) -> Seat<K>
    requires { IsSeatAt desk.now seat }
    ensures { IsSeatAt desk.now result }
{
    for number in 0..count {
        let change = write_first(rt, alloc, (number % 256) as u8);
        let told = desk.call(rt, &mut seat, Event::Record(change, None));
        assert!(rt; matches!(told, Ok(Answer::Recorded(Ok(_)))));
    }
    seat
}

// Two threads write 1,000 times each; the closed book has 2,000 further moments, and counts a unit of work for each.
fn two_threads<K: MapKind + Send, R: Threads + Wait + Abort + Sync>(
    rt: &R,
    alloc: Global,
    book: Book<K>,
) {
    let before = book.work();
    let Ok((desk, mut one)) = Desk::open(alloc, book, 2_000) else {
        panic!(rt; "memory")
    };
    let two = desk.split(&mut one);
    let shared = &desk;
    let (mut one, two) = join(
        rt,
        || -> Seat<K>
            requires { IsSync R.row × IsSeatAt shared.now one }
            ensures { IsSeatAt shared.entry.now result }
        { write(rt, alloc, shared, one, 1_000) },
        || -> Seat<K>
            requires { IsSync R.row × IsSeatAt shared.now two }
            ensures { IsSeatAt shared.entry.now result }
        { write(rt, alloc, shared, two, 1_000) },
    );
    desk.join(&mut one, two);
    let book = desk.close(rt, one);
    assert_eq!(rt; book.moments(), 2_001);
    assert_eq!(rt; book.work().checked_sub(before), Some(2_000));
}

#[test]
fn two_threads_write_2000_moments_a_hundred_times(rt: HostRuntime) {
    for _ in 0..100u32 {
        two_threads(&rt, rt.alloc(), made_by(&rt, rt.alloc(), ARRAY));
    }
}
