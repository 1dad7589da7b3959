//! A program that counts in a map: the work of its frames as the journal grows.

use super::{book, run};
use bt_array::ArrayKind;
use bt_journal::Book;
use std::alloc::Global;
use std::process::Abort;

/// A counter at 5, and a program on a device that adds 1 to it and passes.
const ADDS: &[u8] = b"map create /c type array key 4 value 8 entries 1 name c
map update id 1 key 0 0 0 0 value 5 0 0 0 0 0 0 0
prog load hex:620afcff00000000bfa200000000000007020000fcffffff1811000001000000000000000000000085000000010000001500020000000000b701000001000000db10000000000000b7000000020000009500000000000000 /p
net attach xdp id 1 dev eth0
";

const MADE: &[u8] = b"ok 1 id 1\nok 2\nok 3 id 1\nok 4\n";

const FRAME: &[u8] = b"frame dev eth0 hex:00\n";

type Counters = Book<ArrayKind>;

/// A book with the counter and its program.
fn made(rt: &impl Abort, alloc: Global) -> Counters {
    let mut book = book(alloc).expect(rt, "a book");
    let told = run(rt, alloc, &mut book, ADDS).expect(rt, "a transcript");
    assert_eq!(rt; told.as_slice(), MADE);
    book
}

// The lines of so many frames.
fn lines_of(rt: &impl Abort, alloc: Global, frames: u64) -> Vec<u8> {
    let mut text = Vec::new(alloc);
    for _ in 0..frames {
        assert!(rt; text.extend_from_slice(FRAME).is_ok());
    }
    text
}

// So many frames take a look-up and an addition each.
fn is_counted(rt: &impl Abort, alloc: Global, book: &mut Counters, frames: u64) {
    let text = lines_of(rt, alloc, frames);
    let before = book.work();
    assert!(rt; run(rt, alloc, book, text.as_slice()).is_some());
    assert!(rt; book.work().wrapping_sub(before) == frames.wrapping_mul(2));
}

/// The first frame takes as much work as the last.
#[test]
fn a_frame_takes_no_more_work_in_a_longer_journal(rt: HostRuntime) {
    let mut book = made(&rt, rt.alloc());
    for frames in [1u64, 1_000, 1_000, 1_000, 1_000, 1] {
        is_counted(&rt, rt.alloc(), &mut book, frames);
    }
    assert!(rt; book.moments() == 4_006);
}
