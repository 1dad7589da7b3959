//! Lines of a console at a desk.

ghost use Rattle.bt_desk.specs.Seats.{IsSeatAt};

use crate::books::{COUNTER, made_by};
use bt_console::Runs;
use bt_desk::{Desk, Seat};
use bt_syntax::FileText;
use console_script::{HostKind, HostSupply};
use std::alloc::Global;
use std::process::Abort;
use std::sync::Wait;
use thread_at_desk::{Session, line_at};

// Lines and what each answers: a frame adds 1 to the counter, which an undo takes back.
const LINES: [(&[u8], &[u8]); 5] = [
    (
        b"map lookup name c key 0 0 0 0",
        b"key: 00 00 00 00 value: 64 00 00 00 00 00 00 00\n",
    ),
    (b"frame dev eth0 hex:00", b"XDP_PASS 2\n"),
    (
        b"map lookup id 1 key 0 0 0 0",
        b"key: 00 00 00 00 value: 65 00 00 00 00 00 00 00\n",
    ),
    (b"journal undo", b"undone 1\n"),
    (
        b"map lookup id 1 key 0 0 0 0",
        b"key: 00 00 00 00 value: 64 00 00 00 00 00 00 00\n",
    ),
];

// The calls that they are: one each, and of the frame one for its start, one for each of two accesses and one for its end.
const CALLS: u64 = 8;

/// What a console keeps that begins.
pub(crate) fn new_session(alloc: Global) -> Session<HostSupply> {
    Session {
        runs: Runs::new(alloc),
        supply: HostSupply::new(alloc),
    }
}

/// What a line answers at a desk; nothing if its seat is spent.
pub(crate) fn answered<R: Wait + Abort>(
    rt: &R,
    alloc: Global,
    desk: &Desk<HostKind>,
    seat: &mut Seat<HostKind>,
    session: &mut Session<HostSupply>,
    line: &[u8],
) -> Vec<u8>
    requires { IsSeatAt desk.now seat.old }
    ensures { IsSeatAt desk.now seat.new }
{
    let files: Vec<FileText> = Vec::new(alloc);
    let mut text = Vec::new(alloc);
    let told = line_at(rt, alloc, desk, seat, session, &files, line, &mut text);
    assert!(rt; !matches!(told, Ok(Err(_))));
    text
}

#[test]
fn lines_answer_as_in_a_script_until_the_seat_is_spent(rt: HostRuntime) {
    let alloc = rt.alloc();
    let book = made_by(&rt, alloc, COUNTER);
    let Ok((desk, mut seat)) = Desk::open(alloc, book, CALLS) else {
        panic!(rt; "memory")
    };
    let mut session = new_session(alloc);
    for (line, text) in LINES {
        let told = answered(&rt, alloc, &desk, &mut seat, &mut session, line);
        assert_eq!(rt; told.as_slice(), text);
    }
    assert_eq!(rt; seat.place(), CALLS);
    let told = answered(&rt, alloc, &desk, &mut seat, &mut session, b"journal redo");
    assert!(rt; told.is_empty());
    assert_eq!(rt; desk.close(&rt, seat).moments(), 5);
}
