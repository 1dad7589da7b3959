//! A frame of a console at a desk, while another console takes something back that its program may use.

ghost use denote.Param.Send.{IsSync};
ghost use Rattle.bt_desk.specs.Seats.{IsSeatAt};

use crate::at_desk::{answered, new_session};
use crate::books::{made_by, printed};
use bt_desk::{Desk, Seat};
use bt_journal::Book;
use console_script::HostKind;
use std::alloc::Global;
use std::process::Abort;
use std::sync::Wait;
use std::thread::{Threads, join};
use thread_at_desk::moments_at;

// A mark, and then a hash with a program at eth0 that looks its keys 0 and 1 up. It adds 1 to the second entry by each of
// these additions, and then once to the first. The updates have the serials 4, 5 and 6.
const HASH: &[u8] = b"journal mark m
map create /h type hash key 4 value 8 entries 4 name h
prog load hex:620afcff00000000bfa200000000000007020000fcffffff1811000001000000000000000000000085000000010000001500da0700000000bf06000000000000620afcff01000000bfa200000000000007020000fcffffff1811000001000000000000000000000085000000010000001500d20700000000b701000001000000";

const ADDITION: &[u8] = b"db10000000000000";

const ADDITIONS: u32 = 2_000;

const UPDATES: &[u8] = b"db16000000000000b7000000020000009500000000000000 /p
net attach xdp id 1 dev eth0
map update id 1 key 1 0 0 0 value 0 0 0 0 0 0 0 0
map update id 1 key 2 0 0 0 value 0 0 0 0 0 0 0 0
map update id 1 key 0 0 0 0 value 5 0 0 0 0 0 0 0
";

// The moments of the changes above.
const MADE: u64 = 6;

const FRAME: &[u8] = b"frame dev eth0 hex:00";

const PASSED: &[u8] = b"XDP_PASS 2\n";

const GONE: &[u8] = b"XDP_ABORTED 0 Gone\n";

// How many calls a desk is opened for.
const CALLS: u64 = 1_000_000_000;

fn new_host(rt: &impl Abort, alloc: Global) -> Book<HostKind> {
    let mut script = Vec::new(alloc);
    assert!(rt; script.extend_from_slice(HASH).is_ok());
    for _ in 0..ADDITIONS {
        assert!(rt; script.extend_from_slice(ADDITION).is_ok());
    }
    assert!(rt; script.extend_from_slice(UPDATES).is_ok());
    made_by(rt, alloc, &script)
}

// Has a console answer one line.
fn say<R: Wait + Abort>(
    rt: &R,
    alloc: Global,
    desk: &Desk<HostKind>,
    mut seat: Seat<HostKind>,
    line: &[u8],
) -> (Seat<HostKind>, Vec<u8>)
    requires { IsSeatAt desk.now seat }
    ensures { IsSeatAt desk.now result.0 }
{
    let mut session = new_session(alloc);
    let text = answered(rt, alloc, desk, &mut seat, &mut session, line);
    (seat, text)
}

// Waits until the frame has made an addition. Whether it has.
fn sees_an_addition<R: Wait>(rt: &R, desk: &Desk<HostKind>, seat: &mut Seat<HostKind>) -> bool
    requires { IsSeatAt desk.now seat.old }
    ensures { IsSeatAt desk.now seat.new }
{
    'looks: for _ in 0..10_000_000u32 {
        let moments = moments_at(rt, desk, seat);
        if matches!(moments, Ok(count) if count > MADE) {
            return true;
        }
    }
    false
}

// Has a console answer one line once the frame has made an addition.
fn say_beside_a_frame<R: Wait + Abort>(
    rt: &R,
    alloc: Global,
    desk: &Desk<HostKind>,
    mut seat: Seat<HostKind>,
    line: &[u8],
) -> (Seat<HostKind>, Vec<u8>)
    requires { IsSeatAt desk.now seat }
    ensures { IsSeatAt desk.now result.0 }
{
    assert!(rt; sees_an_addition(rt, desk, &mut seat));
    say(rt, alloc, desk, seat, line)
}

// One console runs the frame, and another one the line while it runs: what both answer, and the closed book.
fn run_beside<R: Threads + Wait + Abort + Sync>(
    rt: &R,
    alloc: Global,
    line: &'static [u8],
) -> (Vec<u8>, Vec<u8>, Book<HostKind>) {
    let Ok((desk, mut one)) = Desk::open(alloc, new_host(rt, alloc), CALLS) else {
        panic!(rt; "a desk")
    };
    let two = desk.split(&mut one);
    let shared = &desk;
    let ((mut one, ended), (two, told)) = join(
        rt,
        || -> (Seat<HostKind>, Vec<u8>)
            requires { IsSync R.row × IsSeatAt shared.now one }
            ensures { IsSeatAt shared.entry.now result.0 }
        { say(rt, alloc, shared, one, FRAME) },
        || -> (Seat<HostKind>, Vec<u8>)
            requires { IsSync R.row × IsSeatAt shared.now two }
            ensures { IsSeatAt shared.entry.now result.0 }
        { say_beside_a_frame(rt, alloc, shared, two, line) },
    );
    desk.join(&mut one, two);
    (ended, told, desk.close(rt, one))
}

// The frame is aborted unless the line came too late, after its last addition, and answered this. Whether it was aborted.
fn is_aborted<R: Threads + Wait + Abort + Sync>(
    rt: &R,
    alloc: Global,
    line: &'static [u8],
    too_late: &[u8],
) -> bool {
    let (ended, told, _) = run_beside(rt, alloc, line);
    if told.as_slice() == too_late {
        assert!(rt; ended.as_slice() == PASSED);
        return false;
    }
    assert!(rt; told.starts_with(b"undone ") || told.starts_with(b"ok "));
    assert!(rt; ended.as_slice() == GONE);
    true
}

// Twenty frames are aborted by the line, of at most a thousand.
fn are_aborted<R: Threads + Wait + Abort + Sync>(
    rt: &R,
    alloc: Global,
    line: &'static [u8],
    too_late: &[u8],
) {
    let mut aborted = 0u32;
    for _ in 0..1_000u32 {
        if aborted < 20 && is_aborted(rt, alloc, line, too_late) {
            aborted += 1;
        }
    }
    assert_eq!(rt; aborted, 20);
}

#[test]
fn a_frame_whose_program_is_undone_ends_by_gone(rt: HostRuntime) {
    are_aborted(&rt, rt.alloc(), b"journal undo m", b"undone 2007\n");
}

#[test]
fn a_frame_whose_entry_is_taken_out_ends_by_gone(rt: HostRuntime) {
    are_aborted(
        &rt,
        rt.alloc(),
        b"journal without 6",
        b"Error: depends on 2007\n",
    );
}

#[test]
fn a_frame_passes_if_another_entry_is_taken_out(rt: HostRuntime) {
    let alloc = rt.alloc();
    for _ in 0..20u32 {
        let (ended, told, mut book) = run_beside(&rt, alloc, b"journal without 5");
        assert!(rt; told.starts_with(b"ok "));
        assert!(rt; ended.as_slice() == PASSED);
        let left = printed(&rt, alloc, &mut book, b"map dump id 1\n");
        assert!(rt;
            left.as_slice()
                == b"key: 00 00 00 00 value: 06 00 00 00 00 00 00 00\nkey: 01 00 00 00 value: d0 07 00 00 00 00 00 00\nfound 2 elements\n".as_slice()
        );
    }
}
