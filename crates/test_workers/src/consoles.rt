//! Two consoles at one desk: one names, pins, marks and undoes, the other writes by those names. One thread then answers all of
//! their lines again, in the order of the history.

ghost use denote.Param.Send.{IsSync};
ghost use Rattle.bt_desk.specs.Seats.{IsSeatAt};

use crate::at_desk::{answered, new_session};
use crate::books::{made_by, transcript};
use bt_desk::{Desk, Seat};
use bt_journal::Book;
use console_script::HostKind;
use std::alloc::Global;
use std::process::Abort;
use std::sync::Wait;
use std::thread::{Threads, join};

// One map, of the name c.
const NAMED: &[u8] = b"map create /a type array key 4 value 8 entries 1 name c\n";

// Rounds of lines, in which `#` stands for a number that is another one in each round.
const ROUNDS: u8 = 90;

// Makes a second map of the name c and has it take the place of the first; then none has the name, until an undo to the mark. A
// redo is answered by whether the other console has written since.
const NAMING: [&[u8]; 8] = [
    b"journal mark m#",
    b"map create /b type array key 4 value 8 entries 1 name c",
    b"unpin /a",
    b"map pin name c /a",
    b"unpin /b",
    b"unpin /a",
    b"journal undo m#",
    b"journal redo",
];

// Writes to the map of the name c, which may be ambiguous or none, and to those at both paths.
const WRITING: [&[u8]; 6] = [
    b"map update name c key 0 0 0 0 value # 0 0 0 0 0 0 0",
    b"map lookup name c key 0 0 0 0",
    b"map update pinned /a key 0 0 0 0 value # 1 0 0 0 0 0 0",
    b"map lookup pinned /a key 0 0 0 0",
    b"map update pinned /b key 0 0 0 0 value # 2 0 0 0 0 0 0",
    b"map show name c",
];

// What is compared of the books at the end, beside their journals.
const LOOKS: &[u8] =
    b"map show\nprog show\nnet show\nmap dump pinned /a\nmap dump pinned /b\njournal list\n";

// A line that a console was given: the position of its call in the history, and its answer.
#[derive(Drop)]
struct Said {
    place: u64,
    line: Vec<u8>,
    text: Vec<u8>,
}

// A line of this round, with its line feed.
fn line_of(rt: &impl Abort, alloc: Global, line: &[u8], round: u8) -> Vec<u8> {
    let mut text = Vec::new(alloc);
    for byte in line {
        if *byte == b'#' {
            let number = [b'1' + round / 10 % 9, b'0' + round % 10];
            assert!(rt; text.extend_from_slice(&number).is_ok());
        } else {
            assert!(rt; text.push(*byte).is_ok());
        }
    }
    text
}

// Has a console answer the lines of all rounds.
fn talk<R: Wait + Abort>(
    rt: &R,
    alloc: Global,
    desk: &Desk<HostKind>,
    mut seat: Seat<HostKind>,
    lines: &[&'static [u8]],
) -> (Seat<HostKind>, Vec<Said>)
    requires { IsSeatAt desk.now seat }
    ensures { IsSeatAt desk.now result.0 }
{
    let mut session = new_session(alloc);
    let mut all = Vec::new(alloc);
    for round in 0..ROUNDS {
        for line in lines {
            let line = line_of(rt, alloc, line, round);
            let text = answered(rt, alloc, desk, &mut seat, &mut session, &line);
            let place = seat.place();
            assert!(rt; all.push(Said { place, line, text }).is_ok());
        }
    }
    (seat, all)
}

// Has both consoles talk, on two threads: the closed book, and what they said in the order of the history.
fn talk_beside<R: Threads + Wait + Abort + Sync>(
    rt: &R,
    alloc: Global,
    book: Book<HostKind>,
) -> (Book<HostKind>, Vec<Said>) {
    let calls = u64::from(ROUNDS) * 14;
    let Ok((desk, mut one)) = Desk::open(alloc, book, 2 * calls) else {
        panic!(rt; "a desk")
    };
    let two = desk.split(&mut one);
    let shared = &desk;
    let ((mut one, mut all), (two, mut others)) = join(
        rt,
        || -> (Seat<HostKind>, Vec<Said>)
            requires { IsSync R.row × IsSeatAt shared.now one }
            ensures { IsSeatAt shared.entry.now result.0 }
        { talk(rt, alloc, shared, one, &NAMING) },
        || -> (Seat<HostKind>, Vec<Said>)
            requires { IsSync R.row × IsSeatAt shared.now two }
            ensures { IsSeatAt shared.entry.now result.0 }
        { talk(rt, alloc, shared, two, &WRITING) },
    );
    desk.join(&mut one, two);
    assert!(rt; all.append(&mut others).is_ok());
    all.sort_unstable_by_key(|said| said.place);
    (desk.close(rt, one), all)
}

// The lines in one script, and their answers in one text. No line of the history is missing.
fn joined(rt: &impl Abort, alloc: Global, all: &[Said]) -> (Vec<u8>, Vec<u8>) {
    let mut script = Vec::new(alloc);
    let mut answers = Vec::new(alloc);
    let mut place = 0u64;
    for said in all {
        place = place.wrapping_add(1);
        assert_eq!(rt; said.place, place);
        assert!(rt; script.extend_from_slice(&said.line).is_ok());
        assert!(rt; script.push(b'\n').is_ok());
        assert!(rt; answers.extend_from_slice(&said.text).is_ok());
    }
    (script, answers)
}

#[test]
fn two_consoles_answer_as_one_thread_does_in_their_order(rt: HostRuntime) {
    let alloc = rt.alloc();
    for _ in 0..20u32 {
        let (mut book, all) = talk_beside(&rt, alloc, made_by(&rt, alloc, NAMED));
        let (script, answers) = joined(&rt, alloc, &all);
        let mut again = made_by(&rt, alloc, NAMED);
        let (told, _) = transcript(&rt, alloc, &mut again, &script);
        assert!(rt; told.as_slice() == answers.as_slice());
        let (left, _) = transcript(&rt, alloc, &mut book, LOOKS);
        let (wanted, _) = transcript(&rt, alloc, &mut again, LOOKS);
        assert!(rt; left.as_slice() == wanted.as_slice());
    }
}
