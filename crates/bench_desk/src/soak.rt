//! Eight threads call a desk by chance: they write, look, mark, undo, redo and take changes out. Each notes its calls with
//! their positions in the one history. Then one thread replays that history on a new book, and both are compared.

ghost use Rattle.std.specs.Prelude.{◌<◌, ◌≤◌};
ghost use denote.Param.Send.{IsSync};
ghost use Rattle.bt_desk.specs.Seats.{IsSeatAt};

pub(crate) mod calls;

use crate::host::{Host, refused};
use bt_desk::{Answer, Desk, Seat, SeatSpent, step};
use bt_journal::Book;
use bt_mapkind::MapKind;
use calls::{Call, Chance, Move, byte_of, question, told};
use host_words::NoMemory;
use journal_model::JournalList;
use std::alloc::Global;
use std::io;
use std::sync::Wait;
use std::thread::{Threads, join};

/// Eight threads.
const DOUBLINGS: u32 = 3;

const MOST_CALLS: u64 = 10_000_000;

/// Fewer moments than writes, so that the oldest are given up.
const JOURNAL: u64 = 1_000;

// What is noted of a call; none if the seat was spent.
fn note_of(answer: &Result<Answer, SeatSpent>, made: Move, place: u64) -> Option<Call> {
    match answer {
        Ok(answer) => Some(Call {
            place,
            made,
            told: told(answer),
        }),
        Err(_) => None,
    }
}

// Makes one call by chance: what is noted of it, if one was made.
fn play_one<K: MapKind, R: Wait>(
    rt: &R,
    alloc: Global,
    desk: &Desk<K>,
    seat: &mut Seat<K>,
    chance: &mut Chance,
) -> Option<Call>
    requires { IsSeatAt desk.now seat.old }
    ensures { IsSeatAt desk.now seat.new }
{
    let made = chance.next_move();
    match made.event(alloc) {
        Some(event) => {
            let answer = desk.call(rt, seat, event);
            note_of(&answer, made, seat.place())
        }
        None => None,
    }
}

// Puts a call after the others, if there is one and memory for it.
fn is_noted(calls: &mut Vec<Call>, call: Option<Call>) -> bool {
    match call {
        Some(call) => calls.push(call).is_ok(),
        None => false,
    }
}

// Makes so many calls by chance, and notes them.
fn play<K: MapKind, R: Wait>(
    rt: &R,
    alloc: Global,
    desk: &Desk<K>,
    mut seat: Seat<K>,
    mut chance: Chance,
    count: u64,
) -> (Seat<K>, Vec<Call>)
    requires { IsSeatAt desk.now seat }
    ensures { IsSeatAt desk.now result.0 }
{
    let mut calls = Vec::new(alloc);
    for _ in 0..count {
        let call = play_one(rt, alloc, desk, &mut seat, &mut chance);
        if !is_noted(&mut calls, call) {
            break;
        }
    }
    (seat, calls)
}

// The calls of two threads; if memory lacks, those of the first alone.
fn both(mut calls: Vec<Call>, others: Vec<Call>) -> Vec<Call> {
    let _all = calls.extend_from_slice(&others);
    calls
}

// Plays by 2^doublings threads, each with its own chance.
#[cycle(threads)]
fn play_by<K: MapKind + Send, R: Threads + Wait + Sync>(
    rt: &R,
    alloc: Global,
    desk: &Desk<K>,
    mut seat: Seat<K>,
    seed: u64,
    count: u64,
    doublings: u32,
) -> (Seat<K>, Vec<Call>)
    requires { IsSeatAt desk.now seat }
    ensures { IsSeatAt desk.now result.0 }
{
    if doublings == 0 {
        return play(rt, alloc, desk, seat, Chance::new(seed), count);
    }
    let other = desk.split(&mut seat);
    let (left, right) = (seed.wrapping_mul(2), seed.wrapping_mul(2).wrapping_add(1));
    let ((mut seat, calls), (other, others)) = join(
        rt,
        || -> (Seat<K>, Vec<Call>)
            requires { IsSync R.row × IsSeatAt desk.now seat × (0 < doublings) }
            ensures { IsSeatAt desk.entry.now result.0 }
        { play_by(rt, alloc, desk, seat, left, count, doublings - 1) },
        || -> (Seat<K>, Vec<Call>)
            requires { IsSync R.row × IsSeatAt desk.now other × (0 < doublings) }
            ensures { IsSeatAt desk.entry.now result.0 }
        { play_by(rt, alloc, desk, other, right, count, doublings - 1) },
    );
    desk.join(&mut seat, other);
    (seat, both(calls, others))
}

// The calls at their places; an empty place if none was noted.
fn in_order(alloc: Global, calls: Vec<Call>) -> io::Result<Vec<Option<Call>>> {
    let mut history = Vec::from_elem(alloc, None, calls.len())?;
    put_all(&mut history, &calls);
    Ok(history)
}

// Puts each call at its place.
fn put_all(history: &mut [Option<Call>], calls: &[Call]) {
    for call in calls {
        let place = call.place.wrapping_sub(1);
        if let Some(row) = history.get_mut(place as usize) {
            *row = Some(*call);
        }
    }
}

// Whether a book answers a call alike when it does it again.
fn is_alike<K: MapKind>(alloc: Global, book: &mut Book<K>, call: &Call) -> bool {
    match call.made.event(alloc) {
        Some(event) => {
            let answer = step(book, event);
            told(&answer) == call.told
        }
        None => false,
    }
}

// How many calls of the history are not answered alike when a book does them again.
fn replay<K: MapKind>(alloc: Global, book: &mut Book<K>, history: &[Option<Call>]) -> u64 {
    let mut unlike = 0u64;
    for row in history {
        let is_alike = match row {
            Some(call) => is_alike(alloc, book, call),
            None => false,
        };
        if !is_alike {
            unlike = unlike.saturating_add(1);
        }
    }
    unlike
}

// The array's byte.
fn look<K: MapKind>(alloc: Global, book: &mut Book<K>) -> Option<u8> {
    let answer = book.ask(&question(alloc));
    byte_of(&answer)
}

// Whether two books list the same changes and marks.
fn is_same_list(one: &Result<JournalList, NoMemory>, two: &Result<JournalList, NoMemory>) -> bool {
    match (one, two) {
        (Ok(first), Ok(second)) => *first == *second,
        _ => false,
    }
}

// Whether two books list the same changes and marks and hold the same.
fn are_alike<K: MapKind>(alloc: Global, one: &mut Book<K>, two: &mut Book<K>) -> bool {
    let first = one.list();
    let second = two.list();
    is_same_list(&first, &second)
        && one.moments() == two.moments()
        && look(alloc, one) == look(alloc, two)
}

// The history of eight threads, each of which makes so many calls, and the book after it.
fn play_all<K: MapKind + Send, R: Threads + Wait + Sync>(
    rt: &R,
    alloc: Global,
    book: Book<K>,
    count: u64,
) -> io::Result<(Book<K>, Vec<Option<Call>>)>
    requires { count ≤ MOST_CALLS }
{
    let Ok((desk, seat)) = Desk::open(alloc, book, count << DOUBLINGS) else {
        return Err(refused());
    };
    let (seat, calls) = play_by(rt, alloc, &desk, seat, 1, count, DOUBLINGS);
    let book = desk.close(rt, seat);
    match in_order(alloc, calls) {
        Ok(history) => Ok((book, history)),
        Err(error) => Err(error),
    }
}

/// Prints how many calls eight threads made, and what their replay came to.
pub(crate) fn compare<R: Threads + Wait + Print + AllocGlobal + Sync>(
    rt: &R,
    count: u64,
) -> io::Result<()> {
    let alloc = rt.alloc();
    let book = Host::OfAnArray.book(alloc, JOURNAL)?;
    let (mut book, history) = play_all(rt, alloc, book, count.min(MOST_CALLS))?;
    let mut again = Host::OfAnArray.book(alloc, JOURNAL)?;
    let unlike = replay(alloc, &mut again, &history);
    let alike = are_alike(alloc, &mut book, &mut again);
    println!(rt;
        "{} calls, {unlike} answered otherwise when replayed; the books are alike: {alike}",
        history.len()
    )
}
