//! Each call of a book once, and a list of events.

use crate::books::{
    ARRAY, AnyMap, array, book, found, is_recorded, key_of, loading, making, word, write,
};
use bt_insn::Size;
use bt_journal::Book;
use bt_mapkind::{Bytes, Errno, MapKind};
use bt_without::{Answer, Event, run, without};
use host_state::{Ask, AskReply, Change, Reply};
use journal_model::{MarkFault, RedoFault, StartFault, WithoutFault};
use program_access::{Access, AccessReply};
use std::alloc::Global;
use std::process::Abort;

// A map is made; the book gives it its id and its charge.
fn is_made<K: MapKind>(rt: &impl Abort, alloc: Global, book: &mut Book<K>, kind: K) {
    let making = making(rt, alloc, ARRAY, 9, None);
    assert!(rt; is_recorded(book, making, Some(kind), 1, Reply::Id(1)));
    assert!(rt; book.charged() == 5 && book.moments() == 1 && book.attr(1) == Some(ARRAY));
}

// A mark is set, and 5 is written after it.
fn is_marked_and_written<K: MapKind>(rt: &impl Abort, alloc: Global, book: &mut Book<K>) {
    assert!(rt; book.mark(word(rt, alloc, b"")) == Err(MarkFault::BadName));
    assert!(rt; book.mark(word(rt, alloc, b"made")).is_ok());
    let before = book.work();
    let writing = write(rt, alloc, 1, 5);
    assert!(rt; is_recorded(book, writing, None, 2, Reply::Done));
    assert_eq!(rt; book.work().checked_sub(before), Some(1));
}

// A program is loaded and attached.
fn is_attached<K: MapKind>(rt: &impl Abort, alloc: Global, book: &mut Book<K>) {
    let loading = loading(rt, alloc, ARRAY, 2);
    assert!(rt; is_recorded(book, loading, None, 3, Reply::Loaded(1)));
    let attaching = Change::Attach {
        prog: 1,
        device: word(rt, alloc, b"e"),
        overwrite: false,
    };
    assert!(rt; is_recorded(book, attaching, None, 4, Reply::Done));
}

fn load_of(rt: &impl Abort, alloc: Global, map: u32) -> Access {
    Access::Load {
        map,
        key: key_of(rt, alloc, 0),
        offset: 0,
        size: Size::Byte,
    }
}

// The program is started at its device.
fn is_started<K: MapKind>(rt: &impl Abort, alloc: Global, book: &mut Book<K>) {
    let other = book.start(word(rt, alloc, b"f"));
    assert!(rt; matches!(&other, Err(StartFault::NoDevice)));
    let started = book.start(word(rt, alloc, b"e"));
    match &started {
        Ok(Some((program, ifindex))) => assert!(rt; program.id == 1 && *ifindex == 1),
        _ => assert!(rt; false),
    }
}

// It reads, stores and updates; a map that is not there and a pop from an array are refused.
fn is_served<K: MapKind>(rt: &impl Abort, alloc: Global, book: &mut Book<K>) {
    let told = book.serve(1, &load_of(rt, alloc, 1));
    assert!(rt; matches!(&told, AccessReply::Number(5)));
    let told = book.serve(1, &load_of(rt, alloc, 9));
    assert!(rt; matches!(&told, AccessReply::Gone));
    let storing = Access::Store {
        map: 1,
        key: key_of(rt, alloc, 0),
        offset: 0,
        bytes: Bytes::of(alloc, &[7]).unwrap(),
    };
    let told = book.serve(1, &storing);
    assert!(rt; matches!(&told, AccessReply::Done));
    let popping = Access::Pop {
        map: 1,
        value_size: 1,
    };
    let told = book.serve(1, &popping);
    assert!(rt; matches!(&told, AccessReply::Errno(Errno::EINVAL)));
    assert!(rt; found(rt, alloc, book, 1) == Some(7) && book.moments() == 5);
}

// What was stored goes and comes back.
fn is_undone_and_redone<K: MapKind>(rt: &impl Abort, alloc: Global, book: &mut Book<K>) {
    assert!(rt; book.undo_last().is_ok());
    assert!(rt; found(rt, alloc, book, 1) == Some(5));
    assert!(rt; book.redo().is_ok());
}

// The write below what was stored is taken out, which changes nothing.
fn is_taken_out<K: MapKind>(rt: &impl Abort, alloc: Global, book: &mut Book<K>) {
    let before = book.work();
    let taken = without(book, 2).expect(rt, "a taking out");
    assert!(rt; taken.serial == 6 && book.work().checked_sub(before) == Some(taken.work));
    assert!(rt; book.moments() == 6 && found(rt, alloc, book, 1) == Some(7));
}

// All is listed, and goes to the mark.
fn is_listed_and_undone<K: MapKind>(rt: &impl Abort, alloc: Global, book: &mut Book<K>) {
    let list = book.list().expect(rt, "a list");
    assert!(rt; list.changes.as_slice().len() == 4 && list.marks.as_slice().len() == 1);
    assert!(rt; book.undo_to(&word(rt, alloc, b"made")) == Ok(5));
    assert!(rt; found(rt, alloc, book, 1) == Some(0));
}

fn each_call<K: MapKind>(rt: &impl Abort, alloc: Global, kind: K) {
    let mut book = book(rt, alloc);
    is_made(rt, alloc, &mut book, kind);
    is_marked_and_written(rt, alloc, &mut book);
    is_attached(rt, alloc, &mut book);
    is_started(rt, alloc, &mut book);
    is_served(rt, alloc, &mut book);
    is_undone_and_redone(rt, alloc, &mut book);
    is_taken_out(rt, alloc, &mut book);
    is_listed_and_undone(rt, alloc, &mut book);
}

#[test]
fn each_call_of_a_book(rt: HostRuntime) {
    let kind = array(&rt, rt.alloc());
    each_call::<AnyMap>(&rt, rt.alloc(), kind);
}

fn push<K: MapKind>(rt: &impl Abort, events: &mut Vec<Event<K>>, event: Event<K>) {
    assert!(rt; events.push(event).is_ok());
}

// A map is made, marked and written; the write is undone, comes back and is taken out.
fn events<K: MapKind>(rt: &impl Abort, alloc: Global, kind: K) -> Vec<Event<K>> {
    let making = making(rt, alloc, ARRAY, 9, None);
    let writing = write(rt, alloc, 1, 5);
    let mut events = Vec::new(alloc);
    push(rt, &mut events, Event::Record(making, Some(kind)));
    push(rt, &mut events, Event::Mark(word(rt, alloc, b"made")));
    push(rt, &mut events, Event::Record(writing, None));
    push(rt, &mut events, Event::UndoTo(word(rt, alloc, b"made")));
    push(rt, &mut events, Event::Redo);
    push(rt, &mut events, Event::UndoLast);
    push(rt, &mut events, Event::Redo);
    push(rt, &mut events, Event::Redo);
    push(rt, &mut events, Event::Without(2));
    push(rt, &mut events, Event::Without(2));
    push(rt, &mut events, Event::List);
    push(rt, &mut events, Event::Ask(Ask::Attr { id: 1 }));
    push(rt, &mut events, Event::Start(word(rt, alloc, b"e")));
    let loading = Event::Serve(1, load_of(rt, alloc, 1));
    push(rt, &mut events, loading);
    events
}

// What each of these events is told.
const TOLD: [&str; 14] = [
    "recorded",
    "marked",
    "recorded",
    "undone",
    "redone",
    "undone",
    "redone",
    "nothing to redo",
    "taken out",
    "not in force",
    "listed",
    "attributes",
    "no program",
    "a number",
];

// Of an answer to a redo and to a taking out, whether it was given or why not.
fn redone(told: &Result<(), RedoFault>) -> &'static str {
    match told {
        Ok(()) => "redone",
        Err(RedoFault::NothingToRedo) => "nothing to redo",
        Err(_) => "otherwise",
    }
}

fn taken_out(told: &Result<u64, WithoutFault>) -> &'static str {
    match told {
        Ok(_) => "taken out",
        Err(WithoutFault::NotInForce) => "not in force",
        Err(_) => "otherwise",
    }
}

// An answer in a word or two.
fn told(answer: &Answer) -> &'static str {
    match answer {
        Answer::Recorded(told) if told.is_ok() => "recorded",
        Answer::Marked(told) if told.is_ok() => "marked",
        Answer::UndoneTo(told) if told.is_ok() => "undone",
        Answer::UndoneLast(told) if told.is_ok() => "undone",
        Answer::Redone(told) => redone(told),
        Answer::TakenOut(told) => taken_out(told),
        Answer::Listed(told) if told.is_ok() => "listed",
        Answer::Asked(Ok(AskReply::Attr(_))) => "attributes",
        Answer::Started(Ok(None)) => "no program",
        Answer::Served(AccessReply::Number(_)) => "a number",
        _ => "otherwise",
    }
}

fn are_told(rt: &impl Abort, answers: &[Answer]) {
    assert!(rt; answers.len() == TOLD.len());
    for (answer, wanted) in answers.iter().zip(TOLD) {
        assert_eq!(rt; told(answer), wanted);
    }
}

fn each_event<K: MapKind>(rt: &impl Abort, alloc: Global, kind: K) {
    let events = events(rt, alloc, kind);
    let mut book = book(rt, alloc);
    let answers = run(&mut book, events).expect(rt, "answers");
    are_told(rt, answers.as_slice());
}

#[test]
fn a_run_answers_each_event(rt: HostRuntime) {
    let kind = array(&rt, rt.alloc());
    each_event::<AnyMap>(&rt, rt.alloc(), kind);
}
