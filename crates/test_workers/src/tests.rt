//! Each a hundred times over.

use crate::beside::run_beside;
use crate::books::{COUNTER, MARKED, frames, look, made_by, printed, word};
use crate::calling::{Workers, run_calling};
use crate::watch::Watch;
use bt_desk::{Answer, Event};
use bt_interp::End;
use bt_journal::Book;
use bt_workers::{FrameEnd, FrameResult};
use console_script::HostKind;
use program_machine::Reason;
use program_step::Action;
use std::alloc::Global;
use std::process::Abort;
use std::sync::Wait;
use std::sync::atomic::Ordering;
use std::thread::Threads;
use std::time::Clock;

const LOOKUP: &[u8] = b"map lookup id 1 key 0 0 0 0\n";

// The end of the frame of this number.
fn end_of(ends: &[FrameResult], number: u64) -> Option<FrameEnd> {
    for ended in ends {
        if ended.number == number {
            return Some(ended.end);
        }
    }
    None
}

// Why the program of this frame was aborted, if it was.
fn aborted(ends: &[FrameResult], number: u64) -> Option<Reason> {
    match end_of(ends, number) {
        Some(FrameEnd::Ended(End::Aborted(abort))) => Some(abort.reason),
        _ => None,
    }
}

// The only frame was aborted at its third call, the addition, since the entry that it had found was gone.
fn is_aborted(
    rt: &impl Abort,
    alloc: Global,
    book: &mut Book<HostKind>,
    ends: &[FrameResult],
    watch: &Watch,
) {
    assert_eq!(rt; ends.len(), 1);
    assert!(rt; aborted(ends, 1) == Some(Reason::Gone));
    assert_eq!(rt; watch.calls[0].load(Ordering::SeqCst), 1_239);
    assert_eq!(rt; book.moments(), 3);
    assert!(rt;
        printed(rt, alloc, book, b"map dump id 1\n").as_slice() == b"found 0 elements\n".as_slice()
    );
}

// A frame waits before its third call, while a third thread takes the entry back that it found.
fn undo_under_a_frame<R: Threads + Wait + Clock + Abort + Sync>(rt: &R, alloc: Global) {
    let book = made_by(rt, alloc, MARKED);
    let watch = Watch::new();
    let event = Event::UndoTo(word(rt, alloc, b"m"));
    let (mut book, ends, answer) = run_beside(
        rt,
        alloc,
        book,
        frames(rt, alloc, 1),
        (&watch, 3, 0),
        event,
    );
    assert!(rt; matches!(answer, Answer::UndoneTo(Ok(1))));
    is_aborted(rt, alloc, &mut book, &ends, &watch);
}

#[test]
fn an_undo_under_a_running_frame(rt: HostRuntime) {
    for _ in 0..100u32 {
        undo_under_a_frame(&rt, rt.alloc());
    }
}

// The frame's own gate takes the entry back, before the third call.
fn undo_at_a_gate<R: Threads + Wait + Clock + Abort + Sync>(rt: &R, alloc: Global) {
    let book = made_by(rt, alloc, MARKED);
    let watch = Watch::new();
    let events = (
        Event::UndoTo(word(rt, alloc, b"m")),
        Event::UndoTo(word(rt, alloc, b"m")),
    );
    let frames = frames(rt, alloc, 1);
    let (mut book, ends) = run_calling(
        rt,
        alloc,
        book,
        frames,
        (&watch, 3, 0),
        events,
        Workers::ByRunTwo,
    );
    assert_eq!(rt; watch.told.load(Ordering::SeqCst), 1);
    is_aborted(rt, alloc, &mut book, &ends, &watch);
}

#[test]
fn an_undo_by_a_frames_own_gate(rt: HostRuntime) {
    for _ in 0..100u32 {
        undo_at_a_gate(&rt, rt.alloc());
    }
}

// One frame waits before its second call until the other has ended, whose count its gate then sees.
fn one_frame_beside_another<R: Threads + Wait + Clock + Abort + Sync>(
    rt: &R,
    alloc: Global,
    workers: Workers,
) {
    let book = made_by(rt, alloc, COUNTER);
    let watch = Watch::new();
    let events = (Event::Ask(look(rt, alloc)), Event::Ask(look(rt, alloc)));
    let frames = frames(rt, alloc, 2);
    let (mut book, ends) = run_calling(rt, alloc, book, frames, (&watch, 2, 1), events, workers);
    assert_eq!(rt; watch.told.load(Ordering::SeqCst), 101);
    assert_eq!(rt; ends.len(), 2);
    let pass = Some(FrameEnd::Ended(End::Done(Action::Pass)));
    assert!(rt; end_of(&ends, 1) == pass && end_of(&ends, 2) == pass);
    assert_eq!(rt; watch.calls[0].load(Ordering::SeqCst), 1_239);
    assert_eq!(rt; watch.calls[1].load(Ordering::SeqCst), 1_239);
    assert!(rt;
        printed(rt, alloc, &mut book, LOOKUP).as_slice()
            == b"key: 00 00 00 00 value: 66 00 00 00 00 00 00 00\n".as_slice()
    );
}

#[test]
fn a_frame_waits_while_another_is_served(rt: HostRuntime) {
    for _ in 0..100u32 {
        one_frame_beside_another(&rt, rt.alloc(), Workers::ByRunTwo);
        one_frame_beside_another(&rt, rt.alloc(), Workers::ByTwoCalls);
    }
}

// How many changes of the list are additions of the program.
fn additions(list: &[u8]) -> usize {
    let mut count = 0;
    for line in list.split(|byte| *byte == b'\n') {
        if line.ends_with(b" prog 1 atomic map 1") && count < usize::MAX {
            count += 1;
        }
    }
    count
}

// While 1,000 frames add 1, the update below them is taken out, or it is told why not.
fn taken_out_beside_frames<R: Threads + Wait + Clock + Abort + Sync>(rt: &R, alloc: Global) {
    let book = made_by(rt, alloc, COUNTER);
    let watch = Watch::new();
    watch.held.store(1, Ordering::SeqCst);
    let (mut book, ends, answer) = run_beside(
        rt,
        alloc,
        book,
        frames(rt, alloc, 1_000),
        (&watch, 0, 0),
        Event::Without(5),
    );
    assert_eq!(rt; ends.len(), 1_000);
    let looked = printed(rt, alloc, &mut book, LOOKUP);
    if matches!(answer, Answer::TakenOut(Ok(_))) {
        assert!(rt;
            looked.as_slice() == b"key: 00 00 00 00 value: ed 03 00 00 00 00 00 00\n".as_slice()
        );
    } else {
        assert!(rt;
            looked.as_slice() == b"key: 00 00 00 00 value: 4c 04 00 00 00 00 00 00\n".as_slice()
        );
    }
    let list = printed(rt, alloc, &mut book, b"journal list\n");
    assert_eq!(rt; additions(&list), 1_000);
}

#[test]
fn a_taking_out_beside_1000_frames(rt: HostRuntime) {
    for _ in 0..100u32 {
        taken_out_beside_frames(&rt, rt.alloc());
    }
}

// 1,000 frames count in the map of this script, from 5 or 100 on.
fn counts_in<R: Threads + Wait + Clock + Abort + Sync>(
    rt: &R,
    alloc: Global,
    script: &[u8],
    looked: &[u8],
) {
    let book = made_by(rt, alloc, script);
    let watch = Watch::new();
    watch.held.store(1, Ordering::SeqCst);
    let (mut book, ends, _) = run_beside(
        rt,
        alloc,
        book,
        frames(rt, alloc, 1_000),
        (&watch, 0, 0),
        Event::List,
    );
    assert_eq!(rt; ends.len(), 1_000);
    assert!(rt; printed(rt, alloc, &mut book, LOOKUP).as_slice() == looked);
}

#[test]
fn counters_of_1000_runs_are_exact(rt: HostRuntime) {
    let in_array = b"key: 00 00 00 00 value: 4c 04 00 00 00 00 00 00\n";
    let in_hash = b"key: 00 00 00 00 value: ed 03 00 00 00 00 00 00\n";
    for _ in 0..500u32 {
        counts_in(&rt, rt.alloc(), COUNTER, in_array);
        counts_in(&rt, rt.alloc(), MARKED, in_hash);
    }
}
