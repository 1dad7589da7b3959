//! Writers that take little, that fail, or that never do.

use super::{ITS_TRANSCRIPT, Making, TO_A_MARK_AND_BACK, book, script};
use bt_array::ArrayKind;
use bt_console::WriteFault;
use bt_journal::Book;
use console_script::{Output, ScriptFault, run_script};
use std::alloc::Global;
use std::io;
use std::io::Write;
use std::process::Abort;

/// A script with its transcript, and how many moments are in force after the answer of each line of that.
#[derive(Clone, Copy)]
struct Written {
    text: &'static [u8],
    transcript: &'static [u8],
    moments: &'static [u64],
}

const MARKED: Written = Written {
    text: TO_A_MARK_AND_BACK,
    transcript: ITS_TRANSCRIPT,
    moments: &[1, 2, 2, 3, 2, 2],
};

/// A change before a mark is taken out, which comes back, and the past before the mark is forgotten; some lines are refused.
const FORGOTTEN: Written = Written {
    text: b"map create /m type array key 4 value 1 entries 1 name m
map update id 1 key 0 0 0 0 value 7
journal mark k
journal mark k
journal without 2
map lookup id 1 key 0 0 0 0
journal list
journal forget k
journal undo k
map lookup id 1 key 0 0 0 0
journal forget k
map update id 1 key 0 0 0 0 value 8
journal forget k
journal without 2
journal undo k
map lookup id 1 key 0 0 0 0
journal undo
",
    transcript: b"ok 1 id 1
ok 2
marked k
Error: mark taken
ok 3
key: 00 00 00 00 value: 00
1 console create map 1
mark k 2
Error: still taken out 3
undone 1
key: 00 00 00 00 value: 07
Error: still taken out 3
ok 4
forgot k
Error: not in force
undone 1
key: 00 00 00 00 value: 07
Error: nothing to undo
",
    moments: &[1, 2, 2, 2, 3, 3, 3, 3, 3, 2, 2, 2, 3, 1, 1, 0, 0, 0],
};

/// Takes at most `most` bytes a write, and fails once it was called `left` times.
#[derive(Drop)]
struct Failing {
    taken: Vec<u8>,
    most: usize,
    left: u64,
}

impl Write for Failing {
    fn write(&mut self, buf: &[u8]) -> io::Result<usize> {
        if self.left == 0 {
            return Err(io::Error::from(io::ErrorKind::BrokenPipe));
        }
        self.left -= 1;
        let count = buf.len().min(self.most);
        match self.taken.extend_from_slice(&buf[..count]) {
            Ok(()) => Ok(count),
            Err(_) => Err(io::Error::from(io::ErrorKind::OutOfMemory)),
        }
    }

    fn flush(&mut self) -> io::Result<()> {
        Ok(())
    }
}

/// Runs a text on a new book into a writer: the writer and the book after it, and whether no write failed.
fn ran(
    rt: &impl Abort,
    alloc: Global,
    text: &[u8],
    most: usize,
    left: u64,
) -> (Failing, Book<ArrayKind>, bool) {
    let script = script(alloc, text).expect(rt, "a script");
    let mut supply = Making::new(alloc, u32::MAX);
    let mut book = book(alloc).expect(rt, "a book");
    let taken = Vec::new(alloc);
    let mut out = Failing { taken, most, left };
    let ran = run_script(alloc, &mut book, &script, &mut supply, &mut out);
    (out, book, ran.is_ok())
}

#[test]
fn a_writer_may_take_one_byte_a_time_and_not_none(rt: HostRuntime) {
    for (most, transcript) in [(1usize, ITS_TRANSCRIPT), (0, b"")] {
        let (out, _, is_written) = ran(&rt, rt.alloc(), TO_A_MARK_AND_BACK, most, u64::MAX);
        assert!(rt; is_written == (most == 1));
        assert_eq!(rt; out.taken.as_slice(), transcript);
    }
}

/// Counts the bytes that are written, and takes one a write. None fails.
#[derive(Drop)]
struct Counter {
    bytes: u64,
}

impl Output for Counter {
    ghost has_refused = { λ _. ⊥ };

    fn write_front(&mut self, text: &[u8]) -> Result<usize, WriteFault> {
        let count = text.len().min(1);
        self.bytes = self.bytes.saturating_add(count as u64);
        Ok(count)
    }

    fn flush_all(&mut self) -> Result<(), WriteFault> {
        Ok(())
    }
}

/// That it cannot stop for a write is proved here: the second arm is never reached.
#[test]
fn a_script_comes_to_its_end_where_no_write_fails(rt: HostRuntime) {
    let script = script(rt.alloc(), TO_A_MARK_AND_BACK).expect(&rt, "a script");
    let mut supply = Making::new(rt.alloc(), u32::MAX);
    let mut book = book(rt.alloc()).expect(&rt, "a book");
    let mut out = Counter { bytes: 0 };
    match run_script(rt.alloc(), &mut book, &script, &mut supply, &mut out) {
        Ok(_) => {}
        Err(_) => unreachable!(),
    }
    assert_eq!(rt; out.bytes, ITS_TRANSCRIPT.len() as u64);
}

// How many moments are in force after what was written of a transcript. What is answered to a line is written when it was done.
fn moments_behind(moments: &[u64], written: &[u8]) -> Option<u64> {
    let lines = written.split(|byte| *byte == b'\n').count();
    let last = moments.len().saturating_sub(1);
    moments.get(lines.saturating_sub(1).min(last)).copied()
}

// A front of the transcript is written by a writer that fails, all of it if it failed at none of so many writes, and the
// book is as it was after the last line that was written.
fn fails_behind_a_line(
    rt: &impl Abort,
    alloc: Global,
    wanted: Written,
    most: usize,
    writes: u64,
    left: u64,
) {
    let (out, book, is_written) = ran(rt, alloc, wanted.text, most, left);
    let written = out.taken.as_slice();
    assert!(rt; is_written == (left >= writes));
    assert!(rt; is_written == (written == wanted.transcript));
    assert!(rt; wanted.transcript.starts_with(written));
    assert!(rt; Some(book.moments()) == moments_behind(wanted.moments, written));
}

/// Each of these lines is short and goes out in one write, a change in a list in three, or in as many as a writer that takes
/// four bytes asks for.
#[test]
fn a_writer_that_fails_stops_the_script_behind_the_line(rt: HostRuntime) {
    for (wanted, most, writes) in [
        (MARKED, usize::MAX, 6u64),
        (MARKED, 4, 20),
        (FORGOTTEN, usize::MAX, 20),
        (FORGOTTEN, 4, 82),
    ] {
        for left in 0..writes.saturating_add(2) {
            fails_behind_a_line(&rt, rt.alloc(), wanted, most, writes, left);
        }
    }
}

#[test]
fn a_failed_write_is_told(rt: HostRuntime) {
    let told = format!(in rt.alloc(); "{}", ScriptFault::Write);
    assert!(rt; matches!(&told, Ok(told) if told.as_str() == "cannot write"));
}
