//! The lines of an input that a thread of its own reads.

ghost use Rattle.std.specs.Prelude.{◌≡◌, None, IfOk, IfSome};
ghost use Rattle.std.specs.Option.{option_map};
ghost use Rattle.thread_kept_frames.specs.Hearing.{Hears};
ghost use Rattle.thread_kept_frames.specs.Spoken.{SpeaksNext, heard_last, HearsSpoken, again_after};

use crate::live::lines::{Heard, Lines};
use crate::live::spoken::{Last, Spoken, SpokenLine};
use console_talk::{Cause, MOST_SCRIPT, ReadFault, read_line};
use crossbeam_channel::{Receiver, RecvTimeoutError, Sender};
use std::alloc::Global;
use std::io::{BufRead, BufReader, Read};
use std::marker::Model;
use std::sync::Wait;
use std::thread::Threads;
use std::time::{Clock, Duration};
use std::{io, thread};

/// Why nobody listens to an input.
#[derive(Clone, Copy, Debug, PartialEq, Eq)]
pub enum ListenFault {
    /// No thread could be started.
    NoThread,
    /// There is no memory for what it reads and hands over.
    NoMemory,
}

// The next line of an input of which so many bytes may still come, and how many may come after it, if any.
fn speak_next<I: BufRead>(alloc: Global, input: &mut I, left: u64) -> (Spoken, Option<u64>)
    ensures { SpeaksNext (I.remaining input.old) (I.remaining input.new) left result.0 result.1 }
{
    let mut bytes = Vec::new(alloc);
    match read_line(input, &mut bytes, left) {
        Ok(still) => {
            if bytes.is_empty() {
                return (Spoken::Last(Last::End), None);
            }
            (Spoken::Line(SpokenLine { bytes }), Some(still))
        }
        Err(fault) => (Spoken::Last(Last::Fault(fault)), None),
    }
}

// Hands over the lines of an input one by one, and then its end, or why the next one was not read. It ends sooner if nobody listens.
fn speak<I: BufRead + Drop, R: Wait>(rt: &R, alloc: Global, input: I, listener: &Sender<Spoken>) {
    let (mut input, mut left) = (input, MOST_SCRIPT);
    for _ in rt.forever() {
        let (spoken, still) = speak_next(alloc, &mut input, left);
        if listener.send(rt, spoken).is_err() {
            return;
        }
        match still {
            Some(still) => left = still,
            None => return,
        }
    }
}

/// The lines of an input that a thread of its own reads, so that one that has not come yet is not waited for. What comes last, the end
/// of the input or a fault, is heard again each time.
#[derive(Drop)]
pub struct Listener<'a, R> {
    rt: &'a R,
    spoken: Receiver<Spoken>,
    last: Option<Last>,
}

// Contracts see what it hears again, if something came last.
impl<'a, R> Model for Listener<'a, R> {
    ghost use Rattle.std.specs.Prelude.{Option, Result};
    ghost use Rattle.std.specs.Option.{option_map};
    ghost use Rattle.console_input.specs.declared.fault.ReadFault.{ReadFault};
    ghost use Rattle.thread_kept_frames.specs.declared.live.lines.Heard.{Heard};
    ghost use Rattle.thread_kept_frames.specs.Spoken.{heard_last};

    ghost Value = { Option (Result Heard ReadFault) };

    ghost view = { λ it. option_map heard_last it.last };
}

/// Starts a thread that reads the lines of an input, up to two lines ahead; if more than 16,777,216 bytes come, it reads no further.
/// The thread ends after the end of the input, after a read that failed, and after the next line once the listener is gone. It is not
/// joined: it may be in a read when the program ends.
///
/// # Errors
/// `NoThread` and `NoMemory`; no line was read.
pub fn listen<
    R: Threads + Wait + AllocGlobal + Copy + Send + 'static,
    I: Read + Send + Drop + 'static,
>(rt: &R, input: I) -> Result<Listener<'_, R>, ListenFault>
    ensures { IfOk result (λ listener. listener ≡ None) }
{
    let alloc = rt.alloc();
    let Ok(input) = BufReader::new(alloc, input.take(MOST_SCRIPT + 1)) else {
        return Err(ListenFault::NoMemory);
    };
    let Ok((listener, spoken)) = crossbeam_channel::bounded(alloc, 1) else {
        return Err(ListenFault::NoMemory);
    };
    let speaker = *rt;
    match thread::spawn(rt, move || speak(&speaker, alloc, input, &listener)) {
        Ok(_) => Ok(Listener {
            rt,
            spoken,
            last: None,
        }),
        Err(_) => Err(ListenFault::NoThread),
    }
}

// What is heard of what came last.
fn hear_last(last: Last) -> Result<Heard, ReadFault>
    ensures { result ≡ heard_last last }
{
    match last {
        Last::End => Ok(Heard::End),
        Last::Fault(fault) => Err(fault),
    }
}

// What is heard of what was spoken, if so many bytes may still come. A line takes the place of an earlier one.
fn hear_spoken(spoken: Spoken, line: &mut Vec<u8>, left: u64) -> Result<Heard, ReadFault>
    ensures { HearsSpoken spoken line.new.items left result }
{
    match spoken {
        Spoken::Line(next) => {
            let SpokenLine { bytes } = next;
            *line = bytes;
            match left.checked_sub(line.len() as u64) {
                Some(still) => Ok(Heard::Line(still)),
                None => Err(ReadFault::Unread(Cause::TooLong(MOST_SCRIPT))),
            }
        }
        Spoken::Last(last) => hear_last(last),
    }
}

// What came last, if anything did, once this was heard.
fn last_after(heard: Result<Heard, ReadFault>) -> Option<Last>
    ensures { option_map heard_last result ≡ again_after heard }
{
    match heard {
        Ok(Heard::Line(_) | Heard::NotYet) => None,
        Ok(Heard::End) => Some(Last::End),
        Err(fault) => Some(Last::Fault(fault)),
    }
}

// What is heard if the thread is gone and has not said why.
fn broken_off() -> Spoken {
    let error = io::Error::from(io::ErrorKind::UnexpectedEof);
    Spoken::Last(Last::Fault(ReadFault::Unread(Cause::Failed(error))))
}

impl<R: Wait + Clock> Lines for Listener<'_, R> {
    fn hear(
        &mut self,
        line: &mut Vec<u8>,
        left: u64,
        patience: Duration,
    ) -> Result<Heard, ReadFault>
        ensures hears { IfOk result (Hears None None line.new.items left) }
        ensures again { IfSome self.old (λ last. result ≡ last) }
        ensures last { self.new ≡ again_after result }
    {
        if let Some(last) = self.last {
            return hear_last(last);
        }
        let spoken = match self.spoken.recv_timeout(self.rt, patience) {
            Ok(spoken) => spoken,
            Err(RecvTimeoutError::Timeout) => return Ok(Heard::NotYet),
            Err(RecvTimeoutError::Disconnected) => broken_off(),
        };
        let heard = hear_spoken(spoken, line, left);
        self.last = last_after(heard);
        heard
    }
}
