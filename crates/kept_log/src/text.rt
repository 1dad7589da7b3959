//! The text of a log, written without memory.

ghost use Rattle.std.specs.Prelude.{◌≡◌, OnErr};
ghost use Rattle.console_text.specs.Written.{Writes};
ghost use Rattle.kept_log.specs.LogText.{time_text, named_text, without_text, event_text, stamp_text, told_text, row_text, log_text};

use crate::event::LogEvent;
use crate::rows::LogRow;
use crate::time::{LogTime, clock_text};
use console_text::{Output, Piece, WriteFault, put, put_made, put_pieces};
use jiff_core::civil::DateTime;

fn put_clock<W: Output>(out: &mut W, at: DateTime) -> Result<(), WriteFault>
    ensures text { Writes (W.contents out.old) (W.contents out.new) result (time_text (LogTime.Clock at)) }
    ensures refused { OnErr result (W.has_refused out.new) }
{
    let text = clock_text(at);
    put(out, text.as_str().as_bytes())
}

fn put_time<W: Output>(out: &mut W, time: LogTime) -> Result<(), WriteFault>
    ensures text { Writes (W.contents out.old) (W.contents out.new) result (time_text time) }
    ensures refused { OnErr result (W.has_refused out.new) }
{
    match time {
        LogTime::Clock(at) => put_clock(out, at),
        LogTime::Beyond(milliseconds) => put_pieces(out, &[Piece::Number(milliseconds)]),
    }
}

// Writes words and a name after them.
fn put_named<W: Output>(out: &mut W, words: &'static [u8], name: &[u8]) -> Result<(), WriteFault>
    ensures text { Writes (W.contents out.old) (W.contents out.new) result (named_text words.now name.now) }
    ensures refused { OnErr result (W.has_refused out.new) }
{
    put_pieces(out, &[Piece::Plain(words), Piece::Word(name)])
}

fn put_without<W: Output>(out: &mut W, serial: u64) -> Result<(), WriteFault>
    ensures text { Writes (W.contents out.old) (W.contents out.new) result (without_text serial) }
    ensures refused { OnErr result (W.has_refused out.new) }
{
    put_pieces(out, &[Piece::Plain(b"without "), Piece::Number(serial)])
}

fn put_event<W: Output>(out: &mut W, event: &LogEvent) -> Result<(), WriteFault>
    ensures text { Writes (W.contents out.old) (W.contents out.new) result (event_text event.now) }
    ensures refused { OnErr result (W.has_refused out.new) }
{
    match event {
        LogEvent::Made(row) => put_made(out, row),
        LogEvent::Marked(name) => put_named(out, b"mark ", name.as_slice()),
        LogEvent::UndoneTo(name) => put_named(out, b"undo ", name.as_slice()),
        LogEvent::UndoneLast => put(out, b"undo"),
        LogEvent::Redone => put(out, b"redo"),
        LogEvent::TakenOut(serial) => put_without(out, *serial),
        LogEvent::Forgot(name) => put_named(out, b"forget ", name.as_slice()),
    }
}

// Writes a time, and a blank after it.
fn put_stamp<W: Output>(out: &mut W, time: LogTime) -> Result<(), WriteFault>
    ensures text { Writes (W.contents out.old) (W.contents out.new) result (stamp_text time) }
    ensures refused { OnErr result (W.has_refused out.new) }
{
    match put_time(out, time) {
        Ok(()) => put(out, b" "),
        Err(fault) => Err(fault),
    }
}

// Writes an event, and the line end.
fn put_told<W: Output>(out: &mut W, event: &LogEvent) -> Result<(), WriteFault>
    ensures text { Writes (W.contents out.old) (W.contents out.new) result (told_text event.now) }
    ensures refused { OnErr result (W.has_refused out.new) }
{
    match put_event(out, event) {
        Ok(()) => put(out, b"\n"),
        Err(fault) => Err(fault),
    }
}

fn put_row<W: Output>(out: &mut W, row: &LogRow) -> Result<(), WriteFault>
    ensures text { Writes (W.contents out.old) (W.contents out.new) result (row_text row.now) }
    ensures refused { OnErr result (W.has_refused out.new) }
{
    match put_stamp(out, row.time) {
        Ok(()) => put_told(out, &row.event),
        Err(fault) => Err(fault),
    }
}

/// Writes the rows of a log, one a line: a time in UTC, in seconds, and what was done then.
pub fn put_log<W: Output>(out: &mut W, rows: &[LogRow]) -> Result<(), WriteFault>
    ensures text { Writes (W.contents out.old) (W.contents out.new) result (log_text rows.now) }
    ensures refused { OnErr result (W.has_refused out.new) }
{
    for row in rows {
        match put_row(out, row) {
            Ok(()) => {}
            Err(fault) => return Err(fault),
        }
    }
    Ok(())
}
