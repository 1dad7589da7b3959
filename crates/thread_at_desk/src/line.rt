//! A line at a desk, and its answer written.

ghost use Rattle.std.specs.Prelude.{◌≡◌, [], None, Err, IfOk, OnErr};
ghost use Rattle.thread_lock.specs.Seats.{calls_left};
ghost use Rattle.bt_desk.specs.Seats.{IsSeatAt};
ghost use Rattle.console_operand.specs.Word.{words};
ghost use Rattle.console_answer.specs.declared.fault.Fault.TheVariants.{NoMemory};
ghost use Rattle.console_script.specs.Telling.{TellsAnswer, TellsLine};
ghost use Rattle.thread_at_desk.specs.Ran.{CommandAt};
ghost use Rattle.thread_at_desk.specs.Lines.{ReadsAs, LineAt};

use crate::command::command_at;
use crate::session::Session;
use bt_desk::{Desk, Seat, SeatSpent};
use bt_mapkind::MapKind;
use bt_syntax::{Command, FileText, SyntaxFault, opened, parse_line};
use console_answer::{Fault, Told};
use console_operand::first_word;
use console_script::{Supply, tell_answer, tell_refused};
use console_text::{Output, WriteFault};
use std::alloc::Global;
use std::sync::Wait;

// What a line comes to that was not read for lack of memory; one without words takes none.
fn unread(line: &[u8]) -> Result<Option<Command>, Fault>
    ensures none { IfOk result (λ found. (found ≡ None) × (words line.now ≡ [])) }
    ensures wanted { OnErr result (result ≡ Err NoMemory) }
{
    match first_word(line) {
        Some(_) => Err(Fault::NoMemory),
        None => Ok(None),
    }
}

// The command of a line, with the bytes of its program in place of a file that is at hand; none if it has no words.
fn read_line(alloc: Global, files: &[FileText], line: &[u8]) -> Result<Option<Command>, Fault>
    ensures { ReadsAs files.now line.now result }
{
    match parse_line(alloc, line) {
        Ok(Some(command)) => match opened(alloc, files, command) {
            Ok(command) => Ok(Some(command)),
            Err(_) => Err(Fault::NoMemory),
        },
        Ok(None) => Ok(None),
        Err(SyntaxFault::TooLong) => Err(Fault::TooLong),
        Err(SyntaxFault::At(word)) => Err(Fault::Syntax(word)),
        Err(SyntaxFault::NoMemory) => unread(line),
    }
}

// Does a command at a desk, and writes what it answered.
fn tell_command<K: MapKind, S: Supply<K>, R: Wait, W: Output>(
    rt: &R,
    alloc: Global,
    desk: &Desk<K>,
    seat: &mut Seat<K>,
    session: &mut Session<S>,
    command: Command,
    out: &mut W,
) -> Result<Result<Told, WriteFault>, SeatSpent>
    requires { IsSeatAt desk.now seat.old }
    ensures seat { IsSeatAt desk.now seat.new }
    ensures spent { OnErr result ((calls_left seat.new ≡ 0) × (session.new ≡ session.old) × (W.contents out.new ≡ W.contents out.old)) }
    ensures tells { IfOk result (λ told. TellsAnswer (λ answer. CommandAt S.gives K.seen desk.now session.old command answer session.new seat.old seat.new) (W.contents out.old) (W.contents out.new) told) }
    ensures refused { IfOk result (λ told. OnErr told (W.has_refused out.new)) }
{
    match command_at(rt, alloc, desk, seat, session, command) {
        Ok(answer) => Ok(tell_answer(out, answer)),
        Err(spent) => Err(spent),
    }
}

/// Does one line at a desk, without its line feed, as [`command_at`](crate::command_at) does its command, and writes the text of
/// its answer; nothing for a line without words. It is read before its call, and its answer is written after it, so no other
/// thread waits for either. A program is loaded from its file if that is at hand; a line that runs a batch is refused.
///
/// The text is written without memory. The inner fault comes if a write failed or took no byte: the line was done, and a
/// front of its text was written.
///
/// # Errors
/// `SeatSpent` if the seat has no calls left for the line, or for a frame's next access. Nothing is written then.
pub fn line_at<K: MapKind, S: Supply<K>, R: Wait, W: Output>(
    rt: &R,
    alloc: Global,
    desk: &Desk<K>,
    seat: &mut Seat<K>,
    session: &mut Session<S>,
    files: &[FileText],
    line: &[u8],
    out: &mut W,
) -> Result<Result<Told, WriteFault>, SeatSpent>
    requires { IsSeatAt desk.now seat.old }
    ensures seat { IsSeatAt desk.now seat.new }
    ensures spent { OnErr result ((calls_left seat.new ≡ 0) × (session.new ≡ session.old) × (W.contents out.new ≡ W.contents out.old)) }
    ensures tells { IfOk result (λ told. TellsLine (λ answer. LineAt S.gives K.seen files.now desk.now session.old line.now answer session.new seat.old seat.new) (W.contents out.old) (W.contents out.new) told) }
    ensures refused { IfOk result (λ told. OnErr told (W.has_refused out.new)) }
{
    match read_line(alloc, files, line) {
        Ok(Some(command)) => tell_command(rt, alloc, desk, seat, session, command, out),
        Ok(None) => Ok(Ok(Told::Empty)),
        Err(fault) => Ok(tell_refused(out, fault)),
    }
}
