//! One line of a script done to a book, and its answer written as soon as it is known.

ghost use Rattle.std.specs.Prelude.{◌≡◌, List, ℕ, Option, Some, IfOk, MatchResult, OnErr};
ghost use Rattle.console_answer.specs.declared.answer.Answer.TheVariants.{Refused};
ghost use Rattle.console_answer.specs.declared.told.Told.TheVariants as told;
ghost use Rattle.console_answer.specs.Told.{told_of};
ghost use Rattle.console_operand.specs.Word.{words};
ghost use Rattle.bt_console.specs.Frames.{console_of};
ghost use Rattle.bt_console.specs.Lines.{line_text, unread_answer};
ghost use Rattle.bt_console.specs.Supply.{CommandRuns, LineRuns};
ghost use Rattle.console_script.specs.Telling.{edit_in, TellsAnswer, TellsLine};
ghost use Rattle.console_text.specs.Text.{text_of};
ghost use Rattle.console_text.specs.Written.{Writes};

use bt_console::{Book, Edit, Runs, Supply, change_map, run_supplied};
use bt_mapkind::MapKind;
use bt_syntax::{Command, FileText, MapCommand, Reference, SyntaxFault, opened, parse_line};
use console_answer::{Answer, Fault, ShortAnswer, Told};
use console_operand::first_word;
use console_text::{Output, WriteFault, put_answer, put_fault, put_short_answer};
use std::alloc::Global;

/// The map that a command changes, and how; the command itself if it changes none.
fn edit_of(command: Command) -> Result<(Reference, Edit), Command>
    ensures { MatchResult result (λ found. edit_in command ≡ Some found) (λ other. other ≡ command) }
{
    match command {
        Command::Map(
            MapCommand::Update {
                map,
                key,
                value,
                flag,
            },
        ) => Ok((map, Edit::Write { key, value, flag })),
        Command::Map(MapCommand::Delete { map, key }) => Ok((map, Edit::Delete { key })),
        Command::Map(MapCommand::Push { map, value }) => Ok((map, Edit::push(value))),
        other => Err(other),
    }
}

/// Writes an answer, and tells what it comes to.
pub fn tell_answer<W: Output>(out: &mut W, answer: Answer) -> Result<Told, WriteFault>
    ensures wrote { Writes (W.contents out.old) (W.contents out.new) result (text_of answer) }
    ensures told { IfOk result (λ it. it ≡ told_of (Some answer)) }
    ensures refused { OnErr result (W.has_refused out.new) }
{
    match put_answer(out, &answer) {
        Ok(()) => Ok(Told::of(&Some(answer))),
        Err(fault) => Err(fault),
    }
}

/// Does a command and writes what it answered.
#[inline(never)]
fn tell_supplied<K: MapKind, S: Supply<K>, W: Output>(
    alloc: Global,
    book: &mut Book<K>,
    runs: &mut Runs,
    supply: &mut S,
    command: Command,
    out: &mut W,
) -> Result<Told, WriteFault>
    ensures tells { TellsAnswer (λ answer. CommandRuns S.gives K.seen (console_of book.old.plain runs.old) supply.old command (console_of book.new.plain runs.new, answer) supply.new)
        (W.contents out.old) (W.contents out.new) result }
    ensures refused { OnErr result (W.has_refused out.new) }
{
    let answer = run_supplied(alloc, book, runs, supply, command);
    tell_answer(out, answer)
}

/// Writes a short answer, and tells what it comes to.
fn tell_short<W: Output>(out: &mut W, answer: &ShortAnswer) -> Result<Told, WriteFault>
    ensures wrote { Writes (W.contents out.old) (W.contents out.new) result (text_of answer.now) }
    ensures told { IfOk result (λ it. it ≡ told_of (Some answer.now)) }
    ensures refused { OnErr result (W.has_refused out.new) }
{
    match put_short_answer(out, answer) {
        Ok(()) => Ok(answer.told()),
        Err(fault) => Err(fault),
    }
}

/// Does a command and writes what it answered, at once if it is a frame.
#[inline(never)]
fn tell_other<K: MapKind, S: Supply<K>, W: Output>(
    alloc: Global,
    book: &mut Book<K>,
    runs: &mut Runs,
    supply: &mut S,
    command: Command,
    out: &mut W,
) -> Result<Told, WriteFault>
    ensures tells { TellsAnswer (λ answer. CommandRuns S.gives K.seen (console_of book.old.plain runs.old) supply.old command (console_of book.new.plain runs.new, answer) supply.new)
        (W.contents out.old) (W.contents out.new) result }
    ensures refused { OnErr result (W.has_refused out.new) }
{
    match command {
        Command::Frame(frame) => {
            let answer = runs.frame(book, frame);
            tell_short(out, &answer)
        }
        other => tell_supplied(alloc, book, runs, supply, other, out),
    }
}

/// Does a command and writes what it answered, at once if it changes one map.
fn tell_command<K: MapKind, S: Supply<K>, W: Output>(
    alloc: Global,
    book: &mut Book<K>,
    runs: &mut Runs,
    supply: &mut S,
    command: Command,
    out: &mut W,
) -> Result<Told, WriteFault>
    ensures tells { TellsAnswer (λ answer. CommandRuns S.gives K.seen (console_of book.old.plain runs.old) supply.old command (console_of book.new.plain runs.new, answer) supply.new)
        (W.contents out.old) (W.contents out.new) result }
    ensures refused { OnErr result (W.has_refused out.new) }
{
    match edit_of(command) {
        Ok((map, edit)) => {
            let answer = change_map(alloc, book, map, edit);
            tell_short(out, &answer)
        }
        Err(command) => tell_other(alloc, book, runs, supply, command, out),
    }
}

/// Writes that a line was refused, and tells it.
#[inline(never)]
pub fn tell_refused<W: Output>(out: &mut W, fault: Fault) -> Result<Told, WriteFault>
    ensures wrote { Writes (W.contents out.old) (W.contents out.new) result (text_of (Refused fault)) }
    ensures told { IfOk result (λ it. it ≡ told.Refused fault) }
    ensures refused { OnErr result (W.has_refused out.new) }
{
    match put_fault(out, fault) {
        Ok(()) => Ok(Told::Refused(fault)),
        Err(fault) => Err(fault),
    }
}

/// Answers a line that could not be read for lack of memory: `no memory`, or nothing for a line without words.
#[inline(never)]
fn tell_unread<W: Output>(out: &mut W, line: &[u8]) -> Result<Told, WriteFault>
    ensures wrote { Writes (W.contents out.old) (W.contents out.new) result (line_text (unread_answer (words line.now))) }
    ensures told { IfOk result (λ it. it ≡ told_of (unread_answer (words line.now))) }
    ensures refused { OnErr result (W.has_refused out.new) }
{
    match first_word(line) {
        Some(_) => tell_refused(out, Fault::NoMemory),
        None => Ok(Told::Empty),
    }
}

/// Runs one line, without its line feed, and writes the text of its answer; nothing for a line without words. A program is
/// loaded from its file if that is at hand; a line that runs a batch is refused. The text is written without memory; if
/// a write failed or took no byte, the line was done, and a front of its text was written.
pub fn tell_line<K: MapKind, S: Supply<K>, W: Output>(
    alloc: Global,
    book: &mut Book<K>,
    runs: &mut Runs,
    supply: &mut S,
    files: &[FileText],
    line: &[u8],
    out: &mut W,
) -> Result<Told, WriteFault>
    ensures tells { TellsLine (λ answer. LineRuns S.gives K.seen files.now (console_of book.old.plain runs.old) supply.old line.now (console_of book.new.plain runs.new, answer) supply.new)
        (W.contents out.old) (W.contents out.new) result }
    ensures refused { OnErr result (W.has_refused out.new) }
{
    match parse_line(alloc, line) {
        Ok(Some(command)) => match opened(alloc, files, command) {
            Ok(command) => tell_command(alloc, book, runs, supply, command, out),
            Err(_) => tell_unread(out, line),
        },
        Ok(None) => Ok(Told::Empty),
        Err(SyntaxFault::TooLong) => tell_refused(out, Fault::TooLong),
        Err(SyntaxFault::At(word)) => tell_refused(out, Fault::Syntax(word)),
        Err(SyntaxFault::NoMemory) => tell_unread(out, line),
    }
}
