//! A line that only a live host has, read into its command.

ghost use Rattle.std.specs.Prelude.{◌≡◌, ◌≤◌, length, IfOk, IfSome};
ghost use Rattle.console_operand.specs.Word.{words};
ghost use Rattle.bt_syntax.specs.Grammar.{Spells, IfAt};
ghost use Rattle.bt_syntax.specs.declared.command.Command.{Command};
ghost use Rattle.console_live_words.specs.LiveGrammar.{seconds_of, SpellsLive, IsLiveFault};
ghost use Rattle.console_live_words.specs.LiveLines.{Answers, workers_read, try_read, confirm_read, journal_read, words_read, live_read};
ghost use Rattle.console_live_words.specs.declared.command.LiveCommand.{LiveCommand};

use crate::command::{LiveCommand, WorkersCommand};
use bt_syntax::{LINE_MAX, SyntaxFault};
use console_operand::number::number_of;
use console_operand::{behind_word, first_word};
use host_words::Word;
use std::alloc::Global;

// Reads what comes after `workers`.
fn read_workers(line: &[u8]) -> Result<Option<LiveCommand>, SyntaxFault>
    ensures { result ≡ workers_read (words line.now) }
{
    let Some((word, behind)) = first_word(line) else {
        return Err(SyntaxFault::At(2));
    };
    let Some(command) = WorkersCommand::of(word) else {
        return Err(SyntaxFault::At(2));
    };
    match first_word(behind) {
        Some(_) => Err(SyntaxFault::At(3)),
        None => Ok(Some(LiveCommand::Workers(command))),
    }
}

// SECONDS, the number from 1 to 86,400 that a word spells.
fn seconds_of(word: &[u8]) -> Option<u32>
    ensures { result ≡ seconds_of word.now }
{
    match number_of(word) {
        Some(seconds @ 1..=86_400) => Some(seconds),
        _ => None,
    }
}

// Reads what comes after `journal try`.
fn read_try(alloc: Global, line: &[u8]) -> Result<Option<LiveCommand>, SyntaxFault>
    ensures { Answers result (try_read (words line.now)) }
{
    let Some((name, behind)) = first_word(line) else {
        return Err(SyntaxFault::At(3));
    };
    let Some((word, rest)) = first_word(behind) else {
        return Err(SyntaxFault::At(4));
    };
    let Some(seconds) = seconds_of(word) else {
        return Err(SyntaxFault::At(4));
    };
    match first_word(rest) {
        Some(_) => Err(SyntaxFault::At(5)),
        None => {
            let name = Word::new(alloc, name)?;
            Ok(Some(LiveCommand::Try { name, seconds }))
        }
    }
}

// Reads what comes after `journal confirm`.
fn read_confirm(alloc: Global, line: &[u8]) -> Result<Option<LiveCommand>, SyntaxFault>
    ensures { Answers result (confirm_read (words line.now)) }
{
    let Some((name, behind)) = first_word(line) else {
        return Err(SyntaxFault::At(3));
    };
    match first_word(behind) {
        Some(_) => Err(SyntaxFault::At(4)),
        None => {
            let name = Word::new(alloc, name)?;
            Ok(Some(LiveCommand::Confirm(name)))
        }
    }
}

// Reads what comes after `journal`.
fn read_journal(alloc: Global, line: &[u8]) -> Result<Option<LiveCommand>, SyntaxFault>
    ensures { Answers result (journal_read (words line.now)) }
{
    if let Some(behind) = behind_word(line, b"try") {
        return read_try(alloc, behind);
    }
    match behind_word(line, b"confirm") {
        Some(behind) => read_confirm(alloc, behind),
        None => Ok(None),
    }
}

// Reads the words of a line of any length.
fn read_words(alloc: Global, line: &[u8]) -> Result<Option<LiveCommand>, SyntaxFault>
    ensures { Answers result (words_read (words line.now)) }
{
    if let Some(behind) = behind_word(line, b"workers") {
        return read_workers(behind);
    }
    match behind_word(line, b"journal") {
        Some(behind) => read_journal(alloc, behind),
        None => Ok(None),
    }
}

/// The command that a line spells, without its line feed and the carriage return before that, as
/// [`first_line`](bt_syntax::first_line) gives it; `None` for a line that is to be read as one of the console: it begins
/// neither with `workers` nor with `journal try` or `journal confirm`, or has more than [`LINE_MAX`] bytes.
///
/// # Errors
/// [`At`](SyntaxFault::At) the first word that can't stand where it does, or one past the last where the line ends too
/// early. [`NoMemory`](SyntaxFault::NoMemory) may come in place of any other answer, if an allocation fails.
pub fn parse_live_line(alloc: Global, line: &[u8]) -> Result<Option<LiveCommand>, SyntaxFault>
    ensures exact { Answers result (live_read line.now) }
    ensures command { IfOk result (λ found. IfSome found (SpellsLive (words line.now))) }
    ensures only { length line.now ≤ LINE_MAX → (command : LiveCommand) → SpellsLive (words line.now) command → Answers result (Ok (Some command)) }
    ensures console { (command : Command) → Spells (words line.now) command → Answers result (Ok None) }
    ensures fault { IfAt result (IsLiveFault (words line.now)) }
{
    if line.len() > LINE_MAX {
        return Ok(None);
    }
    read_words(alloc, line)
}
