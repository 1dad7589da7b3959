//! The lines that ask for the log of a kept book.

ghost use Rattle.std.specs.Prelude.{◌≡◌};
ghost use Rattle.console_operand.specs.Number.{long_number_of};
ghost use Rattle.console_operand.specs.Word.{words};
ghost use Rattle.kept_log.specs.LogGrammar.{counted, log_behind, journal_behind, log_line_in};

use console_operand::number::number;
use console_operand::{behind_word, first_word};

/// A line that asks for a log.
#[derive(Clone, Copy, PartialEq, Eq, Debug)]
pub enum LogLine {
    /// For the last so many events, or for all of them.
    Asks(Option<u64>),
    /// It begins as one that asks, and no such line begins with its first so many words.
    Wrong(usize),
}

// The line with this word as its count.
fn counted(word: &[u8], rest: &[u8]) -> LogLine
    ensures { result ≡ counted (long_number_of word.now) (words rest.now) }
{
    let Some(count) = number(word) else {
        return LogLine::Wrong(3);
    };
    match first_word(rest) {
        Some(_) => LogLine::Wrong(4),
        None => LogLine::Asks(Some(count)),
    }
}

// What comes after `journal log`.
fn log_behind(line: &[u8]) -> LogLine
    ensures { result ≡ log_behind (words line.now) }
{
    match first_word(line) {
        Some((word, rest)) => counted(word, rest),
        None => LogLine::Asks(None),
    }
}

// What comes after `journal`.
fn journal_behind(line: &[u8]) -> Option<LogLine>
    ensures { result ≡ journal_behind (words line.now) }
{
    match behind_word(line, b"log") {
        Some(rest) => Some(log_behind(rest)),
        None => None,
    }
}

/// How a line asks for a log, if its first words are `journal log`: after these comes nothing, or how many events are asked for.
/// No line that spells a command of a script is one of these.
pub fn log_line(line: &[u8]) -> Option<LogLine>
    ensures { result ≡ log_line_in (words line.now) }
{
    match behind_word(line, b"journal") {
        Some(rest) => journal_behind(rest),
        None => None,
    }
}
