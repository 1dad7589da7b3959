//! The lines that only look at the journal.

ghost use Rattle.std.specs.Prelude.{◌≡◌};
ghost use Rattle.console_operand.specs.Word.{words};
ghost use Rattle.console_looks.specs.LookGrammar.{serial_in, mark_in, dry_in, look_behind, look_in};

use console_operand::number::number;
use console_operand::{LineWord, behind_word, first_word};

/// A line that only looks at the journal.
#[derive(Drop)]
pub enum Look<'a> {
    /// Shows the change in force of a serial.
    Show(u64),
    /// Tells what an undo to a mark would take back, or that of the last moment.
    DryUndo(Option<LineWord<'a>>),
}

// The serial that one word spells.
fn serial_in(line: &[u8]) -> Option<Look<'_>>
    ensures { result ≡ serial_in (words line.now) }
{
    let (word, rest) = first_word(line)?;
    let serial = number(word)?;
    match first_word(rest) {
        Some(_) => None,
        None => Some(Look::Show(serial)),
    }
}

// The mark that one word names, or none.
fn mark_in(line: &[u8]) -> Option<Look<'_>>
    ensures { result ≡ mark_in (words line.now) }
{
    let Some((name, rest)) = first_word(line) else {
        return Some(Look::DryUndo(None));
    };
    match first_word(rest) {
        Some(_) => None,
        None => Some(Look::DryUndo(Some(LineWord::new(name)))),
    }
}

// What comes after `journal undo`.
fn dry_in(line: &[u8]) -> Option<Look<'_>>
    ensures { result ≡ dry_in (words line.now) }
{
    match behind_word(line, b"-n") {
        Some(rest) => mark_in(rest),
        None => None,
    }
}

// What comes after `journal`.
fn look_behind(line: &[u8]) -> Option<Look<'_>>
    ensures { result ≡ look_behind (words line.now) }
{
    if let Some(rest) = behind_word(line, b"show") {
        return serial_in(rest);
    }
    match behind_word(line, b"undo") {
        Some(rest) => dry_in(rest),
        None => None,
    }
}

/// The look that the words of a line spell: `journal show SERIAL`, `journal undo -n` or `journal undo -n NAME`, and nothing after
/// that. No line that spells a command of a script is one of these but an undo to a mark with the name `-n`.
pub fn look_of(line: &[u8]) -> Option<Look<'_>>
    ensures { result ≡ look_in (words line.now) }
{
    match behind_word(line, b"journal") {
        Some(rest) => look_behind(rest),
        None => None,
    }
}
