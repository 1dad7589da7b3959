//! The line that takes a range of changes out.

ghost use Rattle.std.specs.Prelude.{◌≡◌};
ghost use Rattle.console_operand.specs.Word.{words};
ghost use Rattle.kept_lines.specs.Chosen.{is_within};
ghost use Rattle.kept_lines.specs.RangeGrammar.{last_in, serials_in, range_behind, range_in};

use console_operand::number::number;
use console_operand::{behind_word, first_word};

/// The serials from one to another, both included; none if the first is greater.
#[derive(Clone, Copy, PartialEq, Eq, Debug)]
pub struct SerialRange {
    pub first: u64,
    pub last: u64,
}

impl SerialRange {
    /// Whether a serial is in the range.
    pub(crate) fn has(self, serial: u64) -> bool
        ensures { result ≡ is_within self serial }
    {
        self.first <= serial && serial <= self.last
    }
}

// The range from this serial to the one that one word spells.
fn last_in(first: u64, line: &[u8]) -> Option<SerialRange>
    ensures { result ≡ last_in first (words line.now) }
{
    let (word, rest) = first_word(line)?;
    let last = number(word)?;
    match first_word(rest) {
        Some(_) => None,
        None => Some(SerialRange { first, last }),
    }
}

// The range that two words spell.
fn serials_in(line: &[u8]) -> Option<SerialRange>
    ensures { result ≡ serials_in (words line.now) }
{
    let (word, rest) = first_word(line)?;
    let first = number(word)?;
    last_in(first, rest)
}

// What comes after `journal`.
fn range_behind(line: &[u8]) -> Option<SerialRange>
    ensures { result ≡ range_behind (words line.now) }
{
    match behind_word(line, b"without") {
        Some(rest) => serials_in(rest),
        None => None,
    }
}

/// The range that the words of a line spell: `journal without FIRST LAST`, and nothing after that. No line that spells a command
/// of a script is one of these.
pub fn range_of(line: &[u8]) -> Option<SerialRange>
    ensures { result ≡ range_in (words line.now) }
{
    match behind_word(line, b"journal") {
        Some(rest) => range_behind(rest),
        None => None,
    }
}
