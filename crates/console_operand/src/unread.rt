//! A line as far as its words were read.

ghost use Rattle.std.specs.Prelude.{◌≡◌, ◌<◌, ◌≤◌, ◌^◌, [], length, take, MatchOption};
ghost use Rattle.console_operand.specs.Automaton.{TakesWord};
ghost use Rattle.console_operand.specs.Word.{words};
ghost use Rattle.console_operand.specs.DataSteps.{spelled_byte, TakesByte, TakesBytes};

use crate::short_byte::{decimal_byte, hex_pair};
use crate::words::first_word;
use std::marker::Model;

/// The words of a line that were not read, and how many were.
#[derive(Drop)]
pub struct Unread<'a> {
    line: &'a [u8],
    count: usize,
}

impl<'a> Model for Unread<'a> {
    ghost use Rattle.std.specs.Prelude.{◌+◌, ◌<◌, ◌^◌, length};
    ghost use Rattle.console_operand.specs.Automaton.{Reading};
    ghost use Rattle.console_operand.specs.Word.{words};

    ghost Value = { Reading };

    ghost view = { λ u. record { count = u.count; left = words u.line.now } };

    ghost invariant = { λ u. u.count + length u.line.now < 2 ^ 63 };
}

impl<'a> Unread<'a> {
    /// A line of which no word was read.
    pub fn new(line: &'a [u8]) -> Unread<'a>
        requires { length line.now < 2 ^ 63 }
        ensures none { result.count ≡ 0 }
        ensures left { result.left ≡ words line.now }
    {
        Unread { line, count: 0 }
    }

    /// The unread words once more, to be read another way.
    pub fn again(&self) -> Unread<'a>
        ensures { result ≡ self.now }
    {
        Unread {
            line: self.line,
            count: self.count,
        }
    }

    /// How many words were read.
    pub fn count(&self) -> usize
        ensures count { result ≡ self.now.count }
        ensures bound { result < 2 ^ 63 }
    {
        self.count
    }

    /// The next word; if there is none, nothing changes.
    pub fn next(&mut self) -> Option<&'a [u8]>
        ensures { MatchOption result ((self.old.left ≡ []) × (self.new ≡ self.old)) (λ word. TakesWord self.old word.now self.new) }
    {
        let (word, line) = first_word(self.line)?;
        self.line = line;
        self.count += 1;
        Some(word)
    }

    /// The byte that the next word spells, if it is written as most are: after one space, by two hexadecimal digits
    /// if `is_hex`, or else by decimal ones. If it is not, nothing changes.
    pub fn short_byte(&mut self, is_hex: bool) -> Option<u8>
        ensures { MatchOption result (self.new ≡ self.old) (λ byte. TakesByte (spelled_byte is_hex) self.old byte self.new) }
    {
        let (byte, line) = if is_hex {
            hex_pair(self.line)?
        } else {
            decimal_byte(self.line)?
        };
        self.line = line;
        self.count += 1;
        Some(byte)
    }
    /// The bytes that the next words spell, as long as they are written as most are, and at most `room`: how many they are.
    pub fn short_bytes(&mut self, is_hex: bool, room: usize, bytes: &mut [u8]) -> usize
        requires { room ≤ length bytes.old }
        ensures bound { result ≤ room }
        ensures taken { TakesBytes (spelled_byte is_hex) self.old (take result bytes.new) self.new }
    {
        let mut left = self.again();
        let mut count = 0;
        while count < room
            && let Some(byte) = left.short_byte(is_hex)
        {
            bytes[count] = byte;
            count += 1;
        }
        *self = left;
        count
    }
}
