//! The words of a line: what stands between spaces and tabs, up to a comment.

ghost use Rattle.std.specs.Prelude.{◌≡◌, ℕ, ◌<◌, ◌≤◌, ◌∷◌, [], false, true, length, take, drop, slice_index, MatchOption, IfOk, ⊤};
ghost use Rattle.std.specs.List.{list_any};
ghost use Rattle.std.specs.Str.{bytes_eq};
ghost use Rattle.console_operand.specs.Word.{is_space, ends_word, ends_here, words, FirstIsNot};

use crate::NoMemory;
use host_words::Word;
use std::alloc::Global;
use std::marker::Model;

/// A word where it stands in its line.
#[derive(Drop)]
pub struct LineWord<'a> {
    bytes: &'a [u8],
}

impl<'a> Model for LineWord<'a> {
    ghost use Rattle.std.specs.Prelude.{List, ℕ};

    ghost Value = { List ℕ };

    ghost view = { λ w. w.bytes.now };
}

impl<'a> LineWord<'a> {
    pub fn new(bytes: &'a [u8]) -> LineWord<'a>
        ensures { result ≡ bytes.now }
    {
        LineWord { bytes }
    }

    /// Another borrow of this word, of the line that it stands in.
    pub fn again(&self) -> LineWord<'a>
        ensures { result ≡ self.now }
    {
        LineWord { bytes: self.bytes }
    }

    /// A word that owns these bytes. NoMemory if none is left for them.
    pub fn copy(&self, alloc: Global) -> Result<Word, NoMemory>
        ensures { IfOk result (λ word. word ≡ self.now) }
    {
        Word::new(alloc, self.bytes)
    }
}

fn is_space(byte: u8) -> bool
    ensures { result ≡ is_space byte }
{
    byte == b' ' || byte == b'\t'
}

/// Whether no word has this byte. Most bytes of words are above `#`.
fn ends_word(byte: u8) -> bool
    ensures { result ≡ ends_word byte }
{
    byte <= b'#' && (byte == b' ' || byte == b'\t' || byte == b'#')
}

/// Whether no word goes on here.
pub fn ends_here(line: &[u8]) -> bool
    ensures { result ≡ ends_here line.now }
{
    match line {
        [] | [b' ', ..] => true,
        [byte, ..] => ends_word(*byte),
    }
}

/// How many spaces stand at the front: mostly one.
fn spaces(line: &[u8]) -> usize
    ensures bound { result ≤ length line.now }
    ensures skipped { words (drop result line.now) ≡ words line.now }
    ensures stops { result < length line.now → is_space (slice_index line.now result) ≡ false }
{
    if line.len() > 1 && line[0] == b' ' && line[1] > b' ' {
        return 1;
    }
    let mut n = 0;
    while n < line.len() && is_space(line[n]) {
        n += 1;
    }
    n
}

/// How many bytes stand in front of the first space and of the comment.
fn word_len(line: &[u8]) -> usize
    ensures bound { result ≤ length line.now }
    ensures inside { (k : ℕ) → k < result → ends_word (slice_index line.now k) ≡ false }
    ensures stops { result < length line.now → ends_word (slice_index line.now result) ≡ true }
{
    let mut n = 0;
    while n < line.len() && !ends_word(line[n]) {
        n += 1;
    }
    n
}

/// The first word of a line, and what stands after it.
pub fn first_word(line: &[u8]) -> Option<(&[u8], &[u8])>
    ensures words { MatchOption result (words line.now ≡ []) (λ cut. words line.now ≡ cut.0.now ∷ words cut.1.now) }
    ensures shorter { MatchOption result ⊤ (λ cut. length cut.1.now < length line.now) }
{
    let front = spaces(line);
    let (_, from_word) = line.split_at(front);
    let end = word_len(from_word);
    if end == 0 {
        return None;
    }
    let (word, rest) = from_word.split_at(end);
    Some((word, rest))
}

/// Whether a word stands at the front of a text. Most texts differ from it in their first byte.
fn starts_with(text: &[u8], word: &[u8]) -> bool
    requires { 0 < length word.now }
    ensures bound { result ≡ true → length word.now ≤ length text.now }
    ensures value { result ≡ bytes_eq word.now (take (length word.now) text.now) }
{
    if text.is_empty() {
        return false;
    }
    if text[0] != word[0] {
        return false;
    }
    text.starts_with(word)
}

/// What comes after the first word of a line, if that is this word.
pub fn behind_word<'a>(line: &'a [u8], word: &[u8]) -> Option<&'a [u8]>
    requires some { 0 < length word.now }
    requires letters { list_any ends_word word.now ≡ false }
    ensures { MatchOption result (FirstIsNot (words line.now) word.now) (λ rest. words line.now ≡ word.now ∷ words rest.now) }
{
    let front = spaces(line);
    let (_, text) = line.split_at(front);
    if !starts_with(text, word) {
        return None;
    }
    let (_, rest) = text.split_at(word.len());
    if ends_here(rest) { Some(rest) } else { None }
}
