//! The words of a line by their numbers, and what may stand in the place of one.

ghost use Rattle.std.specs.Prelude.{◌≡◌, ◌≤◌, ◌+◌, ◌-◌, ◌∷◌, ◌++◌, ℕ, List, length, take, drop, slice_get, IsTrue, IfOk};
ghost use Rattle.std.specs.Option.{option_copied};
ghost use Rattle.console_operand.specs.Word.{words};
ghost use Rattle.bt_syntax.specs.Steps.{line_read};
ghost use Rattle.console_hint.specs.Standing.{ReadsBeyond};

use bt_syntax::{SyntaxFault, parse_line};
use console_operand::first_word;
use std::alloc::{AllocError, Global};

/// What comes after the first so many words of a line.
pub fn behind(line: &[u8], count: usize) -> &[u8]
    ensures words { words result.now ≡ drop count (words line.now) }
    ensures shorter { length result.now ≤ length line.now }
{
    let mut rest = line;
    for _ in 0..count {
        match first_word(rest) {
            Some((_, after)) => rest = after,
            None => return rest,
        }
    }
    rest
}

/// The word of this number of a line, counted from 1; `None` past the last.
pub fn word_at(line: &[u8], number: usize) -> Option<&[u8]>
    ensures { option_copied result ≡ slice_get (words line.now) (number - 1) }
{
    match first_word(behind(line, number.saturating_sub(1))) {
        Some((word, _)) => Some(word),
        None => None,
    }
}

// A line with one more word after a front of it.
fn with_word(alloc: Global, front: &[u8], word: &[u8]) -> Result<Vec<u8>, AllocError>
    ensures { IfOk result (λ line. line.items ≡ front.now ++ (32 ∷ word.now)) }
{
    let mut line = Vec::from_slice(alloc, front)?;
    line.push(b' ')?;
    line.extend_from_slice(word)?;
    Ok(line)
}

/// The front of a line that has its first so many words.
pub fn front_of(line: &[u8], count: usize) -> &[u8]
    ensures { result.now ≡ take (length result.now) line.now }
{
    let left = behind(line, count).len();
    &line[..line.len() - left]
}

/// Whether a line is well-formed, or goes wrong after one word more than so many.
pub fn reads_past(alloc: Global, line: &[u8], count: usize) -> Result<bool, AllocError>
    ensures { IfOk result (λ reads. IsTrue reads → ReadsBeyond (count + 1) (line_read line.now)) }
{
    match parse_line(alloc, line) {
        Ok(_) => Ok(true),
        Err(SyntaxFault::At(number)) => Ok(number > count.saturating_add(1)),
        Err(SyntaxFault::TooLong) => Ok(false),
        Err(SyntaxFault::NoMemory) => Err(AllocError),
    }
}

/// Whether some well-formed line begins with the first so many words of a line and then this one.
pub fn can_stand(alloc: Global, line: &[u8], count: usize, word: &[u8]) -> Result<bool, AllocError>
    ensures { IfOk result (λ stands. IsTrue stands → (front : ℕ) × ReadsBeyond (count + 1) (line_read (take front line.now ++ (32 ∷ word.now)))) }
{
    let candidate = with_word(alloc, front_of(line, count), word)?;
    reads_past(alloc, candidate.as_slice(), count)
}
