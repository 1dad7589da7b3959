//! A line for the book in a file, spelled by arguments.

ghost use Rattle.std.specs.Prelude.{◌≡◌, ◌⊎◌, ◌∷◌, ◌++◌, [], true, false, IfOk, IfErr, string_bytes};
ghost use Rattle.std.specs.List.{list_all};
ghost use Rattle.std.specs.Vec.Iter.{into_iter_items};
ghost use Rattle.console_input.specs.Book.{is_of_word, is_line_word, begins_line, no_line, line_by, line_of, GivesLines};
ghost use Rattle.console_input.specs.declared.fault.ArgsFault.TheVariants.{NoWord, Read};
ghost use Rattle.console_input.specs.declared.fault.ReadFault.TheVariants.{NoMemory};

use crate::book::BookLines;
use crate::fault::{ArgsFault, ReadFault};
use crate::order::begins_command;
use std::alloc::Global;
use std::vec::IntoIter;

const NO_MEMORY: ArgsFault = ArgsFault::Read(ReadFault::NoMemory);

// Whether a byte may stand within a word of a line.
fn is_of_word(byte: u8) -> bool
    ensures { result ≡ is_of_word byte }
{
    !(byte == b' ' || byte == b'\t' || byte == b'#' || byte == b'\n')
}

fn are_of_word(word: &[u8]) -> bool
    ensures { result ≡ list_all is_of_word word.now }
{
    word.iter().all(|byte| is_of_word(*byte))
}

// Whether an argument is a word of a line.
fn is_line_word(word: &[u8]) -> bool
    ensures { result ≡ is_line_word word.now }
{
    !word.is_empty() && are_of_word(word)
}

// Adds bytes after the others.
fn append(line: &mut Vec<u8>, bytes: &[u8]) -> Result<(), ArgsFault>
    ensures added { IfOk result (λ _. line.new.items ≡ line.old.items ++ bytes.now) }
    ensures why { IfErr result (λ fault. fault ≡ Read NoMemory) }
{
    match line.extend_from_slice(bytes) {
        Ok(()) => Ok(()),
        Err(_) => Err(NO_MEMORY),
    }
}

// Adds a space and a word to a line.
fn add(line: &mut Vec<u8>, word: &[u8]) -> Result<(), ArgsFault>
    ensures added { IfOk result (λ _. (is_line_word word.now ≡ true) × (line.new.items ≡ line.old.items ++ 32 ∷ word.now)) }
    ensures why { IfErr result (λ fault. (fault ≡ Read NoMemory) ⊎ ((fault ≡ NoWord) × (is_line_word word.now ≡ false))) }
{
    if !is_line_word(word) {
        return Err(ArgsFault::NoWord);
    }
    append(line, b" ")?;
    append(line, word)
}

// A line that is continued by words.
fn line_by(mut line: Vec<u8>, mut words: IntoIter<String>) -> Result<BookLines, ArgsFault>
    ensures { GivesLines (line_by line.items (into_iter_items words)) result }
{
    'words: while let Some(word) = words.next() {
        add(&mut line, word.as_bytes())?;
    }
    Ok(BookLines::Line(line))
}

/// Whether a line may begin with this word.
pub(crate) fn begins_line(word: &str) -> bool
    ensures { result ≡ begins_line word.now }
{
    word == "run" || begins_command(word)
}

// Why no line begins with this word.
fn no_line(verb: &str) -> ArgsFault
    ensures { result ≡ no_line verb.now }
{
    if verb == "host" {
        ArgsFault::NotOfBook
    } else {
        ArgsFault::Usage
    }
}

/// A line of one word, to which others are added.
pub(crate) fn first_word(alloc: Global, verb: &str) -> Result<Vec<u8>, ArgsFault>
    ensures line { IfOk result (λ line. (begins_line verb.now ≡ true) × (line.items ≡ verb.now)) }
    ensures why { IfErr result (λ fault. (fault ≡ Read NoMemory) ⊎ ((fault ≡ no_line verb.now) × (begins_line verb.now ≡ false))) }
{
    if !begins_line(verb) {
        return Err(no_line(verb));
    }
    let mut line = Vec::new(alloc);
    append(&mut line, verb.as_bytes())?;
    Ok(line)
}

/// A line of two words.
pub(crate) fn line_of_two(alloc: Global, verb: &str, word: String) -> Result<BookLines, ArgsFault>
    ensures { GivesLines (line_of verb.now (word ∷ [])) result }
{
    let mut line = first_word(alloc, verb)?;
    add(&mut line, word.as_bytes())?;
    Ok(BookLines::Line(line))
}

/// A line of three words.
pub(crate) fn line_of_three(
    alloc: Global,
    verb: &str,
    one: String,
    two: String,
) -> Result<BookLines, ArgsFault>
    ensures { GivesLines (line_of verb.now (one ∷ two ∷ [])) result }
{
    let mut line = first_word(alloc, verb)?;
    add(&mut line, one.as_bytes())?;
    add(&mut line, two.as_bytes())?;
    Ok(BookLines::Line(line))
}

/// A line of four words or more.
pub(crate) fn line_of_more(
    alloc: Global,
    verb: &str,
    one: String,
    two: String,
    three: String,
    words: IntoIter<String>,
) -> Result<BookLines, ArgsFault>
    ensures { GivesLines (line_of verb.now (one ∷ two ∷ three ∷ into_iter_items words)) result }
{
    let mut line = first_word(alloc, verb)?;
    add(&mut line, one.as_bytes())?;
    add(&mut line, two.as_bytes())?;
    add(&mut line, three.as_bytes())?;
    line_by(line, words)
}
