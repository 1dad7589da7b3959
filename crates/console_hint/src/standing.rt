//! What may stand where a line goes wrong.

ghost use Rattle.std.specs.Prelude.{◌≡◌, ◌-◌, slice_get, IfOk};
ghost use Rattle.std.specs.Option.{option_copied};
ghost use Rattle.console_operand.specs.Word.{words};

use crate::shown::Shown;
use crate::word::{behind, can_stand, front_of, reads_past, word_at};
use console_operand::first_word;
use std::alloc::{AllocError, Global};
use std::fmt;

/// Words that stand somewhere in a command.
const WORDS: [&str; 60] = [
    "map",
    "prog",
    "net",
    "batch",
    "unpin",
    "frame",
    "run",
    "journal",
    "show",
    "list",
    "create",
    "dump",
    "update",
    "lookup",
    "getnext",
    "delete",
    "peek",
    "push",
    "enqueue",
    "pop",
    "dequeue",
    "freeze",
    "pin",
    "load",
    "xlated",
    "attach",
    "detach",
    "xdp",
    "file",
    "start",
    "step",
    "mark",
    "undo",
    "redo",
    "forget",
    "without",
    "id",
    "pinned",
    "name",
    "key",
    "value",
    "any",
    "exist",
    "noexist",
    "type",
    "entries",
    "flags",
    "inner_map",
    "dev",
    "overwrite",
    "hex",
    "array",
    "hash",
    "lpm_trie",
    "queue",
    "stack",
    "array_of_maps",
    "prog_array",
    "hash_of_maps",
    "hex:00",
];

/// What may stand where a line goes wrong.
#[derive(Drop)]
pub struct WordHint<'a> {
    /// The word that stands there; none if the line ends too early.
    pub word: Option<&'a [u8]>,
    /// Whether it reads on with `hex` in front of its bytes.
    lacks_hex: bool,
    /// Whether it begins with `hex:`, and other digits may come after that.
    lacks_digits: bool,
    /// Its digits after the zeros with which it begins, if these may stand and make it octal.
    decimal: Option<&'a [u8]>,
    /// What may stand there where any word may.
    any: Option<&'static str>,
    /// Which numbers may.
    number: Option<&'static str>,
    /// Which words may.
    words: Vec<&'static str>,
    /// Which words may that no command has, divided by `, `; mostly none.
    pub beside: &'static str,
}

// Whether it is a name that may come after the first so many words of a line, where any word may: the last of them asks for
// one, and is none itself.
fn takes_name(alloc: Global, line: &[u8], count: usize) -> Result<bool, AllocError> {
    let Some(before) = word_at(line, count) else {
        return Ok(false);
    };
    let asks = matches!(before, b"name" | b"dev" | b"mark" | b"undo" | b"forget");
    Ok(asks && !can_stand(alloc, line, count.saturating_sub(1), b"?")?)
}

// What may come after the first so many words of a line where any word may: a name, a path, or what is loaded.
fn any_behind(
    alloc: Global,
    line: &[u8],
    count: usize,
) -> Result<Option<&'static str>, AllocError> {
    if !can_stand(alloc, line, count, b"?")? {
        Ok(None)
    } else if !can_stand(alloc, line, count, b"hex:0")? {
        Ok(Some("hex: and digits, or the path of a file"))
    } else if takes_name(alloc, line, count)? {
        Ok(Some("a name"))
    } else {
        Ok(Some("a path"))
    }
}

// Which numbers may come after the first so many words of a line.
fn number_behind(
    alloc: Global,
    line: &[u8],
    count: usize,
) -> Result<Option<&'static str>, AllocError> {
    if !can_stand(alloc, line, count, b"1")? {
        Ok(None)
    } else if can_stand(alloc, line, count, b"ff")? {
        Ok(Some("a byte in hexadecimal"))
    } else if !can_stand(alloc, line, count, b"256")? {
        Ok(Some("a number up to 255"))
    } else if !can_stand(alloc, line, count, b"4294967296")? {
        Ok(Some("a number below 2^32"))
    } else {
        Ok(Some("a number below 2^64"))
    }
}

// Which words may come after the first so many of a line.
fn words_behind(alloc: Global, line: &[u8], count: usize) -> Result<Vec<&'static str>, AllocError> {
    let mut found = Vec::new(alloc);
    for word in WORDS.iter() {
        if can_stand(alloc, line, count, word.as_bytes())? {
            found.push(*word)?;
        }
    }
    Ok(found)
}

// How many words there are up to the last `key` or `value` among the first so many.
fn up_to_data(line: &[u8], count: usize) -> usize {
    let mut rest = line;
    let mut last = 0;
    for number in 0..count {
        let Some((word, after)) = first_word(rest) else {
            return last;
        };
        if matches!(word, b"key" | b"value") {
            last = number + 1;
        }
        rest = after;
    }
    last
}

// Whether a line that goes wrong after so many words reads on past the next one with `hex` in front of the bytes.
fn lacks_hex(alloc: Global, line: &[u8], count: usize) -> Result<bool, AllocError> {
    let data = up_to_data(line, count);
    if data == 0 {
        return Ok(false);
    }
    let mut candidate = Vec::from_slice(alloc, front_of(line, data))?;
    candidate.extend_from_slice(b" hex ")?;
    candidate.extend_from_slice(behind(line, data))?;
    reads_past(alloc, candidate.as_slice(), count.saturating_add(1))
}

// Whether a word that goes wrong after so many begins with `hex:`, and digits may stand there.
fn lacks_digits(
    alloc: Global,
    line: &[u8],
    count: usize,
    word: Option<&[u8]>,
) -> Result<bool, AllocError> {
    match word {
        Some(word) if word.starts_with(b"hex:") => can_stand(alloc, line, count, b"hex:00"),
        _ => Ok(false),
    }
}

// What comes after the zeros with which a word begins.
fn without_zeros(word: &[u8]) -> &[u8] {
    match word.iter().position(|byte| *byte != b'0') {
        Some(first) => &word[first..],
        None => b"".as_slice(),
    }
}

fn are_decimal(digits: &[u8]) -> bool {
    digits.iter().all(|byte| byte.is_ascii_digit())
}

// The digits of a word that goes wrong after so many, without the zeros with which it begins, if they may stand there.
fn decimal_of<'a>(
    alloc: Global,
    line: &[u8],
    count: usize,
    word: Option<&'a [u8]>,
) -> Result<Option<&'a [u8]>, AllocError> {
    let Some(word) = word else {
        return Ok(None);
    };
    let digits = without_zeros(word);
    if digits.is_empty() || digits.len() == word.len() || !are_decimal(digits) {
        return Ok(None);
    }
    if can_stand(alloc, line, count, digits)? {
        Ok(Some(digits))
    } else {
        Ok(None)
    }
}

/// What may stand at the word of this number, counted from 1, where a line goes wrong.
pub fn word_hint(alloc: Global, line: &[u8], number: usize) -> Result<WordHint<'_>, AllocError>
    ensures { IfOk result (λ hint. option_copied hint.word ≡ slice_get (words line.now) (number - 1)) }
{
    let count = number.saturating_sub(1);
    let word = word_at(line, number);
    Ok(WordHint {
        word,
        lacks_hex: word.is_some() && lacks_hex(alloc, line, count)?,
        lacks_digits: lacks_digits(alloc, line, count, word)?,
        decimal: decimal_of(alloc, line, count, word)?,
        any: any_behind(alloc, line, count)?,
        number: number_behind(alloc, line, count)?,
        words: words_behind(alloc, line, count)?,
        beside: "",
    })
}

// Writes what to put in place of a number that is octal by its first 0.
fn put_decimal<W: fmt::Write>(
    f: &mut fmt::Formatter<W>,
    digits: &[u8],
    lacks_hex: bool,
) -> fmt::Result {
    let digits = Shown(digits);
    write!(f, "a leading 0 makes it octal: write `{digits}`")?;
    if lacks_hex {
        f.write_str(", or `hex` before hexadecimal bytes")?;
    }
    Ok(())
}

// A word as it is shown among those that may stand there.
fn shown_word(word: &'static str) -> &'static str {
    match word {
        "hex:00" => "hex: and digits",
        other => other,
    }
}

// Writes one of the things that may stand there, after others unless it is the first.
fn put_part<W: fmt::Write>(f: &mut fmt::Formatter<W>, is_first: bool, text: &str) -> fmt::Result {
    if !is_first {
        f.write_str(", ")?;
    }
    f.write_str(text)
}

// Writes what may stand there.
fn put_words<W: fmt::Write>(f: &mut fmt::Formatter<W>, hint: &WordHint<'_>) -> fmt::Result {
    f.write_str("what can: ")?;
    let mut is_first = true;
    if let Some(number) = hint.number {
        f.write_str(number)?;
        is_first = false;
    }
    for word in hint.words.iter() {
        put_part(f, is_first, shown_word(word))?;
        is_first = false;
    }
    if !hint.beside.is_empty() {
        put_part(f, is_first, hint.beside)
    } else if is_first {
        f.write_str("nothing more")
    } else {
        Ok(())
    }
}

// Writes which word goes wrong, if one does.
fn put_word<W: fmt::Write>(f: &mut fmt::Formatter<W>, word: Option<&[u8]>) -> fmt::Result {
    match word {
        Some(word) => {
            let shown = Shown(word);
            write!(f, "`{shown}` cannot stand there; ")
        }
        None => f.write_str("the line ends too early; "),
    }
}

impl fmt::Display for WordHint<'_> {
    fn fmt<W: fmt::Write>(&self, f: &mut fmt::Formatter<W>) -> fmt::Result {
        put_word(f, self.word)?;
        if let Some(digits) = self.decimal {
            put_decimal(f, digits, self.lacks_hex)
        } else if self.lacks_hex {
            f.write_str("write `hex` before hexadecimal bytes")
        } else if self.lacks_digits {
            f.write_str("after `hex:` comes an even number of digits, in a frame at most 8192")
        } else if let Some(any) = self.any {
            write!(f, "what can: {any}")
        } else {
            put_words(f, self)
        }
    }
}
