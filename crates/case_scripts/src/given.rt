//! A given line: what stands for other text in it, and its bytes.

use anyhow::{Context, Result, bail};
use std::alloc::Global;

/// A name and the text for which it stands.
#[derive(Drop)]
pub struct Definition<'a> {
    name: &'a str,
    text: String,
}

// How often a text is meant, and the text.
fn counted(text: &str) -> Result<(u32, &str)> {
    match text.split_once(" * ") {
        Some((count, text)) => Ok((count.parse().context("a count of a text")?, text)),
        None => Ok((1, text)),
    }
}

impl<'a> Definition<'a> {
    /// The definition `NAME = TEXT`, or `NAME = COUNT * TEXT` for a text so many times.
    pub fn of(alloc: Global, words: &'a str) -> Result<Self> {
        let Some((name, text)) = words.split_once(" = ") else {
            bail!("a definition is NAME = TEXT");
        };
        let (count, text) = counted(text)?;
        let text = text.repeat(alloc, count as usize)?;
        Ok(Definition { name, text })
    }
}

// The digit of a hexadecimal byte.
fn digit(byte: u8) -> Result<u8> {
    match byte {
        b'0'..=b'9' => Ok(byte - b'0'),
        b'a'..=b'f' => Ok(byte - b'a' + 10),
        _ => bail!("a digit of a byte is 0 to 9 or a to f"),
    }
}

// The byte that the text after a backslash stands for, and what comes after it.
fn escaped(text: &[u8]) -> Result<(u8, &[u8])> {
    match text {
        [b'x', high, low, plain @ ..] => Ok(((digit(*high)? << 4) | digit(*low)?, plain)),
        [b'r', plain @ ..] => Ok((b'\r', plain)),
        [b't', plain @ ..] => Ok((b'\t', plain)),
        _ => bail!("after a backslash comes xHH, r or t"),
    }
}

// Appends text in which `\xHH` stands for a byte, `\r` for a carriage return and `\t` for a tab.
fn push_text(bytes: &mut Vec<u8>, text: &[u8]) -> Result<()> {
    let mut pieces = text.split(|byte| *byte == b'\\');
    if let Some(plain) = pieces.next() {
        bytes.extend_from_slice(plain)?;
    }
    for piece in pieces {
        let (byte, plain) = escaped(piece)?;
        bytes.push(byte)?;
        bytes.extend_from_slice(plain)?;
    }
    Ok(())
}

// The name at the front of a text, and what comes after it.
fn split_name(text: &[u8]) -> (&[u8], &[u8]) {
    match text
        .iter()
        .position(|byte| !byte.is_ascii_alphanumeric() && *byte != b'_')
    {
        Some(end) => text.split_at(end),
        None => (text, b""),
    }
}

// The text for which a name stands.
fn text_of<'a>(definitions: &'a [Definition<'_>], name: &[u8]) -> Result<&'a str> {
    match definitions.iter().find(|it| it.name.as_bytes() == name) {
        Some(definition) => Ok(definition.text.as_str()),
        None => bail!("a name after $ that no earlier line defines"),
    }
}

/// Appends the bytes of a given line: `$NAME` stands for what was defined so. LF goes after it, but where the text ends
/// with `\c`.
pub fn push_given(bytes: &mut Vec<u8>, definitions: &[Definition<'_>], text: &str) -> Result<()> {
    let (text, is_open) = match text.strip_suffix("\\c") {
        Some(text) => (text, true),
        None => (text, false),
    };
    let mut pieces = text.split('$');
    if let Some(plain) = pieces.next() {
        push_text(bytes, plain.as_bytes())?;
    }
    for piece in pieces {
        let (name, plain) = split_name(piece.as_bytes());
        push_text(bytes, text_of(definitions, name)?.as_bytes())?;
        push_text(bytes, plain)?;
    }
    if !is_open {
        bytes.push(b'\n')?;
    }
    Ok(())
}
