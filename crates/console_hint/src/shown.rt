//! Bytes as an operator reads them.

use std::fmt;

/// How many bytes are shown at most.
const MOST: usize = 60;

/// Bytes of a line: those that are no printed letters of ASCII are shown as `\x` and two digits, and of many the first 60.
#[derive(Clone, Copy)]
pub struct Shown<'a>(pub &'a [u8]);

fn put<W: fmt::Write>(f: &mut fmt::Formatter<W>, byte: u8) -> fmt::Result {
    if matches!(byte, b' '..=b'~') {
        let letter = char::from(byte);
        write!(f, "{letter}")
    } else {
        write!(f, "\\x{byte:02x}")
    }
}

impl fmt::Display for Shown<'_> {
    fn fmt<W: fmt::Write>(&self, f: &mut fmt::Formatter<W>) -> fmt::Result {
        let Shown(bytes) = *self;
        for byte in bytes.iter().take(MOST) {
            put(f, *byte)?;
        }
        if bytes.len() > MOST {
            f.write_str("..")?;
        }
        Ok(())
    }
}
