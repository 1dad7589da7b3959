//! Bytes that are handed in as a program, and words that are handed in as the path of one.

ghost use Rattle.std.specs.Prelude.{◌≡◌};
ghost use Rattle.std.specs.Char.{is_ascii_hexdigit};
ghost use Rattle.std.specs.List.{list_all};
ghost use Rattle.console_hint.specs.Objects.{object_fault, are_digits};

use std::fmt;

/// What bytes are that were meant as a program.
#[derive(Clone, Copy)]
pub enum ObjectFault {
    /// An object file (elf(5)).
    Elf,
    /// The text that a line has in place of a path.
    Text,
    /// None at all.
    Empty,
}

/// What bytes are that are no program, if a hint can tell by their beginning.
pub fn object_fault(bytes: &[u8]) -> Option<ObjectFault>
    ensures { result ≡ object_fault bytes.now }
{
    if bytes.starts_with(b"\x7fELF") {
        Some(ObjectFault::Elf)
    } else if bytes.starts_with(b"hex:") {
        Some(ObjectFault::Text)
    } else if bytes.is_empty() {
        Some(ObjectFault::Empty)
    } else {
        None
    }
}

// Whether a word has hexadecimal digits alone.
fn has_digits_alone(word: &[u8]) -> bool
    ensures { result ≡ list_all is_ascii_hexdigit word.now }
{
    word.iter().all(|byte| byte.is_ascii_hexdigit())
}

/// Whether a word would spell bytes after `hex:`: it has digits alone, and pairs of them.
pub fn are_digits(word: &[u8]) -> bool
    ensures { result ≡ are_digits word.now }
{
    word.len() % 2 == 0 && has_digits_alone(word)
}

impl ObjectFault {
    fn text(self) -> &'static str {
        match self {
            ObjectFault::Elf =>
                "these bytes are an ELF file, and a program is the bytes of its section alone: `llvm-objcopy -O binary --only-section=xdp FILE BYTES` writes them",
            ObjectFault::Text =>
                "these bytes are a text that begins with `hex:`: write the text itself in place of its path, or the bytes that it spells into the file",
            ObjectFault::Empty =>
                "there are no bytes: a program has at least an action in R0 and EXIT, as `hex:b7000000020000009500000000000000` has, which passes each frame",
        }
    }
}

impl fmt::Display for ObjectFault {
    fn fmt<W: fmt::Write>(&self, f: &mut fmt::Formatter<W>) -> fmt::Result {
        f.write_str(self.text())
    }
}
