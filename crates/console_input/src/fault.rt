//! Why something was not read.

use std::{fmt, io};

/// Why an input was not read.
#[derive(Clone, Copy, Debug)]
pub enum Cause {
    /// It could not be opened, or a read failed.
    Failed(io::Error),
    /// It has more bytes than so many.
    TooLong(u64),
}

impl fmt::Display for Cause {
    fn fmt<W: fmt::Write>(&self, f: &mut fmt::Formatter<W>) -> fmt::Result {
        match self {
            Cause::Failed(error) => write!(f, "{error}"),
            Cause::TooLong(most) => write!(f, "it has more than {most} bytes"),
        }
    }
}

/// Why there are no bytes of an input.
#[derive(Clone, Copy, Debug)]
pub enum ReadFault {
    /// There is no memory for them.
    NoMemory,
    /// It was not read.
    Unread(Cause),
}

/// Why the arguments ask for nothing.
#[derive(Clone, Copy, Debug)]
pub enum ArgsFault {
    /// They are none of the forms that the program has.
    Usage,
    /// They are none of these forms, and the first is the first word of a command, as `map`.
    Command,
    /// One of those that spell a line for a book is no word: it is empty, or has a space, a tab, `#` or a line feed in it.
    NoWord,
    /// They ask of a book in a file what there is for none: `host` with a script after its frames, or `live` with a number of workers
    /// or of moments.
    NotOfBook,
    /// The environment names a book by what is not UTF-8.
    BadBook,
    /// They were not read.
    Read(ReadFault),
}
