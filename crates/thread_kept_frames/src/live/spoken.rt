//! What a thread that reads lines hands over.

ghost use Rattle.std.specs.Prelude.{◌<◌, length};

use console_talk::ReadFault;

/// A line with its line feed, or a last one that has none.
#[derive(Drop)]
pub(crate) struct SpokenLine {
    pub(crate) bytes: Vec<u8>,
    ghost some: { 0 < length bytes.items },
}

/// What comes after the last line.
#[derive(Clone, Copy)]
pub(crate) enum Last {
    /// The input is at its end.
    End,
    /// The next line was not read.
    Fault(ReadFault),
}

/// What a thread that reads lines hands over.
#[derive(Drop)]
pub(crate) enum Spoken {
    /// The next line.
    Line(SpokenLine),
    /// Nothing comes after this.
    Last(Last),
}
