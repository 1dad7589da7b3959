//! Where the lines of a live host come from.

use console_talk::{ReadFault, read_line};
use std::io::BufRead;
use std::time::Duration;

/// What a call for the next line of an input came to.
#[derive(Clone, Copy, Debug, PartialEq, Eq)]
pub enum Heard {
    /// It came. So many bytes may still come after it.
    Line(u64),
    /// None has come yet.
    NotYet,
    /// The input is at its end.
    End,
}

/// The lines of an input, each of which is heard when it has come.
pub trait Lines {
    ghost use Rattle.std.specs.Prelude.{ℕ, List, Option, None, IfOk};
    ghost use Rattle.thread_kept_frames.specs.Hearing.{Hears};

    // The bytes of the input that are still to come, if they are known.
    ghost remaining: { Self → Option (List ℕ) } = { λ _. None };

    /// Hears the next line, with its line feed, of an input of which so many bytes may still come. For one that has not come yet
    /// it waits so long, and no longer; then it is `NotYet`, and nothing changed.
    ///
    /// # Errors
    /// `Unread` if a read fails or more bytes come than so many, and `NoMemory` if there is none for the line.
    fn hear(
        &mut self,
        line: &mut Vec<u8>,
        left: u64,
        patience: Duration,
    ) -> Result<Heard, ReadFault>
        ensures { IfOk result (Hears (remaining self.old) (remaining self.new) line.new.items left) };
}

/// An input whose lines are all there: each is heard at once.
#[derive(Drop)]
pub struct Ready<I: Drop> {
    pub input: I,
}

impl<I: BufRead + Drop> Lines for Ready<I> {
    ghost remaining = { λ it. I.remaining it.input };

    fn hear(
        &mut self,
        line: &mut Vec<u8>,
        left: u64,
        _patience: Duration,
    ) -> Result<Heard, ReadFault> {
        match read_line(&mut self.input, line, left) {
            Ok(still) => {
                if line.is_empty() {
                    return Ok(Heard::End);
                }
                Ok(Heard::Line(still))
            }
            Err(fault) => Err(fault),
        }
    }
}
