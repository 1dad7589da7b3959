//! What texts are written to.

ghost use Rattle.std.specs.Prelude.{◌<◌, ◌≤◌, ℕ, List, Option, None, IfOk, OnErr, length};
ghost use Rattle.std.specs.Io.KnownBytes.{Keeps, WriteAppends};

use std::io::Write;

/// A write or a flush failed, or a write took no byte.
#[derive(Clone, Copy, PartialEq, Eq, Debug)]
pub struct WriteFault;

/// What a text is written to. Each `Write` is one.
pub trait Output {
    // The bytes that it holds, if they are known.
    ghost contents: { Self → Option (List ℕ) } = { λ _. None };

    // Its last write or flush failed, or took no byte.
    ghost has_refused: { Self → Type 0 } = { λ _. Unit {0} };

    /// Writes a front of this text, and tells how many bytes that has: at least one, if the text has any.
    ///
    /// # Errors
    /// `WriteFault` if the write fails or takes no byte. Nothing was written.
    fn write_front(&mut self, text: &[u8]) -> Result<usize, WriteFault>
        ensures some { IfOk result (λ count. 0 < length text.now → 0 < count) }
        ensures bound { IfOk result (λ count. count ≤ length text.now) }
        ensures bytes { WriteAppends (contents self.old) (contents self.new) result text.now }
        ensures refused { OnErr result (has_refused self.new) };

    /// Has all that was written leave the buffers of this output.
    ///
    /// # Errors
    /// `WriteFault` if the flush fails. What was written before may have left them in part.
    fn flush_all(&mut self) -> Result<(), WriteFault>
        ensures bytes { Keeps (contents self.old) (contents self.new) }
        ensures refused { OnErr result (has_refused self.new) };
}

// One write of a text.
fn front_written<W: Write>(out: &mut W, text: &[u8]) -> Result<usize, WriteFault>
    ensures some { IfOk result (λ count. 0 < length text.now → 0 < count) }
    ensures bound { IfOk result (λ count. count ≤ length text.now) }
    ensures bytes { WriteAppends (W.contents out.old) (W.contents out.new) result text.now }
{
    match out.write(text) {
        Ok(0) => Err(WriteFault),
        Ok(count) => Ok(count),
        Err(_) => Err(WriteFault),
    }
}

impl<W: Write> Output for W {
    ghost contents = { W.contents };

    fn write_front(&mut self, text: &[u8]) -> Result<usize, WriteFault> {
        front_written(self, text)
    }

    fn flush_all(&mut self) -> Result<(), WriteFault> {
        match self.flush() {
            Ok(()) => Ok(()),
            Err(_) => Err(WriteFault),
        }
    }
}
