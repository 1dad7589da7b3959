//! The lines of an input, read one by one.

ghost use Rattle.std.specs.Prelude.{◌≡◌, ◌+◌, IfOk, OnOk, IfSome, length};
ghost use Rattle.std.specs.Io.BufRead.{take_through, DropsThrough};

use console_input::{Cause, MOST_SCRIPT, ReadFault, read_fault};
use std::io::BufRead;

/// Reads the next line with its line feed, no byte at the end of the input, and tells how many bytes may still come.
///
/// # Errors
/// `Unread` if a read fails or more bytes come than so many, and `NoMemory` if there is none for the line.
pub fn read_line<I: BufRead>(input: &mut I, line: &mut Vec<u8>, left: u64) -> Result<u64, ReadFault>
    ensures line { OnOk result (IfSome (I.remaining input.old) (λ text. line.new.items ≡ take_through 10 text)) }
    ensures rest { OnOk result (DropsThrough (I.remaining input.old) (I.remaining input.new) 10) }
    ensures left { IfOk result (λ still. length line.new.items + still ≡ left) }
{
    line.clear();
    match input.read_until(b'\n', line) {
        Ok(count) => left
            .checked_sub(count as u64)
            .ok_or(ReadFault::Unread(Cause::TooLong(MOST_SCRIPT))),
        Err(error) => Err(read_fault(error)),
    }
}
