//! A range of changes taken out of the book of a file.

ghost use Rattle.kept_host.specs.Ranges.{TakesInFile};

use crate::range::kept::take_kept;
use crate::range::taken::Taken;
use console_script::HostKind;
use console_text::Output;
use kept_file::Terms;
use kept_lines::{Asides, Databases, InFileFault, SerialRange};

/// Takes the range of changes that a line spells out of the book that the file of this path keeps, or none of them, as
/// [`take_kept`] does on a connection to it. A file that is not there is made. For one that is in use it waits so many seconds.
///
/// # Errors
/// Unopened if the file is not opened, and then nothing was done, and those of [`take_kept`].
pub fn take_in_file<R: Databases + AllocGlobal, A: Asides<HostKind, W>, W: Output>(
    rt: &R,
    path: &str,
    seconds: u32,
    terms: Terms,
    line: &[u8],
    range: SerialRange,
    asides: &mut A,
    out: &mut W,
) -> Result<Taken, InFileFault>
    ensures { TakesInFile (R.may_open rt.now path.now seconds) (R.may_be_time rt.now) terms range (W.contents out.old) (W.contents out.new) result }
{
    let mut it = match rt.open_database(path, seconds) {
        Ok(it) => it,
        Err(error) => return Err(InFileFault::Unopened(error)),
    };
    let time = rt.milliseconds();
    let alloc = rt.alloc();
    let conn = &mut it.conn;
    let taken = take_kept(alloc, conn, time, terms, line, range, asides, out);
    let _ = rt.close_database(it);
    match taken {
        Ok(taken) => Ok(taken),
        Err(fault) => Err(InFileFault::Kept(fault)),
    }
}
