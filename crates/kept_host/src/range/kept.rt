//! A range of changes taken out of the book of a database.

ghost use Rattle.std.specs.Prelude.{◌≡◌, IfOk};
ghost use Rattle.sqlite.specs.Held.{state};
ghost use Rattle.kept_lines.specs.Begun.{AddsToBook};
ghost use Rattle.kept_host.specs.Taking.{IfAll};
ghost use Rattle.kept_host.specs.Ranges.{TakesKept};

use crate::range::fault::RangeFault;
use crate::range::taken::Taken;
use crate::range::taking::take_range;
use crate::range::told::told;
use bt_journal::Book;
use console_script::HostKind;
use console_text::Output;
use kept_file::Terms;
use kept_lines::{Asides, HostBoxes, KeptFault, SerialRange, begin};
use sqlite::{Alter, Connection};
use std::alloc::Global;
use std::mem::ManuallyDrop;

/// Takes the range of changes that a line spells out of the book that a database keeps, or none of them, as [`take_range`] does. In
/// a database that has no table a book of these terms is made first. What is taken out is kept at this time in milliseconds since
/// 1970. After the answers it is told what was taken out, or why nothing was. The connection is to be closed.
///
/// # Errors
/// Those of [`begin`], after which nothing was done, and those of [`take_range`].
pub fn take_kept<D: Alter, A: Asides<HostKind, W>, W: Output>(
    alloc: Global,
    conn: &mut Connection<D>,
    time: u64,
    terms: Terms,
    line: &[u8],
    range: SerialRange,
    asides: &mut A,
    out: &mut W,
) -> Result<Taken, KeptFault>
    ensures takes { TakesKept terms range (state D.Store conn.old) (state D.Store conn.new) (W.contents out.old) (W.contents out.new) result }
    ensures times { IfOk result (λ taken. IfAll taken (AddsToBook terms time (state D.Store conn.old) (state D.Store conn.new))) }
{
    let mut book: Book<HostKind> = match begin(alloc, conn, terms) {
        Ok(book) => book,
        Err(fault) => return Err(fault),
    };
    asides.before(&book, line);
    let mut boxes = HostBoxes::new(alloc);
    match take_range(alloc, conn, time, &mut book, &mut boxes, range, out) {
        Ok(taken) => {
            told(asides, &mut book, 1, line, taken, out);
            let _book = ManuallyDrop::new(book);
            Ok(taken)
        }
        Err(fault) => {
            let _book = ManuallyDrop::new(book);
            match fault {
                RangeFault::Lines(fault) => Err(KeptFault::Lines(fault)),
                RangeFault::Open(fault) => Err(KeptFault::Open(fault)),
            }
        }
    }
}
