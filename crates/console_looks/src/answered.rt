//! What was looked at for a serial, written.

ghost use Rattle.std.specs.Prelude.{◌≡◌, IfOk, OnErr};
ghost use Rattle.console_text.specs.Written.{Writes};
ghost use Rattle.console_looks.specs.Answered.{looked_text, ShowsLooked, ShowsFront};

use crate::shown::{Showing, show};
use crate::shown_text::put_shown;
use bt_journal::Book;
use bt_mapkind::MapKind;
use console_answer::Fault;
use console_text::{Output, WriteFault, put_fault};
use host_words::NoMemory;

/// Writes what there is to show of a serial, as [`put_shown`] does, or that there was no memory to look.
pub fn put_looked<W: Output>(
    out: &mut W,
    looked: &Result<Showing, NoMemory>,
) -> Result<(), WriteFault>
    ensures text { Writes (W.contents out.old) (W.contents out.new) result (looked_text looked.now) }
    ensures refused { OnErr result (W.has_refused out.new) }
{
    match looked {
        Ok(it) => put_shown(out, it),
        Err(_) => put_fault(out, Fault::NoMemory),
    }
}

/// Shows the change of a serial: looks at it, and has what there is to show stand on the output when it returns. Tells what that
/// was. The book is as it was.
///
/// # Errors
/// `WriteFault` if a write fails; a front of it was written.
pub fn answer_show<K: MapKind, W: Output>(
    book: &mut Book<K>,
    serial: u64,
    out: &mut W,
) -> Result<Result<Showing, NoMemory>, WriteFault>
    ensures shown { IfOk result (ShowsLooked serial book.old.plain (W.contents out.old) (W.contents out.new)) }
    ensures front { OnErr result (ShowsFront serial book.old.plain (W.contents out.old) (W.contents out.new)) }
    ensures same { book.new.plain ≡ book.old.plain }
    ensures refused { OnErr result (W.has_refused out.new) }
{
    let looked = show(book, serial);
    match put_looked(out, &looked) {
        Ok(()) => {}
        Err(fault) => return Err(fault),
    }
    match out.flush_all() {
        Ok(()) => Ok(looked),
        Err(fault) => Err(fault),
    }
}
