//! Looks into the journal of a kept book.

ghost use Rattle.std.specs.Prelude.{◌≡◌, IfOk, IfErr, OnErr};
ghost use Rattle.sqlite.specs.Held.{state};
ghost use Rattle.console_looks.specs.Answered.{ShowsFront};
ghost use Rattle.kept_lines.specs.declared.fault.LinesFault.TheVariants.{Write};
ghost use Rattle.kept_host.specs.Looks.{counts_of, ShowsCounted, LooksAt, LooksFront, LooksKept};

use bt_journal::Book;
use bt_mapkind::MapKind;
use bt_syntax::NoMemory;
use console_looks::{Look, Showing, answer_show};
use console_script::{HostKind, Summary};
use console_text::Output;
use kept_file::Terms;
use kept_lines::{Asides, KeptFault, LinesFault, begin};
use sqlite::{Alter, Connection};
use std::alloc::Global;
use std::mem::ManuallyDrop;

// How a line that asked for a serial counts.
fn counts_of(looked: &Result<Showing, NoMemory>) -> Summary
    ensures { result ≡ counts_of looked.now }
{
    match looked {
        Ok(Showing::Found(_)) => Summary {
            accepted: 1,
            refused: 0,
        },
        Ok(Showing::NotInForce | Showing::Older(_)) | Err(_) => Summary {
            accepted: 0,
            refused: 1,
        },
    }
}

// Shows the change of a serial in a book.
fn show_now<K: MapKind, W: Output>(
    book: &mut Book<K>,
    serial: u64,
    out: &mut W,
) -> Result<Summary, LinesFault>
    ensures shown { IfOk result (ShowsCounted serial book.old.plain (W.contents out.old) (W.contents out.new)) }
    ensures front { OnErr result (ShowsFront serial book.old.plain (W.contents out.old) (W.contents out.new)) }
    ensures refused { OnErr result (W.has_refused out.new) }
    ensures only { IfErr result (λ fault. fault ≡ Write) }
    ensures same { book.new.plain ≡ book.old.plain }
{
    match answer_show(book, serial, out) {
        Ok(looked) => Ok(counts_of(&looked)),
        Err(_) => Err(LinesFault::Write),
    }
}

/// Does what a line asks that only looks into the journal: shows the change of a serial on the output, or has it told what an undo
/// would take back. The book stays as it is. A serial whose change is shown counts as an accepted line and any other as a refused
/// one; an undo that is only looked at counts as none.
///
/// # Errors
/// Write if a write fails; a front of what there is to show was written.
pub fn look_now<K: MapKind, A: Asides<K, W>, W: Output>(
    book: &mut Book<K>,
    look: &Look<'_>,
    asides: &mut A,
    out: &mut W,
) -> Result<Summary, LinesFault>
    ensures looked { IfOk result (LooksAt look.now book.old.plain (W.contents out.old) (W.contents out.new)) }
    ensures front { OnErr result (LooksFront look.now book.old.plain (W.contents out.old) (W.contents out.new)) }
    ensures refused { OnErr result (W.has_refused out.new) }
    ensures only { IfErr result (λ fault. fault ≡ Write) }
    ensures same { book.new.plain ≡ book.old.plain }
{
    match look {
        Look::Show(serial) => show_now(book, *serial, out),
        Look::DryUndo(mark) => {
            asides.would_undo(book, mark);
            Ok(Summary {
                accepted: 0,
                refused: 0,
            })
        }
    }
}

/// Does what a line asks that only looks into the journal of the book that a database keeps, as [`look_now`] does. In a database
/// that has no table a book of these terms is made first; else nothing is written to it. The connection is to be closed.
///
/// # Errors
/// Those of [`begin`], after which nothing was looked at, and Lines with that of [`look_now`].
pub fn look_kept<D: Alter, A: Asides<HostKind, W>, W: Output>(
    alloc: Global,
    conn: &mut Connection<D>,
    terms: Terms,
    look: &Look<'_>,
    asides: &mut A,
    out: &mut W,
) -> Result<Summary, KeptFault>
    ensures { LooksKept terms look.now (state D.Store conn.old) (state D.Store conn.new) (W.contents out.old) (W.contents out.new) result }
{
    let mut book: Book<HostKind> = match begin(alloc, conn, terms) {
        Ok(book) => book,
        Err(fault) => return Err(fault),
    };
    let looked = look_now(&mut book, look, asides, out);
    let _book = ManuallyDrop::new(book);
    match looked {
        Ok(summary) => Ok(summary),
        Err(fault) => Err(KeptFault::Lines(fault)),
    }
}
