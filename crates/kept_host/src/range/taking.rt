//! A range of changes taken out of a kept book, and kept.

ghost use Rattle.std.specs.Prelude.{◌≡◌, false, List, IfOk, IfErr, OnOk, OnErr};
ghost use Rattle.std.specs.Io.KnownBytes.{Appends};
ghost use Rattle.sqlite.specs.State.{HasCleanDisk};
ghost use Rattle.sqlite.specs.Held.{state};
ghost use Rattle.journal_model.specs.Book.{PlainBook};
ghost use Rattle.console_text.specs.Text.{fault_text};
ghost use Rattle.console_text.specs.Written.{WritesFront};
ghost use Rattle.kept_event.specs.declared.event.KeptEvent.{KeptEvent as Event};
ghost use Rattle.kept_ledger.specs.TermsView.{PlainTerms};
ghost use Rattle.kept_ledger.specs.Ledger.{IsLedger, LeavesOnly};
ghost use Rattle.kept_file.specs.Keeps.{HoldsBook, HoldsOne};
ghost use Rattle.kept_lines.specs.Kept.{IsOnDisk, IsKept, IsUnkept, AddsAt, IsLost};
ghost use Rattle.kept_host.specs.Taking.{AllOrNone, ComesTo, UnlessAll, IfAll, Stops};

use crate::range::fault::RangeFault;
use crate::range::held::Held;
use crate::range::taken::Taken;
use crate::range::takings::take_each;
use bt_journal::Book;
use bt_mapkind::MapKind;
use console_answer::Fault;
use console_text::{Output, put, put_fault};
use kept_file::{MakeBox, OpenFault, open_book};
use kept_lines::{LinesFault, SerialRange, chosen, keep_events};
use sqlite::{Alter, Connection};
use std::alloc::Global;

// Keeps what is held back, and then writes its answers.
fn keep_held<D: Alter, W: Output>(
    alloc: Global,
    conn: &mut Connection<D>,
    time: u64,
    held: &Held,
    out: &mut W,
) -> Result<(), LinesFault>
    ensures clean { HasCleanDisk (state D.Store conn.new) → HasCleanDisk (state D.Store conn.old) }
    ensures kept { OnOk result (IsKept (state D.Store conn.old) (state D.Store conn.new) held.now.events.items) }
    ensures times { OnOk result (AddsAt time (state D.Store conn.old) (state D.Store conn.new)) }
    ensures text { OnOk result (Appends (W.contents out.old) (W.contents out.new) held.now.text.items) }
    ensures lost { IfErr result (IsLost (state D.Store conn.old) (state D.Store conn.new) (W.contents out.old) (W.contents out.new) held.now.events.items held.now.text.items) }
{
    match keep_events(alloc, conn, time, held.events.as_slice()) {
        Ok(()) => {}
        Err(fault) => return Err(LinesFault::CannotKeep(fault)),
    }
    match put(out, held.text.as_slice()) {
        Ok(()) => Ok(()),
        Err(_) => Err(LinesFault::Write),
    }
}

// Has the book be again the one that the database keeps, if it is ahead of it.
fn take_back<D: Alter, K: MapKind, B: MakeBox<K>>(
    alloc: Global,
    conn: &mut Connection<D>,
    changed: bool,
    book: &mut Book<K>,
    boxes: &mut B,
) -> Result<(), OpenFault>
    ensures clean { HasCleanDisk (state D.Store conn.new) → HasCleanDisk (state D.Store conn.old) }
    ensures back { HasCleanDisk (state D.Store conn.new) → (t : PlainTerms) (b : PlainBook) → IsOnDisk t (state D.Store conn.old) b → (changed ≡ false → book.old.plain ≡ b)
        → OnOk result ((book.new.plain ≡ b) × IsOnDisk t (state D.Store conn.new) b) }
    ensures rows { HasCleanDisk (state D.Store conn.new) → (t : PlainTerms) (events : List Event) → IsLedger t events (state D.Store conn.old)
        → OnOk result (IsLedger t events (state D.Store conn.new)) }
    ensures left { HasCleanDisk (state D.Store conn.new) → (t : PlainTerms) (b : PlainBook) → IsOnDisk t (state D.Store conn.old) b → LeavesOnly (HoldsBook t b) (state D.Store conn.new) }
{
    if !changed {
        return Ok(());
    }
    match open_book(alloc, conn, boxes) {
        Ok(before) => {
            *book = before;
            Ok(())
        }
        Err(fault) => Err(fault),
    }
}

// Answers that nothing is taken out, and why.
fn refuse<W: Output>(out: &mut W, fault: Fault, it: Taken) -> Result<Taken, RangeFault>
    ensures told { IfOk result (λ told. (told ≡ it) × Appends (W.contents out.old) (W.contents out.new) (fault_text fault)) }
    ensures untold { IfErr result (λ why. (why ≡ RangeFault.Lines LinesFault.Write) × WritesFront (W.contents out.old) (W.contents out.new) (fault_text fault)) }
{
    match put_fault(out, fault) {
        Ok(()) => Ok(it),
        Err(_) => Err(RangeFault::Lines(LinesFault::Write)),
    }
}

/// Takes the changes in force in a range out of a kept book, the last one first, each a moment of its own, or none. If each of
/// them is accepted, what that did is kept in one transaction, at this time in milliseconds since 1970, and then the answer of
/// each is written. If one is refused, its refusal is the answer, or `not in force` if there is none: the database stays as it
/// is, and the book too, which is opened again if it was ahead, with maps from `boxes`. For lack of memory that may be the
/// answer in place of any of these. A crash leaves the book before, or the one without all of them.
///
/// # Errors
/// Lines if all are taken out and that is not kept, or if the answer was not written to its end; Open if one is refused and the
/// book is not opened again. The book is of no use after any of these; if a fault of the disk shut the connection, it is to
/// be closed.
pub fn take_range<D: Alter, K: MapKind, B: MakeBox<K>, W: Output>(
    alloc: Global,
    conn: &mut Connection<D>,
    time: u64,
    book: &mut Book<K>,
    boxes: &mut B,
    range: SerialRange,
    out: &mut W,
) -> Result<Taken, RangeFault>
    ensures clean { HasCleanDisk (state D.Store conn.new) → HasCleanDisk (state D.Store conn.old) }
    ensures taken { IfOk result (ComesTo range book.old.plain book.new.plain (W.contents out.old) (W.contents out.new)) }
    ensures kept { HasCleanDisk (state D.Store conn.new) → (t : PlainTerms) → IsOnDisk t (state D.Store conn.old) book.old.plain
        → OnOk result (IsOnDisk t (state D.Store conn.new) book.new.plain) }
    ensures same { HasCleanDisk (state D.Store conn.new) → (t : PlainTerms) → IsOnDisk t (state D.Store conn.old) book.old.plain
        → IfOk result (λ it. UnlessAll it (book.new.plain ≡ book.old.plain)) }
    ensures rows { HasCleanDisk (state D.Store conn.new) → (t : PlainTerms) (events : List Event) → IsLedger t events (state D.Store conn.old)
        → IfOk result (λ it. UnlessAll it (IsLedger t events (state D.Store conn.new))) }
    ensures times { IfOk result (λ it. IfAll it (AddsAt time (state D.Store conn.old) (state D.Store conn.new))) }
    ensures left { HasCleanDisk (state D.Store conn.new) → (t : PlainTerms) → IsOnDisk t (state D.Store conn.old) book.old.plain
        → LeavesOnly (HoldsOne t (AllOrNone range book.old.plain)) (state D.Store conn.new) }
    ensures stops { IfErr result (Stops range book.old.plain (λ t. IsOnDisk t (state D.Store conn.old) book.old.plain) (state D.Store conn.new) (W.contents out.old) (W.contents out.new)) }
{
    let serials = match chosen(alloc, book, range) {
        Ok(serials) => serials,
        Err(_) => return refuse(out, Fault::NoMemory, Taken::Refused(Fault::NoMemory)),
    };
    let serials = serials.as_slice();
    if serials.is_empty() {
        return refuse(out, Fault::NotInForce, Taken::NoneInForce);
    }
    match take_each(alloc, book, serials) {
        Ok(held) => match keep_held(alloc, conn, time, &held, out) {
            Ok(()) => Ok(Taken::All(serials.len() as u64)),
            Err(fault) => Err(RangeFault::Lines(fault)),
        },
        Err(refusal) => match take_back(alloc, conn, refusal.changed, book, boxes) {
            Ok(()) => refuse(out, refusal.fault, Taken::Refused(refusal.fault)),
            Err(fault) => Err(RangeFault::Open(fault)),
        },
    }
}
