//! A kept book opened: its terms and its events are read, and the events done again.

ghost use Rattle.std.specs.Prelude.{◌≡◌, List, IfOk, IfErr, OnOk, MatchResult};
ghost use Rattle.sqlite.specs.State.{HasCleanDisk, Survives};
ghost use Rattle.sqlite.specs.Held.{state};
ghost use Rattle.journal_model.specs.Book.{PlainBook};
ghost use Rattle.kept_event.specs.declared.event.KeptEvent.{KeptEvent as Event};
ghost use Rattle.kept_ledger.specs.Table.{no_schema};
ghost use Rattle.kept_ledger.specs.TermsView.{PlainTerms};
ghost use Rattle.kept_ledger.specs.Ledger.{Entry, IsLedger, IsLedgerOf};
ghost use Rattle.kept_file.specs.Keeps.{Keeps, start_of};
ghost use Rattle.kept_file.specs.Faults.{TellsNoBook, IsOpened};

use crate::fault::{OpenFault, stop_fault};
use bt_journal::Book;
use bt_mapkind::MapKind;
use kept_book::{KeptEvent, MakeBox, redo_events};
use kept_ledger::{Terms, read, read_terms};
use sqlite::{Alter, Connection};
use std::alloc::Global;

/// A new book of these terms, with which a book can begin. Takes memory.
///
/// # Errors
/// NoMemory.
pub fn new_book<K: MapKind>(alloc: Global, terms: Terms) -> Result<Book<K>, OpenFault>
    ensures begun { IfOk result (λ book. book.plain ≡ start_of terms) }
    ensures why { IfErr result (λ fault. fault ≡ OpenFault.NoMemory) }
{
    let (devices, limits) = terms.into_parts();
    match Book::new(alloc, devices, limits) {
        Ok(book) => Ok(book),
        Err(_) => Err(OpenFault::NoMemory),
    }
}

// A book after these events.
fn redone<K: MapKind, B: MakeBox<K>>(
    mut book: Book<K>,
    events: Vec<KeptEvent>,
    boxes: &mut B,
) -> Result<Book<K>, OpenFault>
    ensures { (t : PlainTerms) → book.plain ≡ start_of t → IsOpened t events.items result }
{
    match redo_events(&mut book, events, boxes) {
        Ok(()) => Ok(book),
        Err(stop) => Err(stop_fault(stop)),
    }
}

// The book of these terms after these events.
fn opened<K: MapKind, B: MakeBox<K>>(
    alloc: Global,
    terms: Terms,
    events: Vec<KeptEvent>,
    boxes: &mut B,
) -> Result<Book<K>, OpenFault>
    ensures { IsOpened terms events.items result }
{
    match new_book(alloc, terms) {
        Ok(book) => redone(book, events, boxes),
        Err(fault) => Err(fault),
    }
}

// The book of these terms, to which the events of a database are done again.
fn with_terms<S: Alter, K: MapKind, B: MakeBox<K>>(
    alloc: Global,
    conn: &mut Connection<S>,
    terms: Terms,
    boxes: &mut B,
) -> Result<Book<K>, OpenFault>
    ensures opened { HasCleanDisk (state S.Store conn.new) → (events : List Event) → IsLedger terms events (state S.Store conn.old) → IsOpened terms events result }
    ensures same { HasCleanDisk (state S.Store conn.new) → (events : List Event) → IsLedger terms events (state S.Store conn.old)
        → OnOk result (IsLedger terms events (state S.Store conn.new)) }
    ensures times { HasCleanDisk (state S.Store conn.new) → (es : List Entry) → IsLedgerOf terms es (state S.Store conn.old) → OnOk result (IsLedgerOf terms es (state S.Store conn.new)) }
    ensures crash { Survives (state S.Store conn.old) (state S.Store conn.new) (λ _. (t : PlainTerms) (events : List Event) → IsLedger t events (state S.Store conn.old) → ⊥) }
{
    match read(alloc, conn) {
        Ok(events) => opened(alloc, terms, events, boxes),
        Err(fault) => Err(OpenFault::Ledger(fault)),
    }
}

/// The book that a database keeps: a new book of its terms, to which its events are done again in turn. Each is accepted as it
/// was then, under the same serial and with the same ids. Takes memory.
///
/// # Errors
/// Ledger if the tables are not read, DoesNotFit with the place of the first event that is not done again as it was done, else
/// NoMemory. The database stays as it was.
pub fn open_book<S: Alter, K: MapKind, B: MakeBox<K>>(
    alloc: Global,
    conn: &mut Connection<S>,
    boxes: &mut B,
) -> Result<Book<K>, OpenFault>
    ensures opened { HasCleanDisk (state S.Store conn.new) → (t : PlainTerms) (events : List Event) → IsLedger t events (state S.Store conn.old)
        → IsOpened t events result }
    ensures same { HasCleanDisk (state S.Store conn.new) → (t : PlainTerms) (events : List Event) → IsLedger t events (state S.Store conn.old)
        → OnOk result (IsLedger t events (state S.Store conn.new)) }
    ensures times { HasCleanDisk (state S.Store conn.new) → (t : PlainTerms) (es : List Entry) → IsLedgerOf t es (state S.Store conn.old) → OnOk result (IsLedgerOf t es (state S.Store conn.new)) }
    ensures kept { HasCleanDisk (state S.Store conn.new) → (t : PlainTerms) (b : PlainBook) → Keeps t (state S.Store conn.old) b → IfOk result (λ book. book.plain ≡ b) }
    ensures bare { HasCleanDisk (state S.Store conn.new) → (state S.Store conn.old).now.schema ≡ no_schema → MatchResult result (λ _. ⊥) TellsNoBook }
    ensures crash { Survives (state S.Store conn.old) (state S.Store conn.new) (λ _. (t : PlainTerms) (events : List Event) → IsLedger t events (state S.Store conn.old) → ⊥) }
{
    match read_terms(alloc, conn) {
        Ok(terms) => with_terms(alloc, conn, terms, boxes),
        Err(fault) => Err(OpenFault::Ledger(fault)),
    }
}
