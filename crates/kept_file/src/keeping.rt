//! Events of a book added to its database.

ghost use Rattle.std.specs.Prelude.{◌≡◌, ◌+◌, ◌++◌, false, List, length, IfOk, OnOk, OnErr, IfErr, IsTrue};
ghost use Rattle.sqlite.specs.State.{HasCleanDisk, Survives};
ghost use Rattle.sqlite.specs.Held.{state};
ghost use Rattle.journal_model.specs.Book.{PlainBook};
ghost use Rattle.kept_book.specs.Leading.{LeadTo};
ghost use Rattle.kept_ledger.specs.Table.{no_schema};
ghost use Rattle.kept_ledger.specs.TermsView.{PlainTerms};
ghost use Rattle.kept_book.specs.Noted.{changes_since};
ghost use Rattle.kept_ledger.specs.Statements.{adding, making, HasReason};
ghost use Rattle.kept_ledger.specs.Ledger.{Entry, IsLedgerOf, Commits, stamped};
ghost use Rattle.kept_file.specs.Keeps.{Keeps, HoldsBook, start_of};
ghost use Rattle.kept_file.specs.declared.fault.KeepFault.TheVariants.{Incomplete};

use crate::fault::KeepFault;
use bt_journal::Book;
use bt_mapkind::MapKind;
use kept_book::{KeptEvent, changes_since};
use kept_ledger::{Terms, append_all, create};
use sqlite::{Alter, Connection, Error};
use std::alloc::Global;

/// Makes the tables of a book that began with these terms, with its first events, in a database that has no table, at this time in
/// milliseconds since 1970.
pub fn keep_first<S: Alter>(
    alloc: Global,
    conn: &mut Connection<S>,
    terms: &Terms,
    time: u64,
    events: &[KeptEvent],
) -> Result<(), Error>
    requires autocommit { (state S.Store conn.old).in_transaction ≡ false }
    requires unmade { (state S.Store conn.old).now.schema ≡ no_schema }
    ensures makes { (b : PlainBook) → LeadTo (start_of terms.now) events.now b
        → Commits (state S.Store conn.old) (state S.Store conn.new) result (λ s. Keeps terms.now s b) (HoldsBook terms.now b) }
    ensures times { HasCleanDisk (state S.Store conn.new) → OnOk result (IsLedgerOf terms.now (stamped time events.now) (state S.Store conn.new)) }
    ensures reason { HasCleanDisk (state S.Store conn.new) → IfErr result (HasReason S.Store making conn.old conn.new) }
{
    create(alloc, conn, terms, time, events)
}

/// Adds events that led on from the book that the database keeps, in one transaction, at this time in milliseconds since 1970.
/// After Ok the database keeps the book that they led to. After an error it keeps the one before; if a fault of the disk shut
/// the connection, it is to be closed.
pub fn keep<S: Alter>(
    alloc: Global,
    conn: &mut Connection<S>,
    time: u64,
    events: &[KeptEvent],
) -> Result<(), Error>
    ensures adds { (t : PlainTerms) (b c : PlainBook) → Keeps t (state S.Store conn.old) b → LeadTo b events.now c
        → Commits (state S.Store conn.old) (state S.Store conn.new) result (λ s. Keeps t s c) (HoldsBook t c) }
    ensures crash { Survives (state S.Store conn.old) (state S.Store conn.new)
        (λ db. (t : PlainTerms) (b c : PlainBook) → Keeps t (state S.Store conn.old) b → LeadTo b events.now c → HoldsBook t c db) }
    ensures stays { HasCleanDisk (state S.Store conn.new) → (t : PlainTerms) (b : PlainBook) → Keeps t (state S.Store conn.old) b
        → OnErr result (IsTrue (state S.Store conn.new).is_open → Keeps t (state S.Store conn.new) b) }
    ensures times { HasCleanDisk (state S.Store conn.new) → (t : PlainTerms) (es : List Entry) → IsLedgerOf t es (state S.Store conn.old) → OnOk result (IsLedgerOf t (es ++ stamped time events.now) (state S.Store conn.new)) }
    ensures reason { HasCleanDisk (state S.Store conn.new) → (t : PlainTerms) (es : List Entry) → IsLedgerOf t es (state S.Store conn.old) → IfErr result (HasReason S.Store adding conn.old conn.new) }
{
    append_all(alloc, conn, time, events)
}

/// The changes that were recorded since a serial, the oldest first, if they are as many as the serials that were given since.
///
/// # Errors
/// Incomplete if there are fewer; else NoMemory.
pub fn noted<K: MapKind>(
    alloc: Global,
    since: u64,
    book: &Book<K>,
) -> Result<Vec<KeptEvent>, KeepFault>
    ensures changes { IfOk result (λ noted. noted.items ≡ changes_since since book.now.plain) }
    ensures whole { IfOk result (λ noted. since + length noted.items ≡ book.now.plain.last_serial) }
    ensures why { IfErr result (λ fault. fault ≡ Incomplete → ¬ (since + length (changes_since since book.now.plain) ≡ book.now.plain.last_serial)) }
{
    let noted = changes_since(alloc, book, since)?;
    let last = book.last_serial();
    if last < since {
        return Err(KeepFault::Incomplete);
    }
    if last - since != noted.len() as u64 {
        return Err(KeepFault::Incomplete);
    }
    Ok(noted)
}
