//! The book of a database: opened, or made if there is none.

ghost use Rattle.std.specs.Prelude.{◌≡◌, ◌↔◌, false, IsTrue, List, OnOk};
ghost use Rattle.sqlite.specs.State.{HasCleanDisk, Survives};
ghost use Rattle.sqlite.specs.Held.{state};
ghost use Rattle.kept_ledger.specs.Table.{no_schema};
ghost use Rattle.kept_ledger.specs.TermsView.{PlainTerms};
ghost use Rattle.kept_ledger.specs.Ledger.{Entry, IsLedgerOf};
ghost use Rattle.kept_lines.specs.Kept.{IsOnDisk};
ghost use Rattle.kept_lines.specs.Begun.{WasReady, BeginsOn, HasEntries};

use crate::boxes::HostBoxes;
use crate::fault::KeptFault;
use bt_journal::Book;
use console_script::HostKind;
use kept_file::laws::what_is_kept_is_on_the_disk;
use kept_file::{Terms, keep_first, new_book, open_book};
use sqlite::{Alter, Connection};
use std::alloc::Global;

/// Whether a connection is outside a transaction, and its database has no table, no index and no view.
pub fn is_blank<D: Alter>(conn: &Connection<D>) -> bool
    ensures { IsTrue result ↔ (((state D.Store conn.now).in_transaction ≡ false) × ((state D.Store conn.now).now.schema ≡ no_schema)) }
{
    let schema = conn.schema();
    conn.is_autocommit()
        && schema.tables.is_empty()
        && schema.indexes.is_empty()
        && schema.views.is_empty()
}

// Makes the book of these terms in a database that has no table.
fn make<D: Alter>(
    alloc: Global,
    conn: &mut Connection<D>,
    terms: Terms,
) -> Result<Book<HostKind>, KeptFault>
    requires autocommit { (state D.Store conn.old).in_transaction ≡ false }
    requires unmade { (state D.Store conn.old).now.schema ≡ no_schema }
    ensures begins { BeginsOn terms (state D.Store conn.old) (state D.Store conn.new) result }
    ensures entries { HasCleanDisk (state D.Store conn.new) → WasReady (state D.Store conn.old) → (t : PlainTerms) (es : List Entry) → HasEntries terms t (state D.Store conn.old) es
        → OnOk result (IsLedgerOf t es (state D.Store conn.new)) }
{
    // It has no event yet, and so the time stands nowhere.
    match keep_first(alloc, conn, &terms, 0, &[]) {
        Ok(()) => match new_book(alloc, terms) {
            Ok(book) => Ok(book),
            Err(fault) => Err(KeptFault::Open(fault)),
        },
        Err(error) => Err(KeptFault::Make(error)),
    }
}

// Opens the book of a database that has a table.
fn open<D: Alter>(alloc: Global, conn: &mut Connection<D>) -> Result<Book<HostKind>, KeptFault>
    requires { (state D.Store conn.old).in_transaction ≡ false → (state D.Store conn.old).now.schema ≡ no_schema → ⊥ }
    ensures begins { (terms : PlainTerms) → BeginsOn terms (state D.Store conn.old) (state D.Store conn.new) result }
    ensures entries { (terms : PlainTerms) → HasCleanDisk (state D.Store conn.new) → WasReady (state D.Store conn.old) → (t : PlainTerms) (es : List Entry) → HasEntries terms t (state D.Store conn.old) es
        → OnOk result (IsLedgerOf t es (state D.Store conn.new)) }
{
    what_is_kept_is_on_the_disk::<D>();
    match open_book(alloc, conn, &mut HostBoxes::new(alloc)) {
        Ok(book) => Ok(book),
        Err(fault) => Err(KeptFault::Open(fault)),
    }
}

/// The book that a database keeps, made of the events that it has; in a database that has no table a new book of these terms is
/// made.
///
/// # Errors
/// Open where the tables are not read or an event is not done again, and where there is no memory for the book; Make where a new
/// book is not kept. A crash then leaves the database as it was, or with the new book.
pub fn begin<D: Alter>(
    alloc: Global,
    conn: &mut Connection<D>,
    terms: Terms,
) -> Result<Book<HostKind>, KeptFault>
    ensures begins { BeginsOn terms (state D.Store conn.old) (state D.Store conn.new) result }
    ensures entries { HasCleanDisk (state D.Store conn.new) → WasReady (state D.Store conn.old) → (t : PlainTerms) (es : List Entry) → HasEntries terms t (state D.Store conn.old) es
        → OnOk result (IsLedgerOf t es (state D.Store conn.new)) }
{
    if is_blank(conn) {
        make(alloc, conn, terms)
    } else {
        open(alloc, conn)
    }
}
