//! The tables of a new book, made and filled in one transaction: a crash leaves a database with no table, or a whole book.

ghost use Rattle.std.specs.Prelude.{◌≡◌, ◌⊎◌, [], false, Err, IsTrue, OnOk, IfErr};
ghost use Rattle.sqlite_value.specs.Order.{Row as Values};
ghost use Rattle.sqlite.specs.State.{HasCleanDisk, Survives, Executes};
ghost use Rattle.sqlite.specs.declared.error.Error.TheVariants.{SqliteFailure};
ghost use Rattle.sqlite.specs.declared.error.ErrorCode.TheVariants.{OutOfMemory};
ghost use Rattle.sqlite.specs.Held.{state};
ghost use Rattle.kept_ledger.specs.Table.{no_schema, event_schema, ledger_schema};
ghost use Rattle.kept_ledger.specs.Statements.{make_events_text, make_book_text, add_terms_text, making, HasReason};
ghost use Rattle.kept_ledger.specs.TermsView.{PlainTerms, AreTerms};
ghost use Rattle.kept_ledger.specs.TermsRow.{joined};
ghost use Rattle.kept_ledger.specs.Ledger.{Hold, HoldEntries, IsLedger, IsLedgerOf, IsUnmade, IsMaking, IsAdding, Commits, stamped};

use crate::group::{add_each, begin, end};
use crate::terms::Terms;
use crate::terms_row::{joined, terms_params};
use journal_model::Limits;
use kept_event::KeptEvent;
use sqlite::{Alter, Connection, Error};
use std::alloc::Global;

// Makes the table of events.
fn make_events<S: Alter>(conn: &mut Connection<S>) -> Result<usize, Error>
    ensures made { HasCleanDisk (state S.Store conn.new) → IsMaking no_schema (state S.Store conn.old) → OnOk result (IsMaking event_schema (state S.Store conn.new)) }
    ensures crash { Survives (state S.Store conn.old) (state S.Store conn.new) (λ _. IsMaking no_schema (state S.Store conn.old) → ⊥) }
    ensures runs { HasCleanDisk (state S.Store conn.new) → Executes make_events_text [] (state S.Store conn.old) (state S.Store conn.new) result }
{
    conn.execute(
        "CREATE TABLE event (place INTEGER PRIMARY KEY, time INTEGER NOT NULL, serial INTEGER, prog INTEGER, verb TEXT NOT NULL, map INTEGER, key BLOB, value BLOB, flag INTEGER, at INTEGER, size INTEGER, op INTEGER, target INTEGER, name TEXT, path TEXT, type TEXT, key_size INTEGER, value_size INTEGER, entries INTEGER, flags INTEGER, code BLOB) STRICT",
        &[],
    )
}

// Makes the table of terms.
fn make_book<S: Alter>(conn: &mut Connection<S>) -> Result<usize, Error>
    ensures made { HasCleanDisk (state S.Store conn.new) → IsMaking event_schema (state S.Store conn.old) → OnOk result (IsMaking ledger_schema (state S.Store conn.new)) }
    ensures crash { Survives (state S.Store conn.old) (state S.Store conn.new) (λ _. IsMaking event_schema (state S.Store conn.old) → ⊥) }
    ensures runs { HasCleanDisk (state S.Store conn.new) → Executes make_book_text [] (state S.Store conn.old) (state S.Store conn.new) result }
{
    conn.execute(
        "CREATE TABLE book (format INTEGER NOT NULL, journal INTEGER NOT NULL, budget INTEGER NOT NULL, last_id INTEGER NOT NULL, last_serial INTEGER NOT NULL, devices TEXT NOT NULL) STRICT",
        &[],
    )
}

// Adds the row of limits and of the text of devices.
fn insert_terms<S: Alter>(
    conn: &mut Connection<S>,
    limits: &Limits,
    devices: &[u8],
) -> Result<usize, Error>
    ensures added { HasCleanDisk (state S.Store conn.new) → (t : PlainTerms) → IsMaking ledger_schema (state S.Store conn.old) → AreTerms t
        → limits.now ≡ t.limits → devices.now ≡ joined t.devices → OnOk result (IsAdding t [] (state S.Store conn.new)) }
    ensures crash { Survives (state S.Store conn.old) (state S.Store conn.new) (λ _. IsMaking ledger_schema (state S.Store conn.old) → ⊥) }
    ensures runs { HasCleanDisk (state S.Store conn.new) → (params : Values) × Executes add_terms_text params (state S.Store conn.old) (state S.Store conn.new) result }
{
    conn.execute(
        "INSERT INTO book (format, journal, budget, last_id, last_serial, devices) VALUES (?1, ?2, ?3, ?4, ?5, ?6)",
        &terms_params(limits, devices),
    )
}

// Adds the row of terms.
fn add_terms<S: Alter>(
    alloc: Global,
    conn: &mut Connection<S>,
    terms: &Terms,
) -> Result<usize, Error>
    ensures added { HasCleanDisk (state S.Store conn.new) → IsMaking ledger_schema (state S.Store conn.old) → OnOk result (IsAdding terms.now [] (state S.Store conn.new)) }
    ensures crash { Survives (state S.Store conn.old) (state S.Store conn.new) (λ _. IsMaking ledger_schema (state S.Store conn.old) → ⊥) }
    ensures reason { HasCleanDisk (state S.Store conn.new) → IfErr result (λ e. (e ≡ SqliteFailure OutOfMemory) ⊎ ((params : Values) × Executes add_terms_text params (state S.Store conn.old) (state S.Store conn.new) (Err e))) }
{
    let devices = joined(alloc, terms.devices())?;
    insert_terms(conn, &terms.limits(), devices.as_slice())
}

// Makes both tables, and adds the terms and the first events, in one transaction.
fn create_all<S: Alter>(
    alloc: Global,
    conn: &mut Connection<S>,
    terms: &Terms,
    time: u64,
    events: &[KeptEvent],
) -> Result<(), Error>
    ensures made { HasCleanDisk (state S.Store conn.new) → IsUnmade (state S.Store conn.old)
        → OnOk result (IsLedgerOf terms.now (stamped time events.now) (state S.Store conn.new) × IsTrue (state S.Store conn.new).is_open) }
    ensures crash { IsUnmade (state S.Store conn.old) → Survives (state S.Store conn.old) (state S.Store conn.new) (HoldEntries terms.now (stamped time events.now)) }
    ensures reason { HasCleanDisk (state S.Store conn.new) → IsUnmade (state S.Store conn.old) → IfErr result (HasReason S.Store making conn.old conn.new) }
{
    begin(conn)?;
    make_events(conn)?;
    make_book(conn)?;
    add_terms(alloc, conn, terms)?;
    add_each(alloc, conn, time, events)?;
    end(conn)?;
    Ok(())
}

/// Makes a book of these terms and first events in a database that has no table, in one transaction, at this time in
/// milliseconds since 1970. Once it returns Ok each crash leaves the whole book; before that it leaves the database as it was or
/// with the whole book.
pub fn create<S: Alter>(
    alloc: Global,
    conn: &mut Connection<S>,
    terms: &Terms,
    time: u64,
    events: &[KeptEvent],
) -> Result<(), Error>
    requires autocommit { (state S.Store conn.old).in_transaction ≡ false }
    requires unmade { (state S.Store conn.old).now.schema ≡ no_schema }
    ensures makes { Commits (state S.Store conn.old) (state S.Store conn.new) result (IsLedger terms.now events.now) (Hold terms.now events.now) }
    ensures times { HasCleanDisk (state S.Store conn.new) → OnOk result (IsLedgerOf terms.now (stamped time events.now) (state S.Store conn.new)) }
    ensures reason { HasCleanDisk (state S.Store conn.new) → IfErr result (HasReason S.Store making conn.old conn.new) }
{
    create_all(alloc, conn, terms, time, events)
}
