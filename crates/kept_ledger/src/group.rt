//! Events that are added in one transaction: a crash leaves all of them or none.

ghost use Rattle.std.specs.Prelude.{◌≡◌, ◌⊎◌, ◌++◌, ◌∷◌, [], List, Err, OnOk, OnErr, IfErr, IsTrue, true};
ghost use Rattle.sqlite_value.specs.Order.{Row as Values};
ghost use Rattle.sqlite.specs.State.{HasCleanDisk, Survives, KeepsCommit, Executes};
ghost use Rattle.sqlite.specs.declared.error.Error.TheVariants.{SqliteFailure};
ghost use Rattle.sqlite.specs.declared.error.ErrorCode.TheVariants.{OutOfMemory};
ghost use Rattle.sqlite.specs.Held.{state};
ghost use Rattle.kept_event.specs.declared.event.KeptEvent.{KeptEvent as Event};
ghost use Rattle.kept_event.specs.Bounded.{IsBounded};
ghost use Rattle.kept_event.specs.Row.{row_of};
ghost use Rattle.kept_ledger.specs.TermsView.{PlainTerms};
ghost use Rattle.kept_ledger.specs.Table.{no_schema};
ghost use Rattle.kept_ledger.specs.Statements.{begin_text, add_text, end_text, added, adding, HasReason};
ghost use Rattle.kept_ledger.specs.Ledger.{Entry, stamped, Hold, HoldEntries, IsLedger, IsLedgerOf, IsAdding, IsUnmade, IsMaking, Commits, IsUndone};

use crate::lent::params;
use kept_event::{KeptEvent, Row, row_of};
use sqlite::{Alter, Connection, Error};
use std::alloc::Global;

/// Begins a transaction, where the tables are or where they are to be made.
pub(crate) fn begin<S: Alter>(conn: &mut Connection<S>) -> Result<usize, Error>
    ensures begun { HasCleanDisk (state S.Store conn.new) → (t : PlainTerms) (es : List Entry) → IsLedgerOf t es (state S.Store conn.old)
        → OnOk result (IsAdding t es (state S.Store conn.new)) }
    ensures crash { Survives (state S.Store conn.old) (state S.Store conn.new) (λ _. ⊥) }
    ensures making { HasCleanDisk (state S.Store conn.new) → IsUnmade (state S.Store conn.old) → OnOk result (IsMaking no_schema (state S.Store conn.new)) }
    ensures keeps { HasCleanDisk (state S.Store conn.new) → (t : PlainTerms) (es : List Entry) → IsLedgerOf t es (state S.Store conn.old) → KeepsCommit (state S.Store conn.old) (state S.Store conn.new) }
    ensures runs { HasCleanDisk (state S.Store conn.new) → Executes begin_text [] (state S.Store conn.old) (state S.Store conn.new) result }
{
    conn.execute("BEGIN", &[])
}

// Adds a row in a transaction.
fn insert<S: Alter>(conn: &mut Connection<S>, time: u64, row: &Row) -> Result<usize, Error>
    ensures added { HasCleanDisk (state S.Store conn.new) → (t : PlainTerms) (es : List Entry) (event : Event) → IsAdding t es (state S.Store conn.old)
        → IsBounded event → row.now ≡ row_of event → OnOk result (IsAdding t (es ++ stamped time (event ∷ [])) (state S.Store conn.new)) }
    ensures crash { Survives (state S.Store conn.old) (state S.Store conn.new) (λ _. (t : PlainTerms) (es : List Entry) → IsAdding t es (state S.Store conn.old) → ⊥) }
    ensures keeps { HasCleanDisk (state S.Store conn.new) → (t : PlainTerms) (es : List Entry) → IsAdding t es (state S.Store conn.old) → KeepsCommit (state S.Store conn.old) (state S.Store conn.new) }
    ensures runs { HasCleanDisk (state S.Store conn.new) → (params : Values) × Executes add_text params (state S.Store conn.old) (state S.Store conn.new) result }
{
    conn.execute(
        "INSERT INTO event (time, serial, prog, verb, map, key, value, flag, at, size, op, target, name, path, type, key_size, value_size, entries, flags, code) VALUES (?1, ?2, ?3, ?4, ?5, ?6, ?7, ?8, ?9, ?10, ?11, ?12, ?13, ?14, ?15, ?16, ?17, ?18, ?19, ?20)",
        &params(time, row),
    )
}

// Adds an event in a transaction.
fn add<S: Alter>(
    alloc: Global,
    conn: &mut Connection<S>,
    time: u64,
    event: &KeptEvent,
) -> Result<usize, Error>
    ensures added { HasCleanDisk (state S.Store conn.new) → (t : PlainTerms) (es : List Entry) → IsAdding t es (state S.Store conn.old)
        → OnOk result (IsAdding t (es ++ stamped time (event.now ∷ [])) (state S.Store conn.new)) }
    ensures crash { Survives (state S.Store conn.old) (state S.Store conn.new) (λ _. (t : PlainTerms) (es : List Entry) → IsAdding t es (state S.Store conn.old) → ⊥) }
    ensures keeps { HasCleanDisk (state S.Store conn.new) → (t : PlainTerms) (es : List Entry) → IsAdding t es (state S.Store conn.old) → KeepsCommit (state S.Store conn.old) (state S.Store conn.new) }
    ensures reason { HasCleanDisk (state S.Store conn.new) → IfErr result (λ e. (e ≡ SqliteFailure OutOfMemory) ⊎ ((params : Values) × Executes add_text params (state S.Store conn.old) (state S.Store conn.new) (Err e))) }
{
    let row = row_of(alloc, event)?;
    insert(conn, time, &row)
}

/// Commits a transaction.
pub(crate) fn end<S: Alter>(conn: &mut Connection<S>) -> Result<usize, Error>
    ensures ended { HasCleanDisk (state S.Store conn.new) → (t : PlainTerms) (es : List Entry) → IsAdding t es (state S.Store conn.old)
        → OnOk result (IsLedgerOf t es (state S.Store conn.new) × IsTrue (state S.Store conn.new).is_open) }
    ensures crash { Survives (state S.Store conn.old) (state S.Store conn.new) (λ db. (t : PlainTerms) (es : List Entry) → IsAdding t es (state S.Store conn.old) → HoldEntries t es db) }
    ensures keeps { HasCleanDisk (state S.Store conn.new) → OnErr result (KeepsCommit (state S.Store conn.old) (state S.Store conn.new)) }
    ensures runs { HasCleanDisk (state S.Store conn.new) → Executes end_text [] (state S.Store conn.old) (state S.Store conn.new) result }
{
    conn.execute("COMMIT", &[])
}

/// Adds events in a transaction.
pub(crate) fn add_each<S: Alter>(
    alloc: Global,
    conn: &mut Connection<S>,
    time: u64,
    events: &[KeptEvent],
) -> Result<(), Error>
    ensures added { HasCleanDisk (state S.Store conn.new) → (t : PlainTerms) (es : List Entry) → IsAdding t es (state S.Store conn.old)
        → OnOk result (IsAdding t (es ++ stamped time events.now) (state S.Store conn.new)) }
    ensures crash { Survives (state S.Store conn.old) (state S.Store conn.new) (λ _. (t : PlainTerms) (es : List Entry) → IsAdding t es (state S.Store conn.old) → ⊥) }
    ensures keeps { HasCleanDisk (state S.Store conn.new) → (t : PlainTerms) (es : List Entry) → IsAdding t es (state S.Store conn.old) → KeepsCommit (state S.Store conn.old) (state S.Store conn.new) }
    ensures reason { HasCleanDisk (state S.Store conn.new) → (t : PlainTerms) (es : List Entry) → IsAdding t es (state S.Store conn.old) → IfErr result (HasReason S.Store added conn.old conn.new) }
{
    'events: for event in events {
        add(alloc, conn, time, event)?;
    }
    Ok(())
}

// Adds events after the others, and commits them.
fn append<S: Alter>(
    alloc: Global,
    conn: &mut Connection<S>,
    time: u64,
    events: &[KeptEvent],
) -> Result<(), Error>
    ensures added { HasCleanDisk (state S.Store conn.new) → (t : PlainTerms) (es : List Entry) → IsLedgerOf t es (state S.Store conn.old)
        → OnOk result (IsLedgerOf t (es ++ stamped time events.now) (state S.Store conn.new) × IsTrue (state S.Store conn.new).is_open) }
    ensures crash { Survives (state S.Store conn.old) (state S.Store conn.new)
        (λ db. (t : PlainTerms) (es : List Entry) → IsLedgerOf t es (state S.Store conn.old) → HoldEntries t (es ++ stamped time events.now) db) }
    ensures keeps { HasCleanDisk (state S.Store conn.new) → (t : PlainTerms) (es : List Entry) → IsLedgerOf t es (state S.Store conn.old) → OnErr result (KeepsCommit (state S.Store conn.old) (state S.Store conn.new)) }
    ensures reason { HasCleanDisk (state S.Store conn.new) → (t : PlainTerms) (es : List Entry) → IsLedgerOf t es (state S.Store conn.old) → IfErr result (HasReason S.Store adding conn.old conn.new) }
{
    begin(conn)?;
    add_each(alloc, conn, time, events)?;
    end(conn)?;
    Ok(())
}

// Undoes the transaction that is open, if one is.
fn give_up<S: Alter>(conn: &mut Connection<S>)
    ensures undone { HasCleanDisk (state S.Store conn.new) → IsUndone (state S.Store conn.old) (state S.Store conn.new) }
    ensures crash { Survives (state S.Store conn.old) (state S.Store conn.new) (λ _. ⊥) }
{
    if !conn.is_autocommit() {
        let _ = roll_back(conn);
    }
}

// Undoes the transaction that is open. It is undone though an error is told, which is then a fault of the disk.
fn roll_back<S: Alter>(conn: &mut Connection<S>) -> Result<usize, Error>
    requires { (state S.Store conn.old).in_transaction ≡ true }
    ensures undone { HasCleanDisk (state S.Store conn.new) → IsUndone (state S.Store conn.old) (state S.Store conn.new) }
    ensures crash { Survives (state S.Store conn.old) (state S.Store conn.new) (λ _. ⊥) }
{
    conn.execute("ROLLBACK", &[])
}

/// Adds events after the others, in one transaction, at this time in milliseconds since 1970. Once it returns Ok each crash
/// leaves the events with all of them; before that it leaves them as they were or with all of them. After an error the
/// transaction is undone, and the book is as it was; a fault of the disk can shut the connection, which is then to be closed.
pub fn append_all<S: Alter>(
    alloc: Global,
    conn: &mut Connection<S>,
    time: u64,
    more: &[KeptEvent],
) -> Result<(), Error>
    ensures adds { (t : PlainTerms) (events : List Event) → IsLedger t events (state S.Store conn.old)
        → Commits (state S.Store conn.old) (state S.Store conn.new) result (IsLedger t (events ++ more.now)) (Hold t (events ++ more.now)) }
    ensures crash { Survives (state S.Store conn.old) (state S.Store conn.new)
        (λ db. (t : PlainTerms) (events : List Event) → IsLedger t events (state S.Store conn.old) → Hold t (events ++ more.now) db) }
    ensures kept { HasCleanDisk (state S.Store conn.new) → (t : PlainTerms) (events : List Event) → IsLedger t events (state S.Store conn.old)
        → OnErr result (IsTrue (state S.Store conn.new).is_open → IsLedger t events (state S.Store conn.new)) }
    ensures times { HasCleanDisk (state S.Store conn.new) → (t : PlainTerms) (es : List Entry) → IsLedgerOf t es (state S.Store conn.old) → OnOk result (IsLedgerOf t (es ++ stamped time more.now) (state S.Store conn.new)) }
    ensures reason { HasCleanDisk (state S.Store conn.new) → (t : PlainTerms) (es : List Entry) → IsLedgerOf t es (state S.Store conn.old) → IfErr result (HasReason S.Store adding conn.old conn.new) }
{
    match append(alloc, conn, time, more) {
        Ok(()) => Ok(()),
        Err(error) => {
            give_up(conn);
            Err(error)
        }
    }
}
