//! The last events of a kept book, each with the time at which it was added.

ghost use Rattle.std.specs.Prelude.{◌≡◌, ◌++◌, ◌∷◌, [], List, OnOk, IfOk, IfErr, MatchResult, reverse, unwrap_or};
ghost use Rattle.sqlite_value.specs.Order.{column};
ghost use Rattle.sqlite.specs.State.{HasCleanDisk, Survives, CommitsShowing, FailsToQuery, Shown as IsShown};
ghost use Rattle.sqlite.specs.Held.{state};
ghost use Rattle.sqlite.specs.Values.{bound};
ghost use Rattle.kept_ledger.specs.Columns.{number_in};
ghost use Rattle.kept_ledger.specs.Faults.{IsSqlFault};
ghost use Rattle.kept_ledger.specs.TermsView.{PlainTerms};
ghost use Rattle.kept_ledger.specs.Ledger.{Entry, IsLedgerOf, OnlyReads};
ghost use Rattle.kept_log.specs.Timed.{entry_of, entries_of, last_of, last_text, last_params, IsTimed, AreTimed, TellsMemory};

use kept_event::{KeptEvent, event_in};
use kept_ledger::{ReadFault, number_at, query_fault, row_at};
use sqlite::types::ValueRef;
use sqlite::{Alter, Connection, Error, Row as Shown};
use std::alloc::{AllocError, Global};

/// An event of a kept book, and the time at which it was added.
#[derive(Debug, Drop)]
pub(crate) struct TimedEvent {
    /// In milliseconds since 1970.
    pub(crate) time: u64,
    pub(crate) event: KeptEvent,
}

// Why a row is not read that is no event's: it is named by its place.
fn misfit(row: &Shown) -> ReadFault
    ensures { result ≡ ReadFault.DoesNotFit (unwrap_or (number_in (column row.now 0)) 0) }
{
    ReadFault::DoesNotFit(number_at(row, 0).unwrap_or(0))
}

// The event that a row shows, with its time.
fn timed_at(alloc: Global, row: &Shown) -> Result<TimedEvent, ReadFault>
    ensures back { (e : Entry) → IsTimed row.now e → MatchResult result (λ it. entry_of it ≡ e) IsSqlFault }
    ensures memory { IfErr result TellsMemory }
{
    let Some(time) = number_at(row, 20) else {
        return Err(misfit(row));
    };
    let Some(columns) = row_at(alloc, row)? else {
        return Err(misfit(row));
    };
    match event_in(alloc, &columns)? {
        Some(event) => Ok(TimedEvent { time, event }),
        None => Err(misfit(row)),
    }
}

/// Adds an item to a list.
pub(crate) fn push<T: Drop>(list: &mut Vec<T>, item: T) -> Result<(), AllocError>
    ensures { OnOk result (list.new.items ≡ list.old.items ++ item ∷ []) }
{
    list.push(item)?;
    Ok(())
}

// The events that rows show, each with its time.
fn timed_events(alloc: Global, rows: &[Shown]) -> Result<Vec<TimedEvent>, ReadFault>
    ensures back { (es : List Entry) → AreTimed rows.now es → MatchResult result (λ read. entries_of read.items ≡ es) IsSqlFault }
    ensures memory { IfErr result TellsMemory }
{
    let mut events = Vec::with_capacity(alloc, rows.len())?;
    let mut rest = rows;
    while let Some((row, behind)) = rest.split_first() {
        push(&mut events, timed_at(alloc, row)?)?;
        rest = behind;
    }
    Ok(events)
}

// The parameters of the question: how many are asked for.
fn last_params(most: Option<u64>) -> [ValueRef<'static>; 1]
    ensures { bound result ≡ last_params most }
{
    match most {
        Some(count) if count < 0x8000_0000_0000_0000 => [ValueRef::Int(count as i64)],
        _ => [ValueRef::Int(-1)],
    }
}

// Asks for the last events, of which the last comes first.
fn ask_last<S: Alter>(conn: &mut Connection<S>, most: Option<u64>) -> Result<Vec<Shown>, Error>
    ensures ok { HasCleanDisk (state S.Store conn.new) → IfOk result (λ rows. IsShown last_text (last_params most) (state S.Store conn.old) (state S.Store conn.new) rows.items) }
    ensures err { HasCleanDisk (state S.Store conn.new) → IfErr result (FailsToQuery last_text (last_params most) (state S.Store conn.old) (state S.Store conn.new)) }
    ensures survives { Survives (state S.Store conn.old) (state S.Store conn.new) (CommitsShowing last_text (last_params most) (state S.Store conn.old)) }
{
    conn.query_all(
        "SELECT place, serial, prog, verb, map, key, value, flag, at, size, op, target, name, path, type, key_size, value_size, entries, flags, code, time FROM event ORDER BY place DESC LIMIT ?1",
        &last_params(most),
    )
}

// Turns rows round.
fn turn(rows: &mut Vec<Shown>)
    ensures { rows.new.items ≡ reverse rows.old.items }
{
    rows.reverse();
}

/// The last so many events with their times, or all of them, in the order in which they were added. Rows before these are not
/// read. 2^63 or more asks for all of them.
///
/// # Errors
/// DoesNotFit has the place of a row that is no event's; NoBook says that the database has no such table; Sql why SQLite did not
/// answer, or that memory ran out. Of a ledger only Sql is told.
pub(crate) fn read_last<S: Alter>(
    alloc: Global,
    conn: &mut Connection<S>,
    most: Option<u64>,
) -> Result<Vec<TimedEvent>, ReadFault>
    ensures events { HasCleanDisk (state S.Store conn.new) → (t : PlainTerms) (es : List Entry) → IsLedgerOf t es (state S.Store conn.old)
        → IfOk result (λ read. entries_of read.items ≡ last_of most es) }
    ensures reads { OnlyReads last_text (last_params most) (state S.Store conn.old) (state S.Store conn.new) result }
{
    match ask_last(conn, most) {
        Ok(mut rows) => {
            turn(&mut rows);
            timed_events(alloc, rows.as_slice())
        }
        Err(error) => Err(query_fault(error)),
    }
}
