//! The rows of a log, read from the table of events.

ghost use Rattle.std.specs.Prelude.{IfOk, IfErr};
ghost use Rattle.sqlite.specs.Held.{state};
ghost use Rattle.kept_ledger.specs.Faults.{IsSqlFault};
ghost use Rattle.kept_log.specs.Timed.{entry_of, entries_of};
ghost use Rattle.kept_log.specs.Logged.{IsLogged, AreLogged};
ghost use Rattle.kept_log.specs.Telling.{ReadsLog};

use crate::event::{LogEvent, event_of};
use crate::time::{LogTime, time_of};
use crate::timed::{TimedEvent, push, read_last};
use kept_ledger::{ReadFault, read_terms};
use sqlite::{Alter, Connection};
use std::alloc::Global;

/// What a log tells of one event.
#[derive(Debug, Drop)]
pub struct LogRow {
    /// When it was added.
    pub time: LogTime,
    /// What it did.
    pub event: LogEvent,
}

fn row_of(it: TimedEvent) -> LogRow
    ensures { IsLogged (entry_of it) result }
{
    LogRow {
        time: time_of(it.time),
        event: event_of(it.event),
    }
}

// The rows of events.
fn rows_of(alloc: Global, events: Vec<TimedEvent>) -> Result<Vec<LogRow>, ReadFault>
    ensures logged { IfOk result (λ rows. AreLogged (entries_of events.items) rows.items) }
    ensures sql { IfErr result IsSqlFault }
{
    let mut rows = Vec::with_capacity(alloc, events.len())?;
    for it in events {
        push(&mut rows, row_of(it))?;
    }
    Ok(rows)
}

// The rows of a log, of a book whose format is known.
fn read_rows<S: Alter>(
    alloc: Global,
    conn: &mut Connection<S>,
    most: Option<u64>,
) -> Result<Vec<LogRow>, ReadFault>
    ensures { ReadsLog most (state S.Store conn.old) (state S.Store conn.new) result }
{
    match read_last(alloc, conn, most) {
        Ok(events) => rows_of(alloc, events),
        Err(fault) => Err(fault),
    }
}

/// What a log tells of the last so many events of a kept book, or of all, in the order in which they were added. 2^63 or more asks
/// for all of them. Memory is taken for these events alone.
///
/// # Errors
/// Those of [`read_terms`] and [`read_last`].
pub fn read_log<S: Alter>(
    alloc: Global,
    conn: &mut Connection<S>,
    most: Option<u64>,
) -> Result<Vec<LogRow>, ReadFault>
    ensures { ReadsLog most (state S.Store conn.old) (state S.Store conn.new) result }
{
    match read_terms(alloc, conn) {
        Ok(_terms) => read_rows(alloc, conn, most),
        Err(fault) => Err(fault),
    }
}
