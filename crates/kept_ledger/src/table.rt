//! The tables of a kept book: how they are read.

ghost use Rattle.std.specs.Prelude.{◌≡◌, [], List, IfOk};
ghost use Rattle.sqlite.specs.State.{HasCleanDisk};
ghost use Rattle.sqlite.specs.Held.{state};
ghost use Rattle.kept_event.specs.declared.event.KeptEvent.{KeptEvent as Event};
ghost use Rattle.kept_ledger.specs.Table.{ledger_schema, read_text, read_terms_text};
ghost use Rattle.kept_ledger.specs.TermsView.{PlainTerms};
ghost use Rattle.kept_ledger.specs.TermsRow.{terms_in, ReadsAs};
ghost use Rattle.kept_ledger.specs.Ledger.{IsLedger, OnlyReads};
ghost use Rattle.kept_ledger.specs.Rows.{ReadsTable};

use crate::event_at::events_at;
use crate::fault::{ReadFault, query_fault};
use crate::terms::Terms;
use crate::terms_at::terms_shown;
use kept_event::KeptEvent;
use sqlite::{Alter, Connection};
use std::alloc::Global;

/// What the book began with.
///
/// # Errors
/// LaterFormat has the format of its row, if that is later than the one that is read here; NoTerms says that there is not one row,
/// or that no book begins with what it has; NoBook that the database has no such table; Sql why SQLite did not answer, or that
/// memory ran out. Of a ledger only Sql is told.
pub fn read_terms<S: Alter>(alloc: Global, conn: &mut Connection<S>) -> Result<Terms, ReadFault>
    ensures row { HasCleanDisk (state S.Store conn.new) → (state S.Store conn.old).now.schema ≡ ledger_schema → ReadsAs (terms_in ((state S.Store conn.old).now.trees 1)) result }
    ensures terms { HasCleanDisk (state S.Store conn.new) → (t : PlainTerms) (events : List Event) → IsLedger t events (state S.Store conn.old)
        → IfOk result (λ read. read ≡ t) }
    ensures reads { OnlyReads read_terms_text [] (state S.Store conn.old) (state S.Store conn.new) result }
{
    match conn.query_all(
        "SELECT format, journal, budget, last_id, last_serial, devices FROM book",
        &[],
    ) {
        Ok(rows) => terms_shown(alloc, rows.as_slice()),
        Err(error) => Err(query_fault(error)),
    }
}

/// All events, in the order of their places, which are to be the numbers from 1 on.
///
/// # Errors
/// DoesNotFit has the number of the first row that is no event's, or does not stand under that number; NoBook says that the
/// database has no such table; Sql why SQLite did not answer, or that memory ran out. Of a ledger only Sql is told.
pub fn read<S: Alter>(alloc: Global, conn: &mut Connection<S>) -> Result<Vec<KeptEvent>, ReadFault>
    ensures rows { HasCleanDisk (state S.Store conn.new) → (state S.Store conn.old).now.schema ≡ ledger_schema → ReadsTable ((state S.Store conn.old).now.trees 0) result }
    ensures events { HasCleanDisk (state S.Store conn.new) → (t : PlainTerms) (events : List Event) → IsLedger t events (state S.Store conn.old)
        → IfOk result (λ read. read.items ≡ events) }
    ensures reads { OnlyReads read_text [] (state S.Store conn.old) (state S.Store conn.new) result }
{
    match conn.query_all(
        "SELECT place, serial, prog, verb, map, key, value, flag, at, size, op, target, name, path, type, key_size, value_size, entries, flags, code FROM event ORDER BY place",
        &[],
    ) {
        Ok(rows) => events_at(alloc, rows.as_slice()),
        Err(error) => Err(query_fault(error)),
    }
}
