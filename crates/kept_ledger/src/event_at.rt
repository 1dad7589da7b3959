//! The events that the rows of an answer show.

ghost use Rattle.std.specs.Prelude.{◌≡◌, ◌++◌, ◌∷◌, [], List, OnOk, MatchResult};
ghost use Rattle.kept_ledger.specs.Ledger.{Entry, IsKept, AreKept, shown, shown_from, events_of};
ghost use Rattle.kept_ledger.specs.Faults.{IsSqlFault};
ghost use Rattle.kept_ledger.specs.Rows.{Shows, ShowFrom, TellsRow, TellsRows};

use crate::columns::{number_at, row_at};
use crate::fault::ReadFault;
use kept_event::{KeptEvent, event_in};
use sqlite::Row as Shown;
use std::alloc::{AllocError, Global};

// The event that a row shows under this place.
fn event_at(alloc: Global, place: u64, row: &Shown) -> Result<KeptEvent, ReadFault>
    ensures back { (e : Entry) → IsKept e → row.now ≡ shown place e → MatchResult result (λ event. event ≡ e.event) IsSqlFault }
    ensures shows { MatchResult result (Shows place row.now) (TellsRow place row.now) }
{
    match number_at(row, 0) {
        Some(at) if at == place => {}
        _ => return Err(ReadFault::DoesNotFit(place)),
    }
    let Some(row) = row_at(alloc, row)? else {
        return Err(ReadFault::DoesNotFit(place));
    };
    match event_in(alloc, &row)? {
        Some(event) => Ok(event),
        None => Err(ReadFault::DoesNotFit(place)),
    }
}

/// Adds an event to a list.
pub(crate) fn push<T: Drop>(events: &mut Vec<T>, event: T) -> Result<(), AllocError>
    ensures { OnOk result (events.new.items ≡ events.old.items ++ event ∷ []) }
{
    events.push(event)?;
    Ok(())
}

/// The events that rows show under the places from 1 on.
///
/// # Errors
/// DoesNotFit with the number of the first row that shows none under its place; else memory ran out.
pub(crate) fn events_at(alloc: Global, rows: &[Shown]) -> Result<Vec<KeptEvent>, ReadFault>
    ensures back { (es : List Entry) → AreKept es → rows.now ≡ shown_from 1 es → MatchResult result (λ events. events.items ≡ events_of es) IsSqlFault }
    ensures shows { MatchResult result (λ events. ShowFrom 1 rows.now events.items) (TellsRows rows.now) }
{
    let mut events = Vec::with_capacity(alloc, rows.len())?;
    let mut rest = rows;
    let mut place = 1u64;
    while let Some((row, behind)) = rest.split_first() {
        push(&mut events, event_at(alloc, place, row)?)?;
        rest = behind;
        place += 1;
    }
    Ok(events)
}
