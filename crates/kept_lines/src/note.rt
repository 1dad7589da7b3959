//! What is noted of a line that was done.

ghost use Rattle.std.specs.Prelude.{◌≡◌, ◌++◌, ◌∷◌, [], List, OnOk};
ghost use Rattle.kept_event.specs.declared.event.KeptEvent.{KeptEvent as Event};
ghost use Rattle.kept_lines.specs.Noting.{AreChanges, IsNoted, with_own};

use crate::asked::with_own;
use bt_journal::Book;
use bt_mapkind::MapKind;
use console_answer::Told;
use kept_file::{KeepFault, KeptEvent, noted};
use std::alloc::{AllocError, Global};

// Adds an event to a list.
fn push(events: &mut Vec<KeptEvent>, event: KeptEvent) -> Result<(), AllocError>
    ensures { OnOk result (events.new.items ≡ events.old.items ++ event ∷ []) }
{
    events.push(event)?;
    Ok(())
}

// Adds events to a list.
fn append(events: &mut Vec<KeptEvent>, more: Vec<KeptEvent>) -> Result<(), AllocError>
    ensures { OnOk result (events.new.items ≡ events.old.items ++ more.items) }
{
    let mut more = more;
    events.append(&mut more)?;
    Ok(())
}

// Notes the changes since a serial.
fn note_changes<K: MapKind>(
    alloc: Global,
    book: &Book<K>,
    since: u64,
    events: &mut Vec<KeptEvent>,
) -> Result<(), KeepFault>
    ensures { OnOk result ((more : List Event) × (events.new.items ≡ events.old.items ++ more) × AreChanges since book.now.plain more) }
{
    let more = noted(alloc, since, book)?;
    append(events, more)?;
    Ok(())
}

// Notes a move of the journal.
fn note_move(event: KeptEvent, own: u64, events: &mut Vec<KeptEvent>) -> Result<(), KeepFault>
    ensures { OnOk result (events.new.items ≡ events.old.items ++ with_own own event ∷ []) }
{
    push(events, with_own(event, own))?;
    Ok(())
}

/// Notes what a line did of which this was told: the move of the journal that it asked for, if it was accepted, and otherwise the
/// changes since the last serial before it.
///
/// # Errors
/// Incomplete if the line recorded changes that are in force no more, as a frame does with more of them than the journal keeps;
/// else NoMemory.
pub(crate) fn note<K: MapKind>(
    alloc: Global,
    book: &Book<K>,
    since: u64,
    asked: Option<KeptEvent>,
    told: Told,
    events: &mut Vec<KeptEvent>,
) -> Result<(), KeepFault>
    ensures { OnOk result ((more : List Event) × (events.new.items ≡ events.old.items ++ more) × IsNoted asked told since book.now.plain more) }
{
    match asked {
        Some(event) => match told {
            Told::Accepted => note_move(event, book.last_serial(), events),
            _ => note_changes(alloc, book, since, events),
        },
        None => note_changes(alloc, book, since, events),
    }
}
