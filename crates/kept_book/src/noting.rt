//! What is noted of a book after an event that recorded changes.

ghost use Rattle.std.specs.Prelude.{◌≡◌, IfOk};
ghost use Rattle.kept_book.specs.Noted.{changes_since};

use bt_journal::Book;
use bt_mapkind::MapKind;
use host_words::NoMemory;
use kept_event::KeptEvent;
use std::alloc::Global;

/// The changes in force above a serial, the oldest first, as they are kept. After a call that records changes these are the
/// ones that it recorded, if the serial is the last one before it. Takes memory.
pub fn changes_since<K: MapKind>(
    alloc: Global,
    book: &Book<K>,
    serial: u64,
) -> Result<Vec<KeptEvent>, NoMemory>
    ensures { IfOk result (λ events. events.items ≡ changes_since serial book.now.plain) }
{
    book.is_well();
    let mut events = Vec::new(alloc);
    let last = book.last_serial();
    let mut above = serial;
    'serials: while above < last {
        above += 1;
        match book.change_of(above)? {
            Some(change) => {
                let serial = above;
                events.push(KeptEvent::Changed { serial, change })?;
            }
            None => {}
        }
    }
    Ok(events)
}
