//! The row of an event.

ghost use Rattle.std.specs.Prelude.{◌≡◌, Some, IfOk, OnOk};
ghost use Rattle.kept_event.specs.Bounded.{IsBounded};
ghost use Rattle.kept_event.specs.Row.{row_of};

use crate::change_row::change_row;
use crate::event::KeptEvent;
use crate::row::{Row, named};
use crate::verb::Verb;
use host_words::NoMemory;
use std::alloc::Global;

fn taken_out_row(serial: u64, own: u64) -> Row
    ensures { result ≡ row_of (KeptEvent.TakenOut serial own) }
{
    let mut row = Row::bare(Verb::Without);
    row.serial = Some(own);
    row.target = Some(serial);
    row
}

/// The row of an event: what stands in the columns of the table for it (sqlite.org, "STRICT Tables"). `NoMemory` if an
/// allocation fails, and if a program's code has as many owners as can be counted.
pub fn row_of(alloc: Global, event: &KeptEvent) -> Result<Row, NoMemory>
    ensures row { IfOk result (λ row. row ≡ row_of event.now) }
    ensures bounded { OnOk result (IsBounded event.now) }
{
    match event {
        KeptEvent::Changed { serial, change } => {
            let mut row = change_row(alloc, change)?;
            row.serial = Some(*serial);
            Ok(row)
        }
        KeptEvent::Marked(name) => named(Verb::Mark, name),
        KeptEvent::UndoneTo(name) => named(Verb::Undo, name),
        KeptEvent::UndoneLast => Ok(Row::bare(Verb::Undo)),
        KeptEvent::Redone => Ok(Row::bare(Verb::Redo)),
        KeptEvent::TakenOut { serial, own } => Ok(taken_out_row(*serial, *own)),
        KeptEvent::Forgot(name) => named(Verb::Forget, name),
    }
}
