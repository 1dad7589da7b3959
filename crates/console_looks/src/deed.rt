//! Who made a change and what it did, as a list of the journal tells them.

ghost use Rattle.std.specs.Prelude.{◌≡◌, IfOk};
ghost use Rattle.journal_model.specs.Listed.{deed_of};
ghost use Rattle.console_looks.specs.Shown.{change_row};

use host_state::Change;
use host_words::NoMemory;
use journal_model::{ChangeRow, Deed, origin_of};

fn deed_of(change: &Change) -> Result<Deed, NoMemory>
    ensures { IfOk result (λ deed. deed ≡ deed_of change.now) }
{
    let deed = match change {
        Change::Create { id, .. } => Deed::Create(*id),
        Change::Operate { origin: _, map, op } => Deed::of_operation(op, *map),
        Change::Freeze { map } => Deed::Freeze(*map),
        Change::Link { map, .. } => Deed::Link(*map),
        Change::Load { id, .. } => Deed::Load(*id),
        Change::Pin { target: _, path } => Deed::Pin(path.copy()?),
        Change::Unpin { path } => Deed::Unpin(path.copy()?),
        Change::Attach { device, .. } => Deed::Attach(device.copy()?),
        Change::Detach { device } => Deed::Detach(device.copy()?),
    };
    Ok(deed)
}

/// The row of a list for a change of this serial. Takes memory.
pub fn change_row(serial: u64, change: &Change) -> Result<ChangeRow, NoMemory>
    ensures { IfOk result (λ row. row ≡ change_row serial change.now) }
{
    let deed = deed_of(change)?;
    Ok(ChangeRow {
        serial,
        origin: origin_of(change),
        deed,
    })
}
