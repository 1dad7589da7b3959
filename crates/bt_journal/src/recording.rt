//! The change that is done, its moment, and what undone moments it gives up. `refusing.rt` has what refuses it before.

ghost use Rattle.std.specs.Prelude.{◌≡◌, List, length, Some};
ghost use Rattle.journal_model.specs.Blank.{Blank};
ghost use Rattle.journal_keeping.specs.Calls.{Costs};
ghost use Rattle.journal_keeping.specs.Steps.{Appends};
ghost use Rattle.journal_model.specs.Plain.{Past, now};
ghost use Rattle.journal_model.specs.Book.{given_up_by, resolved};

use bt_mapkind::MapKind;
use host_state::{Change, Refusal, Reply};
use journal_keeping::Timeline;

/// The change that is done: a create gets this id and charge, whatever was handed in.
pub fn resolved(change: Change, new: u32, charge: u64) -> Change
    ensures { (blank : Blank) → blank.make.charge ≡ charge → result ≡ resolved new (Some blank) change }
{
    match change {
        Change::Create {
            id: _,
            attr,
            charge: _,
            name,
            path,
            template,
        } => Change::Create {
            id: new,
            attr,
            charge,
            name,
            path,
            template,
        },
        known => known,
    }
}

/// Does a change and appends its moment, as [`Timeline::append`] does, and drops the change.
pub fn append<K: MapKind>(
    line: &mut Timeline<K>,
    serial: u64,
    change: Change,
) -> Result<Reply, Refusal>
    ensures pasts { Appends line.old serial change result line.new.pasts }
    ensures boxes { line.new.makes ≡ line.old.makes }
    ensures work { Costs (now line.old.pasts) change result line.old.work line.new.work }
{
    line.append(serial, &change)
}

/// The serial that gave undone moments up: this one if there were so many, else the one before.
pub fn given_up_by(serial: u64, undone: u64, before: Option<u64>) -> Option<u64>
    ensures { (past : List Past) → length past ≡ undone → result ≡ given_up_by serial past before }
{
    if undone > 0 { Some(serial) } else { before }
}
