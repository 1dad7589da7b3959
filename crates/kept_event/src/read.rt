//! The event of a row.

ghost use Rattle.std.specs.Prelude.{◌≡◌, Some, IfOk, Option};
ghost use Rattle.kept_event.specs.declared.event.KeptEvent.{KeptEvent as Event};
ghost use Rattle.bt_verify.specs.Verified.{Checked};
ghost use Rattle.kept_event.specs.Bounded.{IsBounded};
ghost use Rattle.kept_event.specs.Row.{row_of};
ghost use Rattle.kept_event.specs.Reading.{changed_in, undone, taken_out_in, event_by, read_with};

use crate::code::code_in;
use crate::column::word_in;
use crate::event::KeptEvent;
use crate::read_change::change_by;
use crate::row::Row;
use crate::verb::Verb;
use host_state::Code;
use host_words::{NoMemory, Word};
use std::alloc::Global;

fn changed_in(
    alloc: Global,
    row: &Row,
    name: Option<Word>,
    path: Option<Word>,
    code: Option<Code>,
) -> Option<KeptEvent>
    ensures { result ≡ changed_in row.now name path code }
{
    let serial = row.serial?;
    let change = change_by(alloc, row.verb, row, name, path, code)?;
    Some(KeptEvent::Changed { serial, change })
}

fn undone(name: Option<Word>) -> KeptEvent
    ensures { result ≡ undone name }
{
    match name {
        Some(name) => KeptEvent::UndoneTo(name),
        None => KeptEvent::UndoneLast,
    }
}

fn taken_out_in(row: &Row) -> Option<KeptEvent>
    ensures { result ≡ taken_out_in row.now }
{
    let serial = row.target?;
    let own = row.serial?;
    Some(KeptEvent::TakenOut { serial, own })
}

// The event that a row of this verb is, with copies of its words, and its code.
fn event_by(
    alloc: Global,
    verb: Verb,
    row: &Row,
    name: Option<Word>,
    path: Option<Word>,
    code: Option<Code>,
) -> Option<KeptEvent>
    ensures { result ≡ event_by verb row.now name path code }
{
    match verb {
        Verb::Mark => Some(KeptEvent::Marked(name?)),
        Verb::Undo => Some(undone(name)),
        Verb::Redo => Some(KeptEvent::Redone),
        Verb::Without => taken_out_in(row),
        Verb::Forget => Some(KeptEvent::Forgot(name?)),
        Verb::Update
        | Verb::Delete
        | Verb::Push
        | Verb::Pop
        | Verb::Store
        | Verb::Atomic
        | Verb::SetLink
        | Verb::Create
        | Verb::Load
        | Verb::Link
        | Verb::Freeze
        | Verb::Pin
        | Verb::Unpin
        | Verb::Attach
        | Verb::Detach => changed_in(alloc, row, name, path, code),
    }
}

/// The event of a row; none when its columns tell no event, as when one that its verb needs is NULL, or its code does not
/// verify. `NoMemory` if an allocation fails.
pub fn event_in(alloc: Global, row: &Row) -> Result<Option<KeptEvent>, NoMemory>
    ensures back { (event : Event) → IsBounded event → row.now ≡ row_of event → IfOk result (λ found. found ≡ Some event) }
    ensures columns { IfOk result (λ found. (code : Option Checked) × (found ≡ read_with code row.now)) }
{
    let name = word_in(&row.name)?;
    let path = word_in(&row.path)?;
    let code = code_in(alloc, row)?;
    Ok(event_by(alloc, row.verb, row, name, path, code))
}
