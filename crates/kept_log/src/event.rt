//! What an event did, as a log tells it.

ghost use Rattle.std.specs.Prelude.{◌≡◌};
ghost use Rattle.journal_model.specs.Listed.{deed_of};
ghost use Rattle.kept_log.specs.Logged.{made_of, event_of};

use host_state::Change;
use host_words::Word;
use journal_model::{ChangeRow, Deed, origin_of};
use kept_event::KeptEvent;

/// What an event did.
#[derive(PartialEq, Eq, Debug, Drop)]
pub enum LogEvent {
    /// A change, as a list of the journal has it.
    Made(ChangeRow),
    /// A mark was made.
    Marked(Word),
    /// The moments after a mark were undone.
    UndoneTo(Word),
    /// The last moment was undone.
    UndoneLast,
    /// The moment that was undone last was done again.
    Redone,
    /// The change of this serial was taken out alone.
    TakenOut(u64),
    /// What lies before a mark was given up.
    Forgot(Word),
}

// What a change did. Its words move there, so that it takes no memory.
fn deed_of(change: Change) -> Deed
    ensures { result ≡ deed_of change }
{
    match change {
        Change::Create { id, .. } => Deed::Create(id),
        Change::Operate { map, op, .. } => Deed::of_operation(&op, map),
        Change::Freeze { map } => Deed::Freeze(map),
        Change::Link { map, .. } => Deed::Link(map),
        Change::Load { id, .. } => Deed::Load(id),
        Change::Pin { path, .. } => Deed::Pin(path),
        Change::Unpin { path } => Deed::Unpin(path),
        Change::Attach { device, .. } => Deed::Attach(device),
        Change::Detach { device } => Deed::Detach(device),
    }
}

fn made_of(serial: u64, change: Change) -> ChangeRow
    ensures { result ≡ made_of serial change }
{
    let origin = origin_of(&change);
    ChangeRow {
        serial,
        origin,
        deed: deed_of(change),
    }
}

/// What an event did. Takes no memory.
pub(crate) fn event_of(event: KeptEvent) -> LogEvent
    ensures { result ≡ event_of event }
{
    match event {
        KeptEvent::Changed { serial, change } => LogEvent::Made(made_of(serial, change)),
        KeptEvent::Marked(name) => LogEvent::Marked(name),
        KeptEvent::UndoneTo(name) => LogEvent::UndoneTo(name),
        KeptEvent::UndoneLast => LogEvent::UndoneLast,
        KeptEvent::Redone => LogEvent::Redone,
        KeptEvent::TakenOut { serial, own: _ } => LogEvent::TakenOut(serial),
        KeptEvent::Forgot(name) => LogEvent::Forgot(name),
    }
}
