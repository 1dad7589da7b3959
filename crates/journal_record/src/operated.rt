//! What is kept of an operation that retired nothing, in few bytes.

ghost use Rattle.std.specs.Prelude.{◌≡◌, MatchResult};
ghost use Rattle.journal_model.specs.Listed.{row_of};
ghost use Rattle.journal_model.specs.Replay.{is_same_reply};
ghost use Rattle.journal_record.specs.Footprint.{IsFootprint};
ghost use Rattle.journal_record.specs.Kept.{operated_view};
ghost use Rattle.journal_record.specs.Recorded.{recorded};
ghost use Rattle.host_undoing.specs.Exchange.{undoing_of};

use crate::footprint::Footprint;
use crate::operation::OperationNote;
use bt_mapkind::MapOp;
use host_state::{Change, Origin, Reply};
use host_undoing::{PlainUndoing, Undoing};
use journal_model::ChangeRow;
use std::alloc::Global;

/// A note of an operation and its reply, who did it, and what turns it. The undoing has the map.
#[derive(Drop)]
pub struct Operated {
    pub serial: u64,
    origin: Origin,
    note: OperationNote,
    pub undoing: PlainUndoing,
}

impl Operated {
    /// Keeps an operation that was done, if it retired nothing and has a note. Else, and if memory is refused, the undoing
    /// comes back. Takes memory.
    pub fn of(
        alloc: Global,
        serial: u64,
        change: &Change,
        reply: &Reply,
        undoing: Undoing,
    ) -> Result<Box<Operated>, Undoing>
        ensures { MatchResult result (λ kept. operated_view kept.value ≡ recorded serial change.now reply.now undoing) (λ back. back ≡ undoing) }
    {
        match change {
            Change::Operate { origin, map, op } => {
                of_operation(alloc, serial, *origin, *map, op, reply, undoing)
            }
            Change::Create { .. }
            | Change::Freeze { .. }
            | Change::Link { .. }
            | Change::Load { .. }
            | Change::Pin { .. }
            | Change::Unpin { .. }
            | Change::Attach { .. }
            | Change::Detach { .. } => Err(undoing),
        }
    }

    /// The change. It takes no memory.
    pub fn change(&self, alloc: Global) -> Change
        ensures { result ≡ (operated_view self.now).entry.change }
    {
        Change::Operate {
            origin: self.origin,
            map: self.undoing.map,
            op: self.note.op(alloc),
        }
    }

    /// What a list shows of it. It takes no memory.
    pub fn row(&self) -> ChangeRow
        ensures { result ≡ row_of (operated_view self.now).entry }
    {
        ChangeRow {
            serial: self.serial,
            origin: self.origin,
            deed: self.note.deed(self.undoing.map),
        }
    }

    /// What it writes and looks at.
    pub fn footprint(&self) -> Footprint<'_>
        ensures { IsFootprint result (operated_view self.now).entry.change (operated_view self.now).undoing.part }
    {
        Footprint::Operation {
            origin: self.origin,
            map: self.undoing.map,
            deletes: self.note.is_delete(),
            kept: &self.undoing.kept,
        }
    }

    /// Whether the operation got this reply.
    pub fn got(&self, reply: &Reply) -> bool
        ensures { result ≡ is_same_reply reply.now self.now.note.reply }
    {
        self.note.got(reply)
    }
}

// The record of an operation on a map.
fn of_operation(
    alloc: Global,
    serial: u64,
    origin: Origin,
    map: u32,
    op: &MapOp,
    reply: &Reply,
    undoing: Undoing,
) -> Result<Box<Operated>, Undoing>
    ensures { MatchResult result (λ kept. operated_view kept.value ≡ recorded serial (Change.Operate origin map op.now) reply.now undoing) (λ back. back ≡ undoing) }
{
    let undoing = match PlainUndoing::of(undoing, map) {
        Ok(undoing) => undoing,
        Err(undoing) => return Err(undoing),
    };
    let note = match OperationNote::of(alloc, op, reply) {
        Some(note) => note,
        None => return Err(undoing.whole(alloc)),
    };
    let kept = Operated {
        serial,
        origin,
        note,
        undoing,
    };
    match Box::new(alloc, kept) {
        Ok(kept) => Ok(kept),
        Err(failed) => Err(undoing_in(failed.value, alloc)),
    }
}

// What takes the operation back.
fn undoing_in(kept: Operated, alloc: Global) -> Undoing
    ensures { result ≡ undoing_of kept.undoing }
{
    kept.undoing.whole(alloc)
}
