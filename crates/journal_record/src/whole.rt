//! What is kept of any change.

ghost use Rattle.std.specs.Prelude.{◌≡◌, MatchResult, IfOk};
ghost use Rattle.journal_model.specs.Listed.{row_of};
ghost use Rattle.journal_model.specs.Replay.{is_same_reply};
ghost use Rattle.journal_record.specs.Footprint.{IsFootprint};
ghost use Rattle.journal_record.specs.Kept.{whole_view};
ghost use Rattle.journal_record.specs.Recorded.{recorded};

use crate::footprint::Footprint;
use crate::note::ChangeNote;
use crate::reply_note::ReplyNote;
use host_state::{Change, Reply};
use host_undoing::Undoing;
use host_words::NoMemory;
use journal_model::ChangeRow;
use std::alloc::Global;

/// Notes of a change and its reply, and what turns it.
#[derive(Drop)]
pub struct Whole {
    pub serial: u64,
    change: ChangeNote,
    reply: ReplyNote,
    pub undoing: Undoing,
}

impl Whole {
    /// Keeps a change that was done. Takes memory; if it is refused, the undoing comes back.
    pub fn of(
        alloc: Global,
        serial: u64,
        change: &Change,
        reply: &Reply,
        undoing: Undoing,
    ) -> Result<Box<Whole>, Undoing>
        ensures { MatchResult result (λ kept. whole_view kept.value ≡ recorded serial change.now reply.now undoing) (λ back. back ≡ undoing) }
    {
        let (change, reply) = match noted(alloc, change, reply) {
            Ok(notes) => notes,
            Err(_) => return Err(undoing),
        };
        let kept = Whole {
            serial,
            change,
            reply,
            undoing,
        };
        match Box::new(alloc, kept) {
            Ok(kept) => Ok(kept),
            Err(failed) => Err(undoing_of(failed.value)),
        }
    }

    /// The change. Takes memory.
    pub fn change(&self, alloc: Global) -> Result<Change, NoMemory>
        ensures { IfOk result (λ change. change ≡ self.now.change) }
    {
        self.change.change(alloc)
    }

    /// What a list shows of it. Takes memory.
    pub fn row(&self) -> Result<ChangeRow, NoMemory>
        ensures { IfOk result (λ row. row ≡ row_of (whole_view self.now).entry) }
    {
        Ok(ChangeRow {
            serial: self.serial,
            origin: self.change.origin(),
            deed: self.change.deed()?,
        })
    }

    /// What it writes and looks at.
    pub fn footprint(&self) -> Footprint<'_>
        ensures { IsFootprint result self.now.change self.now.undoing.part }
    {
        self.change.footprint(&self.undoing.part)
    }

    /// Whether the change got this reply.
    pub fn got(&self, reply: &Reply) -> bool
        ensures { result ≡ is_same_reply reply.now self.now.reply }
    {
        self.reply.is(reply)
    }
}

// Notes of a change and its reply.
fn noted(alloc: Global, change: &Change, reply: &Reply) -> Result<(ChangeNote, ReplyNote), NoMemory>
    ensures { IfOk result (λ notes. notes ≡ (change.now, reply.now)) }
{
    let change = ChangeNote::of(alloc, change)?;
    let reply = ReplyNote::of(alloc, reply)?;
    Ok((change, reply))
}

// What takes the change back.
fn undoing_of(kept: Whole) -> Undoing
    ensures { result ≡ kept.undoing }
{
    kept.undoing
}
