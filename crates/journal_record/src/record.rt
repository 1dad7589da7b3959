//! What is kept of a change in force.

ghost use Rattle.std.specs.Prelude.{◌≡◌, MatchResult, IfOk};
ghost use Rattle.host_apart.specs.Alike.{HasByteKey};
ghost use Rattle.host_apart.specs.Spots.{are_apart, back_of_part, is_keyed_back};
ghost use Rattle.journal_model.specs.Listed.{row_of};
ghost use Rattle.journal_model.specs.Replay.{is_same_reply};
ghost use Rattle.host_undoing.specs.Exchange.{turned, back_of, Fits};
ghost use Rattle.host_undoing.specs.Work.{after_turn};
ghost use Rattle.journal_record.specs.Footprint.{IsFootprint};
ghost use Rattle.journal_record.specs.Recorded.{recorded};

use crate::footprint::Footprint;
use crate::operated::Operated;
use crate::whole::Whole;
use bt_changes::World;
use bt_mapkind::MapKind;
use bt_roots::Target;
use host_state::{Change, Reply};
use host_undoing::{Part, Undoing};
use host_words::NoMemory;
use journal_model::ChangeRow;
use std::alloc::Global;
use std::marker::Model;

/// The parts of a record, in a block of just their size, so that moving a record moves a pointer.
#[derive(Drop)]
pub enum Kept {
    /// An operation that retired nothing.
    Operated(Box<Operated>),
    /// Any change.
    Whole(Box<Whole>),
}

/// A change with its serial and its reply, and what turns it. Contracts see these.
#[derive(Drop)]
pub struct Record {
    kept: Kept,
}

impl Model for Record {
    ghost use Rattle.journal_record.specs.Recorded.{Recorded};

    ghost Value = { Recorded };

    ghost use Rattle.journal_record.specs.Kept.{recorded_of};

    ghost view = { λ r. recorded_of r.kept };
}

impl Record {
    /// Keeps a change that was done. Takes memory; if it is refused, the undoing comes back. An operation that retired
    /// nothing and has at most 16 bytes of key and value takes one block of 120 bytes.
    pub fn of(
        alloc: Global,
        serial: u64,
        change: &Change,
        reply: &Reply,
        undoing: Undoing,
    ) -> Result<Record, Undoing>
        ensures { MatchResult result (λ r. r ≡ recorded serial change.now reply.now undoing) (λ back. back ≡ undoing) }
    {
        let undoing = match Operated::of(alloc, serial, change, reply, undoing) {
            Ok(kept) => {
                return Ok(Record {
                    kept: Kept::Operated(kept),
                });
            }
            Err(undoing) => undoing,
        };
        match Whole::of(alloc, serial, change, reply, undoing) {
            Ok(kept) => Ok(Record {
                kept: Kept::Whole(kept),
            }),
            Err(undoing) => Err(undoing),
        }
    }

    /// The serial of the change.
    pub fn serial(&self) -> u64
        ensures { result ≡ self.now.entry.serial }
    {
        match &self.kept {
            Kept::Operated(kept) => kept.serial,
            Kept::Whole(kept) => kept.serial,
        }
    }

    /// The change. Takes memory.
    pub fn change(&self, alloc: Global) -> Result<Change, NoMemory>
        ensures { IfOk result (λ change. change ≡ self.now.entry.change) }
    {
        match &self.kept {
            Kept::Operated(kept) => Ok(kept.change(alloc)),
            Kept::Whole(kept) => kept.change(alloc),
        }
    }

    /// What a list shows of it. Takes memory.
    pub fn row(&self) -> Result<ChangeRow, NoMemory>
        ensures { IfOk result (λ row. row ≡ row_of self.now.entry) }
    {
        match &self.kept {
            Kept::Operated(kept) => Ok(kept.row()),
            Kept::Whole(kept) => kept.row(),
        }
    }

    /// The objects that the change retired, maps before programs and each kind by ascending id.
    pub fn retired(&self) -> &[Target]
        ensures { result.now ≡ self.now.undoing.retired.targets }
    {
        match &self.kept {
            Kept::Operated(_) => &[],
            Kept::Whole(kept) => kept.undoing.retired(),
        }
    }

    /// Whether the change got this reply.
    pub fn got(&self, reply: &Reply) -> bool
        ensures { result ≡ is_same_reply reply.now self.now.entry.reply }
    {
        match &self.kept {
            Kept::Operated(kept) => kept.got(reply),
            Kept::Whole(kept) => kept.got(reply),
        }
    }

    /// Whether a later change is apart from this one: it touches nothing that this one writes, by keys, their number, freezes
    /// and links. It takes no memory.
    pub fn is_apart_from(&self, later: &Record) -> bool
        ensures { result ≡ are_apart self.now.entry.change self.now.undoing.part later.now.entry.change later.now.undoing.part }
    {
        self.footprint().is_apart_from(&later.footprint())
    }

    /// Whether what turns it is an exchange of one key of a map of bytes.
    pub fn is_keyed(&self) -> bool
        ensures { result ≡ is_keyed_back (back_of_part self.now.undoing.part) }
    {
        match &self.kept {
            Kept::Operated(kept) => kept.undoing.kept.is_keyed(),
            Kept::Whole(kept) => match &kept.undoing.part {
                Part::Contents { map: _, kept } => kept.is_keyed(),
                _ => false,
            },
        }
    }

    /// The key that it exchanges is of bytes. It does nothing.
    pub fn key_is_bytes(&self)
        ensures { HasByteKey self.now.undoing.part }
    {
        match &self.kept {
            Kept::Operated(kept) => kept.undoing.kept.key_is_bytes(),
            Kept::Whole(kept) => match &kept.undoing.part {
                Part::Contents { map: _, kept } => kept.key_is_bytes(),
                _ => {}
            },
        }
    }

    // What the change writes and looks at.
    fn footprint(&self) -> Footprint<'_>
        ensures { IsFootprint result self.now.entry.change self.now.undoing.part }
    {
        match &self.kept {
            Kept::Operated(kept) => kept.footprint(),
            Kept::Whole(kept) => kept.footprint(),
        }
    }

    /// Turns the change back, or brings it back. It takes no memory.
    pub fn turn<K: MapKind>(&mut self, world: &mut World<K>)
        requires { Fits world.old.ready world.old.state self.old.undoing }
        ensures state { world.new.state ≡ turned world.old.state self.old.undoing }
        ensures ready { world.new.ready ≡ world.old.ready }
        ensures undoing { self.new.undoing ≡ back_of world.old.state self.old.undoing }
        ensures entry { self.new.entry ≡ self.old.entry }
        ensures work { world.new.work ≡ after_turn self.old.undoing world.old.work }
    {
        match &mut self.kept {
            Kept::Operated(kept) => world.turn_plain(&mut kept.undoing),
            Kept::Whole(kept) => world.turn(&mut kept.undoing),
        }
    }
}
