//! A moment: a change, or a taking out.

ghost use Rattle.std.specs.Prelude.{◌≡◌, ◌+◌, ◌<◌, ◌^◌, [], length, None, IfOk};
ghost use Rattle.journal_moments.specs.Lowered.{IsLowered, lowered, raised};
ghost use Rattle.journal_moments.specs.MomentView.{taking_view, HasTurnedNothing, HasRoomForOne};

use crate::gone::Gone;
use host_words::NoMemory;
use journal_record::Record;
use std::alloc::Global;
use std::marker::Model;

/// What a moment did. Its position `at` counts the records that were given up, too.
#[derive(Drop)]
pub enum Form {
    /// A change. Its record comes after the first `at`, or is here while the moment is undone.
    Change {
        serial: u64,
        at: usize,
        undone: Option<Record>,
    },
    /// One change was taken out.
    Taking(Box<Taking>),
}

/// A taking out: past the first `at` records and before the last `stays`, those in place are exchanged with `other`, the last
/// of which goes first.
#[derive(Drop)]
pub struct Taking {
    pub serial: u64,
    /// The serial of the change that was taken out.
    pub out: u64,
    pub at: usize,
    /// How many records stay in place after those that are exchanged. If any do, a single record is exchanged.
    pub stays: usize,
    pub other: Vec<Record>,
    /// Empty, with room for what is exchanged with `other`.
    pub spare: Vec<Record>,
}

impl Taking {
    /// A taking out of the change of a serial that has turned nothing back yet, with room for `at` records in both lists.
    /// Takes memory.
    pub fn with_room(alloc: Global, out: u64, at: usize) -> Result<Box<Taking>, NoMemory>
        ensures { IfOk result (λ taking. HasTurnedNothing out at taking.value) }
    {
        let other = Vec::with_capacity(alloc, at)?;
        let spare = Vec::with_capacity(alloc, at)?;
        Taking::with_lists(alloc, out, at, other, spare)
    }

    /// A taking out of the change of a serial that holds no record yet, with room for a single one: the list that it is put
    /// into has memory, and the one that it changes places with has none. Takes memory.
    pub fn of_one(alloc: Global, out: u64) -> Result<Box<Taking>, NoMemory>
        ensures { IfOk result (λ taking. HasRoomForOne out taking.value) }
    {
        let spare = Vec::with_capacity(alloc, 1)?;
        Taking::with_lists(alloc, out, 0, Vec::new(alloc), spare)
    }

    // A taking out that turns back what stands past the first `at`, none of which it holds yet, by these lists.
    fn with_lists(
        alloc: Global,
        out: u64,
        at: usize,
        other: Vec<Record>,
        spare: Vec<Record>,
    ) -> Result<Box<Taking>, NoMemory>
        ensures { IfOk result (λ taking. taking.value ≡ record { serial = 0; out = out; at = at; stays = 0; other = other; spare = spare }) }
    {
        let taking = Taking {
            serial: 0,
            out,
            at,
            stays: 0,
            other,
            spare,
        };
        match Box::new(alloc, taking) {
            Ok(taking) => Ok(taking),
            Err(_) => Err(NoMemory),
        }
    }
}

/// A moment exchanges the records in place after a number of them with those that it holds. Contracts see both, and
/// for how many it has room.
#[derive(Drop)]
pub struct Moment {
    pub(crate) form: Form,
}

impl Model for Moment {
    ghost use Rattle.journal_moments.specs.MomentView.{MomentView};

    ghost Value = { MomentView };

    ghost use Rattle.journal_moments.specs.MomentView.{view_of, IsSpare};

    ghost view = { λ m. view_of m.form };

    ghost invariant = { λ m. IsSpare m.form };
}

impl Moment {
    /// The moment of a change whose record comes after the first `at`.
    pub fn of_change(serial: u64, at: usize) -> Moment
        ensures { result ≡ record { serial = serial; out = None; at = at; stays = 0; other = []; room = 1 } }
    {
        Moment {
            form: Form::Change {
                serial,
                at,
                undone: None,
            },
        }
    }

    /// The moment of a taking out.
    pub fn of_taking(taking: Box<Taking>) -> Moment
        requires { taking.value.spare.items ≡ [] }
        ensures { result ≡ taking_view taking.value }
    {
        Moment {
            form: Form::Taking(taking),
        }
    }

    /// Its serial.
    pub fn serial(&self) -> u64
        ensures { result ≡ self.now.serial }
    {
        match &self.form {
            Form::Change { serial, .. } => *serial,
            Form::Taking(taking) => taking.serial,
        }
    }

    /// The serial of the change that it took out, if it took one out.
    pub fn out(&self) -> Option<u64>
        ensures { result ≡ self.now.out }
    {
        match &self.form {
            Form::Change { .. } => None,
            Form::Taking(taking) => Some(taking.out),
        }
    }

    // Its position, how many records it holds, and how many stay after them.
    fn place(&self) -> (usize, usize, usize)
        ensures at { result.0 ≡ self.now.at }
        ensures held { result.1 ≡ length self.now.other }
        ensures stays { result.2 ≡ self.now.stays }
    {
        match &self.form {
            Form::Change {
                serial: _,
                at,
                undone,
            } => (*at, if undone.is_some() { 1 } else { 0 }, 0),
            Form::Taking(taking) => (taking.at, taking.other.len(), taking.stays),
        }
    }

    /// How many records are in place once it is exchanged.
    pub fn leaves(&self, gone: &Gone) -> usize
        requires { let m = lowered gone.now self.now in m.at + length m.other + m.stays < 2 ^ 64 }
        ensures { let m = lowered gone.now self.now in result ≡ m.at + length m.other + m.stays }
    {
        let (at, held, stays) = self.place();
        let gone = gone.count();
        at.saturating_sub(gone) + held.saturating_sub(gone.saturating_sub(at)) + stays
    }

    /// Counts its records past the first `count`, which are gone. Of those that it holds, the ones go that would stand among
    /// them.
    pub fn lower(&mut self, count: usize)
        ensures { IsLowered count self.old self.new }
    {
        match &mut self.form {
            Form::Change {
                serial: _,
                at,
                undone,
            } => {
                if count > *at {
                    *undone = None;
                }
                *at = at.saturating_sub(count);
            }
            Form::Taking(taking) => {
                let among = count.saturating_sub(taking.at);
                let left = taking.other.len().saturating_sub(among);
                taking.other.truncate(left);
                taking.at = taking.at.saturating_sub(count);
            }
        }
    }

    /// Counts its records from the first that was given up on again.
    pub fn raise(&mut self, gone: &Gone)
        requires { self.old.at < 2 ^ 63 }
        ensures { self.new ≡ raised gone.now self.old }
    {
        match &mut self.form {
            Form::Change {
                serial: _,
                at,
                undone: _,
            } => *at = gone.behind(*at),
            Form::Taking(taking) => taking.at = gone.behind(taking.at),
        }
    }
}
