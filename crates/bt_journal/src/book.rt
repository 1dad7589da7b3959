//! The book of a host: its timeline with marks, serials and limits.

ghost use Rattle.std.specs.Prelude.{◌≡◌, ◌+◌, ◌<◌, ◌≤◌, if◌then◌else◌, length, is_ok, IfOk, IsOk, Err, Some, None, Option};
ghost use Rattle.bt_mapkind.specs.Seen.{Seen, IsFresh};
ghost use Rattle.host_state.specs.Act.{act};
ghost use Rattle.host_state.specs.declared.change.Change.TheVariants.{Load};
ghost use Rattle.journal_model.specs.Plain.{now};
ghost use Rattle.journal_model.specs.Book.{opened, charged, within_window, recorded, noted_as, resolved, with_prog_id, OrNoMemory};
ghost use Rattle.journal_model.specs.Blank.{Blank, IsBlankOf};
ghost use Rattle.journal_model.specs.Well.{IsWellBook};
ghost use Rattle.bt_journal.specs.BookView.{Opens};
ghost use Rattle.bt_journal.specs.Undone.{CallsNone};
ghost use Rattle.bt_journal.specs.Joining.{CanJoin};
ghost use Rattle.journal_keeping.specs.Calls.{Costs};
ghost use Rattle.bt_journal.specs.Recording.{AreBlanks, Makes, MakesNone, SuitsNone};

use crate::recording::{append, given_up_by, resolved};
use bt_mapkind::MapKind;
use bt_roots::devices_are_good;
use host_state::{Change, Code, Refusal, Reply};
use host_words::{NoMemory, Word};
use journal_keeping::{Ids, LastIds, Marks, Timeline, World, fold, keep_only, note_moment};
use journal_model::{BookFault, Limits};
use std::alloc::Global;
use std::marker::Model;

/// A book. Contracts see the plain book, which keeps every past state, and the units of work done.
#[derive(Drop)]
pub struct Book<K: MapKind> {
    pub(crate) line: Timeline<K>,
    pub(crate) marks: Marks,
    pub(crate) gave_up: Option<u64>,
    pub(crate) last_serial: u64,
    pub(crate) last_ids: LastIds,
    pub(crate) limits: Limits,
    pub(crate) ids: Ids,
}

impl<K: MapKind> Model for Book<K> {
    ghost use Rattle.bt_journal.specs.BookView.{BookView, view_code};

    ghost Value = { BookView };

    ghost coded = { view_code };

    ghost view = { λ b. record {
      plain = record {
        line = b.line.pasts;
        gone = b.marks.gone;
        marks = b.marks.standing;
        forgotten_marks = b.marks.forgotten;
        gave_up = b.gave_up;
        last_serial = b.last_serial;
        last_map = b.last_ids.map_id;
        last_prog = b.last_ids.prog_id;
        limits = b.limits;
      };
      work = b.line.work;
    } };

    ghost use Rattle.journal_model.specs.Well.{Each, IsWellBook};
    ghost use Rattle.journal_keeping.specs.Boxes.{KeepsBoxes, IsUpTo, states_of, lasts_of};

    ghost invariant = { λ b.
        KeepsBoxes b.line.makes (states_of b.line.pasts) (lasts_of b.ids.base b.ids.lasts.items) b.ids.maps.items b.ids.progs.items
        × Each (IsUpTo b.last_ids) (lasts_of b.ids.base b.ids.lasts.items)
        × IsWellBook (record {
          line = b.line.pasts;
          gone = b.marks.gone;
          marks = b.marks.standing;
          forgotten_marks = b.marks.forgotten;
          gave_up = b.gave_up;
          last_serial = b.last_serial;
          last_map = b.last_ids.map_id;
          last_prog = b.last_ids.prog_id;
          limits = b.limits;
        }) };
}

impl<K: MapKind> Book<K> {
    /// A book of a host with these devices and nothing else, on which no work was done. BadDevices if there are not 1 to 16
    /// of good and distinct names, else BadLimits for a journal of 0 or more than 1,000,000 moments. Takes memory.
    pub fn new(alloc: Global, devices: Vec<Word>, limits: Limits) -> Result<Self, BookFault>
        ensures { Opens (opened devices.items limits) result }
    {
        if !devices_are_good(&devices) {
            return Err(BookFault::BadDevices);
        }
        // `Terms::new` of kept_ledger has this range, too, for the limits that a database tells.
        if !(1..=1_000_000).contains(&limits.journal) {
            return Err(BookFault::BadLimits);
        }
        match World::new(alloc, devices) {
            Ok(world) => Ok(Book {
                line: Timeline::new(alloc, world),
                marks: Marks::new(alloc),
                gave_up: None,
                last_serial: 0,
                last_ids: LastIds {
                    map_id: 0,
                    prog_id: 0,
                },
                limits,
                ids: Ids::new(alloc),
            }),
            Err(_) => Err(BookFault::NoMemory),
        }
    }

    /// Every book is well, whatever its past: each moment's state, undone or in force, is what its changes in force make of
    /// the base, each answering as it did; those are the changes of the moment before it and one more, or all but one;
    /// serials rise; an id stands for one box in all states that are kept; and no mark stands at more moments than are in
    /// force. So what [`journal_laws`] says of well books holds of every book. It does nothing.
    pub fn is_well(&self)
        ensures { IsWellBook self.now.plain }
    {
        let _ = &self.line;
    }

    /// Does a change, and appends its moment: its serial and its reply. A create comes with a fresh box of its attributes,
    /// and gets the next id and the box's charge, whatever was handed in; a load gets the next program id; no other change
    /// than a create comes with a box. Moments that were undone are given up, and boxes that were in those alone dropped.
    /// If as many moments are in force as may be, the oldest joins the base.
    /// Refused, it changes nothing, and drops the box: SerialsSpent, JournalFull if the oldest moment cannot join the base,
    /// IdsSpent, EINVAL for attributes or a name that are not good, WrongBlank, BudgetFull, then what the change itself
    /// answers, in this order. Takes memory.
    pub fn record(&mut self, change: Change, blank: Option<K>) -> Result<(u64, Reply), Refusal>
        ensures plain { (plain : Option Blank) → AreBlanks K.seen blank plain →
            OrNoMemory self.old.plain Refusal.NoMemory (recorded self.old.plain change plain) (self.new.plain, result) }
        ensures work { Costs (now self.old.plain.line) change result self.old.work self.new.work }
    {
        match self.refusal_of(&change, &blank) {
            Some(refusal) => return Err(refusal),
            None => {}
        }
        match blank {
            Some(kind) => {
                let made = self.record_new(change, kind);
                self.in_window(made)
            }
            None => {
                let made = self.record_plain(change);
                self.in_window(made)
            }
        }
    }

    /// Does a change that makes neither a map nor a program, as [`Book::record`] does, where it stands: nothing of it is moved.
    pub fn record_lent(&mut self, change: &Change) -> Result<(u64, Reply), Refusal>
        requires { MakesNone change.now }
        ensures plain { OrNoMemory self.old.plain Refusal.NoMemory (recorded self.old.plain change.now None) (self.new.plain, result) }
        ensures work { Costs (now self.old.plain.line) change.now result self.old.work self.new.work }
    {
        match self.refusal_of(change, &None) {
            Some(refusal) => Err(refusal),
            None => {
                let made = self.record_known(change);
                self.in_window(made)
            }
        }
    }

    // What was made, and if it is a moment more than may be in force, the oldest in the base.
    fn in_window(&mut self, made: Result<(u64, Reply), Refusal>) -> Result<(u64, Reply), Refusal>
        requires { IsOk made → CanJoin self.old.plain }
        ensures made { result ≡ made }
        ensures plain { self.new.plain ≡ (if is_ok made then within_window self.old.plain else self.old.plain) }
        ensures work { self.new.work ≡ self.old.work }
    {
        match made {
            Ok(done) => {
                self.keep_window();
                Ok(done)
            }
            Err(refusal) => Err(refusal),
        }
    }

    // Lets the oldest moment join the base if more are in force than may be. It takes no memory and calls no box.
    pub(crate) fn keep_window(&mut self)
        requires { CanJoin self.old.plain }
        ensures plain { self.new.plain ≡ within_window self.old.plain }
        ensures work { self.new.work ≡ self.old.work }
    {
        if self.line.moment_count() > self.limits.journal {
            fold(&mut self.line, &mut self.ids);
            self.marks.fold();
        }
    }

    // Does a change that comes with no box.
    fn record_plain(&mut self, change: Change) -> Result<(u64, Reply), Refusal>
        requires serials { self.old.plain.last_serial < self.old.plain.limits.last_serial }
        requires suits { SuitsNone self.old.plain change }
        ensures plain { (let change = with_prog_id (self.old.plain.last_prog + 1) change in
            OrNoMemory self.old.plain Refusal.NoMemory
            (noted_as self.old.plain change (act (now self.old.plain.line) change)) (self.new.plain, result)) }
        ensures work { Costs (now self.old.plain.line) change result self.old.work self.new.work }
    {
        match change {
            Change::Load {
                id: _,
                code,
                name,
                path,
            } => self.record_load(code, name, path),
            known => self.record_moved(known),
        }
    }

    // Does a change that makes neither a map nor a program, and drops it.
    fn record_moved(&mut self, change: Change) -> Result<(u64, Reply), Refusal>
        requires serials { self.old.plain.last_serial < self.old.plain.limits.last_serial }
        requires known { MakesNone change }
        ensures plain { OrNoMemory self.old.plain Refusal.NoMemory
            (noted_as self.old.plain change (act (now self.old.plain.line) change)) (self.new.plain, result) }
        ensures work { Costs (now self.old.plain.line) change result self.old.work self.new.work }
    {
        self.record_known(&change)
    }

    // Does a change that makes neither a map nor a program.
    fn record_known(&mut self, change: &Change) -> Result<(u64, Reply), Refusal>
        requires serials { self.old.plain.last_serial < self.old.plain.limits.last_serial }
        requires known { MakesNone change.now }
        ensures plain { OrNoMemory self.old.plain Refusal.NoMemory
            (noted_as self.old.plain change.now (act (now self.old.plain.line) change.now)) (self.new.plain, result) }
        ensures work { Costs (now self.old.plain.line) change.now result self.old.work self.new.work }
    {
        let serial = self.last_serial + 1;
        match self.ids.reserve() {
            Ok(()) => {}
            Err(_) => return Err(Refusal::NoMemory),
        }
        let undone = self.line.undone_count();
        match self.line.append(serial, change) {
            Ok(reply) => {
                note_moment(&mut self.line, &mut self.ids, self.last_ids, &reply);
                self.gave_up = given_up_by(serial, undone, self.gave_up);
                self.last_serial = serial;
                Ok((serial, reply))
            }
            Err(refusal) => Err(refusal),
        }
    }

    // Loads a program, and gives it the next id.
    fn record_load(&mut self, code: Code, name: Word, path: Word) -> Result<(u64, Reply), Refusal>
        requires serials { self.old.plain.last_serial < self.old.plain.limits.last_serial }
        requires ids { self.old.plain.last_prog < self.old.plain.limits.last_id }
        ensures plain { (let change = Load (self.old.plain.last_prog + 1) code name path in
            OrNoMemory self.old.plain Refusal.NoMemory
            (noted_as self.old.plain change (act (now self.old.plain.line) change)) (self.new.plain, result)) }
        ensures work { CallsNone result self.old.work self.new.work }
    {
        let id = self.last_ids.prog_id + 1;
        let serial = self.last_serial + 1;
        let last = LastIds {
            map_id: self.last_ids.map_id,
            prog_id: id,
        };
        match self.ids.reserve() {
            Ok(()) => {}
            Err(_) => return Err(Refusal::NoMemory),
        }
        let change = Change::Load {
            id,
            code,
            name,
            path,
        };
        let undone = self.line.undone_count();
        match append(&mut self.line, serial, change) {
            Ok(reply) => {
                note_moment(&mut self.line, &mut self.ids, last, &reply);
                self.gave_up = given_up_by(serial, undone, self.gave_up);
                self.last_serial = serial;
                self.last_ids = last;
                Ok((serial, reply))
            }
            Err(refusal) => Err(refusal),
        }
    }

    // Does a change that makes a map of this box.
    fn record_new(&mut self, change: Change, kind: K) -> Result<(u64, Reply), Refusal>
        requires serials { self.old.plain.last_serial < self.old.plain.limits.last_serial }
        requires ids { self.old.plain.last_map < self.old.plain.limits.last_id }
        requires charges { charged self.old.plain + (K.seen kind).charge ≤ self.old.plain.limits.budget }
        requires fresh { IsFresh (K.seen kind) }
        requires suits { Makes (K.seen kind).attr change }
        ensures plain { (blank : Blank) → IsBlankOf (K.seen kind) blank →
            (let change = resolved (self.old.plain.last_map + 1) (Some blank) change in
            OrNoMemory self.old.plain Refusal.NoMemory
            (noted_as self.old.plain change (act (now self.old.plain.line) change)) (self.new.plain, result)) }
        ensures work { CallsNone result self.old.work self.new.work }
    {
        let id = self.last_ids.map_id + 1;
        let serial = self.last_serial + 1;
        let last = LastIds {
            map_id: id,
            prog_id: self.last_ids.prog_id,
        };
        let change = resolved(change, id, kind.charge());
        match self.ids.reserve() {
            Ok(()) => {}
            Err(_) => return Err(Refusal::NoMemory),
        }
        match self.line.place(id, kind) {
            Ok(()) => {}
            Err(_) => return Err(Refusal::NoMemory),
        }
        let undone = self.line.undone_count();
        match append(&mut self.line, serial, change) {
            Ok(reply) => {
                note_moment(&mut self.line, &mut self.ids, last, &reply);
                self.gave_up = given_up_by(serial, undone, self.gave_up);
                self.last_serial = serial;
                self.last_ids = last;
                Ok((serial, reply))
            }
            Err(refusal) => {
                keep_only(&mut self.line, &mut self.ids.maps, &mut self.ids.progs);
                Err(refusal)
            }
        }
    }
}
