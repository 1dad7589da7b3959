//! The moments of a world, and the undone ones.

ghost use Rattle.std.specs.Prelude.{◌≡◌, ◌↔◌, ◌+◌, ◌-◌, ◌<◌, ◌≤◌, ◌^◌, [], Err, IsSome, IfOk, IsOk, OnOk, OnErr, length, map as each, reverse};
ghost use Rattle.std.specs.FinMap as map;
ghost use Rattle.bt_mapkind.specs.Seen.{Seen, IsFresh, NeverWantsMemory};
ghost use Rattle.bt_objects.specs.Boxes.{make_of};
ghost use Rattle.bt_objects.specs.Ids.{is_among};
ghost use Rattle.host_state.specs.Ask.{ask, IsLookUp};
ghost use Rattle.host_state.specs.Settled.{is_live_in};
ghost use Rattle.host_state.specs.Work.{CallsAtMost, calls_of};
ghost use Rattle.host_state.specs.World.{charged_of};
ghost use Rattle.journal_model.specs.Plain.{now, newest_force, one_back, one_forth, cut};
ghost use Rattle.journal_model.specs.Listed.{row_of};
ghost use Rattle.journal_model.specs.Force.{is_in_force};
ghost use Rattle.journal_model.specs.Rebase.{forth_by};
ghost use Rattle.journal_moments.specs.Listed.{ListsPasts};
ghost use Rattle.journal_moments.specs.Serials.{SerialsRise, change_in};
ghost use Rattle.journal_moments.specs.Calls.{calls_back, calls_forth, Costs};
ghost use Rattle.journal_moments.specs.Rebased.{AllBegin, on_new_base, ListsAllLeft, kept_pasts};
ghost use Rattle.journal_moments.specs.Replayed.{AllReplayed};
ghost use Rattle.journal_timeline.specs.Steps.{Appends};

use crate::doing::done;
use bt_mapkind::MapKind;
use bt_objects::{Keep, PlaceFault};
use bt_roots::Target;
use host_state::{Ask, AskReply, Change, Refusal, Reply};
use host_words::NoMemory;
use journal_model::ChangeRow;
use journal_moments::{
    Gone, Moment, Record, World, change_of, change_rows, drop_front, exchange, give_up, has_serial,
    make_room, moment_rows,
};
use std::alloc::Global;
use std::collections::VecDeque;
use std::marker::Model;

/// A world with its moments. Contracts see the base, the moments and the undone moments, each with its state, and the
/// boxes by id with what they were made with.
#[derive(Drop)]
pub struct Timeline<K: MapKind> {
    pub(crate) world: World<K>,
    pub(crate) records: VecDeque<Record>,
    // Those in force, and after them the undone ones, the next one first.
    pub(crate) moments: VecDeque<Moment>,
    // How many moments are in force.
    pub(crate) standing: usize,
    // How many records were given up: positions count them, too.
    pub(crate) gone: Gone,
}

impl<K: MapKind> Model for Timeline<K> {
    ghost use Rattle.journal_moments.specs.View.{LineView, line_code};

    ghost Value = { LineView };

    ghost coded = { line_code };

    ghost use Rattle.std.specs.VecDeque.{deque_capacity};
    ghost use Rattle.journal_moments.specs.Held.{held, line_of, Sound};

    ghost view = { λ t. line_of (held t.world t.records.items (deque_capacity t.records) t.moments.items t.standing t.gone) };

    ghost invariant = { λ t. Sound (held t.world t.records.items (deque_capacity t.records) t.moments.items t.standing t.gone) };
}

impl<K: MapKind> Timeline<K> {
    /// A world with no moments yet.
    pub fn new(alloc: Global, world: World<K>) -> Self
        ensures pasts { result.pasts ≡ record { base = world.state; moments = []; undone = [] } }
        ensures boxes { result.makes ≡ world.ready.makes }
        ensures work { result.work ≡ world.work }
    {
        Timeline {
            world,
            records: VecDeque::new(alloc),
            moments: VecDeque::new(alloc),
            standing: 0,
            gone: Gone::none(),
        }
    }

    /// How many moments there are.
    pub fn moment_count(&self) -> u64
        ensures { result ≡ length self.now.pasts.moments }
    {
        self.standing as u64
    }

    /// How many undone moments there are.
    pub fn undone_count(&self) -> u64
        ensures { result ≡ length self.now.pasts.undone }
    {
        (self.moments.len() - self.standing) as u64
    }

    /// Whether a change in force has this serial.
    pub fn is_in_force(&self, serial: u64) -> bool
        ensures { result ≡ is_in_force serial (newest_force self.now.pasts.moments) }
    {
        has_serial(&self.records, serial)
    }

    /// The change in force of this serial, as it was recorded, by binary search; None if no change in force has it. Takes
    /// memory for the change.
    pub fn change_of(&self, serial: u64) -> Result<Option<Change>, NoMemory>
        requires { SerialsRise (newest_force self.now.pasts.moments) }
        ensures { IfOk result (λ change. change ≡ change_in serial (newest_force self.now.pasts.moments)) }
    {
        change_of(&self.records, serial)
    }

    /// What a list shows of each change in force, the oldest first. Takes memory.
    pub fn change_rows(&self) -> Result<Vec<ChangeRow>, NoMemory>
        ensures { IfOk result (λ rows. rows.items ≡ each row_of (newest_force self.now.pasts.moments)) }
    {
        change_rows(*self.records.allocator(), &self.records)
    }

    /// Of each moment in force, the oldest first, its serial, and the serial of the change that it took out, if it took one out.
    /// Takes memory.
    pub fn moment_rows(&self) -> Result<Vec<(u64, Option<u64>)>, NoMemory>
        ensures { IfOk result (λ rows. rows.items ≡ reverse (each (λ m. (m.serial, m.out)) self.now.pasts.moments)) }
    {
        let mut rows = moment_rows(*self.moments.allocator(), &self.moments)?;
        rows.truncate(self.standing);
        Ok(rows)
    }

    /// Each moment's state is what its list in force makes of the base.
    pub fn moments_are_replays(&self)
        ensures moments { AllReplayed self.now.pasts.base self.now.pasts.moments }
        ensures undone { AllReplayed self.now.pasts.base self.now.pasts.undone }
    {
        let _ = &self.world;
    }

    /// The newest moment is undone. It takes no memory.
    pub fn back(&mut self)
        requires { 0 < length self.old.pasts.moments }
        ensures pasts { self.new.pasts ≡ one_back self.old.pasts }
        ensures boxes { self.new.makes ≡ self.old.makes }
        ensures work { CallsAtMost (calls_back 1 self.old.pasts.moments) self.old.work self.new.work }
    {
        let newest = self.standing - 1;
        exchange(
            &mut self.world,
            &mut self.records,
            &self.gone,
            &mut self.moments[newest],
        );
        self.standing = newest;
    }

    /// The first undone moment comes back. It takes no memory.
    pub fn forth(&mut self)
        requires { 0 < length self.old.pasts.undone }
        ensures pasts { self.new.pasts ≡ one_forth self.old.pasts }
        ensures boxes { self.new.makes ≡ self.old.makes }
        ensures work { CallsAtMost (calls_forth 1 (newest_force self.old.pasts.moments) self.old.pasts.undone) self.old.work self.new.work }
    {
        let next = self.standing;
        exchange(
            &mut self.world,
            &mut self.records,
            &self.gone,
            &mut self.moments[next],
        );
        self.standing = next + 1;
    }

    /// Takes a box in under an id, where it waits for its map, as [`World::place`] does.
    pub fn place(&mut self, id: u32, kind: K) -> Result<(), PlaceFault>
        requires { charged_of self.old.makes + (K.seen kind).charge < 2 ^ 64 }
        ensures wrong_blank { (result ≡ Err PlaceFault.WrongBlank) ↔ ¬ (IsFresh (K.seen kind)) }
        ensures id_taken { (result ≡ Err PlaceFault.IdTaken) ↔ (IsFresh (K.seen kind) × IsSome (map.get self.old.makes id)) }
        ensures placed { OnOk result (self.new.makes ≡ map.insert self.old.makes id (make_of (K.seen kind))) }
        ensures refused { OnErr result (self.new.makes ≡ self.old.makes) }
        ensures pasts { self.new.pasts ≡ self.old.pasts }
        ensures work { self.new.work ≡ self.old.work }
    {
        self.world.place(id, kind)
    }

    /// Does a change and appends its moment; the undone moments are given up. A refused change leaves the moments as
    /// they were. Takes memory; undoing the moment and redoing it then take none.
    pub fn append(&mut self, serial: u64, change: &Change) -> Result<Reply, Refusal>
        ensures pasts { Appends self.old serial change.now result self.new.pasts }
        ensures boxes { self.new.makes ≡ self.old.makes }
        ensures work { Costs (now self.old.pasts) change.now result self.old.work self.new.work }
    {
        let alloc = *self.records.allocator();
        match make_room(&mut self.records, &mut self.moments) {
            Ok(()) => {}
            Err(_) => return Err(Refusal::NoMemory),
        }
        let (reply, record) = match done(&mut self.world, alloc, serial, change) {
            Ok(both) => both,
            Err(refusal) => return Err(refusal),
        };
        let at = self.gone.behind(self.records.len());
        self.records.push_back_reserved(record);
        self.moments.truncate(self.standing);
        self.moments
            .push_back_reserved(Moment::of_change(serial, at));
        self.standing = self.moments.len();
        Ok(reply)
    }

    /// The answer to a question about the state as it is now. Takes memory.
    pub fn ask(&mut self, question: &Ask) -> Result<AskReply, NoMemory>
        ensures answer { IfOk result (λ reply. reply ≡ ask (now self.old.pasts) question.now) }
        ensures room { NeverWantsMemory K.seen → IsLookUp question.now → IsOk result }
        ensures pasts { self.new.pasts ≡ self.old.pasts }
        ensures boxes { self.new.makes ≡ self.old.makes }
        ensures work { CallsAtMost (calls_of (now self.old.pasts) question.now) self.old.work self.new.work }
    {
        self.world.ask(question)
    }

    /// The world as it is now, to be looked at.
    pub fn world(&self) -> &World<K>
        ensures { result.now.state ≡ now self.now.pasts }
    {
        &self.world
    }

    /// Whether a map of this id is there as it is now, live or retired.
    pub fn has_map(&self, id: u32) -> bool
        ensures { result ≡ map.contains_key (now self.now.pasts).maps id }
    {
        self.world.has_map(id)
    }

    /// Whether a program of this id is there as it is now, live or retired.
    pub fn has_prog(&self, id: u32) -> bool
        ensures { result ≡ map.contains_key (now self.now.pasts).progs id }
    {
        self.world.has_prog(id)
    }

    /// Whether an object is there and live as it is now.
    pub fn is_live(&self, target: Target) -> bool
        ensures { result ≡ is_live_in (now self.now.pasts) target }
    {
        self.world.is_live(target)
    }

    /// Drops the boxes that are not listed, none of which a moment or an undone one has. It takes no memory.
    pub fn keep_only(&mut self, keep: &Keep)
        requires { ListsPasts keep.now.maps.items keep.now.progs.items self.old.pasts }
        ensures boxes { self.new.makes ≡ map.retain_keys self.old.makes (is_among keep.now.maps.items) }
        ensures pasts { self.new.pasts ≡ self.old.pasts }
        ensures work { self.new.work ≡ self.old.work }
    {
        self.world.drop_unreachable(keep);
    }

    // How many changes were in force after so many moments.
    pub(crate) fn in_force_after(&self, count: usize) -> usize
        requires { count ≤ length self.now.pasts.moments }
        ensures { result ≡ length (newest_force (cut count self.now.pasts).moments) }
    {
        if count == self.standing {
            self.records.len()
        } else {
            self.moments[count].leaves(&self.gone)
        }
    }

    /// The state after the first `count` moments becomes the base: these are given up, and the later ones stay, in force or
    /// undone, each without the changes that were in force then, with which it begins. It takes no memory and calls no box,
    /// and no moment that stays is touched.
    pub fn advance(&mut self, count: usize)
        requires within { count ≤ length self.old.pasts.moments }
        requires begin { let q = cut count self.old.pasts in AllBegin (newest_force q.moments) q.undone }
        ensures pasts { self.new.pasts ≡ forth_by (length self.old.pasts.moments - count) (on_new_base (cut count self.old.pasts)) }
        ensures boxes { self.new.makes ≡ self.old.makes }
        ensures work { self.new.work ≡ self.old.work }
    {
        let below = self.in_force_after(count);
        drop_front(&mut self.moments, count);
        self.standing -= count;
        drop_front(&mut self.records, below);
        give_up(&mut self.gone, &mut self.moments, below);
    }

    /// Drops the objects and the boxes that are not listed, each of which has retired in the base or is in no state. It
    /// takes no memory.
    pub fn drop_retired(&mut self, keep: &Keep)
        requires { ListsAllLeft keep.now.maps.items keep.now.progs.items self.old.pasts }
        ensures pasts { self.new.pasts ≡ kept_pasts keep.now.maps.items keep.now.progs.items self.old.pasts }
        ensures boxes { self.new.makes ≡ map.retain_keys self.old.makes (is_among keep.now.maps.items) }
        ensures work { self.new.work ≡ self.old.work }
    {
        self.world.drop_unreachable(keep);
    }

    /// The sum of the charges of the boxes, in bytes.
    pub fn charged(&self) -> u64
        ensures { result ≡ charged_of self.now.makes }
    {
        self.world.charged()
    }

    /// How many units of work were done on boxes; at the greatest u64 the count stays.
    pub fn work(&self) -> u64
        ensures { result ≡ self.now.work }
    {
        self.world.work()
    }
}
