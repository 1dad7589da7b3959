//! The host as one value: its state, and what stands ready to change it.

ghost use Rattle.std.specs.Prelude.{◌≡◌, ◌≢◌, ◌↔◌, Some, None, ◌+◌, ◌<◌, ◌^◌, Err, IsSome, IsTrue, IfOk, IsOk, OnOk, OnErr, is_some, if◌then◌else◌, ℕ};
ghost use Rattle.std.specs.FinMap as map;
ghost use Rattle.bt_mapkind.specs.Seen.{IsFresh, NeverWantsMemory};
ghost use Rattle.bt_roots.specs.View.{devices_are_good};
ghost use Rattle.bt_objects.specs.Boxes.{make_of, charged_of as boxes_charged_of, one_more};
ghost use Rattle.bt_objects.specs.Ids.{Ascends, is_among};
ghost use Rattle.host_state.specs.Hosts.{entry_at, prog_at, found_in, held, PutsEntry, entries_in};
ghost use Rattle.host_state.specs.Hosts.{HoldsWell};
ghost use Rattle.host_state.specs.Act.{attr_if_live, live_map};
ghost use Rattle.host_state.specs.Ask.{ask, IsLookUp, rows_of, prog_rows};
ghost use Rattle.bt_changes.specs.Named.{of_ids, maps_of_name, progs_of_name};
ghost use Rattle.host_state.specs.Settled.{is_live_in};
ghost use Rattle.host_state.specs.World.{fresh_world, charged_of, ListsLive, kept_state, kept_ready};
ghost use Rattle.host_undoing.specs.Exchange.{turned, back_of, Fits, JoinsWithout, undoing_of};
ghost use Rattle.host_undoing.specs.Answers.{Answers, TakesNoMemory};
ghost use Rattle.host_state.specs.Work.{Works, walks, most_calls, after_change, CallsAtMost, calls_of};
ghost use Rattle.host_undoing.specs.Work.{after_turn};

use crate::devices::show_devices;
use crate::dump::dump_live;
use crate::named::{OfName, map_of_name, prog_of_name};
use crate::question::{attr_if_live, pinned_there, read_live, show};
use crate::running::{fetch, start};
use crate::shown_progs::{code_if_live, show_progs};
use bt_mapkind::{MapAttr, MapKind};
use bt_objects::{Keep, Make, Objects, PlaceFault, is_among};
use bt_roots::{Roots, Target};
use host_operations::freeze::freeze;
use host_operations::link::link;
use host_operations::operate::operate;
use host_pins::attach::{attach, detach};
use host_pins::create::create;
use host_pins::load::load;
use host_pins::pin::{pin, unpin};
use host_state::{
    Ask, AskReply, Change, Entries, Host, Refusal, Reply, add_entry, frozen_if_live, has_host,
    is_live_prog, turn_retired,
};
use host_undoing::{PlainUndoing, Undoing, turn_contents, turn_part};
use host_words::{NoMemory, Word};
use std::alloc::Global;
use std::collections::BTreeMap;
use std::marker::Model;

/// The host: its maps, programs, pins and devices, and what stands ready for exchanges.
#[derive(Drop)]
pub struct World<K: MapKind> {
    host: Host<K>,
}

impl<K: MapKind> Model for World<K> {
    ghost use Rattle.host_state.specs.World.{WorldView};
    ghost use Rattle.host_state.proofs.Codes.{world_code};
    ghost use Rattle.host_state.specs.Hosts.{state_of, ready_of, IsSound, entries_in};

    ghost Value = { WorldView };

    ghost coded = { world_code };

    ghost view = { λ w. record {
      state = state_of w.host.objects.by_id (entries_in w.host.entries) w.host.roots;
      ready = ready_of w.host.objects.by_id (entries_in w.host.entries) w.host.roots;
      work = w.host.objects.work;
    } };

    ghost invariant = { λ w. IsSound w.host.objects.by_id (entries_in w.host.entries) w.host.roots };
}

impl<K: MapKind> World<K> {
    /// A host with these devices and nothing else. Takes memory.
    pub fn new(alloc: Global, devices: Vec<Word>) -> Result<Self, NoMemory>
        requires { IsTrue (devices_are_good devices.items) }
        ensures { IfOk result (λ w. w ≡ fresh_world devices.items) }
    {
        let roots = Roots::new(alloc, devices)?;
        Ok(World {
            host: Host {
                objects: Objects::new(alloc),
                entries: Entries {
                    maps: BTreeMap::new(alloc),
                    progs: BTreeMap::new(alloc),
                },
                roots,
                alloc,
            },
        })
    }

    /// Takes a box in under an id, where it waits for its map. WrongBlank for a box that is not fresh, else IdTaken for
    /// an id in use; the box is dropped then.
    pub fn place(&mut self, id: u32, kind: K) -> Result<(), PlaceFault>
        requires { charged_of self.old.ready.makes + (K.seen kind).charge < 2 ^ 64 }
        ensures wrong_blank { (result ≡ Err PlaceFault.WrongBlank) ↔ ¬ (IsFresh (K.seen kind)) }
        ensures id_taken { (result ≡ Err PlaceFault.IdTaken) ↔ (IsFresh (K.seen kind) × IsSome (map.get self.old.ready.makes id)) }
        ensures placed { OnOk result (self.new.ready.makes ≡ map.insert self.old.ready.makes id (make_of (K.seen kind))) }
        ensures refused { OnErr result (self.new.ready.makes ≡ self.old.ready.makes) }
        ensures room { self.new.ready.room ≡ self.old.ready.room }
        ensures progs { self.new.ready.progs ≡ self.old.ready.progs }
        ensures state { self.new.state ≡ self.old.state }
        ensures work { self.new.work ≡ self.old.work }
    {
        if !kind.is_fresh() {
            return Err(PlaceFault::WrongBlank);
        }
        place_in(&mut self.host.objects, &mut self.host.entries, id, kind)
    }

    /// Does a change, and gives its reply with what takes it back. A refused change leaves the state as it was. Takes
    /// memory, but for a freeze and for an attachment that overwrites none.
    pub fn apply(&mut self, change: &Change) -> Result<(Reply, Undoing), Refusal>
        ensures answer { Answers self.old change.now result self.new }
        ensures no_growth { TakesNoMemory change.now → result ≢ Err Refusal.NoMemory }
        ensures work { Works (walks self.old.state change.now) (most_calls self.old.state change.now) result self.old.work (after_change change.now self.old.work) self.new.work }
    {
        match change {
            Change::Create {
                id,
                attr,
                charge,
                name,
                path,
                template,
            } => {
                let make = Make {
                    attr: *attr,
                    charge: *charge,
                };
                create(&mut self.host, *id, make, name, path, *template)
            }
            Change::Operate { origin, map, op } => operate(&mut self.host, *origin, *map, op),
            Change::Freeze { map } => freeze(&mut self.host, *map),
            Change::Link { map, key, id, flag } => link(&mut self.host, *map, key, *id, *flag),
            Change::Load {
                id,
                code,
                name,
                path,
            } => load(&mut self.host, *id, code, name, path),
            Change::Pin { target, path } => pin(&mut self.host, *target, path),
            Change::Unpin { path } => unpin(&mut self.host, path),
            Change::Attach {
                prog,
                device,
                overwrite,
            } => attach(&mut self.host, *prog, device, *overwrite),
            Change::Detach { device } => detach(&mut self.host, device),
        }
    }

    /// Exchanges what is in place with what the undoing holds. It takes no memory.
    pub fn turn(&mut self, undoing: &mut Undoing)
        requires { Fits self.old.ready self.old.state undoing.old }
        ensures state { self.new.state ≡ turned self.old.state undoing.old }
        ensures undoing { undoing.new ≡ back_of self.old.state undoing.old }
        ensures ready { self.new.ready ≡ self.old.ready }
        ensures work { self.new.work ≡ after_turn undoing.old self.old.work }
    {
        turn_part(
            &mut self.host.objects,
            &mut self.host.entries,
            &mut self.host.roots,
            &mut undoing.part,
        );
        turn_retired(&mut self.host.entries, &mut undoing.retired);
    }

    /// Exchanges what a map holds with what the undoing of an operation holds, as [`World::turn`] does. It takes no memory.
    pub fn turn_plain(&mut self, undoing: &mut PlainUndoing)
        requires { Fits self.old.ready self.old.state (undoing_of undoing.old) }
        ensures state { self.new.state ≡ turned self.old.state (undoing_of undoing.old) }
        ensures undoing { undoing_of undoing.new ≡ back_of self.old.state (undoing_of undoing.old) }
        ensures map { undoing.new.map ≡ undoing.old.map }
        ensures ready { self.new.ready ≡ self.old.ready }
        ensures work { self.new.work ≡ one_more self.old.work }
    {
        turn_contents(&mut self.host.objects, undoing.map, &mut undoing.kept);
        undoing.live = !undoing.live;
    }

    /// The answer to a question. Takes memory, but for a question about one map or path if the room of each box was
    /// reserved.
    pub fn ask(&mut self, question: &Ask) -> Result<AskReply, NoMemory>
        ensures answer { IfOk result (λ reply. reply ≡ ask self.old.state question.now) }
        ensures room { NeverWantsMemory K.seen → IsLookUp question.now → IsOk result }
        ensures state { self.new.state ≡ self.old.state }
        ensures ready { self.new.ready ≡ self.old.ready }
        ensures work { CallsAtMost (calls_of self.old.state question.now) self.old.work self.new.work }
    {
        match question {
            Ask::Map { id, query } => read_live(
                &mut self.host.objects,
                &self.host.entries,
                *id,
                query,
            ),
            Ask::Start { device } => start(&self.host.entries, &self.host.roots, device),
            _ => self.ask_any(question),
        }
    }

    // The answer to a question of any kind. It stands apart, so that those of running programs clear no room for the others'.
    #[inline(never)]
    fn ask_any(&mut self, question: &Ask) -> Result<AskReply, NoMemory>
        ensures answer { IfOk result (λ reply. reply ≡ ask self.old.state question.now) }
        ensures room { NeverWantsMemory K.seen → IsLookUp question.now → IsOk result }
        ensures state { self.new.state ≡ self.old.state }
        ensures ready { self.new.ready ≡ self.old.ready }
        ensures work { CallsAtMost (calls_of self.old.state question.now) self.old.work self.new.work }
    {
        match question {
            Ask::Attr { id } => Ok(attr_if_live(&self.host.objects, &self.host.entries, *id)),
            Ask::Map { id, query } => read_live(
                &mut self.host.objects,
                &self.host.entries,
                *id,
                query,
            ),
            Ask::Maps { only } => show(
                self.host.alloc,
                &self.host.objects,
                &self.host.entries,
                *only,
            ),
            Ask::Dump { id } => dump_live(
                self.host.alloc,
                &mut self.host.objects,
                &self.host.entries,
                *id,
            ),
            Ask::Progs { only } => show_progs(self.host.alloc, &self.host.entries, *only),
            Ask::Code { id } => code_if_live(self.host.alloc, &self.host.entries, *id),
            Ask::Pinned { path } => Ok(pinned_there(&self.host.roots, path)),
            Ask::Devices { only } => show_devices(self.host.alloc, &self.host.roots, only),
            Ask::Start { device } => start(&self.host.entries, &self.host.roots, device),
            Ask::Fetch { map, index } => {
                fetch(
                    self.host.alloc,
                    &mut self.host.objects,
                    &self.host.entries,
                    *map,
                    *index,
                )
            }
        }
    }

    /// The attributes of the live map of this id, if there is one: what [`Ask::Attr`] asks.
    pub fn attr(&self, id: u32) -> Option<MapAttr>
        ensures { result ≡ attr_if_live (live_map self.now.state id) }
    {
        host_state::attr_if_live(&self.host.objects, &self.host.entries, id)
    }

    /// The live map of a name. It takes no memory and asks no box.
    pub fn map_of_name(&self, name: &[u8]) -> OfName
        ensures { result ≡ of_ids (maps_of_name name.now (rows_of self.now.state.maps)) }
    {
        map_of_name(&self.host.objects, &self.host.entries, name)
    }

    /// The live program of a name. It takes no memory.
    pub fn prog_of_name(&self, name: &[u8]) -> OfName
        ensures { result ≡ of_ids (progs_of_name name.now (prog_rows self.now.state.progs)) }
    {
        prog_of_name(&self.host.entries, name)
    }

    /// Each map of the state holds what such a map can hold, made of bytes and of ids of 32 bits, and has good attributes. It
    /// does nothing.
    pub fn maps_are_well(&self)
        ensures { HoldsWell self.now.state }
    {
        let _ = &self.host;
    }

    /// Whether a map of this id is in the state, live or retired.
    pub fn has_map(&self, id: u32) -> bool
        ensures { result ≡ is_some (map.get self.now.state.maps id) }
    {
        has_host(&self.host.entries, id)
    }

    /// Whether a program of this id is in the state, live or retired.
    pub fn has_prog(&self, id: u32) -> bool
        ensures { result ≡ is_some (map.get self.now.state.progs id) }
    {
        has_prog(&self.host.entries, id)
    }

    /// Whether an object is there and live.
    pub fn is_live(&self, target: Target) -> bool
        ensures { result ≡ is_live_in self.now.state target }
    {
        match target {
            Target::Map(id) => frozen_if_live(&self.host.entries, id).is_some(),
            Target::Prog(id) => is_live_prog(&self.host.entries, id),
        }
    }

    /// Drops the objects and the boxes that are not listed. An undoing of two states in which nothing dropped is live
    /// exchanges what is left of them. It takes no memory.
    pub fn drop_unreachable(&mut self, keep: &Keep)
        requires { ListsLive keep.now.maps.items keep.now.progs.items self.old.state }
        ensures state { self.new.state ≡ kept_state keep.now.maps.items keep.now.progs.items self.old.state }
        ensures ready { self.new.ready ≡ kept_ready keep.now.maps.items keep.now.progs.items self.old.ready }
        ensures joins { JoinsWithout keep.now.maps.items keep.now.progs.items self.old.ready self.new.ready }
        ensures work { self.new.work ≡ self.old.work }
    {
        self.host.objects.drop_unreachable(keep);
        keep_entries(&mut self.host.entries, keep);
    }

    /// The sum of the charges of the boxes.
    pub fn charged(&self) -> u64
        ensures { result ≡ charged_of self.now.ready.makes }
    {
        self.host.objects.charged()
    }

    /// How many units of work were done on boxes; at the greatest u64 the count stays.
    pub fn work(&self) -> u64
        ensures { result ≡ self.now.work }
    {
        self.host.objects.work()
    }
}

// Takes a fresh box in, with an empty entry.
fn place_in<K: MapKind>(
    objects: &mut Objects<K>,
    entries: &mut Entries,
    id: u32,
    kind: K,
) -> Result<(), PlaceFault>
    requires charge { boxes_charged_of objects.old.by_id + (K.seen kind).charge < 2 ^ 64 }
    requires fresh { IsFresh (K.seen kind) }
    requires same_ids { is_some (entry_at (entries_in entries.old) id) ≡ is_some (map.get objects.old.by_id id) }
    ensures not_wrong { result ≢ Err PlaceFault.WrongBlank }
    ensures id_taken { (result ≡ Err PlaceFault.IdTaken) ↔ IsSome (map.get objects.old.by_id id) }
    ensures boxes { OnOk result (objects.new.by_id ≡ map.insert objects.old.by_id id (K.seen kind)) }
    ensures entries { OnOk result (PutsEntry (entries_in entries.old) (entries_in entries.new) id (Some None)) }
    ensures same_boxes { OnErr result (objects.new.by_id ≡ objects.old.by_id) }
    ensures same_entries { OnErr result (((q : ℕ) → entry_at (entries_in entries.new) q ≡ entry_at (entries_in entries.old) q) × ((entries_in entries.new).progs ≡ (entries_in entries.old).progs)) }
    ensures work { objects.new.work ≡ objects.old.work }
{
    if entries.maps.contains_key(&id) {
        return Err(PlaceFault::IdTaken);
    }
    if add_entry(entries, id).is_err() {
        return Err(PlaceFault::NoMemory);
    }
    match objects.place(id, kind) {
        Ok(()) => Ok(()),
        Err(fault) => {
            entries.maps.remove(&id);
            Err(fault)
        }
    }
}

// Drops the entries of the maps and the programs that are not listed.
fn keep_entries(entries: &mut Entries, keep: &Keep)
    requires maps { Ascends keep.now.maps.items }
    requires progs { Ascends keep.now.progs.items }
    ensures maps { (q : ℕ) → entry_at (entries_in entries.new) q ≡ (if is_among keep.now.maps.items q then entry_at (entries_in entries.old) q else None) }
    ensures progs { (q : ℕ) → prog_at (entries_in entries.new) q ≡ (if is_among keep.now.progs.items q then prog_at (entries_in entries.old) q else None) }
{
    keep_ids(&mut entries.maps, &keep.maps);
    keep_ids(&mut entries.progs, &keep.progs);
}

// Drops what stands under ids that are not listed.
fn keep_ids<X: Drop>(entries: &mut BTreeMap<u32, Option<X>>, ids: &[u32])
    requires { Ascends ids.now }
    ensures { (q : ℕ) → found_in entries.new.entries q ≡ (if is_among ids.now q then found_in entries.old.entries q else None) }
{
    entries.retain(|id, _| is_among(ids, *id));
}

// Whether a program stands under the id.
fn has_prog(entries: &Entries, id: u32) -> bool
    ensures { result ≡ is_some (held (prog_at (entries_in entries.now) id)) }
{
    match entries.progs.get(&id) {
        Some(prog) => prog.is_some(),
        None => false,
    }
}
