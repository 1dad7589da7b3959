//! Boxes by id.

ghost use Rattle.std.specs.Prelude.{◌≡◌, ◌≢◌, ◌↔◌, ◌+◌, ◌<◌, ◌≤◌, ◌^◌, None, Err, IsSome, IsTrue, OnOk, OnErr, IfSome, MatchOption};
ghost use Rattle.std.specs.FinMap as map;
ghost use Rattle.std.specs.Option.{option_map};
ghost use Rattle.bt_mapkind.specs.Seen.{Seen, IsFresh, NeverWantsMemory};
ghost use Rattle.bt_mapkind.specs.Exchange.{exchange_fits};
ghost use Rattle.bt_objects.specs.Ids.{Ascends, is_among};
ghost use Rattle.bt_objects.specs.Boxes.{Boxes, charged_of, one_more, seen_boxes, listed_charges, make_of, ReadAt, TurnedAt};
ghost use Rattle.bt_objects.specs.Operations.{OperatedAt};

use crate::keep::{Keep, is_among};
use crate::make::Make;
use crate::operated::Operated;
use crate::placed::Placed;
use bt_mapkind::{Back, Errno, MapFault, MapKind, MapOp, MapReply, Query};
use std::alloc::{AllocError, Global};
use std::collections::BTreeMap;
use std::marker::Model;

/// Why a box was not taken in: it is not fresh; its id is in use; or an allocation failed.
#[derive(Clone, Copy, PartialEq, Eq, Debug)]
pub enum PlaceFault {
    WrongBlank,
    IdTaken,
    NoMemory,
}

/// Boxes by id, of any make. Contracts see, by id, what they see of each box, and the units of work done.
#[derive(Drop)]
pub struct Objects<K: MapKind> {
    boxes: BTreeMap<u32, Placed<K>>,
    charged: u64,
    work: u64,
}

impl<K: MapKind> Model for Objects<K> {
    ghost use Rattle.std.specs.Prelude.{◌≡◌};
    ghost use Rattle.bt_objects.specs.Boxes.{Boxes, boxes_code, charged_of, seen_boxes};

    ghost Value = { Boxes };

    ghost coded = { boxes_code };

    ghost view = { λ o. record { by_id = seen_boxes o.boxes.entries; work = o.work } };

    ghost invariant = { λ o. o.charged ≡ charged_of (seen_boxes o.boxes.entries) };
}

impl<K: MapKind> Objects<K> {
    /// None yet.
    pub fn new(alloc: Global) -> Self
        ensures none { result.by_id ≡ map.empty }
        ensures work { result.work ≡ 0 }
    {
        Objects {
            boxes: BTreeMap::new(alloc),
            charged: 0,
            work: 0,
        }
    }

    /// Takes a box in under an id. WrongBlank for a box that is not fresh, else IdTaken for an id in use; the box is
    /// dropped then.
    pub fn place(&mut self, id: u32, kind: K) -> Result<(), PlaceFault>
        requires { charged_of self.old.by_id + (K.seen kind).charge < 2 ^ 64 }
        ensures wrong_blank { (result ≡ Err PlaceFault.WrongBlank) ↔ ¬ (IsFresh (K.seen kind)) }
        ensures id_taken { (result ≡ Err PlaceFault.IdTaken) ↔ (IsFresh (K.seen kind) × IsSome (map.get self.old.by_id id)) }
        ensures placed { OnOk result (self.new.by_id ≡ map.insert self.old.by_id id (K.seen kind)) }
        ensures refused { OnErr result (self.new.by_id ≡ self.old.by_id) }
        ensures work { self.new.work ≡ self.old.work }
    {
        if !kind.is_fresh() {
            return Err(PlaceFault::WrongBlank);
        }
        if holds(&self.boxes, id) {
            return Err(PlaceFault::IdTaken);
        }
        let placed = Placed::new(kind);
        let charge = placed.make().charge;
        if insert_in(&mut self.boxes, id, placed).is_err() {
            return Err(PlaceFault::NoMemory);
        }
        self.charged += charge;
        Ok(())
    }

    /// The answer of the box under an id to a question; ENOENT if there is none. Boxes whose room was reserved never
    /// answer NoMemory. A unit of work.
    pub fn read_at(&mut self, id: u32, query: &Query) -> Result<MapReply, MapFault>
        ensures answer { ReadAt self.old.by_id id query.now result }
        ensures room { NeverWantsMemory K.seen → result ≢ Err MapFault.NoMemory }
        ensures same { self.new.by_id ≡ self.old.by_id }
        ensures work { self.new.work ≡ one_more self.old.work }
    {
        self.work = self.work.saturating_add(1);
        read_in(&self.boxes, id, query)
    }

    /// Does an operation on the box under an id; ENOENT if there is none, NoMemory also if the block for what takes it
    /// back was refused. A unit of work.
    pub fn operate_at(&mut self, id: u32, alloc: Global, op: &MapOp) -> Result<Operated, MapFault>
        ensures operated { OperatedAt self.old.by_id id op.now result self.new.by_id }
        ensures work { self.new.work ≡ one_more self.old.work }
    {
        self.work = self.work.saturating_add(1);
        operate_in(&mut self.boxes, id, alloc, op)
    }

    /// Whether an exchange can be turned at the box under an id. With no box there it can.
    pub fn fits_at(&self, id: u32, back: &Back) -> bool
        ensures { IsTrue result ↔ IfSome (map.get self.now.by_id id) (λ s. IsTrue (exchange_fits s.attr s.contents back.now)) }
    {
        fits_in(&self.boxes, id, back)
    }

    /// Turns an exchange at the box under an id; ENOENT if there is none. A unit of work. It takes no memory.
    pub fn turn_at(&mut self, id: u32, back: &mut Back) -> Result<(), MapFault>
        requires { IfSome (map.get self.old.by_id id) (λ s. IsTrue (exchange_fits s.attr s.contents back.old)) }
        ensures turned { TurnedAt self.old.by_id id back.old result self.new.by_id back.new }
        ensures work { self.new.work ≡ one_more self.old.work }
    {
        self.work = self.work.saturating_add(1);
        turn_in(&mut self.boxes, id, back)
    }

    /// Drops the boxes whose ids are not to be kept. It takes no memory.
    pub fn drop_unreachable(&mut self, keep: &Keep)
        ensures kept { self.new.by_id ≡ map.retain_keys self.old.by_id (is_among keep.now.maps.items) }
        ensures work { self.new.work ≡ self.old.work }
    {
        keep_in(&mut self.boxes, &keep.maps);
        self.charged = charges_in(&self.boxes);
    }

    /// What the box under an id was made with, if there is one.
    pub fn make_at(&self, id: u32) -> Option<Make>
        ensures { result ≡ option_map make_of (map.get self.now.by_id id) }
    {
        make_in(&self.boxes, id)
    }

    /// The sum of the charges of the boxes.
    pub fn charged(&self) -> u64
        ensures { result ≡ charged_of self.now.by_id }
    {
        self.charged
    }

    /// How many units of work were done; at the greatest u64 the count stays.
    pub fn work(&self) -> u64
        ensures { result ≡ self.now.work }
    {
        self.work
    }
}

// Whether an id is in use.
fn holds<K: MapKind>(boxes: &BTreeMap<u32, Placed<K>>, id: u32) -> bool
    ensures { IsTrue result ↔ IsSome (map.get (seen_boxes boxes.now.entries) id) }
{
    boxes.contains_key(&id)
}

fn make_in<K: MapKind>(boxes: &BTreeMap<u32, Placed<K>>, id: u32) -> Option<Make>
    ensures { result ≡ option_map make_of (map.get (seen_boxes boxes.now.entries) id) }
{
    match boxes.get(&id) {
        Some(placed) => Some(placed.make()),
        None => None,
    }
}

fn insert_in<K: MapKind>(
    boxes: &mut BTreeMap<u32, Placed<K>>,
    id: u32,
    placed: Placed<K>,
) -> Result<(), AllocError>
    ensures placed { OnOk result (seen_boxes boxes.new.entries ≡ map.insert (seen_boxes boxes.old.entries) id placed) }
    ensures refused { OnErr result (boxes.new.entries ≡ boxes.old.entries) }
{
    boxes.insert(id, placed)?;
    Ok(())
}

fn read_in<K: MapKind>(
    boxes: &BTreeMap<u32, Placed<K>>,
    id: u32,
    query: &Query,
) -> Result<MapReply, MapFault>
    ensures answer { ReadAt (seen_boxes boxes.now.entries) id query.now result }
    ensures room { NeverWantsMemory K.seen → result ≢ Err MapFault.NoMemory }
{
    match boxes.get(&id) {
        Some(placed) => placed.read(query),
        None => Err(MapFault::Errno(Errno::ENOENT)),
    }
}

fn fits_in<K: MapKind>(boxes: &BTreeMap<u32, Placed<K>>, id: u32, back: &Back) -> bool
    ensures { IsTrue result ↔ IfSome (map.get (seen_boxes boxes.now.entries) id) (λ s. IsTrue (exchange_fits s.attr s.contents back.now)) }
{
    match boxes.get(&id) {
        Some(placed) => placed.fits(back),
        None => true,
    }
}

fn operate_in<K: MapKind>(
    boxes: &mut BTreeMap<u32, Placed<K>>,
    id: u32,
    alloc: Global,
    op: &MapOp,
) -> Result<Operated, MapFault>
    ensures { OperatedAt (seen_boxes boxes.old.entries) id op.now result (seen_boxes boxes.new.entries) }
{
    match boxes.get_mut(&id) {
        Some(placed) => placed.operate(alloc, op),
        None => Err(MapFault::Errno(Errno::ENOENT)),
    }
}

fn turn_in<K: MapKind>(
    boxes: &mut BTreeMap<u32, Placed<K>>,
    id: u32,
    back: &mut Back,
) -> Result<(), MapFault>
    requires { IfSome (map.get (seen_boxes boxes.old.entries) id) (λ s. IsTrue (exchange_fits s.attr s.contents back.old)) }
    ensures { TurnedAt (seen_boxes boxes.old.entries) id back.old result (seen_boxes boxes.new.entries) back.new }
{
    match boxes.get_mut(&id) {
        Some(placed) => {
            placed.turn(back);
            Ok(())
        }
        None => Err(MapFault::Errno(Errno::ENOENT)),
    }
}

fn keep_in<K: MapKind>(boxes: &mut BTreeMap<u32, Placed<K>>, ids: &[u32])
    requires { Ascends ids.now }
    ensures kept { seen_boxes boxes.new.entries ≡ map.retain_keys (seen_boxes boxes.old.entries) (is_among ids.now) }
    ensures lighter { listed_charges boxes.new.entries ≤ charged_of (seen_boxes boxes.old.entries) }
    ensures charges { charged_of (seen_boxes boxes.new.entries) ≡ listed_charges boxes.new.entries }
{
    boxes.retain(|id, _| is_among(ids, *id));
}

fn charges_in<K: MapKind>(boxes: &BTreeMap<u32, Placed<K>>) -> u64
    requires { listed_charges boxes.now.entries < 2 ^ 64 }
    ensures { result ≡ listed_charges boxes.now.entries }
{
    let mut sum: u64 = 0;
    for (_, placed) in boxes {
        sum += placed.make().charge;
    }
    sum
}
