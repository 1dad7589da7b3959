//! What queues and stacks share: a map of items in a ring.

ghost use Rattle.std.specs.Prelude.{◌≡◌, ◌↔◌, ◌≢◌, true, false, IfOk};
ghost use Rattle.bt_mapkind.specs.Attributes.{charge_of, IsGoodFor, is_stack};
ghost use Rattle.bt_mapkind.specs.Contents.{Items, fresh};
ghost use Rattle.bt_mapkind.specs.Seen.{Seen};
ghost use Rattle.bt_mapkind.specs.Well.{OfItems, shape_of_type};
ghost use Rattle.bt_mapkind.specs.Exchange.{one_if, item_fits};
ghost use Rattle.bt_mapkind.specs.Answers.{IsAnswer, IsChange, Follows, Replies};
ghost use Rattle.bt_queue.specs.Held.{IsHeld};

mod kept;

use crate::ring::Ring;
use bt_mapkind::{
    Back, Bytes, Errno, KeptBack, MapAttr, MapFault, MapKind, MapOp, MapReply, MapType, NewFault,
    Query,
};
use std::alloc::Global;
use std::mem;

/// A queue or a stack, as its attributes say. All its room is reserved when it is made, so no call after that takes
/// memory.
#[derive(Drop)]
pub struct RingKind {
    attr: MapAttr,
    ring: Ring,
    ghost held: { IsHeld attr ring },
}

impl RingKind {
    /// An empty map of `kind`, a queue or a stack. BadAttr for attributes that are not good, or of another type.
    pub fn new(alloc: Global, kind: MapType, attr: MapAttr) -> Result<RingKind, NewFault>
        requires { shape_of_type kind ≡ OfItems }
        ensures fresh { IfOk result (λ r. ⟦<RingKind as MapKind>⟧.seen r ≡ record { attr = attr; contents = fresh attr; charge = charge_of attr; roomy = true }) }
        ensures bad_attr { (result ≡ Err NewFault.BadAttr) ↔ ¬ (IsGoodFor kind attr) }
    {
        if attr.kind != kind || !attr.good() {
            return Err(NewFault::BadAttr);
        }
        match Ring::new(alloc, attr.max_entries as usize, attr.value_size as usize) {
            Ok(ring) => Ok(RingKind { attr, ring }),
            Err(_) => Err(NewFault::NoMemory),
        }
    }

    // Whether the newest item is popped first.
    fn is_stack(&self) -> bool
        ensures { result ≡ is_stack self.now.attr.kind }
    {
        matches!(self.attr.kind, MapType::Stack)
    }

    fn peek(&self) -> Result<MapReply, MapFault>
        ensures answer { Replies self.now.attr (Items self.now.ring.items) Query.Peek result }
        ensures room { result ≢ Err MapFault.NoMemory }
    {
        let count = self.ring.len();
        if count == 0 {
            return Err(MapFault::Errno(Errno::ENOENT));
        }
        let place = if self.is_stack() { count - 1 } else { 0 };
        Ok(MapReply::Value(self.ring.item(place)))
    }

    fn item(&self, index: u32) -> MapReply
        ensures { Replies self.now.attr (Items self.now.ring.items) (Query.Item index) (Ok result) }
    {
        if index as usize >= self.ring.len() {
            return MapReply::Nothing;
        }
        MapReply::Value(self.ring.item(index as usize))
    }

    fn push(&mut self, value: &Bytes, flag: u64) -> Result<(MapReply, Back), MapFault>
        ensures step { Follows self.old.attr (Items self.old.ring.items) (MapOp.Push value.now flag) result (Items self.new.ring.items) }
        ensures attr { self.new.attr ≡ self.old.attr }
        ensures room { result ≢ Err MapFault.NoMemory }
    {
        if flag > 2 || value.len() != self.attr.value_size as usize || flag == 1 {
            return Err(MapFault::Errno(Errno::EINVAL));
        }
        if !self.ring.is_full() {
            self.ring.push_rear(value.copy());
            return Ok((MapReply::Done, pushed_over(None)));
        }
        if flag == 2 {
            let oldest = self.ring.pop_front();
            self.ring.push_rear(value.copy());
            return Ok((MapReply::Done, pushed_over(Some(oldest))));
        }
        Err(MapFault::Errno(Errno::E2BIG))
    }

    fn pop(&mut self) -> Result<(MapReply, Back), MapFault>
        ensures step { Follows self.old.attr (Items self.old.ring.items) MapOp.Pop result (Items self.new.ring.items) }
        ensures attr { self.new.attr ≡ self.old.attr }
        ensures room { result ≢ Err MapFault.NoMemory }
    {
        if self.ring.len() == 0 {
            return Err(MapFault::Errno(Errno::ENOENT));
        }
        if self.is_stack() {
            let newest = self.ring.pop_rear();
            return Ok((MapReply::Value(newest.copy()), popped(None, Some(newest))));
        }
        let oldest = self.ring.pop_front();
        Ok((MapReply::Value(oldest.copy()), popped(Some(oldest), None)))
    }

    // Whether an item has the map's size, if there is one.
    fn has_size(&self, item: &Option<Bytes>) -> bool
        ensures { result ≡ item_fits self.now.attr item.now }
    {
        match item {
            Some(item) => item.len() == self.attr.value_size as usize,
            None => true,
        }
    }
}

// The exchange that takes a push back, which put the oldest item out if there was no room.
fn pushed_over(oldest: Option<Bytes>) -> Back
    ensures { result ≡ Back.Ends false true oldest None }
{
    Back::Ends {
        take_front: false,
        take_rear: true,
        put_front: oldest,
        put_rear: None,
    }
}

// The exchange that takes a pop back.
fn popped(oldest: Option<Bytes>, newest: Option<Bytes>) -> Back
    ensures { result ≡ Back.Ends false false oldest newest }
{
    Back::Ends {
        take_front: false,
        take_rear: false,
        put_front: oldest,
        put_rear: newest,
    }
}

// How many items an end takes or puts.
fn one_if(there: bool) -> usize
    ensures { result ≡ one_if there }
{
    if there { 1 } else { 0 }
}

impl MapKind for RingKind {
    ghost seen = { λ r. record { attr = r.attr; contents = Items r.ring.items; charge = charge_of r.attr; roomy = true } };

    fn attr(&self) -> MapAttr {
        self.attr
    }

    fn charge(&self) -> u64 {
        self.attr.charge()
    }

    fn is_fresh(&self) -> bool {
        self.ring.len() == 0
    }

    fn read(&self, query: &Query) -> Result<MapReply, MapFault> {
        match query {
            Query::Lookup(_) | Query::Next(_) => Err(MapFault::Errno(Errno::EINVAL)),
            Query::Item(index) => Ok(self.item(*index)),
            Query::Peek => self.peek(),
            Query::Count => Ok(MapReply::Count(self.ring.len() as u32)),
        }
    }

    fn change(&mut self, op: &MapOp) -> Result<(MapReply, Back), MapFault> {
        match op {
            MapOp::Push { value, flag } => self.push(value, *flag),
            MapOp::Pop => self.pop(),
            MapOp::Update {
                key: _,
                value: _,
                flag: _,
            }
            | MapOp::Delete { key: _ }
            | MapOp::Store {
                key: _,
                offset: _,
                bytes: _,
            }
            | MapOp::Atomic {
                key: _,
                offset: _,
                size: _,
                op: _,
                operand: _,
            }
            | MapOp::SetLink {
                key: _,
                id: _,
                flag: _,
            } => Err(MapFault::Errno(Errno::EINVAL)),
        }
    }

    fn change_into(&mut self, op: &MapOp, kept: &mut KeptBack) -> Result<(), MapFault> {
        match op {
            MapOp::Push { value, flag } => self.push_into(value, *flag, kept),
            MapOp::Pop => self.pop_into(kept),
            MapOp::Update {
                key: _,
                value: _,
                flag: _,
            }
            | MapOp::Delete { key: _ }
            | MapOp::Store {
                key: _,
                offset: _,
                bytes: _,
            }
            | MapOp::Atomic {
                key: _,
                offset: _,
                size: _,
                op: _,
                operand: _,
            }
            | MapOp::SetLink {
                key: _,
                id: _,
                flag: _,
            } => Err(MapFault::Errno(Errno::EINVAL)),
        }
    }

    fn fits(&self, back: &Back) -> bool {
        match back {
            Back::Ends {
                take_front,
                take_rear,
                put_front,
                put_rear,
            } => {
                let taken = one_if(*take_front) + one_if(*take_rear);
                let put = one_if(put_front.is_some()) + one_if(put_rear.is_some());
                taken <= self.ring.len()
                    && self.has_size(put_front)
                    && self.has_size(put_rear)
                    && self.ring.len() + put <= self.attr.max_entries as usize + taken
            }
            Back::Key { key: _, value: _ } | Back::Link { key: _, id: _ } => false,
        }
    }

    fn turn(&mut self, back: &mut Back) {
        if let Back::Ends {
            take_front,
            take_rear,
            put_front,
            put_rear,
        } = back
        {
            let oldest = self.ring.take_front(*take_front);
            let newest = self.ring.take_rear(*take_rear);
            *take_front = put_front.is_some();
            *take_rear = put_rear.is_some();
            self.ring.put_rear(mem::replace(put_rear, newest));
            self.ring.put_front(mem::replace(put_front, oldest));
        }
    }
}
