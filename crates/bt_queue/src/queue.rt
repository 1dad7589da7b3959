//! A queue, which pops the oldest item.

ghost use Rattle.std.specs.Prelude.{◌≡◌, ◌↔◌, ◌≢◌, true, IfOk};
ghost use Rattle.bt_mapkind.specs.declared.attr.MapType.TheVariants.{Queue};
ghost use Rattle.bt_mapkind.specs.Attributes.{charge_of, IsGoodFor};
ghost use Rattle.bt_mapkind.specs.Contents.{fresh};
ghost use Rattle.bt_mapkind.specs.Seen.{Seen};
ghost use Rattle.bt_mapkind.specs.Answers.{IsAnswer, IsChange};

use crate::ring_kind::RingKind;
use bt_mapkind::{
    Back, KeptBack, MapAttr, MapFault, MapKind, MapOp, MapReply, MapType, NewFault, Query,
};
use std::alloc::Global;

/// A queue. All its room is reserved when it is made, so no call after that takes memory.
#[derive(Drop)]
pub struct QueueKind {
    items: RingKind,
}

impl QueueKind {
    /// An empty queue. BadAttr for attributes that are not good, or of another type.
    pub fn new(alloc: Global, attr: MapAttr) -> Result<QueueKind, NewFault>
        ensures fresh { IfOk result (λ q. ⟦<QueueKind as MapKind>⟧.seen q ≡ record { attr = attr; contents = fresh attr; charge = charge_of attr; roomy = true }) }
        ensures bad_attr { (result ≡ Err NewFault.BadAttr) ↔ ¬ (IsGoodFor Queue attr) }
    {
        let items = RingKind::new(alloc, MapType::Queue, attr)?;
        Ok(QueueKind { items })
    }
}

impl MapKind for QueueKind {
    ghost seen = { λ q. ⟦<RingKind as MapKind>⟧.seen q.items };

    fn attr(&self) -> MapAttr {
        self.items.attr()
    }

    fn charge(&self) -> u64 {
        self.items.charge()
    }

    fn is_fresh(&self) -> bool {
        self.items.is_fresh()
    }

    fn read(&self, query: &Query) -> Result<MapReply, MapFault> {
        self.items.read(query)
    }

    fn change(&mut self, op: &MapOp) -> Result<(MapReply, Back), MapFault> {
        self.items.change(op)
    }

    fn change_into(&mut self, op: &MapOp, kept: &mut KeptBack) -> Result<(), MapFault> {
        self.items.change_into(op, kept)
    }

    fn fits(&self, back: &Back) -> bool {
        self.items.fits(back)
    }

    fn turn(&mut self, back: &mut Back) {
        self.items.turn(back);
    }
}
