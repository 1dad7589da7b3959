//! A program array.

ghost use Rattle.std.specs.Prelude.{◌≡◌, ◌↔◌, ◌≢◌, true, IfOk};
ghost use Rattle.bt_mapkind.specs.declared.attr.MapType.TheVariants.{ProgArray};
ghost use Rattle.bt_mapkind.specs.Attributes.{charge_of, IsGoodFor};
ghost use Rattle.bt_mapkind.specs.Contents.{fresh};
ghost use Rattle.bt_mapkind.specs.Seen.{Seen};
ghost use Rattle.bt_mapkind.specs.Answers.{IsAnswer, IsChange};

use crate::slots_kind::SlotsKind;
use bt_mapkind::{Back, MapAttr, MapFault, MapKind, MapOp, MapReply, MapType, NewFault, Query};
use std::alloc::Global;

/// A program array: the id of a program, or none, in each slot. All its room is reserved when it is made, so no call
/// after that takes memory.
#[derive(Drop)]
pub struct ProgArrayKind {
    slots: SlotsKind,
}

impl ProgArrayKind {
    /// A program array with no id in any slot. BadAttr for attributes that are not good, or of another type.
    pub fn new(alloc: Global, attr: MapAttr) -> Result<ProgArrayKind, NewFault>
        ensures fresh { IfOk result (λ a. ⟦<ProgArrayKind as MapKind>⟧.seen a ≡ record { attr = attr; contents = fresh attr; charge = charge_of attr; roomy = true }) }
        ensures bad_attr { (result ≡ Err NewFault.BadAttr) ↔ ¬ (IsGoodFor ProgArray attr) }
    {
        let slots = SlotsKind::new(alloc, MapType::ProgArray, attr)?;
        Ok(ProgArrayKind { slots })
    }
}

impl MapKind for ProgArrayKind {
    ghost seen = { λ a. ⟦<SlotsKind as MapKind>⟧.seen a.slots };

    fn attr(&self) -> MapAttr {
        self.slots.attr()
    }

    fn charge(&self) -> u64 {
        self.slots.charge()
    }

    fn is_fresh(&self) -> bool {
        self.slots.is_fresh()
    }

    fn read(&self, query: &Query) -> Result<MapReply, MapFault> {
        self.slots.read(query)
    }

    fn change(&mut self, op: &MapOp) -> Result<(MapReply, Back), MapFault> {
        self.slots.change(op)
    }

    fn fits(&self, back: &Back) -> bool {
        self.slots.fits(back)
    }

    fn turn(&mut self, back: &mut Back) {
        self.slots.turn(back);
    }
}
