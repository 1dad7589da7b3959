//! A map of this project's own kinds.

use bt_array::ArrayKind;
use bt_hash::HashKind;
use bt_lpm::LpmKind;
use bt_mapkind::{Back, KeptBack, MapAttr, MapFault, MapKind, MapOp, MapReply, Query};
use bt_nested::{HashOuterKind, OuterKind, ProgArrayKind};
use bt_queue::{QueueKind, StackKind};

/// A map of any type, of this project's kind for that type.
#[derive(Drop)]
pub enum HostKind {
    Array(Box<ArrayKind>),
    Hash(Box<HashKind>),
    LpmTrie(Box<LpmKind>),
    Queue(Box<QueueKind>),
    Stack(Box<StackKind>),
    ArrayOfMaps(Box<OuterKind>),
    ProgArray(Box<ProgArrayKind>),
    HashOfMaps(Box<HashOuterKind>),
}

// Makes the call on whichever kind the map is of.
macro_rules! call {
    ($map:expr, $kind:ident => $call:expr) => {
        match $map {
            HostKind::Array($kind) => $call,
            HostKind::Hash($kind) => $call,
            HostKind::LpmTrie($kind) => $call,
            HostKind::Queue($kind) => $call,
            HostKind::Stack($kind) => $call,
            HostKind::ArrayOfMaps($kind) => $call,
            HostKind::ProgArray($kind) => $call,
            HostKind::HashOfMaps($kind) => $call,
        }
    };
}

impl MapKind for HostKind {
    ghost use Rattle.console_script.specs.declared.kind.HostKind.TheVariants.{Array, Hash, LpmTrie, Queue, Stack, ArrayOfMaps, ProgArray, HashOfMaps};

    ghost seen = { elim [
      | Array kind ↦ ⟦<ArrayKind as MapKind>⟧.seen kind.value
      | Hash kind ↦ ⟦<HashKind as MapKind>⟧.seen kind.value
      | LpmTrie kind ↦ ⟦<LpmKind as MapKind>⟧.seen kind.value
      | Queue kind ↦ ⟦<QueueKind as MapKind>⟧.seen kind.value
      | Stack kind ↦ ⟦<StackKind as MapKind>⟧.seen kind.value
      | ArrayOfMaps kind ↦ ⟦<OuterKind as MapKind>⟧.seen kind.value
      | ProgArray kind ↦ ⟦<ProgArrayKind as MapKind>⟧.seen kind.value
      | HashOfMaps kind ↦ ⟦<HashOuterKind as MapKind>⟧.seen kind.value
    ] };

    fn attr(&self) -> MapAttr {
        call!(self, kind => kind.attr())
    }

    fn charge(&self) -> u64 {
        call!(self, kind => kind.charge())
    }

    fn is_fresh(&self) -> bool {
        call!(self, kind => kind.is_fresh())
    }

    fn read(&self, query: &Query) -> Result<MapReply, MapFault> {
        call!(self, kind => kind.read(query))
    }

    fn change(&mut self, op: &MapOp) -> Result<(MapReply, Back), MapFault> {
        call!(self, kind => kind.change(op))
    }

    fn change_into(&mut self, op: &MapOp, kept: &mut KeptBack) -> Result<(), MapFault> {
        call!(self, kind => kind.change_into(op, kept))
    }

    fn fits(&self, back: &Back) -> bool {
        call!(self, kind => kind.fits(back))
    }

    fn turn(&mut self, back: &mut Back) {
        call!(self, kind => kind.turn(back))
    }
}
