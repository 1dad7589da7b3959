//! A box with what it was made with, and the block reserved for what takes an operation back.

ghost use Rattle.std.specs.Prelude.{◌≡◌, ◌≢◌, ◌≤◌, ◌↔◌, Err, IsTrue};
ghost use Rattle.bt_mapkind.specs.Seen.{NeverWantsMemory};
ghost use Rattle.bt_mapkind.specs.Answers.{IsAnswer, IsTurned};
ghost use Rattle.bt_mapkind.specs.Exchange.{exchange_fits};
ghost use Rattle.bt_mapkind.specs.Kept.{room_of};
ghost use Rattle.bt_objects.specs.Boxes.{make_of};
ghost use Rattle.bt_objects.specs.Operations.{Operates};

use crate::make::Make;
use crate::operated::Operated;
use bt_mapkind::{Back, KeptBack, MapAttr, MapFault, MapKind, MapOp, MapReply, Query};
use std::alloc::Global;
use std::marker::Model;

/// A box, with what it was made with beside it, so that nobody asks the box. Contracts see what they see of the box.
#[derive(Drop)]
pub(crate) struct Placed<K: MapKind> {
    make: Make,
    kind: K,
}

impl<K: MapKind> Model for Placed<K> {
    ghost use Rattle.std.specs.Prelude.{◌≡◌};
    ghost use Rattle.bt_mapkind.specs.Seen.{Seen};
    ghost use Rattle.bt_mapkind.specs.Codes.{seen_code};
    ghost use Rattle.bt_objects.specs.Boxes.{make_of};

    ghost Value = { Seen };

    ghost coded = { seen_code };

    ghost view = { λ p. K.seen p.kind };

    ghost invariant = { λ p. p.make ≡ make_of (K.seen p.kind) };
}

impl<K: MapKind> Placed<K> {
    /// A box, which is asked once for what it was made with.
    pub(crate) fn new(kind: K) -> Self
        ensures { result ≡ K.seen kind }
    {
        let make = Make {
            attr: kind.attr(),
            charge: kind.charge(),
        };
        Placed { make, kind }
    }

    /// What it was made with.
    pub(crate) fn make(&self) -> Make
        ensures { result ≡ make_of self.now }
    {
        self.make
    }

    /// The box's answer to a question.
    pub(crate) fn read(&self, query: &Query) -> Result<MapReply, MapFault>
        ensures answer { IsAnswer self.now query.now result }
        ensures room { NeverWantsMemory K.seen → result ≢ Err MapFault.NoMemory }
    {
        self.kind.read(query)
    }

    /// Does an operation, with a block reserved for what takes it back. NoMemory also if the block was refused.
    pub(crate) fn operate(&mut self, alloc: Global, op: &MapOp) -> Result<Operated, MapFault>
        ensures { Operates self.old op.now result self.new }
    {
        let mut kept = match KeptBack::with_room(alloc, exchange_room(self.make.attr)) {
            Ok(kept) => kept,
            Err(_) => return Err(MapFault::NoMemory),
        };
        let kind = self.make.attr.kind;
        match self.kind.change_into(op, &mut kept) {
            Ok(()) => Ok(Operated { kind, kept }),
            Err(fault) => Err(fault),
        }
    }

    /// Whether an exchange can be turned here.
    pub(crate) fn fits(&self, back: &Back) -> bool
        ensures { result ≡ exchange_fits self.now.attr self.now.contents back.now }
    {
        self.kind.fits(back)
    }

    /// Turns an exchange. It takes no memory.
    pub(crate) fn turn(&mut self, back: &mut Back)
        requires { IsTrue (exchange_fits self.old.attr self.old.contents back.old) }
        ensures { IsTurned self.old back.old self.new back.new }
    {
        self.kind.turn(back);
    }
}

// So many bytes hold every exchange of a map of these attributes.
fn exchange_room(attr: MapAttr) -> usize
    ensures { result ≡ room_of attr }
{
    attr.key_size.max(attr.value_size) as usize + attr.value_size as usize
}
