//! The interface that every kind of map meets.

ghost use Rattle.std.specs.Prelude.{◌≡◌, ◌≤◌, ◌↔◌, IsTrue};
ghost use Rattle.bt_mapkind.specs.Seen.{Seen, IsFresh};
ghost use Rattle.bt_mapkind.specs.Exchange.{exchange_fits};
ghost use Rattle.bt_mapkind.specs.Kept.{room_of};
ghost use Rattle.bt_mapkind.specs.Reply.{answer_with};
ghost use Rattle.bt_mapkind.specs.Answers.{IsAnswer, IsChange, IsTurned};

use crate::attr::MapAttr;
use crate::exchange::Back;
use crate::kept::KeptBack;
use crate::request::{MapFault, MapOp, MapReply, Query};

/// A map of any make. Its attributes and its charge never change.
pub trait MapKind: Send + Drop {
    /// What it is, however it is kept: its attributes, its contents and its charge, and whether all its room was
    /// reserved when it was made.
    ghost seen: { Self → Seen };

    /// What it was made with.
    fn attr(&self) -> MapAttr
        ensures { result ≡ (seen self.now).attr };

    /// What it costs of a host's budget, in bytes.
    fn charge(&self) -> u64
        ensures { result ≡ (seen self.now).charge };

    /// Whether it holds what a new map of its attributes holds.
    fn is_fresh(&self) -> bool
        ensures { IsTrue result ↔ IsFresh (seen self.now) };

    /// The table's answer to a question, its errno, or NoMemory if an allocation failed. A kind whose room
    /// was reserved never answers NoMemory.
    fn read(&self, query: &Query) -> Result<MapReply, MapFault>
        ensures { IsAnswer (seen self.now) query.now result };

    /// Does what the table says and gives its reply with the exchange that takes the change back. Its errno, or
    /// NoMemory if an allocation failed, changes nothing. A kind whose room was reserved never answers NoMemory.
    fn change(&mut self, op: &MapOp) -> Result<(MapReply, Back), MapFault>
        ensures { IsChange (seen self.old) op.now result (seen self.new) };

    /// What [`MapKind::change`] does, with the exchange kept in a block whose room holds every exchange of this map. The
    /// reply follows from the exchange, so none is given. A kind need not have it: one that writes the bytes right into
    /// the block copies less.
    fn change_into(&mut self, op: &MapOp, kept: &mut KeptBack) -> Result<(), MapFault>
        requires { room_of (seen self.old).attr ≤ kept.old.room }
        ensures change { IsChange (seen self.old) op.now (answer_with op.now result kept.new.back) (seen self.new) }
        ensures room { kept.new.room ≡ kept.old.room }
    {
        match self.change(op) {
            Ok((_, back)) => {
                kept.fill(&back);
                Ok(())
            }
            Err(fault) => Err(fault),
        }
    }

    /// Whether `back` can be turned here.
    fn fits(&self, back: &Back) -> bool
        ensures { result ≡ exchange_fits (seen self.now).attr (seen self.now).contents back.now };

    /// Puts what `back` holds in place, and what stood there into `back`. It takes no memory.
    fn turn(&mut self, back: &mut Back)
        requires { IsTrue (exchange_fits (seen self.old).attr (seen self.old).contents back.old) }
        ensures { IsTurned (seen self.old) back.old (seen self.new) back.new };
}

/// A boxed map of unknown make is one.
impl MapKind for Box<dyn MapKind> {
    ghost seen = { λ b. (MapKind-box b).seen b.value };

    fn attr(&self) -> MapAttr {
        (**self).attr()
    }

    fn charge(&self) -> u64 {
        (**self).charge()
    }

    fn is_fresh(&self) -> bool {
        (**self).is_fresh()
    }

    fn read(&self, query: &Query) -> Result<MapReply, MapFault> {
        (**self).read(query)
    }

    fn change(&mut self, op: &MapOp) -> Result<(MapReply, Back), MapFault> {
        (**self).change(op)
    }

    fn change_into(&mut self, op: &MapOp, kept: &mut KeptBack) -> Result<(), MapFault> {
        (**self).change_into(op, kept)
    }

    fn fits(&self, back: &Back) -> bool {
        (**self).fits(back)
    }

    fn turn(&mut self, back: &mut Back) {
        (**self).turn(back);
    }
}
