//! Changes of a queue or a stack whose exchange is kept in a block.

ghost use Rattle.std.specs.Prelude.{◌≡◌, ◌≤◌, ◌≢◌};
ghost use Rattle.bt_mapkind.specs.Answers.{Follows};
ghost use Rattle.bt_mapkind.specs.Contents.{Items};
ghost use Rattle.bt_mapkind.specs.Kept.{room_of};
ghost use Rattle.bt_mapkind.specs.Reply.{answer_with};

use crate::ring_kind::{RingKind, popped, pushed_over};
use bt_mapkind::{Bytes, Errno, KeptBack, MapFault, MapOp};

impl RingKind {
    // Puts an item after the newest.
    pub(super) fn push_into(
        &mut self,
        value: &Bytes,
        flag: u64,
        kept: &mut KeptBack,
    ) -> Result<(), MapFault>
        requires { room_of self.old.attr ≤ kept.old.room }
        ensures step { Follows self.old.attr (Items self.old.ring.items) (MapOp.Push value.now flag) (answer_with (MapOp.Push value.now flag) result kept.new.back) (Items self.new.ring.items) }
        ensures attr { self.new.attr ≡ self.old.attr }
        ensures room { result ≢ Err MapFault.NoMemory }
        ensures kept { kept.new.room ≡ kept.old.room }
    {
        if flag > 2 || value.len() != self.attr.value_size as usize || flag == 1 {
            return Err(MapFault::Errno(Errno::EINVAL));
        }
        if !self.ring.is_full() {
            self.ring.push_row(value.as_slice());
            kept.fill(&pushed_over(None));
            return Ok(());
        }
        if flag == 2 {
            let oldest = self.ring.pop_front();
            self.ring.push_row(value.as_slice());
            kept.fill(&pushed_over(Some(oldest)));
            return Ok(());
        }
        Err(MapFault::Errno(Errno::E2BIG))
    }

    // Takes the oldest item of a queue, or the newest of a stack.
    pub(super) fn pop_into(&mut self, kept: &mut KeptBack) -> Result<(), MapFault>
        requires { room_of self.old.attr ≤ kept.old.room }
        ensures step { Follows self.old.attr (Items self.old.ring.items) MapOp.Pop (answer_with MapOp.Pop result kept.new.back) (Items self.new.ring.items) }
        ensures attr { self.new.attr ≡ self.old.attr }
        ensures room { result ≢ Err MapFault.NoMemory }
        ensures kept { kept.new.room ≡ kept.old.room }
    {
        if self.ring.len() == 0 {
            return Err(MapFault::Errno(Errno::ENOENT));
        }
        if self.is_stack() {
            let newest = self.ring.pop_rear();
            kept.fill(&popped(None, Some(newest)));
            return Ok(());
        }
        let oldest = self.ring.pop_front();
        kept.fill(&popped(Some(oldest), None));
        Ok(())
    }
}
