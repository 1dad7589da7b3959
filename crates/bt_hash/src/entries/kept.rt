//! Changes whose exchange is kept in a block.

ghost use Rattle.std.specs.Prelude.{◌≡◌, ◌≤◌, ◌≢◌};
ghost use Rattle.bt_mapkind.specs.Answers.{Follows};
ghost use Rattle.bt_mapkind.specs.Contents.{Entries};
ghost use Rattle.bt_mapkind.specs.Kept.{room_of};
ghost use Rattle.bt_mapkind.specs.Reply.{answer_with};

use crate::addressing::Addressing;
use crate::entries::EntriesKind;
use bt_mapkind::{Bytes, Errno, KeptBack, MapFault, MapOp};

impl<A: Addressing> EntriesKind<A> {
    // Puts a value under a key.
    pub(super) fn update_into(
        &mut self,
        key: &Bytes,
        value: &Bytes,
        flag: u64,
        kept: &mut KeptBack,
    ) -> Result<(), MapFault>
        requires { room_of self.old.attr ≤ kept.old.room }
        ensures step { Follows self.old.attr (Entries self.old.table.entries) (MapOp.Update key.now value.now flag) (answer_with (MapOp.Update key.now value.now flag) result kept.new.back) (Entries self.new.table.entries) }
        ensures attr { self.new.attr ≡ self.old.attr }
        ensures room { result ≢ Err MapFault.NoMemory }
        ensures kept { kept.new.room ≡ kept.old.room }
    {
        if flag > 2
            || key.len() != self.attr.key_size as usize
            || value.len() != self.attr.value_size as usize
        {
            return Err(MapFault::Errno(Errno::EINVAL));
        }
        let Some(address) = self.address(key) else {
            return Err(MapFault::Errno(Errno::EINVAL));
        };
        let stored = address.bytes();
        let value = value.as_slice();
        match self.table.put_into(stored, value, flag, A::full(), kept) {
            Ok(true) => {
                self.index.insert(self.attr, &self.table, stored);
                Ok(())
            }
            Ok(false) => Ok(()),
            Err(errno) => Err(MapFault::Errno(errno)),
        }
    }

    // Takes a key away.
    pub(super) fn delete_into(&mut self, key: &Bytes, kept: &mut KeptBack) -> Result<(), MapFault>
        requires { room_of self.old.attr ≤ kept.old.room }
        ensures step { Follows self.old.attr (Entries self.old.table.entries) (MapOp.Delete key.now) (answer_with (MapOp.Delete key.now) result kept.new.back) (Entries self.new.table.entries) }
        ensures attr { self.new.attr ≡ self.old.attr }
        ensures room { result ≢ Err MapFault.NoMemory }
        ensures kept { kept.new.room ≡ kept.old.room }
    {
        if key.len() != self.attr.key_size as usize {
            return Err(MapFault::Errno(Errno::EINVAL));
        }
        let Some(address) = self.address(key) else {
            return Err(MapFault::Errno(Errno::EINVAL));
        };
        let stored = address.bytes();
        if !self.table.remove_into(stored, kept) {
            return Err(MapFault::Errno(Errno::ENOENT));
        }
        self.index.remove(&self.table, stored);
        Ok(())
    }
}
