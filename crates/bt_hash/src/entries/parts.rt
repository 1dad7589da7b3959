//! Writes to a part of a value.

ghost use Rattle.std.specs.Prelude.{◌≡◌, ◌≤◌, ◌≢◌, IfOk, IfErr};
ghost use Rattle.bt_mapkind.specs.Answers.{Follows};
ghost use Rattle.bt_mapkind.specs.Contents.{Entries};
ghost use Rattle.bt_mapkind.specs.Kept.{room_of};
ghost use Rattle.bt_mapkind.specs.Prefix.{address};
ghost use Rattle.bt_mapkind.specs.Reply.{answer_with};
ghost use Rattle.bt_hash.specs.Held.{PartFits, part_fault};

use crate::address::Address;
use crate::addressing::Addressing;
use crate::entries::{EntriesKind, back_to};
use bt_mapkind::{AtomicOp, AtomicSize, Back, Bytes, Errno, KeptBack, MapFault, MapOp, MapReply};

impl<A: Addressing> EntriesKind<A> {
    // The address under which so many bytes from an offset on are to be written, or why they cannot be.
    fn part_of<'k>(&self, key: &'k Bytes, offset: u64, count: usize) -> Result<Address<'k>, Errno>
        ensures found { IfOk result (λ stored. PartFits self.now.attr key.now offset count × (address self.now.attr key.now ≡ Some stored)) }
        ensures errno { IfErr result (λ errno. part_fault self.now.attr self.now.table.entries key.now offset count ≡ Some errno) }
    {
        if key.len() != self.attr.key_size as usize {
            return Err(Errno::EINVAL);
        }
        let Some(address) = self.address(key) else {
            return Err(Errno::ENOENT);
        };
        match self.table.part_fault(address.bytes(), offset, count) {
            Some(errno) => Err(errno),
            None => Ok(address),
        }
    }

    pub(super) fn store(
        &mut self,
        key: &Bytes,
        offset: u64,
        bytes: &Bytes,
    ) -> Result<(MapReply, Back), MapFault>
        ensures step { Follows self.old.attr (Entries self.old.table.entries) (MapOp.Store key.now offset bytes.now) result (Entries self.new.table.entries) }
        ensures attr { self.new.attr ≡ self.old.attr }
        ensures room { result ≢ Err MapFault.NoMemory }
    {
        let address = match self.part_of(key, offset, bytes.len()) {
            Ok(address) => address,
            Err(errno) => return Err(MapFault::Errno(errno)),
        };
        match self
            .table
            .write_in(address.bytes(), offset as usize, bytes.as_slice())
        {
            Some(before) => Ok((MapReply::Done, back_to(address, Some(before)))),
            None => Err(MapFault::Errno(Errno::ENOENT)),
        }
    }

    pub(super) fn combine(
        &mut self,
        key: &Bytes,
        offset: u64,
        size: AtomicSize,
        op: AtomicOp,
        operand: u64,
    ) -> Result<(MapReply, Back), MapFault>
        ensures step { Follows self.old.attr (Entries self.old.table.entries) (MapOp.Atomic key.now offset size op operand) result (Entries self.new.table.entries) }
        ensures attr { self.new.attr ≡ self.old.attr }
        ensures room { result ≢ Err MapFault.NoMemory }
    {
        let address = match self.part_of(key, offset, size.in_bytes()) {
            Ok(address) => address,
            Err(errno) => return Err(MapFault::Errno(errno)),
        };
        let at = offset as usize;
        match self
            .table
            .combine_in(address.bytes(), at, op, size, operand)
        {
            Some(before) => {
                let reply = MapReply::of_atomic(op, before.part(at, size.in_bytes()));
                Ok((reply, back_to(address, Some(before))))
            }
            None => Err(MapFault::Errno(Errno::ENOENT)),
        }
    }

    // Writes bytes into the value under a key.
    pub(super) fn store_into(
        &mut self,
        key: &Bytes,
        offset: u64,
        bytes: &Bytes,
        kept: &mut KeptBack,
    ) -> Result<(), MapFault>
        requires { room_of self.old.attr ≤ kept.old.room }
        ensures step { Follows self.old.attr (Entries self.old.table.entries) (MapOp.Store key.now offset bytes.now) (answer_with (MapOp.Store key.now offset bytes.now) result kept.new.back) (Entries self.new.table.entries) }
        ensures attr { self.new.attr ≡ self.old.attr }
        ensures room { result ≢ Err MapFault.NoMemory }
        ensures kept { kept.new.room ≡ kept.old.room }
    {
        let address = match self.part_of(key, offset, bytes.len()) {
            Ok(address) => address,
            Err(errno) => return Err(MapFault::Errno(errno)),
        };
        let at = offset as usize;
        if !self
            .table
            .write_into(address.bytes(), at, bytes.as_slice(), kept)
        {
            return Err(MapFault::Errno(Errno::ENOENT));
        }
        Ok(())
    }

    // Does an atomic instruction on the value under a key.
    pub(super) fn combine_into(
        &mut self,
        key: &Bytes,
        offset: u64,
        size: AtomicSize,
        op: AtomicOp,
        operand: u64,
        kept: &mut KeptBack,
    ) -> Result<(), MapFault>
        requires { room_of self.old.attr ≤ kept.old.room }
        ensures step { Follows self.old.attr (Entries self.old.table.entries) (MapOp.Atomic key.now offset size op operand) (answer_with (MapOp.Atomic key.now offset size op operand) result kept.new.back) (Entries self.new.table.entries) }
        ensures attr { self.new.attr ≡ self.old.attr }
        ensures room { result ≢ Err MapFault.NoMemory }
        ensures kept { kept.new.room ≡ kept.old.room }
    {
        let address = match self.part_of(key, offset, size.in_bytes()) {
            Ok(address) => address,
            Err(errno) => return Err(MapFault::Errno(errno)),
        };
        let at = offset as usize;
        if !self
            .table
            .combine_into(address.bytes(), at, op, size, operand, kept)
        {
            return Err(MapFault::Errno(Errno::ENOENT));
        }
        Ok(())
    }
}
