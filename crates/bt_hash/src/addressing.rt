//! How the entries of a map stand under keys.

ghost use Rattle.std.specs.Prelude.{◌≡◌, ◌≢◌, ℕ, List, true, if◌then◌else◌, length, IfOk};
ghost use Rattle.std.specs.FinMap as map;
ghost use Rattle.bt_mapkind.specs.declared.attr.MapType.{MapType};
ghost use Rattle.bt_mapkind.specs.declared.errno.Errno.TheVariants.{E2BIG, ENOSPC};
ghost use Rattle.bt_mapkind.specs.declared.request.Query.TheVariants.{Lookup};
ghost use Rattle.bt_mapkind.specs.Answers.{Replies};
ghost use Rattle.bt_mapkind.specs.Attributes.{IsGoodFor, is_lpm};
ghost use Rattle.bt_mapkind.specs.Contents.{Entries};
ghost use Rattle.bt_mapkind.specs.Prefix.{address};
ghost use Rattle.bt_mapkind.specs.Well.{shape_of_type, OfEntries};
ghost use Rattle.bt_hash.specs.Held.{IsHeld, IsAdded, IsRemoved};
ghost use Rattle.map_table.specs.Table.{Kept};

use crate::address::Address;
use bt_mapkind::{Bytes, Errno, MapAttr, MapFault, MapReply, MapType};
use map_table::Table;
use std::alloc::{AllocError, Global};

/// How the entries of a map stand under keys: the address of a key, what a look-up answers, and an index of the addresses
/// if a look-up needs one.
pub trait Addressing: Drop {
    /// The type of the maps whose entries stand so.
    ghost serves: { MapType };

    /// An index has the addresses of a table's entries.
    ghost indexes: { Self → Kept → Type 0 };

    /// That type.
    fn map_type() -> MapType
        ensures type_is { result ≡ serves }
        ensures of_entries { shape_of_type serves ≡ OfEntries };

    /// The errno if a new address has no room.
    fn full() -> Errno
        ensures { result ≡ (if is_lpm serves then ENOSPC else E2BIG) };

    /// The index of a table without entries, with room for those of a map of these attributes.
    fn new(alloc: Global, attr: MapAttr) -> Result<Self, AllocError>
        requires { IsGoodFor serves attr }
        ensures { IfOk result (λ index. ∥ indexes index (record { entries = map.empty; capacity = attr.max_entries; key_size = attr.key_size; value_size = attr.value_size }) ∥₁) };

    /// The address of a key, if it has one.
    fn address<'k>(alloc: Global, attr: MapAttr, key: &'k Bytes) -> Option<Address<'k>>
        requires good { IsGoodFor serves attr }
        requires key_size { length key.now ≡ attr.key_size }
        ensures { result ≡ address attr key.now };

    /// What a look-up answers.
    fn lookup(
        &self,
        alloc: Global,
        attr: MapAttr,
        table: &Table,
        key: &Bytes,
    ) -> Result<MapReply, MapFault>
        requires held { IsHeld serves attr table.now }
        requires indexed { ∥ indexes self.now table.now ∥₁ }
        ensures answer { Replies attr (Entries table.now.entries) (Lookup key.now) result }
        ensures room { result ≢ Err MapFault.NoMemory };

    /// Takes an address up that a table has got.
    fn insert(&mut self, attr: MapAttr, table: &Table, stored: &Bytes)
        requires { IsAdded (λ before. ∥ indexes self.old before ∥₁) serves attr table.now stored.now }
        ensures { ∥ indexes self.new table.now ∥₁ };

    /// Forgets an address that a table has lost.
    fn remove(&mut self, table: &Table, stored: &Bytes)
        requires { IsRemoved (λ before. ∥ indexes self.old before ∥₁) table.now stored.now }
        ensures { ∥ indexes self.new table.now ∥₁ };

    /// Another value under an address changes nothing.
    ghost stays: { (index : Self) (table : Kept) (stored value : List ℕ) → map.contains_key table.entries stored ≡ true → indexes index table → indexes index (record table { entries = map.insert table.entries stored value }) };
}
