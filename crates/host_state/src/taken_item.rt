//! An item that was taken from a map.

ghost use Rattle.std.specs.Prelude.{◌≡◌, ◌≤◌, [], length, IfOk};
ghost use Rattle.std.specs.Str.{bytes_eq};
ghost use Rattle.std.specs.Cmp.{nat_eq_equiv, partial_equiv_from_equiv};
ghost use Rattle.std.specs.Cmp.Lexicographic.{lists_per, lists_equiv};

use bt_mapkind::Bytes;
use host_words::NoMemory;
use std::alloc::Global;
use std::fmt;
use std::marker::Model;

/// The bytes of an item, at most 260. They lie on the heap, since only a pop gives an item, and every reply has room for
/// one. The room is taken when the item is made, so that it is filled without memory.
#[derive(Drop)]
pub struct TakenItem {
    bytes: Vec<u8>,
}

impl Model for TakenItem {
    ghost use Rattle.std.specs.Prelude.{List, ℕ, ◌≤◌, length, vec_capacity};

    ghost Value = { List ℕ };

    ghost view = { λ i. i.bytes.items };

    ghost invariant = { λ i. (length i.bytes.items ≤ 260) × (260 ≤ vec_capacity i.bytes) };
}

impl TakenItem {
    /// An item of no bytes, with room for as many as an item may have. Takes memory.
    pub fn with_room(alloc: Global) -> Result<TakenItem, NoMemory>
        ensures { IfOk result (λ item. item ≡ []) }
    {
        let bytes = Vec::with_capacity(alloc, 260)?;
        Ok(TakenItem { bytes })
    }

    /// Holds these bytes from now on. It takes no memory.
    pub fn fill(&mut self, bytes: &[u8])
        requires { length bytes.now ≤ 260 }
        ensures { self.new ≡ bytes.now }
    {
        self.bytes.clear();
        match self.bytes.extend_from_slice(bytes) {
            Ok(()) => {}
            Err(_) => unreachable!(),
        }
    }

    /// The bytes.
    pub fn as_slice(&self) -> &[u8]
        ensures value { result.now ≡ self.now }
        ensures at_most { length result.now ≤ 260 }
    {
        &self.bytes
    }

    /// The item's bytes, held inline.
    pub fn to_bytes(&self) -> Bytes
        ensures { result ≡ self.now }
    {
        Bytes::short(*self.bytes.allocator(), self.as_slice())
    }
}

impl PartialEq for TakenItem {
    ghost eq = { bytes_eq };

    ghost laws = { lists_per (partial_equiv_from_equiv nat_eq_equiv) };

    fn eq(&self, other: &TakenItem) -> bool {
        self.as_slice() == other.as_slice()
    }
}

impl Eq for TakenItem {
    ghost laws = { lists_equiv nat_eq_equiv };
}

impl fmt::Debug for TakenItem {
    fn fmt<W: fmt::Write>(&self, f: &mut fmt::Formatter<W>) -> fmt::Result {
        let bytes = self.as_slice();
        write!(f, "{bytes:?}")
    }
}
