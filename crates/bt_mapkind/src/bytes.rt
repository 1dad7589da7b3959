//! Keys and values: a few bytes kept inline.

ghost use Rattle.std.specs.Prelude.{◌≡◌, ◌+◌, ◌≤◌, ◌↔◌, IsTrue, length};
ghost use Rattle.std.specs.Option.{SomeIff};
ghost use Rattle.std.specs.Str.{bytes_eq};
ghost use Rattle.std.specs.Cmp.{nat_eq_equiv, partial_equiv_from_equiv};
ghost use Rattle.std.specs.Cmp.Lexicographic.{lists_per, lists_equiv};
ghost use Rattle.bt_mapkind.specs.Bytes.{AreBytes};
ghost use Rattle.bt_mapkind.specs.Index.{index_of};
ghost use Rattle.bt_mapkind.specs.Atomic.{part_of};

use smallvec::SmallVec;
use std::alloc::Global;
use std::fmt;
use std::marker::Model;

/// A key or a value: at most 260 bytes, kept inline, so that none of its methods takes memory.
pub struct Bytes {
    items: SmallVec<u8, 260>,
}

// Written by hand, so that it is proved here alone, and not once more in each program that drops bytes.
impl Drop for Bytes {
    fn drop(self) {
        let Bytes { items: _ } = self;
    }
}

impl Model for Bytes {
    ghost use Rattle.std.specs.Prelude.{List, ℕ, ◌≤◌, length};
    ghost use Rattle.bt_mapkind.specs.Bytes.{AreBytes};

    ghost Value = { List ℕ };

    ghost view = { λ b. b.items.items };

    ghost invariant = { λ b. (length b.items.items ≤ 260) × AreBytes b.items.items };
}

impl Bytes {
    /// These bytes, written where they stay.
    pub fn short(alloc: Global, bytes: &[u8]) -> Bytes
        requires { length bytes.now ≤ 260 }
        ensures { result ≡ bytes.now }
    {
        let mut items = SmallVec::new(alloc);
        match items.extend_from_slice(bytes) {
            Ok(()) => Bytes { items },
            Err(_) => unreachable!(),
        }
    }

    /// These bytes; `None` if there are more than 260.
    pub fn of(alloc: Global, bytes: &[u8]) -> Option<Bytes>
        ensures { SomeIff result (length bytes.now ≤ 260) bytes.now }
    {
        if bytes.len() > 260 {
            return None;
        }
        Some(Bytes::short(alloc, bytes))
    }

    /// The bytes.
    pub fn as_slice(&self) -> &[u8]
        ensures value { result.now ≡ self.now }
        ensures at_most { length result.now ≤ 260 }
        ensures bytes { AreBytes self.now }
    {
        self.items.as_slice()
    }

    /// Each of them is a byte. It does nothing.
    pub fn are_bytes(&self)
        ensures { AreBytes self.now }
    {
        let _ = &self.items;
    }

    /// How many bytes there are.
    pub fn len(&self) -> usize
        ensures { result ≡ length self.now }
    {
        self.items.len()
    }

    /// Whether there is no byte.
    pub fn is_empty(&self) -> bool
        ensures { IsTrue result ↔ (length self.now ≡ 0) }
    {
        self.items.is_empty()
    }

    /// A copy of these bytes.
    pub fn copy(&self) -> Bytes
        ensures { result ≡ self.now }
    {
        Bytes::short(*self.items.allocator(), self.as_slice())
    }

    /// So many of the bytes, from `offset` on.
    pub fn part(&self, offset: usize, count: usize) -> Bytes
        requires { offset + count ≤ length self.now }
        ensures { result ≡ part_of self.now offset count }
    {
        let part = &self.as_slice()[offset..offset + count];
        Bytes::short(*self.items.allocator(), part)
    }

    /// The number that the first four bytes are, the lowest byte first: the index that a key of an array is, and
    /// the prefix length with which a key of an LPM trie begins.
    pub fn index(&self) -> u32
        requires { 4 ≤ length self.now }
        ensures { result ≡ index_of self.now }
    {
        let bytes = self.as_slice();
        u32::from_le_bytes([bytes[0], bytes[1], bytes[2], bytes[3]])
    }

    /// Puts these bytes where `other` was, and what was there here. They are equally many.
    pub fn exchange(&mut self, other: &mut [u8])
        requires { length self.old ≡ length other.old }
        ensures here { self.new ≡ other.old }
        ensures there { other.new ≡ self.old }
    {
        self.items.as_mut_slice().swap_with_slice(other);
    }
}

impl PartialEq for Bytes {
    ghost eq = { bytes_eq };

    ghost laws = { lists_per (partial_equiv_from_equiv nat_eq_equiv) };

    fn eq(&self, other: &Bytes) -> bool {
        self.as_slice() == other.as_slice()
    }
}

impl Eq for Bytes {
    ghost laws = { lists_equiv nat_eq_equiv };
}

impl fmt::Debug for Bytes {
    fn fmt<W: fmt::Write>(&self, f: &mut fmt::Formatter<W>) -> fmt::Result {
        let bytes = self.as_slice();
        write!(f, "{bytes:?}")
    }
}
