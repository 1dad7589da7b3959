//! DATA, the bytes of a key or a value, read a word at a time.

ghost use Rattle.std.specs.Prelude.{◌≡◌, ◌<◌, ◌≤◌, ◌+◌, ◌∷◌, [], ◌++◌, ◌↔◌, false, length, IfOk, IsTrue};
ghost use Rattle.std.specs.Str.{bytes_eq};
ghost use Rattle.std.specs.Cmp.{nat_eq_equiv, partial_equiv_from_equiv};
ghost use Rattle.std.specs.Cmp.Lexicographic.{lists_per, lists_equiv};
ghost use Rattle.console_operand.specs.Automaton.{GoesOn, GoesOver, Takes};
ghost use Rattle.console_operand.specs.DataSteps.{no_data, data_step, data_finish, begins_hex, next_byte};

use crate::NoMemory;
use crate::number::{byte, hex_byte};
use crate::unread::Unread;
use bt_mapkind::Bytes;
use smallvec::SmallVec;
use std::alloc::Global;
use std::marker::Model;
use std::{fmt, mem};

/// How many bytes DATA has at most.
const DATA_MAX: usize = 260;

/// How many bytes are read in one run at most.
pub(crate) const RUN_MAX: usize = 64;

/// The bytes that DATA spells: at most 260, and more than 16 kept apart, so that a command that has them stays small.
pub struct DataBytes {
    items: SmallVec<u8, 16>,
}

// Written by hand, so that it is proved here alone, and not once more in each program that drops bytes.
impl Drop for DataBytes {
    fn drop(self) {
        let DataBytes { items: _ } = self;
    }
}

impl Model for DataBytes {
    ghost use Rattle.std.specs.Prelude.{List, ℕ, ◌≤◌, length};

    ghost Value = { List ℕ };

    ghost view = { λ b. b.items.items };

    ghost invariant = { λ b. length b.items.items ≤ 260 };
}

impl DataBytes {
    fn new(alloc: Global) -> Self
        ensures { result ≡ [] }
    {
        DataBytes {
            items: SmallVec::new(alloc),
        }
    }

    fn push(&mut self, byte: u8) -> Result<(), NoMemory>
        requires { length self.old < 260 }
        ensures { IfOk result (λ _. self.new ≡ self.old ++ byte ∷ []) }
    {
        self.items.push(byte)?;
        Ok(())
    }

    fn extend(&mut self, more: &[u8]) -> Result<(), NoMemory>
        requires { length self.old + length more.now ≤ 260 }
        ensures { IfOk result (λ _. self.new ≡ self.old ++ more.now) }
    {
        self.items.extend_from_slice(more)
    }

    fn len(&self) -> usize
        ensures count { result ≡ length self.now }
        ensures bound { result ≤ 260 }
    {
        self.items.len()
    }

    /// The bytes as a key or a value.
    pub fn bytes(&self) -> Bytes
        ensures { result ≡ self.now }
    {
        Bytes::short(*self.items.allocator(), self.items.as_slice())
    }
}

impl PartialEq for DataBytes {
    ghost eq = { bytes_eq };

    ghost laws = { lists_per (partial_equiv_from_equiv nat_eq_equiv) };

    fn eq(&self, other: &DataBytes) -> bool {
        self.items.as_slice() == other.items.as_slice()
    }
}

impl Eq for DataBytes {
    ghost laws = { lists_equiv nat_eq_equiv };
}

impl fmt::Debug for DataBytes {
    fn fmt<W: fmt::Write>(&self, f: &mut fmt::Formatter<W>) -> fmt::Result {
        let bytes = self.items.as_slice();
        write!(f, "{bytes:?}")
    }
}

/// DATA as far as it was read.
#[derive(Drop)]
pub struct Data {
    /// Whether `hex` came first.
    pub is_hex: bool,
    pub bytes: DataBytes,
}

impl Data {
    /// DATA of which no word was read.
    pub fn new(alloc: Global) -> Data
        ensures { result ≡ no_data }
    {
        Data {
            is_hex: false,
            bytes: DataBytes::new(alloc),
        }
    }

    /// DATA of decimal words that spell these bytes.
    pub(crate) fn of(alloc: Global, bytes: &[u8]) -> Result<Data, NoMemory>
        requires { length bytes.now ≤ 260 }
        ensures { IfOk result (λ d. d ≡ record { is_hex = false; bytes = bytes.now }) }
    {
        let mut read = Data::new(alloc);
        read.bytes.extend(bytes)?;
        Ok(read)
    }

    /// Whether there is no byte yet.
    fn is_empty(&self) -> bool
        ensures { IsTrue result ↔ (self.now.bytes ≡ []) }
    {
        self.bytes.len() == 0
    }

    /// Whether the word is the `hex` that may come first.
    fn begins_hex(&self, word: &[u8]) -> bool
        ensures { result ≡ begins_hex self.now word.now }
    {
        !self.is_hex && self.is_empty() && word == b"hex".as_slice()
    }

    /// The byte that the word adds.
    fn next_byte(&self, word: &[u8]) -> Option<u8>
        ensures { result ≡ next_byte self.now word.now }
    {
        if self.bytes.len() >= DATA_MAX {
            return None;
        }
        if self.is_hex {
            hex_byte(word)
        } else {
            byte(word)
        }
    }

    /// Reads one word; false, and nothing changes, if the word is no part of it.
    fn step(&mut self, word: &[u8]) -> Result<bool, NoMemory>
        ensures goes_on { IfOk result (λ goes. GoesOn goes (data_step self.old word.now) self.new) }
        ensures stays { IfOk result (λ goes. goes ≡ false → self.new ≡ self.old) }
    {
        if self.begins_hex(word) {
            self.is_hex = true;
            return Ok(true);
        }
        match self.next_byte(word) {
            Some(byte) => {
                self.bytes.push(byte)?;
                Ok(true)
            }
            None => Ok(false),
        }
    }

    /// Reads the bytes that come next, as far as they are written as most are and one run holds them.
    pub fn take(&mut self, unread: &mut Unread<'_>) -> Result<(), NoMemory>
        ensures { IfOk result (λ _. Takes data_step self.old unread.old self.new unread.new) }
    {
        let mut run = [0; RUN_MAX];
        let room = RUN_MAX.min(DATA_MAX - self.bytes.len());
        let count = unread.short_bytes(self.is_hex, room, &mut run);
        self.bytes.extend(&run[..count])
    }

    /// Reads one more word, and words that come next; false, and nothing changes, if the word is no part of
    /// it.
    pub fn go_on(&mut self, word: &[u8], unread: &mut Unread<'_>) -> Result<bool, NoMemory>
        ensures goes_on { IfOk result (λ goes. GoesOver data_step goes self.old word.now unread.old self.new unread.new) }
        ensures stays { IfOk result (λ goes. goes ≡ false → (self.new ≡ self.old) × (unread.new ≡ unread.old)) }
    {
        if !self.step(word)? {
            return Ok(false);
        }
        self.take(unread)?;
        Ok(true)
    }

    /// The bytes, if DATA may end here: there is one at least. It is left without bytes.
    pub fn finish(&mut self, alloc: Global) -> Option<DataBytes>
        ensures { result ≡ data_finish self.old }
    {
        if self.is_empty() {
            return None;
        }
        Some(mem::replace(&mut self.bytes, DataBytes::new(alloc)))
    }
}
