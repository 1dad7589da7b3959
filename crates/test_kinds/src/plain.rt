//! A plain map: a list of entries, sorted by their keys.

use bt_mapkind::{Errno, MapAttr, MapType};
use std::alloc::Global;
use std::process::Abort;

/// How many keys there are, each known by its number; their bytes ascend as the numbers do.
pub(crate) const KEYS: u32 = 64;

/// The flags of an update.
pub(crate) const ANY: u64 = 0;

pub(crate) const NOEXIST: u64 = 1;

pub(crate) const EXIST: u64 = 2;

/// What a key of a number is to hold, or that it is to go.
#[derive(Clone, Copy)]
pub(crate) struct Exchange {
    pub(crate) number: u32,
    pub(crate) value: Option<u32>,
}

/// A change that asks for it, with the flag of an update.
#[derive(Clone, Copy)]
pub(crate) struct Change {
    pub(crate) exchange: Exchange,
    pub(crate) flag: u64,
}

/// What stands under the key of a number.
#[derive(Clone, Copy, PartialEq, Eq, PartialOrd, Ord)]
pub(crate) struct Entry {
    pub(crate) number: u32,
    pub(crate) value: u32,
}

/// A map as a list of its entries, sorted by their keys.
#[derive(Drop)]
pub(crate) struct Plain {
    pub(crate) kind: MapType,
    room: usize,
    pub(crate) entries: Vec<Entry>,
}

impl Plain {
    /// What a new map of these attributes holds: an array all its values.
    pub(crate) fn new(rt: &impl Abort, alloc: Global, attr: MapAttr) -> Plain {
        let mut plain = Plain {
            kind: attr.kind,
            room: attr.max_entries as usize,
            entries: Vec::new(alloc),
        };
        if attr.kind == MapType::Array {
            for number in 0..KEYS {
                plain.put(rt, Entry { number, value: 0 });
            }
        }
        plain
    }

    /// What stands under the key of a number.
    pub(crate) fn get(&self, number: u32) -> Option<u32> {
        for entry in &self.entries {
            if entry.number == number {
                return Some(entry.value);
            }
        }
        None
    }

    fn put(&mut self, rt: &impl Abort, entry: Entry) {
        self.entries.push(entry).ok().expect(rt, "memory");
        self.entries.sort_unstable();
    }

    /// Makes an exchange, and gives the one that takes it back.
    pub(crate) fn turn(&mut self, rt: &impl Abort, exchange: Exchange) -> Exchange {
        let number = exchange.number;
        let before = self.get(number);
        self.entries.retain(|entry| entry.number != number);
        if let Some(value) = exchange.value {
            self.put(rt, Entry { number, value });
        }
        Exchange {
            number,
            value: before,
        }
    }

    /// Whether an exchange can be made.
    pub(crate) fn fits(&self, exchange: Exchange) -> bool {
        exchange.value.is_none()
            || self.entries.len() < self.room
            || self.get(exchange.number).is_some()
    }

    // Why the entry of a key is not taken away: an array keeps all of its own.
    fn fault_of_delete(&self, number: u32) -> Option<Errno> {
        if self.kind == MapType::Array {
            return Some(Errno::EINVAL);
        }
        self.get(number).is_none().then_some(Errno::ENOENT)
    }

    // Why a map takes no new key.
    fn fault_of_new(&self, change: Change) -> Option<Errno> {
        if change.flag == EXIST {
            return Some(Errno::ENOENT);
        }
        let full = match self.kind {
            MapType::LpmTrie => Errno::ENOSPC,
            _ => Errno::E2BIG,
        };
        (!self.fits(change.exchange)).then_some(full)
    }

    /// Why a change is refused, if it is.
    pub(crate) fn fault(&self, change: Change) -> Option<Errno> {
        let number = change.exchange.number;
        if change.exchange.value.is_none() {
            return self.fault_of_delete(number);
        }
        if self.kind == MapType::ArrayOfMaps && change.flag != ANY {
            return Some(Errno::EINVAL);
        }
        if self.get(number).is_none() {
            return self.fault_of_new(change);
        }
        (change.flag == NOEXIST).then_some(Errno::EEXIST)
    }

    /// The number of the key that a look-up finds: in an LPM trie that of the longest prefix.
    pub(crate) fn found(&self, number: u32) -> Option<u32> {
        if self.kind != MapType::LpmTrie {
            return self.get(number).is_some().then_some(number);
        }
        let mut found = None;
        for longer in 0..number / 8 + 1 {
            let prefix = longer * 8 + number % 8;
            if self.get(prefix).is_some() {
                found = Some(prefix);
            }
        }
        found
    }
}
