//! A set of prefixes.

ghost use Rattle.std.specs.Prelude.{◌≡◌, ◌+◌, ◌*◌, ◌<◌, ◌≤◌, ◌^◌, ◌++◌, ◌∷◌, [], false, length, All, IfOk, IfSome, MatchOption};
ghost use Rattle.std.specs.List.{Contains};
ghost use Rattle.bt_mapkind.specs.Prefix.{prefix_length, is_prefix_of};
ghost use Rattle.map_trie.specs.Trie.{IsStored, IsLongest, IsWithout};

use crate::links::{most_of, move_last, no_links, put_in, take_out};
use map_block::Block;
use std::alloc::{AllocError, Global};
use std::marker::Model;

/// Prefixes of keys of one size, of which there are at most so many: a prefix length in bits, four bytes with the lowest
/// first, and then data, whose bits past that length are zero. Its room is reserved when it is made. Each prefix is a node
/// of a binary trie, on the way by its own bits and no deeper than it has bits; so all prefixes of a key stand on the way
/// by the key's bits. Contracts see the list of the prefixes, the capacity and the size of a key.
#[derive(Drop)]
pub struct Trie {
    len: usize,
    key_size: usize,
    // Of node v the links at 2 * v and 2 * v + 1, and last the one to the first node; 0 leads nowhere.
    links: Vec<u32>,
    keys: Block,
}

impl Model for Trie {
    ghost use Rattle.std.specs.Prelude.{length, take};
    ghost use Rattle.map_trie.specs.Trie.{Prefixes, prefixes_code, IsKept};

    ghost Value = { Prefixes };

    ghost coded = { prefixes_code };

    ghost view = { λ t. record { stored = take t.len t.keys; capacity = length t.keys; key_size = t.key_size } };

    ghost invariant = { λ t. IsKept t.len t.key_size t.links.items t.keys };
}

impl Trie {
    /// No prefixes, with room for `capacity` of them, of keys of `key_size` bytes.
    pub fn new(alloc: Global, capacity: usize, key_size: usize) -> Result<Trie, AllocError>
        requires few { capacity < 2 ^ 32 }
        requires small_keys { key_size ≤ 260 }
        ensures { IfOk result (λ t. t ≡ record { stored = []; capacity = capacity; key_size = key_size }) }
    {
        let links = no_links(alloc, 2 * capacity + 3)?;
        let keys = Block::zeros(alloc, capacity, key_size)?;
        Ok(Trie {
            len: 0,
            key_size,
            links,
            keys,
        })
    }

    /// Puts a prefix in that is not there.
    pub fn insert(&mut self, key: &[u8])
        requires room { length self.old.stored < self.old.capacity }
        requires key_size { length key.now ≡ self.old.key_size }
        requires stored { IsStored key.now }
        requires absent { Contains self.old.stored key.now → ⊥ }
        ensures { self.new ≡ record self.old { stored = self.old.stored ++ key.now ∷ [] } }
    {
        self.keys.write(self.len, 0, key);
        self.len += 1;
        put_in(&mut self.links, &self.keys, self.len as u32);
    }

    /// Takes a prefix out that is there.
    pub fn remove(&mut self, key: &[u8])
        requires { Contains self.old.stored key.now }
        ensures others { IsWithout self.old.stored key.now self.new.stored }
        ensures capacity { self.new.capacity ≡ self.old.capacity }
        ensures key_size { self.new.key_size ≡ self.old.key_size }
    {
        let node = take_out(&mut self.links, &self.keys, key);
        let last = self.len as u32;
        if node == last {
            self.len -= 1;
            return;
        }
        move_last(&mut self.links, &mut self.keys, last, node);
        self.len -= 1;
    }

    /// How many bits the longest prefix of a key has, if one matches.
    pub fn longest(&self, key: &[u8]) -> Option<usize>
        requires key_size { length key.now ≡ self.now.key_size }
        requires bits { prefix_length key.now + 32 ≤ 8 * length key.now }
        ensures longest { MatchOption result (All (λ stored. is_prefix_of key.now stored ≡ false) self.now.stored) (λ bits. IsLongest self.now.stored key.now bits) }
        ensures short { IfSome result (λ bits. bits ≤ 2048) }
    {
        most_of(&self.links, &self.keys, key).checked_sub(1)
    }
}
