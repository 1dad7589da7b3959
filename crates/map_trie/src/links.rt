//! The links of a trie's nodes.

ghost use Rattle.std.specs.Prelude.{◌≡◌, ◌≢◌, ◌+◌, ◌*◌, ◌-◌, ◌<◌, ◌≤◌, ℕ, IfOk, length, replicate, slice_index, slice_set};
ghost use Rattle.bt_mapkind.specs.Prefix.{prefix_length};
ghost use Rattle.map_trie.specs.Ways.{Replaces};
ghost use Rattle.map_trie.specs.Trie.{IsTrie, IsThere, LeadsTo, IsLeaf, IsMost, key_of};

use crate::keys::{better, bit_of, length_of};
use map_block::Block;
use std::alloc::{AllocError, Global};

/// So many links that lead nowhere.
pub fn no_links(alloc: Global, count: usize) -> Result<Vec<u32>, AllocError>
    ensures { IfOk result (λ links. links.items ≡ replicate count 0) }
{
    vec![in alloc; 0u32; count]
}

/// The link that leads to the node of a key.
pub fn link_of(links: &[u32], keys: &Block, key: &[u8]) -> usize
    requires { IsThere links.now keys.now key.now }
    ensures { LeadsTo links.now keys.now key.now result }
{
    let mut at = links.len() - 1;
    let mut depth = 0;
    'down: loop {
        let node = links[at] as usize;
        if keys.row(node - 1) == key {
            return at;
        }
        at = 2 * node + bit_of(key, depth);
        depth += 1;
    }
}

/// Puts the last node, which is apart, in its place. A node that stands where this one has no more bits goes on down in
/// its stead.
pub fn put_in(links: &mut [u32], keys: &Block, node: u32)
    requires some { 0 < node }
    requires trie { IsTrie node links.old keys.now node }
    ensures { IsTrie node links.new keys.now 0 }
{
    let mut carried = node;
    let mut at = links.len() - 1;
    let mut depth = 0;
    'down: loop {
        let found = links[at];
        if found == 0 {
            links[at] = carried;
            return;
        }
        let here = depth;
        depth += 1;
        let key = keys.row(carried as usize - 1);
        if length_of(key) > here {
            at = 2 * found as usize + bit_of(key, here);
            continue;
        }
        replace(links, at, found, carried);
        at = 2 * carried as usize + bit_of(keys.row(found as usize - 1), here);
        carried = found;
    }
}

/// Takes the node of a key out of its place, and gives it. A node without links below it goes there.
pub fn take_out(links: &mut [u32], keys: &Block, key: &[u8]) -> u32
    requires there { IsThere links.old keys.now key.now }
    requires whole { (count : ℕ) × IsTrie count links.old keys.now 0 }
    ensures apart { (count : ℕ) → IsTrie count links.old keys.now 0 → IsTrie count links.new keys.now result }
    ensures some { 0 < result }
    ensures within { (count : ℕ) → IsTrie count links.old keys.now 0 → result ≤ count }
    ensures is { key_of keys.now result ≡ key.now }
{
    let at = link_of(links, keys, key);
    let node = links[at];
    let end = leaf_below(links, keys, at);
    let leaf = links[end];
    links[end] = 0;
    if leaf != node {
        replace(links, at, node, leaf);
    }
    node
}

// The link that leads to a node without links, below a link or there.
fn leaf_below(links: &[u32], keys: &Block, top: usize) -> usize
    requires whole { (count : ℕ) × IsTrie count links.now keys.now 0 }
    requires within { top < length links.now }
    requires some { 0 < slice_index links.now top }
    ensures { IsLeaf links.now keys.now top result }
{
    let mut at = top;
    let bits = 8 * keys.row(0).len();
    for down in 0..bits {
        let left = 2 * links[at] as usize;
        if links[left] != 0 {
            at = left;
            continue;
        }
        if links[left + 1] == 0 {
            return at;
        }
        at = left + 1;
    }
    unreachable!()
}

/// Gives the last node the number of one that is apart, which is then gone.
pub fn move_last(links: &mut [u32], keys: &mut Block, last: u32, node: u32)
    requires some { 0 < node }
    requires below { node < last }
    requires trie { IsTrie last links.old keys.old node }
    ensures trie { IsTrie (last - 1) links.new keys.new 0 }
    ensures keys { keys.new ≡ slice_set keys.old (node - 1) (key_of keys.old last) }
{
    let moved = keys.copy_of(last as usize - 1);
    let at = link_of(links, keys, moved.as_slice());
    replace(links, at, last, node);
    keys.write(node as usize - 1, 0, moved.as_slice());
}

// Puts a node in the place of another, which the link at `at` leads to, with the other's links.
fn replace(links: &mut [u32], at: usize, old: u32, new: u32)
    requires at { at < length links.old }
    requires old { 2 * old + 1 < length links.old }
    requires new { 2 * new + 1 < length links.old }
    requires differ { old ≢ new }
    requires not_left { at ≢ 2 * new }
    requires not_right { at ≢ 2 * new + 1 }
    requires not_old_left { at ≢ 2 * old }
    requires not_old_right { at ≢ 2 * old + 1 }
    ensures { Replaces (slice_index links.old) (slice_index links.new) at old new }
{
    let from = 2 * old as usize;
    let to = 2 * new as usize;
    links[at] = new;
    links[to] = links[from];
    links[to + 1] = links[from + 1];
    links[from] = 0;
    links[from + 1] = 0;
}

/// How many bits the longest prefix of a key has, and one more; 0 for none.
pub fn most_of(links: &[u32], keys: &Block, key: &[u8]) -> usize
    requires whole { (count : ℕ) × IsTrie count links.now keys.now 0 }
    requires key { (node : ℕ) → 0 < node → node ≤ length keys.now → length (key_of keys.now node) ≡ length key.now }
    requires bits { prefix_length key.now + 32 ≤ 8 * length key.now }
    ensures { (count : ℕ) → IsTrie count links.now keys.now 0 → IsMost count keys.now key.now result }
{
    let bits = length_of(key);
    let mut best = 0;
    let mut at = links.len() - 1;
    let mut depth = 0;
    'down: loop {
        let node = links[at] as usize;
        if node == 0 {
            return best;
        }
        best = better(best, key, keys.row(node - 1));
        if depth == bits {
            return best;
        }
        at = 2 * node + bit_of(key, depth);
        depth += 1;
    }
}
