//! What the words of the stack hold beside bytes.

ghost use Rattle.std.specs.Prelude.{◌≡◌, ◌≤◌, is_none, length, slice_range};
ghost use Rattle.std.specs.List.{list_all};

use crate::holder::Holder;
use crate::key::Key;
use crate::kind::Kind;
use std::marker::Model;

/// For each of 64 words a value, or none. The keys of pointers to maps' values stand apart from them, and so do bits that
/// tell which words hold values.
#[derive(Drop)]
pub(crate) struct Spilled {
    kinds: [Option<Kind>; 64],
    keys: [Key; 64],
    mask: u64,
}

impl Model for Spilled {
    ghost use Rattle.std.specs.Prelude.{◌≡◌, List, Option, length};
    ghost use Rattle.program_machine.specs.Held.{Held};
    ghost use Rattle.program_machine.specs.Places.{IsMask, kept_by, paired};

    ghost Value = { List (Option Held) };

    ghost view = { λ s. paired kept_by s.kinds s.keys };

    ghost invariant = { λ s. (length s.kinds ≡ 64) × (length s.keys ≡ 64) × IsMask s.mask s.kinds };
}

// Whether no word from the first to the last, which is not among them, holds anything.
fn are_none(words: &[Option<Kind>], first: usize, end: usize) -> bool
    requires first { first ≤ end }
    requires end { end ≤ length words.now }
    ensures { result ≡ list_all is_none (slice_range words.now first end) }
{
    words[first..end].iter().all(|word| word.is_none())
}

impl Spilled {
    ghost use Rattle.std.specs.Prelude.{◌≡◌, ◌<◌, ◌≤◌, ◌&&◌, is_none, None, Some, replicate, slice_set, slice_range};
    ghost use Rattle.std.specs.List.{list_all};
    ghost use Rattle.program_machine.specs.Places as places;

    /// Nothing in any word.
    #[inline(always)]
    #[tactic(auto, using(crate::proofs::Pairs::paired_replicate))]
    pub(crate) fn new() -> Spilled
        ensures { result ≡ replicate 64 None }
    {
        Spilled {
            kinds: [None; 64],
            keys: [Key::new(); 64],
            mask: 0,
        }
    }

    /// Whether the word holds none.
    #[inline(always)]
    #[tactic(auto, using(crate::proofs::Pairs::paired_get))]
    pub(crate) fn is_plain(&self, word: usize) -> bool
        requires { word < 64 }
        ensures { result ≡ is_none (places.kept_in self.now word) }
    {
        (self.mask >> word) & 1 == 0
    }

    /// Whether neither word holds any.
    #[inline(always)]
    pub(crate) fn are_both_plain(&self, first: usize, last: usize) -> bool
        requires first { first < 64 }
        requires last { last < 64 }
        ensures { result ≡ is_none (places.kept_in self.now first) && is_none (places.kept_in self.now last) }
    {
        self.mask == 0 || (self.is_plain(first) && self.is_plain(last))
    }

    /// What the word holds.
    #[tactic(auto, using(crate::proofs::Pairs::paired_get))]
    pub(crate) fn get(&self, word: usize) -> Option<Holder>
        requires { word < 64 }
        ensures { result ≡ places.kept_in self.now word }
    {
        match self.kinds[word] {
            Some(kind) => Some(Holder {
                kind,
                key: self.keys[word],
            }),
            None => None,
        }
    }

    /// Leaves nothing there.
    #[inline(always)]
    #[tactic(auto, using(crate::proofs::Pairs::paired_set_left))]
    pub(crate) fn clear(&mut self, word: usize)
        requires { word < 64 }
        ensures { self.new ≡ slice_set self.old word None }
    {
        self.kinds[word] = None;
        self.mask &= !(1 << word);
    }

    /// Leaves nothing in any word.
    #[tactic(auto, using(crate::proofs::Pairs::paired_nothing))]
    pub(crate) fn clear_all(&mut self)
        ensures { self.new ≡ replicate 64 None }
    {
        if self.mask == 0 {
            return;
        }
        self.kinds = [None; 64];
        self.mask = 0;
    }

    /// Keeps the value there.
    #[tactic(auto, using(crate::proofs::Pairs::paired_set))]
    pub(crate) fn put(&mut self, word: usize, value: &Holder)
        requires { word < 64 }
        ensures { self.new ≡ slice_set self.old word (Some value.now) }
    {
        self.kinds[word] = Some(value.kind);
        self.keys[word] = value.key;
        self.mask |= 1 << word;
    }

    /// Whether no word from the first to the last, which is not among them, holds anything.
    pub(crate) fn are_plain(&self, first: usize, end: usize) -> bool
        requires first { first ≤ end }
        requires end { end ≤ 64 }
        ensures { result ≡ list_all is_none (slice_range self.now first end) }
    {
        are_none(&self.kinds, first, end)
    }
}
