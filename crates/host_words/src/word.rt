//! A word: any bytes, seen as the list of them.
ghost use Rattle.std.specs.Prelude.{◌≡◌, ◌<◌, All, IfOk};

use crate::NoMemory;
use std::alloc::Global;
use std::cmp::Ordering;
use std::hash::{Hash, Hasher};
use std::marker::Model;

/// A name or a path as a script gives it: any number of any bytes, each below 256.
/// Words are ordered as their bytes are.
#[derive(Debug, Drop)]
pub struct Word {
    bytes: Vec<u8>,
}

impl Model for Word {
    ghost use Rattle.std.specs.Prelude.{List, ℕ, ◌<◌, All};

    ghost Value = { List ℕ };

    ghost view = { λ w. w.bytes.items };

    ghost invariant = { λ w. All (λ byte. byte < 256) w.bytes.items };
}

impl Word {
    /// A word of these bytes.
    pub fn new(alloc: Global, bytes: &[u8]) -> Result<Word, NoMemory>
        ensures { IfOk result (λ word. word ≡ bytes.now) }
    {
        let bytes = Vec::from_slice(alloc, bytes)?;
        Ok(Word { bytes })
    }

    /// A copy of this word. NoMemory if none is left for it.
    pub fn copy(&self) -> Result<Word, NoMemory>
        ensures { IfOk result (λ word. word ≡ self.now) }
    {
        Word::new(*self.bytes.allocator(), &self.bytes)
    }

    /// The bytes.
    pub fn as_slice(&self) -> &[u8]
        ensures value { result.now ≡ self.now }
        ensures bytes { All (λ byte. byte < 256) self.now }
    {
        self.bytes.as_slice()
    }
}

impl PartialEq for Word {
    ghost use Rattle.std.specs.Prelude.{nat_eq};
    ghost use Rattle.std.specs.Cmp.{partial_equiv_from_equiv};
    ghost use Rattle.std.specs.Cmp.Lexicographic.{pointwise, nat_list_eq_equiv};

    ghost eq = { pointwise nat_eq };

    ghost laws = { partial_equiv_from_equiv nat_list_eq_equiv };

    fn eq(&self, other: &Word) -> bool {
        self.bytes == other.bytes
    }
}

impl Eq for Word {
    ghost use Rattle.std.specs.Cmp.Lexicographic.{nat_list_eq_equiv};

    ghost laws = { nat_list_eq_equiv };
}

impl Ord for Word {
    ghost use Rattle.std.specs.Ordering.{nat_cmp};
    ghost use Rattle.std.specs.Prelude.{refl};
    ghost use Rattle.std.specs.Cmp.Lexicographic.{slice_cmp, nat_list_cmp_total, texts_ties};

    ghost cmp = { slice_cmp nat_cmp };

    ghost total = { nat_list_cmp_total };

    ghost matches_partial_cmp = { λ x y. refl };

    ghost matches_eq = { texts_ties };

    fn cmp(&self, other: &Word) -> Ordering {
        self.bytes.cmp(&other.bytes)
    }
}

impl PartialOrd for Word {
    ghost use Rattle.std.specs.Prelude.{Some};
    ghost use Rattle.std.specs.Ordering.{nat_cmp};
    ghost use Rattle.std.specs.Cmp.Lexicographic.{slice_cmp, texts_po};

    ghost partial_cmp = { λ x y. Some (slice_cmp nat_cmp x y) };

    ghost laws = { texts_po };

    fn partial_cmp(&self, other: &Word) -> Option<Ordering> {
        Some(self.cmp(other))
    }
}

impl Hash for Word {
    ghost use Rattle.std.specs.Hash as fed;
    ghost use Rattle.std.specs.Hash.{items_Alike, same_Alike};
    ghost use Rattle.std.specs.Cmp.{unsigned_Decides};

    ghost hash_input = { fed.slice fed.u8 };

    ghost respects_eq = { (items_Alike (same_Alike fed.u8 unsigned_Decides)).fed };

    fn hash<H: Hasher>(&self, state: &mut H) {
        self.bytes.hash(state);
    }
}
