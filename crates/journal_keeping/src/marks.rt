//! Marks: names of moments.

ghost use Rattle.std.specs.Prelude.{◌≡◌, ◌≤◌, ◌<◌, ◌+◌, ◌^◌, ◌++◌, ◌∷◌, [], None, IfOk, OnOk, OnErr, ◌-◌, ◌||◌, map, nat_le, nat_lt};
ghost use Rattle.journal_model.specs.Listed.{mark_row};
ghost use Rattle.journal_model.specs.Marks.{Mark, moments_at, marks_from, names_below, is_among_names, without_name, marks_up_to};
ghost use Rattle.journal_model.specs.Well.{Each};

use host_words::{NoMemory, Word};
use indexmap::IndexMap;
use journal_model::MarkRow;
use std::alloc::Global;
use std::marker::Model;

/// The marks of a book by their names, in the order in which they were made. Each has the number of all moments that were
/// made before it, those that have joined the base among them: so if the base moves on, no mark is touched. A mark of a
/// smaller number than these is forgotten; its entry stays until one of its name is made.
#[derive(Drop)]
pub struct Marks {
    by_name: IndexMap<Word, u64>,
    // How many moments have joined the base.
    gone: u64,
}

impl Model for Marks {
    ghost use Rattle.std.specs.Prelude.{ℕ, List, ◌≤◌, nat_eq};
    ghost use Rattle.std.specs.Cmp.Lexicographic.{pointwise};
    ghost use Rattle.indexmap.specs.IndexMap.{IsUnique};
    ghost use Rattle.journal_model.specs.Well.{EachPair};
    ghost use Rattle.journal_keeping.specs.MarksView.{MarksView, marks_code, seen_marks};

    ghost Value = { MarksView };

    ghost coded = { marks_code };

    ghost view = { λ m. seen_marks m.gone m.by_name.entries };

    ghost invariant = { λ m.
        IsUnique (pointwise nat_eq) m.by_name
        × EachPair (λ (earlier later : List ℕ × ℕ). earlier.1 ≤ later.1) m.by_name.entries };
}

impl Marks {
    /// No marks. It takes no memory.
    pub fn new(alloc: Global) -> Marks
        ensures { result ≡ record { gone = 0; standing = []; forgotten = [] } }
    {
        Marks {
            by_name: IndexMap::new(alloc),
            gone: 0,
        }
    }

    /// The number of moments of the mark of this name, if it stands. It takes no memory.
    pub fn find(&self, name: &Word) -> Option<u64>
        ensures { result ≡ moments_at name.now self.now.standing }
    {
        match self.by_name.get(name).copied() {
            Some(number) if number >= self.gone => Some(number - self.gone),
            _ => None,
        }
    }

    /// Whether the mark of this name is forgotten. It takes no memory.
    pub fn is_forgotten(&self, name: &Word) -> bool
        ensures { result ≡ is_among_names name.now self.now.forgotten }
    {
        match self.by_name.get(name).copied() {
            Some(number) => number < self.gone,
            None => false,
        }
    }

    /// Adds a mark of a name under which none stands, which is forgotten no more. Takes memory; if it is refused, the
    /// marks are as they were.
    pub fn insert(&mut self, name: Word, moments: u64) -> Result<(), NoMemory>
        requires none { moments_at name self.old.standing ≡ None }
        requires fits { self.old.gone + moments < 2 ^ 64 }
        requires last { Each (λ (m : Mark). m.moments ≤ moments) self.old.standing }
        ensures gone { self.new.gone ≡ self.old.gone }
        ensures standing { OnOk result (self.new.standing ≡ self.old.standing ++ record { name = name; moments = moments } ∷ []) }
        ensures forgotten { OnOk result (self.new.forgotten ≡ without_name name self.old.forgotten) }
        ensures refused { OnErr result (self.new ≡ self.old) }
    {
        self.by_name.reserve(1)?;
        let _ = self.by_name.shift_remove(&name);
        match self.by_name.insert(name, self.gone + moments) {
            Ok(_) => Ok(()),
            Err(_) => unreachable!(),
        }
    }

    /// Drops the marks of a greater number. It takes no memory.
    pub fn keep_up_to(&mut self, count: u64)
        ensures gone { self.new.gone ≡ self.old.gone }
        ensures standing { self.new.standing ≡ marks_up_to count self.old.standing }
        ensures forgotten { self.new.forgotten ≡ self.old.forgotten }
    {
        let gone = self.gone;
        self.by_name.retain(
            |_name: &Word, number: &mut u64| -> bool
                ensures { (result ≡ nat_le (number.old - gone) count) × (number.new ≡ number.old) }
            { number.saturating_sub(gone) <= count },
        );
    }

    /// So many more moments have joined the base: drops the marks of a smaller number, and counts the others from there on.
    /// It takes no memory.
    pub fn count_from(&mut self, count: u64)
        requires { self.old.gone + count < 2 ^ 64 }
        ensures gone { self.new.gone ≡ self.old.gone + count }
        ensures standing { self.new.standing ≡ marks_from count self.old.standing }
        ensures forgotten { self.new.forgotten ≡ self.old.forgotten }
    {
        let gone = self.gone;
        let next = gone + count;
        self.by_name.retain(
            |_name: &Word, number: &mut u64| -> bool
                ensures { (result ≡ (nat_lt number.old gone || nat_le next number.old)) × (number.new ≡ number.old) }
            { *number < gone || *number >= next },
        );
        self.gone = next;
    }

    /// The oldest moment has joined the base: the marks before it are forgotten. It takes no memory, and looks
    /// at no mark.
    pub fn fold(&mut self)
        requires { self.old.gone + 1 < 2 ^ 64 }
        ensures gone { self.new.gone ≡ self.old.gone + 1 }
        ensures standing { self.new.standing ≡ marks_from 1 self.old.standing }
        ensures forgotten { self.new.forgotten ≡ self.old.forgotten ++ names_below 1 self.old.standing }
    {
        self.gone += 1;
    }

    /// What a list shows of those that stand, in order. Takes memory.
    pub fn rows(&self) -> Result<Vec<MarkRow>, NoMemory>
        ensures { IfOk result (λ rows. rows.items ≡ map mark_row self.now.standing) }
    {
        let mut rows = Vec::with_capacity(*self.by_name.allocator(), self.by_name.len())?;
        for (name, number) in self.by_name.iter() {
            if *number >= self.gone {
                rows.push(MarkRow {
                    name: name.copy()?,
                    moments: *number - self.gone,
                })?;
            }
        }
        Ok(rows)
    }
}
