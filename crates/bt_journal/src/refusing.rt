//! What refuses a change before it is done. The tests, in their order: a serial is left (SerialsSpent); the journal has room,
//! or its oldest moment can join the base (JournalFull); an id is left for a new map or program (IdsSpent); a new map's
//! attributes and name are good (EINVAL); a box comes with a new map alone, fresh and of its attributes (WrongBlank); the
//! budget leaves its charge (BudgetFull). A change that passes them is done, and the host may still refuse it: `World::apply`
//! in bt_changes.

ghost use Rattle.std.specs.Prelude.{◌≡◌, ◌+◌, ◌-◌, ◌<◌, ◌≤◌, ◌&&◌, not, true, false, ℕ, List, Option, Some, None};
ghost use Rattle.bt_mapkind.specs.Seen.{IsFresh};
ghost use Rattle.host_state.specs.declared.change.Change.TheVariants.{Create};
ghost use Rattle.journal_model.specs.Blank.{Blank, IsBlankOf, is_same_attr};
ghost use Rattle.journal_model.specs.Book.{PlainBook, blank_refusal, charged, is_full, refusal_of};
ghost use Rattle.journal_model.specs.Window.{can_fold};
ghost use Rattle.bt_journal.specs.Recording.{AreBlanks, BoxSuits};

use crate::book::Book;
use bt_mapkind::{Errno, MapAttr, MapKind};
use host_state::{Change, Refusal};
use host_words::{Word, is_name};

impl<K: MapKind> Book<K> {
    // What refuses a change before it is done, if anything does.
    pub(crate) fn refusal_of(&self, change: &Change, blank: &Option<K>) -> Option<Refusal>
        ensures serials { result ≡ None → self.now.plain.last_serial < self.now.plain.limits.last_serial }
        ensures room { result ≡ None → is_full self.now.plain && not (can_fold self.now.plain.line) ≡ false }
        ensures box_suits { result ≡ None → BoxSuits K.seen self.now.plain change.now blank.now }
        ensures refusal { (plain : Option Blank) → AreBlanks K.seen blank.now plain → result ≡ refusal_of self.now.plain change.now plain }
    {
        if self.last_serial >= self.limits.last_serial {
            return Some(Refusal::SerialsSpent);
        }
        if self.is_closed() {
            return Some(Refusal::JournalFull);
        }
        match change {
            Change::Create {
                id: _,
                attr,
                charge: _,
                name,
                path: _,
                template: _,
            } => {
                if self.last_ids.map_id >= self.limits.last_id {
                    return Some(Refusal::IdsSpent);
                }
                if !(attr.good() && is_name(name.as_slice())) {
                    return Some(Refusal::Errno(Errno::EINVAL));
                }
                match blank {
                    Some(kind) => blank_refusal(
                        kind,
                        attr,
                        self.line.charged(),
                        self.limits.budget,
                    ),
                    None => Some(Refusal::WrongBlank),
                }
            }
            Change::Load { .. } => {
                if self.last_ids.prog_id >= self.limits.last_id {
                    return Some(Refusal::IdsSpent);
                }
                match blank {
                    Some(_) => Some(Refusal::WrongBlank),
                    None => None,
                }
            }
            Change::Operate { .. }
            | Change::Freeze { .. }
            | Change::Link { .. }
            | Change::Pin { .. }
            | Change::Unpin { .. }
            | Change::Attach { .. }
            | Change::Detach { .. } => match blank {
                Some(_) => Some(Refusal::WrongBlank),
                None => None,
            },
        }
    }

    // Whether as many moments are in force as may be, and the oldest cannot join the base. It looks at no other moment.
    pub(crate) fn is_closed(&self) -> bool
        ensures { result ≡ is_full self.now.plain && not (can_fold self.now.plain.line) }
    {
        self.line.moment_count() >= self.limits.journal && self.line.first_in_force().is_none()
    }

    /// What refuses a map of these attributes and this name for its charge, so that its box need not be made: what
    /// `record` would answer if it came with a fresh box of this charge, which the budget does not leave. That is
    /// SerialsSpent, JournalFull, IdsSpent, EINVAL for attributes or a name that are not good, else BudgetFull. It takes no
    /// memory.
    pub fn refusal_of_large(&self, attr: &MapAttr, name: &Word, charge: u64) -> Refusal
        requires { self.now.plain.limits.budget - charged self.now.plain < charge }
        ensures { (id old : ℕ) (path : List ℕ) (template : Option ℕ) →
            Some result ≡ refusal_of self.now.plain (Create id attr.now old name.now path template) (Some (record { make = record { attr = attr.now; charge = charge }; fresh = true })) }
    {
        if self.last_serial >= self.limits.last_serial {
            return Refusal::SerialsSpent;
        }
        if self.is_closed() {
            return Refusal::JournalFull;
        }
        if self.last_ids.map_id >= self.limits.last_id {
            return Refusal::IdsSpent;
        }
        if !(attr.good() && is_name(name.as_slice())) {
            return Refusal::Errno(Errno::EINVAL);
        }
        Refusal::BudgetFull
    }
}

/// What refuses a box for a map of these attributes: it does not suit, or it goes past the budget.
pub fn blank_refusal<K: MapKind>(
    kind: &K,
    attr: &MapAttr,
    in_use: u64,
    budget: u64,
) -> Option<Refusal>
    ensures suits { result ≡ None → IsFresh (K.seen kind.now) × ((K.seen kind.now).attr ≡ attr.now) × (in_use + (K.seen kind.now).charge ≤ budget) }
    ensures refusal { (b : PlainBook) (blank : Blank) → IsBlankOf (K.seen kind.now) blank → charged b ≡ in_use → b.limits.budget ≡ budget →
        result ≡ blank_refusal b attr.now (Some blank) }
{
    if !(kind.is_fresh() && same_attr(&kind.attr(), attr)) {
        return Some(Refusal::WrongBlank);
    }
    match in_use.checked_add(kind.charge()) {
        Some(sum) if sum <= budget => None,
        _ => Some(Refusal::BudgetFull),
    }
}

// Whether two attributes are the same.
fn same_attr(a: &MapAttr, b: &MapAttr) -> bool
    ensures same { result ≡ true → a.now ≡ b.now }
    ensures answer { result ≡ is_same_attr a.now b.now }
{
    a.kind == b.kind
        && a.key_size == b.key_size
        && a.value_size == b.value_size
        && a.max_entries == b.max_entries
        && a.flags == b.flags
}
