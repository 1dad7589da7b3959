//! Changes taken out of a book in memory, one after the other.

ghost use Rattle.std.specs.Prelude.{◌≡◌, ◌++◌, ◌∷◌, [], ℕ, List, false, IfOk, IfErr, OnOk};
ghost use Rattle.kept_book.specs.Leading.{LeadTo};
ghost use Rattle.kept_lines.specs.Noting.{LeadsFurther};
ghost use Rattle.kept_host.specs.Taking.{AllTaken, IsWhy};

use crate::range::fault::Refusal;
use crate::range::held::Held;
use bt_journal::Book;
use bt_mapkind::MapKind;
use bt_without::without;
use console_answer::Fault;
use std::alloc::Global;

// Takes the change of a serial out, and holds back what it noted and answered.
fn take_one<K: MapKind>(book: &mut Book<K>, serial: u64, held: &mut Held) -> Result<(), Refusal>
    ensures taken { OnOk result ((text : List ℕ) × (held.new.text.items ≡ held.old.text.items ++ text) × AllTaken (serial ∷ []) book.old.plain book.new.plain text) }
    ensures leads { OnOk result (LeadsFurther book.old.plain held.old.events.items book.new.plain held.new.events.items) }
    ensures refused { IfErr result (λ refusal. IsWhy (serial ∷ []) book.old.plain refusal.fault) }
    ensures same { IfErr result (λ refusal. refusal.changed ≡ false → book.new.plain ≡ book.old.plain) }
{
    let own = match without(book, serial) {
        Ok(taken) => taken.serial,
        Err(fault) => {
            return Err(Refusal {
                fault: Fault::of_without(fault),
                changed: false,
            });
        }
    };
    match held.add(serial, own) {
        Ok(()) => Ok(()),
        Err(_) => Err(Refusal {
            fault: Fault::NoMemory,
            changed: true,
        }),
    }
}

/// Takes the changes of these serials out one after the other, up to the first one that is refused: what they noted and answered.
pub(crate) fn take_each<K: MapKind>(
    alloc: Global,
    book: &mut Book<K>,
    serials: &[u64],
) -> Result<Held, Refusal>
    ensures taken { IfOk result (λ held. AllTaken serials.now book.old.plain book.new.plain held.text.items) }
    ensures leads { IfOk result (λ held. LeadTo book.old.plain held.events.items book.new.plain) }
    ensures refused { IfErr result (λ refusal. IsWhy serials.now book.old.plain refusal.fault) }
    ensures same { IfErr result (λ refusal. refusal.changed ≡ false → book.new.plain ≡ book.old.plain) }
{
    let mut held = Held::new(alloc);
    let mut changed = false;
    let mut rest = serials;
    'serials: while let Some((serial, after)) = rest.split_first() {
        match take_one(book, *serial, &mut held) {
            Ok(()) => {}
            Err(refusal) => {
                return Err(Refusal {
                    fault: refusal.fault,
                    changed: changed || refusal.changed,
                });
            }
        }
        changed = true;
        rest = after;
    }
    Ok(held)
}
