//! Taking one change out of a book: by one exchange if each later change is apart from it, and else the later ones are
//! turned back, it drops out, and they are done again; and the events of a book one after another, takings out among them.
#![tactic(auto)]

ghost use Rattle.std.specs.Prelude.{◌≡◌, ◌≤◌, true, IfOk};
ghost use Rattle.bt_journal.specs.declared.taking.TakenOut.{TakenOut};
ghost use Rattle.journal_model.specs.Plain.{newest_force};
ghost use Rattle.bt_journal.specs.Alone.{is_alone};
ghost use Rattle.host_state.specs.Work.{CallsAtMost};
ghost use Rattle.bt_without.specs.Calls.{calls_without};
ghost use Rattle.bt_without.specs.TakesOut.{TakesOut, HasOutcome, serial_of};

pub mod events;

use bt_journal::AgainFault;
pub use bt_journal::{Book, StartFault, TakenOut, WithoutFault};
use bt_mapkind::MapKind;
use core::mem::replace_with;
pub use events::{Answer, Event, run, serial_of, step};

/// Takes the change of a serial out of those in force, if all others answer without it as they did: its serial and the units of
/// work that it took. A change of one key of an array, a hash or an LPM trie takes one at most if each later change is apart
/// from it: it touches no such key, nor the number of keys if the change was a delete. The taking out is a moment of its own,
/// which can be undone and done again; moments that were undone are given up. Takes memory.
///
/// # Errors
/// NotInForce if no change in force has the serial, else SerialsSpent, else JournalFull, else DependsOn with the first
/// change that would answer otherwise; NoMemory in place of any of these, or of a taking out, if an allocation failed.
/// The book is then as it was.
pub fn without<K: MapKind>(book: &mut Book<K>, serial: u64) -> Result<TakenOut, WithoutFault>
    ensures taken { TakesOut book.old serial (book.new, result) }
    ensures outcome { HasOutcome book.old.plain serial book.new.plain (serial_of result) }
    ensures alone { let line = book.old.plain.line in
        is_alone serial line.base (newest_force line.moments) ≡ true → IfOk result (λ (taken : TakenOut). taken.work ≤ 1) }
    ensures work { let line = book.old.plain.line in
        CallsAtMost (calls_without result serial line.base (newest_force line.moments)) book.old.work book.new.work }
{
    book.is_well();
    replace_with(
        book,
        serial,
        |book, serial| -> (Book<K>, Result<TakenOut, WithoutFault>)
            ensures taken { TakesOut book serial result }
            ensures alone { let line = book.plain.line in
                is_alone serial line.base (newest_force line.moments) ≡ true → IfOk result.1 (λ (taken : TakenOut). taken.work ≤ 1) }
            ensures work { let line = book.plain.line in
                CallsAtMost (calls_without result.1 serial line.base (newest_force line.moments)) book.work result.0.work }
        { taken_out(book, serial) },
    )
}

// The book with the change taken out, or as it was.
fn taken_out<K: MapKind>(book: Book<K>, serial: u64) -> (Book<K>, Result<TakenOut, WithoutFault>)
    ensures taken { TakesOut book serial result }
    ensures alone { let line = book.plain.line in
        is_alone serial line.base (newest_force line.moments) ≡ true → IfOk result.1 (λ (taken : TakenOut). taken.work ≤ 1) }
    ensures work { let line = book.plain.line in
        CallsAtMost (calls_without result.1 serial line.base (newest_force line.moments)) book.work result.0.work }
{
    let mut stage = match book.stage(serial) {
        Ok(stage) => stage,
        Err((book, fault)) => return (book, Err(fault)),
    };
    if stage.alone() {
        stage.exchange();
        let (book, taken) = stage.keep();
        return (book, Ok(taken));
    }
    'turning: while !stage.back() {}
    'redoing: while stage.left() > 0 {
        match stage.again() {
            Ok(()) => {}
            Err(AgainFault::Differs(first)) => {
                return (stage.restore(), Err(WithoutFault::DependsOn(first)));
            }
            Err(AgainFault::NoMemory) => return (stage.restore(), Err(WithoutFault::NoMemory)),
        }
    }
    let (book, taken) = stage.keep();
    (book, Ok(taken))
}
