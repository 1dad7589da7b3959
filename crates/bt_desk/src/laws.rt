//! What the histories of desks promise, each the contract of a function that does nothing.

ghost use Rattle.std.specs.Prelude.{ℕ, List};
ghost use Rattle.journal_model.specs.Book.{PlainBook};
ghost use Rattle.bt_desk.specs.Histories.{Call};
ghost use Rattle.bt_desk.specs.Promises.{ReturnsToMarkOfAny, TakesOneOutBehind, KeepsItsWordBehind, RunKeepsItsWord};
ghost use Rattle.bt_without.specs.declared.events.Answer.{Answer};
ghost use Rattle.bt_without.specs.declared.events.Event.{Event};

use bt_mapkind::MapKind;

/// Whichever seats' calls stand before, between and after: a call makes a mark, no later call makes one of its name, and
/// the mark stands in the book that the history leads to. Undoing to it then succeeds, and gives exactly the state, the
/// changes in force and the moments of when it was made, less what was given up since.
pub fn undo_to_a_mark_of_any_seat_gives_what_was_there()
    ensures { (opened : PlainBook) (before : List Call) (by : ℕ) (name : List ℕ) (after : List Call) (left : PlainBook) →
        ReturnsToMarkOfAny opened before by name after left }
{}

/// A change that any seat made is taken out of the book that a history leads to: the others are then in force as they
/// stand, each answering as it did, or it is told why not, and nothing has changed.
pub fn one_change_of_any_seat_is_taken_out_alone()
    ensures { (opened : PlainBook) (history : List Call) (left : PlainBook) (serial : ℕ) → TakesOneOutBehind opened history left serial }
{}

/// All that is promised of a journal holds of the calls of all seats, in the order of their history, from a well book on: of
/// marks, of one change taken out, of forgetting, refusals, serials and limits.
pub fn every_history_keeps_its_word()
    ensures { (opened : PlainBook) (history : List Call) (left : PlainBook) → KeepsItsWordBehind opened history left }
{}

/// And it holds of the events of one thread's run, as [`bt_without::run`] does them to a book.
pub fn every_run_keeps_its_word<K: MapKind>()
    ensures { (old : PlainBook) (events : List (Event K)) (answers : List Answer) (new : PlainBook) → RunKeepsItsWord K.seen old events answers new }
{}
