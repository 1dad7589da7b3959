//! The laws of marks, undo, redo, taking out and forgetting, each the contract of a function that does nothing.
#![tactic(auto)]

ghost use Rattle.std.specs.Prelude.{ℕ, Bool, List, Option};
ghost use Rattle.host_state.specs.State.{State};
ghost use Rattle.host_state.specs.declared.change.Change.{Change};
ghost use Rattle.journal_model.specs.Blank.{Blank};
ghost use Rattle.journal_model.specs.Book.{PlainBook};
ghost use Rattle.journal_laws.specs.Laws.{ReturnsToMark, ReturnsToLastMark, TakesBack, RedoesUndo, RedoesUndoLast, RefusalsChangeNothing, ForgetsThePastAlone, AnswersAlike, MakesRoomAlone, StaysForgotten, ReturnsWhatLived, ReturnsWhatLivedAtLast};
ghost use Rattle.journal_laws.specs.Headline.{ReplaysAsBefore, TakesOneOutAfter, ReturnsWhatWasTakenOut, WellKeepsItsWord};
ghost use Rattle.journal_model.specs.Replay.{Entry};
ghost use Rattle.journal_model.specs.Run.{PlainEvent, Given};

/// After any events a mark is made, and it stands through all events after it: undoing to it then succeeds, and gives
/// the state, the changes in force and the moments of when it was made, less what was given up since. It holds of every
/// book.
pub fn undo_to_a_mark_gives_what_was_there()
    ensures { (b : PlainBook) (before : List Given) (refused : Bool) (name : List ℕ) (after : List Given) → ReturnsToMark b before refused name after }
{}

/// An undo to the last mark of its name that was asked for gives what was there then: if one of the name stands in the
/// end, it stood all along.
pub fn undo_to_the_last_mark_of_a_name_gives_what_was_there()
    ensures { (b : PlainBook) (before : List Given) (refused : Bool) (name : List ℕ) (after : List Given) → ReturnsToLastMark b before refused name after }
{}

/// An undo of the last moment directly after an accepted change gives the state, the changes in force and the moments
/// before it, without the oldest if that joined the base.
pub fn undo_takes_the_last_change_back()
    ensures { (b : PlainBook) (change : Change) (blank : Option Blank) → TakesBack b change blank }
{}

/// So many redos as an undo to a mark undid moments, directly after it, give back the state, the changes in force and
/// the moments that were there before it.
pub fn redo_brings_back_what_was_undone()
    ensures { (b : PlainBook) (name : List ℕ) (n : ℕ) → RedoesUndo b name n }
{}

/// A redo directly after an undo of the last moment gives it back.
pub fn redo_brings_back_the_last_moment()
    ensures { (b : PlainBook) → RedoesUndoLast b }
{}

/// A refused event leaves the book as it was.
pub fn a_refused_event_changes_nothing()
    ensures { (b : PlainBook) (refused : Bool) (event : PlainEvent) → RefusalsChangeNothing b refused event }
{}

/// Doing a list of changes again from a state gives a state just when each answers as it did, one after the other.
pub fn replay_is_each_answering_as_before()
    ensures { (s : State) (changes : List Entry) (t : State) → ReplaysAsBefore s changes t }
{}

/// After any events from a well book a change is taken out: the others are then in force as they stand, each under its
/// serial and with its reply, and the state is what they make of the base, each answering as it did. An undo of the last
/// moment gives the state, the changes in force and the moments before it, a redo then the taking out again, and an undo to
/// a mark what it would have given before it.
///
/// Or it is refused and changes nothing: no change in force has the serial, or the serials are spent, or the journal is
/// full, or it is told which change would be the first to answer otherwise: it is in force and later, all before it answer
/// as they did, and it does not.
pub fn one_change_is_taken_out_alone()
    ensures { (b : PlainBook) (events : List Given) (serial : ℕ) → TakesOneOutAfter b events serial }
{}

/// A change that was in force when a mark was made, and that no forgetting since has made part of the base, is in force
/// again after an undo to the mark, if it was taken out since or not.
pub fn undo_to_a_mark_brings_back_what_was_taken_out()
    ensures { (b : PlainBook) (before : List Given) (refused : Bool) (name : List ℕ) (after : List Given) (serial : ℕ) → ReturnsWhatWasTakenOut b before refused name after serial }
{}

/// Giving up the past before a mark of a well book gives up nothing else: what was live is live, each object as it was; pins
/// and devices are the same; the base has what was live at the mark; and the changes in force are those after the mark's.
///
/// Or it is refused and changes nothing: no mark of the name stands, or a moment after the mark, in force or undone, took
/// out a change from before it, and it is told which was the first that did.
pub fn forgetting_gives_up_the_past_alone()
    ensures { (b : PlainBook) (name : List ℕ) → ForgetsThePastAlone b name }
{}

/// Each question to a well book has the answer that it had before the past was given up.
pub fn a_book_answers_alike_without_its_past()
    ensures { (b : PlainBook) (name : List ℕ) → AnswersAlike b name }
{}

/// A full well book takes one more change if no moment in force took the oldest's change out: the oldest joins the
/// base then, and nothing else changes: what is live stays as it is, and each question has the answer that it had.
pub fn the_oldest_moment_joins_the_base_alone()
    ensures { (b : PlainBook) → MakesRoomAlone b }
{}

/// A mark that was forgotten, as the moment after it joined the base, is told to be, through all events until one
/// of its name is made.
pub fn a_forgotten_mark_stays_forgotten()
    ensures { (b : PlainBook) (name : List ℕ) (events : List Given) → StaysForgotten b name events }
{}

/// After any events from a well book a mark is made, and it stands through all events after it, forgettings among them:
/// after an undo to it just what was live then is live, each object as it was then, with the same pins and devices; each
/// question has the answer that it had then; and the changes in force are those of then, but for the first, which were made
/// part of the base.
pub fn undo_to_a_mark_gives_what_lived_there()
    ensures { (b : PlainBook) (before : List Given) (refused : Bool) (name : List ℕ) (after : List Given) → ReturnsWhatLived b before refused name after }
{}

/// What [`undo_to_a_mark_gives_what_lived_there`] says holds of the last mark of its name that was asked for, if one of the
/// name stands in the end.
pub fn undo_to_the_last_mark_of_a_name_gives_what_lived_there()
    ensures { (b : PlainBook) (before : List Given) (refused : Bool) (name : List ℕ) (after : List Given) → ReturnsWhatLivedAtLast b before refused name after }
{}

/// All of it at once, for every list of events from a well book, takings out and forgettings among them: undoing back to a
/// mark gives exactly what was there, less what was given up since, and what lived then lives again, each object as it was;
/// undoing one change alone gives what the others make without it, each answering as before, or tells the first that would
/// not; forgetting gives up the past alone, and no answer to a question with it; what is refused changes nothing; serials
/// rise; and the book is within the limits that it was within.
pub fn every_run_keeps_its_word()
    ensures { (b : PlainBook) (events : List Given) → WellKeepsItsWord b events }
{}
