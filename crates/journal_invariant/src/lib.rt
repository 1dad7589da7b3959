//! What every event keeps of a book, each law the contract of a function that does nothing: it is well, it stays within its
//! limits, each box is charged once, and serials and ids rise.
#![tactic(auto)]

ghost use Rattle.std.specs.Prelude.{ℕ, List};
ghost use Rattle.journal_model.specs.Book.{PlainBook};
ghost use Rattle.journal_model.specs.Run.{Given};
ghost use Rattle.journal_model.specs.declared.limits.Limits.{Limits};
ghost use Rattle.journal_invariant.specs.Laws.{BeginsWell, StaysWell, BeginsWithinLimits, StaysWithinLimits, ChargesOnce, SerialsRise, IdsRise, ProgIdsRise, EventsRise};

/// A new book is well: see [`every_event_keeps_a_book_well`].
pub fn a_new_book_is_well()
    ensures { (devices : List (List ℕ)) (limits : Limits) (b : PlainBook) → BeginsWell devices limits b }
{}

/// Every event keeps a book well: each moment's state, undone or in force, is what its changes in force make of the
/// base, each answering as it did; those are the changes of the moment before it and one more, or all but one; serials
/// rise and none is above the last given; nor is an id of any state; an id stands for one box in all states that are kept;
/// no mark stands at more moments than are in force; and in the base just what is reachable is live.
pub fn every_event_keeps_a_book_well()
    ensures { (b : PlainBook) (events : List Given) → StaysWell b events }
{}

/// A new book is within its limits: see [`every_event_keeps_a_book_within_its_limits`].
pub fn a_new_book_is_within_its_limits()
    ensures { (devices : List (List ℕ)) (limits : Limits) (b : PlainBook) → BeginsWithinLimits devices limits b }
{}

/// A well book that is within its limits stays so through all events, and none changes the limits: it has at most `journal`
/// moments, those in force and the undone ones together; it has given no serial above `last_serial`, and no map id or program
/// id above `last_id`; and the boxes of all maps that it keeps charge at most `budget`. (What adds a moment is refused by the
/// number of those in force alone, since it gives up the undone ones.)
pub fn every_event_keeps_a_book_within_its_limits()
    ensures { (limits : Limits) (b : PlainBook) (events : List Given) → StaysWithinLimits limits b events }
{}

/// What a well book charges is the sum of the charges of the maps in the base, a moment or an undone one, each once.
pub fn each_map_is_charged_once()
    ensures { (b : PlainBook) → ChargesOnce b }
{}

/// Each serial that a run's answers tell is above the one before it, and the first above the last that the book had given:
/// undo and refusals give none back. An access is told none: see [`every_new_moment_has_a_new_serial`].
pub fn serials_never_come_back()
    ensures { (b : PlainBook) (events : List Given) → SerialsRise b events }
{}

/// Each map id that a run gives is above the one before it, and the first above the last that the book had given.
pub fn ids_never_come_back()
    ensures { (b : PlainBook) (events : List Given) → IdsRise b events }
{}

/// Each program id that a run gives is above the one before it, and the first above the last that the book had given.
pub fn program_ids_never_come_back()
    ensures { (b : PlainBook) (events : List Given) → ProgIdsRise b events }
{}

/// After any events, accesses of running programs among them, each moment, in force or undone, stood before them, with the
/// changes in force that it had less what was given up since; or its serial is above all that were given before them. In a
/// well book serials rise from each moment to the next, none above the last given.
pub fn every_new_moment_has_a_new_serial()
    ensures { (b : PlainBook) (events : List Given) → EventsRise b events }
{}
