//! The laws of kept events, each the contract of a function that does nothing.

ghost use Rattle.std.specs.Prelude.{Bool, List};
ghost use Rattle.journal_model.specs.Book.{PlainBook};
ghost use Rattle.journal_model.specs.Run.{PlainEvent, Given};
ghost use Rattle.kept_event.specs.declared.event.KeptEvent.{KeptEvent};
ghost use Rattle.kept_book.specs.Laws.{NotedLeads, NotesLead, ChangesLead, LeadsAsRun, RestartKeepsItsWord};

/// What is noted of an event of a well book, done again, leads from the book before it to the book after it: the changes that
/// the event recorded, those of a program's access too, or the move of the journal that it was. Of what was refused and of a
/// question nothing is noted, and the book stays.
pub fn what_is_noted_leads()
    ensures { (b : PlainBook) (refused : Bool) (event : PlainEvent) → NotedLeads b refused event }
{}

/// What is noted of events one after the other leads from a well book to the book after all of them.
pub fn what_is_noted_of_a_run_leads()
    ensures { (b : PlainBook) (events : List Given) → NotesLead b events }
{}

/// What is noted after events without a move of the journal, such as a frame with its accesses, leads
/// from a well book to the book after all of them, if as many changes are noted as serials were given. There are fewer if one
/// of these changes has joined the base already, as later ones came.
pub fn what_is_noted_at_once_leads()
    ensures { (b : PlainBook) (events : List Given) → ChangesLead b events }
{}

/// The book that kept events lead to is the one that they give as a list of events.
pub fn kept_events_are_a_run()
    ensures { (start : PlainBook) (events : List KeptEvent) (b : PlainBook) → LeadsAsRun start events b }
{}

/// A book that kept events led to keeps its word over them and over all that is done to it since: so an undo to a mark that
/// was made before the book was closed gives what was there, less what was given up since.
pub fn a_restart_keeps_its_word()
    ensures { (start : PlainBook) (events : List KeptEvent) (b : PlainBook) (since : List Given) → RestartKeepsItsWord start events b since }
{}
