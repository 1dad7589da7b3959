//! What is known of the maps of a book through any list of events: an id is given once, and a map keeps its attributes. Each
//! law is the contract of a function that does nothing.
#![tactic(auto)]

ghost use Rattle.std.specs.Prelude.{ℕ, List, Option};
ghost use Rattle.bt_mapkind.specs.declared.attr.MapAttr.{MapAttr};
ghost use Rattle.journal_model.specs.Book.{PlainBook};
ghost use Rattle.journal_model.specs.Run.{Given};
ghost use Rattle.journal_model.specs.declared.limits.Limits.{Limits};
ghost use Rattle.journal_known_maps.specs.Known.{RunsOnKnownMaps, BeginsKnowing};

/// For a list of events from a well book there are attributes by id that each map of each book on the way has, whatever is
/// undone, redone, taken out and forgotten on the way. If each program of the book, and each that the run loads, was
/// verified against these, so was each that a frame's start or a tail call is given, and a lookup is told of no other map.
pub fn a_map_keeps_its_attributes_through_every_run()
    ensures { (b : PlainBook) (events : List Given) → RunsOnKnownMaps b events }
{}

/// A new book has no program, so whatever maps there are, each of its programs was verified against them.
pub fn a_new_book_has_no_program_on_other_maps()
    ensures { (devices : List (List ℕ)) (limits : Limits) (b : PlainBook) (maps : ℕ → Option MapAttr) → BeginsKnowing devices limits b maps }
{}
