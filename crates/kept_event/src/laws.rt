//! Laws of rows, each the contract of a function that does nothing.

ghost use Rattle.std.specs.Prelude.{◌≡◌, Some};
ghost use Rattle.kept_event.specs.declared.event.KeptEvent.{KeptEvent as Event};
ghost use Rattle.kept_event.specs.declared.verb.Verb.{Verb as AnyVerb};
ghost use Rattle.bt_mapkind.specs.declared.attr.MapType.{MapType as AnyType};
ghost use Rattle.kept_event.specs.Bounded.{IsBounded};
ghost use Rattle.kept_event.specs.Row.{row_of};
ghost use Rattle.kept_event.specs.Words.{verb_word, verb_of, type_word, type_of};
ghost use Rattle.kept_event.specs.Reading.{read_with, code_of};

/// The row of an event, with the code that it is of, reads as that event again.
pub fn a_row_reads_back()
    ensures { (event : Event) → IsBounded event → read_with (code_of event) (row_of event) ≡ Some event }
{}

/// The word of each verb, and of each type of a map, spells it.
pub fn words_read_back()
    ensures verbs { (verb : AnyVerb) → verb_of (verb_word verb) ≡ Some verb }
    ensures types { (kind : AnyType) → type_of (type_word kind) ≡ Some kind }
{}
