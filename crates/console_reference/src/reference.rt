//! References resolved: which live map a command speaks of.

ghost use Rattle.std.specs.Prelude.{◌≡◌, ℕ, List, None};
ghost use Rattle.host_state.specs.declared.ask.Ask.TheVariants.{Maps, Pinned};
ghost use Rattle.bt_mapkind.specs.Seen.{NeverWantsMemory};
ghost use Rattle.bt_journal.specs.Named.{of_ids};
ghost use Rattle.journal_model.specs.Book.{asked};
ghost use Rattle.console_reference.specs.References.{live_map, pinned_map, only_one, named_map, map_at, map_named, IsByIdOrPath, template_of, template_named, ToldUnlessRefused};

use bt_journal::{Book, OfName};
use bt_mapkind::{Errno, MapKind, MapType};
use bt_roots::Target;
use bt_syntax::Reference;
use console_answer::Fault;
use host_state::{Ask, AskReply};
use host_words::Word;

/// A live map that was found.
#[derive(Clone, Copy, PartialEq, Eq, Debug)]
pub struct FoundMap {
    pub id: u32,
    pub kind: MapType,
}

// The live map of an id; ENOENT if there is none.
fn live_map<K: MapKind>(book: &Book<K>, id: u32) -> Result<FoundMap, Fault>
    ensures { result ≡ live_map book.now.plain id }
{
    match book.attr(id) {
        Some(attr) => Ok(FoundMap {
            id,
            kind: attr.kind,
        }),
        None => Err(Fault::Errno(Errno::ENOENT)),
    }
}

// The id of the map that is pinned; a program is no map.
fn pinned_map(told: &AskReply) -> Result<u32, Fault>
    ensures { result ≡ pinned_map told.now }
{
    match told {
        AskReply::Pinned(Target::Map(id)) => Ok(*id),
        AskReply::Pinned(Target::Prog(_)) => Err(Fault::Errno(Errno::ENOENT)),
        AskReply::Refused(errno) => Err(Fault::Errno(*errno)),
        _ => Err(Fault::Errno(Errno::EINVAL)),
    }
}

/// The id of the only object of a name; ENOENT if there is none, and Ambiguous if there are several.
pub(crate) fn only(found: OfName) -> Result<u32, Fault>
    ensures { (ids : List ℕ) → found ≡ of_ids ids → result ≡ only_one ids }
{
    match found {
        OfName::Nothing => Err(Fault::Errno(Errno::ENOENT)),
        OfName::One(id) => Ok(id),
        OfName::Several => Err(Fault::Ambiguous),
    }
}

// The live map of an id that was found.
fn map_at<K: MapKind>(book: &Book<K>, id: Result<u32, Fault>) -> Result<FoundMap, Fault>
    ensures { result ≡ map_at book.now.plain id }
{
    match id {
        Ok(id) => live_map(book, id),
        Err(fault) => Err(fault),
    }
}

// The map that is pinned at a path; ENOENT if there is none.
fn map_under<K: MapKind>(book: &mut Book<K>, path: Word) -> Result<FoundMap, Fault>
    ensures same { book.new.plain ≡ book.old.plain }
    ensures found { ToldUnlessRefused (map_at book.old.plain (pinned_map (asked book.old.plain (Pinned path)))) result }
    ensures sure { NeverWantsMemory K.seen → result ≡ map_at book.old.plain (pinned_map (asked book.old.plain (Pinned path))) }
{
    match book.ask(&Ask::Pinned { path }) {
        Ok(told) => map_at(book, pinned_map(&told)),
        Err(_) => Err(Fault::NoMemory),
    }
}

// The live map of a name; ENOENT if there is none, and Ambiguous if there are several.
fn map_of_name<K: MapKind>(book: &Book<K>, name: &Word) -> Result<FoundMap, Fault>
    ensures { result ≡ map_at book.now.plain (named_map name.now (asked book.now.plain (Maps None))) }
{
    map_at(book, only(book.map_of_name(name.as_slice())))
}

/// The live map that a reference names; ENOENT if there is none, or a program is pinned at its path, and Ambiguous if
/// several have its name. By id or by path it takes no memory if the room of each box was reserved.
pub fn find_map<K: MapKind>(book: &mut Book<K>, map: Reference) -> Result<FoundMap, Fault>
    ensures same { book.new.plain ≡ book.old.plain }
    ensures found { ToldUnlessRefused (map_named book.old.plain map) result }
    ensures sure { NeverWantsMemory K.seen → IsByIdOrPath map → result ≡ map_named book.old.plain map }
{
    match map {
        Reference::Id(id) => live_map(book, id),
        Reference::Pinned(path) => map_under(book, path),
        Reference::Named(name) => map_of_name(book, &name),
    }
}

// The id of a template that was found.
fn template_of(found: Result<FoundMap, Fault>) -> Result<Option<u32>, Fault>
    ensures { result ≡ template_of found }
{
    match found {
        Ok(map) => Ok(Some(map.id)),
        Err(fault) => Err(fault),
    }
}

/// The id of the map whose attributes the inner maps of a new outer map are to have, if one is named.
pub fn find_template<K: MapKind>(
    book: &mut Book<K>,
    inner_map: Option<Reference>,
) -> Result<Option<u32>, Fault>
    ensures same { book.new.plain ≡ book.old.plain }
    ensures found { ToldUnlessRefused (template_named book.old.plain inner_map) result }
{
    match inner_map {
        Some(map) => template_of(find_map(book, map)),
        None => Ok(None),
    }
}
