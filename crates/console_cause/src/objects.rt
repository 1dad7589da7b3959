//! Objects that a refused line refers to, as the host has them. Each look may lack memory, and then says nothing.

ghost use Rattle.std.specs.Prelude.{◌≡◌};

use bt_journal::Book;
use bt_mapkind::{Errno, MapAttr, MapKind, MapReply, Query};
use bt_syntax::Reference;
use console_answer::Fault;
use console_reference::{find_map, find_prog};
use host_state::{Ask, AskReply};
use host_words::{NoMemory, Word};

// A reference that owns its words.
fn copy_of(reference: &Reference) -> Result<Reference, NoMemory> {
    match reference {
        Reference::Id(id) => Ok(Reference::Id(*id)),
        Reference::Pinned(path) => Ok(Reference::Pinned(path.copy()?)),
        Reference::Named(name) => Ok(Reference::Named(name.copy()?)),
    }
}

// What was found, if just one is referred to.
fn just_one<T: Drop>(found: Result<T, Fault>) -> Result<Option<T>, NoMemory> {
    match found {
        Ok(it) => Ok(Some(it)),
        Err(Fault::NoMemory) => Err(NoMemory),
        Err(_) => Ok(None),
    }
}

/// The id and the attributes of the live map that is referred to, if there is just one.
pub fn map_at<K: MapKind>(
    book: &mut Book<K>,
    map: &Reference,
) -> Result<Option<(u32, MapAttr)>, NoMemory>
    ensures { book.new.plain ≡ book.old.plain }
{
    let map = copy_of(map)?;
    match just_one(find_map(book, map))? {
        Some(found) => match book.attr(found.id) {
            Some(attr) => Ok(Some((found.id, attr))),
            None => Ok(None),
        },
        None => Ok(None),
    }
}

// What a map answers to a question, if it does.
fn told<K: MapKind>(book: &mut Book<K>, id: u32, query: Query) -> Result<Option<MapReply>, NoMemory>
    ensures { book.new.plain ≡ book.old.plain }
{
    match book.ask(&Ask::Map { id, query })? {
        AskReply::Answered(reply) => Ok(Some(reply)),
        AskReply::Refused(Errno::ENOMEM) => Err(NoMemory),
        _ => Ok(None),
    }
}

/// The attributes of the first map that stands in a map of maps, if one does: those of its template, but for the entries of
/// another map than an array.
pub fn inner_attr<K: MapKind>(book: &mut Book<K>, outer: u32) -> Result<Option<MapAttr>, NoMemory>
    ensures { book.new.plain ≡ book.old.plain }
{
    let Some(MapReply::Key(key)) = told(book, outer, Query::Item(0))? else {
        return Ok(None);
    };
    match told(book, outer, Query::Lookup(key))? {
        Some(MapReply::Link(id)) => Ok(book.attr(id)),
        _ => Ok(None),
    }
}

/// Whether just one live program is referred to.
pub fn has_prog<K: MapKind>(book: &mut Book<K>, prog: &Reference) -> Result<bool, NoMemory>
    ensures { book.new.plain ≡ book.old.plain }
{
    let prog = copy_of(prog)?;
    Ok(just_one(find_prog(book, prog))?.is_some())
}

/// Whether there is a device of this name.
pub fn has_device<K: MapKind>(book: &mut Book<K>, name: &Word) -> Result<bool, NoMemory>
    ensures { book.new.plain ≡ book.old.plain }
{
    let only = Some(name.copy()?);
    let reply = book.ask(&Ask::Devices { only })?;
    Ok(matches!(reply, AskReply::Devices(_)))
}
