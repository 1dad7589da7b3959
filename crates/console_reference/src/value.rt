//! What a command writes into a map: bytes, or the id of an object that a reference names.

ghost use Rattle.std.specs.Prelude.{◌≡◌};
ghost use Rattle.console_reference.specs.References.{id_of, object_named, item_of, item_named, ToldUnlessRefused};

use crate::prog_reference::find_prog;
use crate::reference::{FoundMap, find_map};
use bt_journal::Book;
use bt_mapkind::{Errno, MapKind, MapType};
use bt_syntax::{DataBytes, Reference, Value};
use console_answer::Fault;

/// What a command writes.
#[derive(Debug, Drop)]
pub enum Item {
    Bytes(DataBytes),
    /// The id of a map or of a program.
    Id(u32),
}

fn id_of(found: Result<FoundMap, Fault>) -> Result<u32, Fault>
    ensures { result ≡ id_of found }
{
    match found {
        Ok(map) => Ok(map.id),
        Err(fault) => Err(fault),
    }
}

// The id of the object that a value names, in a map of this type: a map for one of maps, a program for one of programs.
fn find_object<K: MapKind>(
    book: &mut Book<K>,
    kind: MapType,
    object: Reference,
) -> Result<u32, Fault>
    ensures same { book.new.plain ≡ book.old.plain }
    ensures found { ToldUnlessRefused (object_named book.old.plain kind object) result }
{
    match kind {
        MapType::ArrayOfMaps | MapType::HashOfMaps => id_of(find_map(book, object)),
        MapType::ProgArray => find_prog(book, object),
        MapType::Array | MapType::Hash | MapType::LpmTrie | MapType::Queue | MapType::Stack => Err(
            Fault::Errno(Errno::EINVAL),
        ),
    }
}

fn item_of(id: Result<u32, Fault>) -> Result<Item, Fault>
    ensures { result ≡ item_of id }
{
    match id {
        Ok(id) => Ok(Item::Id(id)),
        Err(fault) => Err(fault),
    }
}

/// What a value comes to in a map of this type. A reference is EINVAL in a map that holds no ids, and ENOENT if it
/// names no live object.
pub fn find_item<K: MapKind>(book: &mut Book<K>, kind: MapType, value: Value) -> Result<Item, Fault>
    ensures same { book.new.plain ≡ book.old.plain }
    ensures found { ToldUnlessRefused (item_named book.old.plain kind value) result }
{
    match value {
        Value::Data(data) => Ok(Item::Bytes(data)),
        Value::Object(object) => item_of(find_object(book, kind, object)),
    }
}
