//! What is wrong with a command on maps. What asks the host may lack memory for it, and then says nothing.

ghost use Rattle.std.specs.Prelude.{◌≡◌};

use crate::objects::{has_prog, inner_attr, map_at};
use bt_journal::Book;
use bt_mapkind::{Errno, MapAttr, MapKind, MapType};
use bt_syntax::{MapCommand, Reference, UpdateFlag, Value};
use console_hint::{
    Absent, Hint, Operation, attr_fault, difference_of, flag_fault, misfit_of, name_fault, no_room,
    operation_of, path_fault,
};
use host_words::{NoMemory, Word};

fn holds_maps(kind: MapType) -> bool {
    matches!(kind, MapType::ArrayOfMaps | MapType::HashOfMaps)
}

fn holds_ids(kind: MapType) -> bool {
    holds_maps(kind) || matches!(kind, MapType::ProgArray)
}

// What is wrong with the template of a new map.
fn template_hint<'a>(kind: MapType, inner_map: &Option<Reference>) -> Hint<'a> {
    match inner_map {
        None => Hint::Plain("a map of maps needs `inner_map`, a map like those that it is to hold"),
        Some(_) if holds_maps(kind) => Hint::Plain("an inner map is no map of ids"),
        Some(_) => Hint::Plain("no other map than one of maps takes `inner_map`"),
    }
}

// What is wrong with the arguments of a new map.
fn arguments_hint<'a>(
    attr: MapAttr,
    name: &Word,
    path: &Word,
    inner_map: &Option<Reference>,
) -> Hint<'a> {
    if let Some(fault) = attr_fault(attr) {
        return Hint::Attr(fault);
    }
    if let Some(fault) = name_fault(name.as_slice()) {
        return Hint::Name(fault);
    }
    if inner_map.is_some() == holds_maps(attr.kind) {
        if let Some(fault) = path_fault(path.as_slice()) {
            return Hint::Path(fault);
        }
    }
    template_hint(attr.kind, inner_map)
}

/// What is wrong with a pin at a path.
pub fn pin_hint(path: &Word, errno: Errno) -> Option<Hint<'_>> {
    match errno {
        Errno::EINVAL => Some(Hint::Path(path_fault(path.as_slice())?)),
        Errno::EEXIST => Some(Hint::Taken(path.as_slice())),
        _ => None,
    }
}

// The object that a command puts into a map.
fn object_of(command: &MapCommand) -> Option<&Reference> {
    match command {
        MapCommand::Update {
            value: Value::Object(object),
            ..
        } => Some(object),
        _ => None,
    }
}

// What a command asks of the key of an update.
fn flag_of(command: &MapCommand) -> UpdateFlag {
    match command {
        MapCommand::Update { flag, .. } => *flag,
        _ => UpdateFlag::Any,
    }
}

// What of an operation on this map of this type is not there.
fn absent<'a, K: MapKind>(
    book: &mut Book<K>,
    command: &'a MapCommand,
    map: u32,
    kind: MapType,
) -> Result<Absent<'a>, NoMemory>
    ensures { book.new.plain ≡ book.old.plain }
{
    if matches!(kind, MapType::Queue | MapType::Stack) {
        return Ok(Absent::Item { map });
    }
    let Some(object) = object_of(command) else {
        return Ok(Absent::Entry { map });
    };
    if holds_maps(kind) && map_at(book, object)?.is_none() {
        return Ok(Absent::Map(object));
    }
    if matches!(kind, MapType::ProgArray) && !has_prog(book, object)? {
        return Ok(Absent::Prog(object));
    }
    Ok(Absent::Entry { map })
}

// What does not suit a map of these attributes, by the words of the command.
fn misfit_hint<'a>(command: &MapCommand, map: u32, attr: MapAttr) -> Option<Hint<'a>> {
    let (_, operation) = operation_of(command)?;
    let kind = attr.kind;
    match (
        misfit_of(attr, &operation),
        flag_fault(kind, flag_of(command)),
    ) {
        (Some(misfit), _) => Some(Hint::Misfit { map, kind, misfit }),
        (None, Some(fault)) => Some(Hint::Flag { map, kind, fault }),
        (None, None) => None,
    }
}

// In what a map that is put into this outer one is unlike those in it, if it holds some.
fn unlike_hint<'a, K: MapKind>(
    book: &mut Book<K>,
    command: &MapCommand,
    outer: u32,
) -> Result<Option<Hint<'a>>, NoMemory>
    ensures { book.new.plain ≡ book.old.plain }
{
    let Some(object) = object_of(command) else {
        return Ok(None);
    };
    let Some((_, attr)) = map_at(book, object)? else {
        return Ok(None);
    };
    if holds_ids(attr.kind) {
        return Ok(Some(Hint::Plain("an inner map is no map of ids")));
    }
    let difference = match inner_attr(book, outer)? {
        Some(inner) => difference_of(inner, attr),
        None => None,
    };
    match difference {
        Some(difference) => Ok(Some(Hint::Unlike { outer, difference })),
        None => Ok(Some(Hint::Plain(
            "the map is not like the `inner_map` of the outer one, in type, sizes, flags or an array's entries",
        ))),
    }
}

// What does not suit a map of these attributes.
fn argument_hint<'a, K: MapKind>(
    book: &mut Book<K>,
    command: &MapCommand,
    map: u32,
    attr: MapAttr,
) -> Result<Option<Hint<'a>>, NoMemory>
    ensures { book.new.plain ≡ book.old.plain }
{
    match misfit_hint(command, map, attr) {
        None if holds_maps(attr.kind) => unlike_hint(book, command, map),
        hint => Ok(hint),
    }
}

// What is wrong with an operation on the map of this id and these attributes.
fn found_hint<'a, K: MapKind>(
    book: &mut Book<K>,
    command: &'a MapCommand,
    operation: &Operation,
    map: u32,
    attr: MapAttr,
    errno: Errno,
) -> Result<Option<Hint<'a>>, NoMemory>
    ensures { book.new.plain ≡ book.old.plain }
{
    match errno {
        Errno::EINVAL => argument_hint(book, command, map, attr),
        Errno::EPERM => Ok(Some(Hint::Frozen { map })),
        Errno::EEXIST => Ok(Some(Hint::Present { map })),
        Errno::E2BIG | Errno::ENOSPC => Ok(Some(Hint::NoRoom {
            map,
            entries: attr.max_entries,
            why: no_room(attr.kind, operation),
        })),
        Errno::ENOENT => Ok(Some(Hint::Absent(absent(book, command, map, attr.kind)?))),
        _ => Ok(None),
    }
}

// What is wrong with an operation on a map.
fn operation_hint<'a, K: MapKind>(
    book: &mut Book<K>,
    command: &'a MapCommand,
    errno: Errno,
) -> Result<Option<Hint<'a>>, NoMemory>
    ensures { book.new.plain ≡ book.old.plain }
{
    let Some((reference, operation)) = operation_of(command) else {
        return Ok(None);
    };
    match map_at(book, reference)? {
        Some((map, attr)) => found_hint(book, command, &operation, map, attr, errno),
        None if errno == Errno::ENOENT => Ok(Some(Hint::Absent(Absent::Map(reference)))),
        None => Ok(None),
    }
}

// What is wrong with a command that makes a map of these arguments.
fn create_hint<'a>(
    attr: MapAttr,
    name: &Word,
    path: &'a Word,
    inner_map: &'a Option<Reference>,
    errno: Errno,
) -> Option<Hint<'a>> {
    match (errno, inner_map) {
        (Errno::EINVAL, _) => Some(arguments_hint(attr, name, path, inner_map)),
        (Errno::EEXIST, _) => Some(Hint::Taken(path.as_slice())),
        (Errno::ENOENT, Some(map)) => Some(Hint::Absent(Absent::Map(map))),
        _ => None,
    }
}

/// What is wrong with a command on maps that was refused with this errno.
///
/// # Errors
/// `NoMemory` if there is none to ask the host.
pub fn map_hint<'a, K: MapKind>(
    book: &mut Book<K>,
    command: &'a MapCommand,
    errno: Errno,
) -> Result<Option<Hint<'a>>, NoMemory>
    ensures { book.new.plain ≡ book.old.plain }
{
    match (command, errno) {
        (
            MapCommand::Create {
                path,
                attr,
                name,
                inner_map,
            },
            _,
        ) => Ok(create_hint(*attr, name, path, inner_map, errno)),
        (
            MapCommand::Show { map: Some(map) }
            | MapCommand::Dump { map }
            | MapCommand::Freeze { map }
            | MapCommand::Pin { map, .. },
            Errno::ENOENT,
        ) => Ok(Some(Hint::Absent(Absent::Map(map)))),
        (MapCommand::Freeze { .. }, Errno::EBUSY) => {
            Ok(Some(Hint::Plain("the map is frozen already")))
        }
        (MapCommand::Pin { path, .. }, _) => Ok(pin_hint(path, errno)),
        _ => operation_hint(book, command, errno),
    }
}

/// What a new map would be charged, if the budget has no room for it.
pub fn budget_hint<'a, K: MapKind>(book: &Book<K>, attr: MapAttr) -> Hint<'a> {
    let (charged, room) = (book.charged(), book.room());
    let entry = u64::from(attr.key_size) + u64::from(attr.value_size);
    Hint::Budget {
        charge: u64::from(attr.max_entries).saturating_mul(entry),
        charged,
        budget: charged.saturating_add(room),
    }
}
