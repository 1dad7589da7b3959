//! What is wrong with a line that was refused, and its text.

use crate::attributes::{AttrFault, type_name};
use crate::code_hint::CodeHint;
use crate::difference::Difference;
use crate::file_fault::FileFault;
use crate::flag::FlagFault;
use crate::misfit::Misfit;
use crate::misstep::Misstep;
use crate::object::ObjectFault;
use crate::room::NoRoom;
use crate::shown::Shown;
use crate::spelling::{NameFault, PathFault};
use crate::standing::WordHint;
use bt_mapkind::MapType;
use console_operand::Reference;
use std::fmt::{self, Display};

/// What is not there, or is there already.
#[derive(Clone, Copy)]
pub enum Absent<'a> {
    /// The live map that is referred to.
    Map(&'a Reference),
    /// The live program that is referred to.
    Prog(&'a Reference),
    /// The device of this name.
    Device(&'a [u8]),
    /// A program at the device of this name.
    Attached(&'a [u8]),
    /// A pin at this path.
    Pin(&'a [u8]),
    /// The key.
    Entry { map: u32 },
    /// An item of a queue or a stack.
    Item { map: u32 },
}

/// What is wrong with a line.
#[derive(Drop)]
pub enum Hint<'a> {
    Word(WordHint<'a>),
    Attr(AttrFault),
    Name(NameFault),
    Path(PathFault),
    Misfit {
        map: u32,
        kind: MapType,
        misfit: Misfit,
    },
    /// An update of the map has a flag that its type does not have.
    Flag {
        map: u32,
        kind: MapType,
        fault: FlagFault,
    },
    /// The inner map is unlike those that the outer one holds.
    Unlike {
        outer: u32,
        difference: Difference,
    },
    Absent(Absent<'a>),
    /// The file of this path is not at hand.
    File {
        path: &'a [u8],
        fault: FileFault,
    },
    /// A word of digits stands where the path of a program does.
    Digits(&'a [u8]),
    /// The bytes of a program are something else.
    Object(ObjectFault),
    /// Something is pinned at this path.
    Taken(&'a [u8]),
    /// The map has the key of an update that is to make a new entry.
    Present {
        map: u32,
    },
    Frozen {
        map: u32,
    },
    /// The map of this many entries does not take what it is given.
    NoRoom {
        map: u32,
        entries: u32,
        why: NoRoom,
    },
    Code(CodeHint),
    /// A map would be charged so many bytes, of the budget that is charged so many already.
    Budget {
        charge: u64,
        charged: u64,
        budget: u64,
    },
    Aborted(Misstep),
    /// A sentence that says it.
    Plain(&'static str),
}

fn write_reference<W: fmt::Write>(
    f: &mut fmt::Formatter<W>,
    what: &str,
    reference: &Reference,
) -> fmt::Result {
    match reference {
        Reference::Id(id) => write!(f, "no live {what} has id {id}"),
        Reference::Pinned(path) => {
            let shown = Shown(path.as_slice());
            write!(f, "no {what} is pinned at {shown}")
        }
        Reference::Named(name) => {
            let shown = Shown(name.as_slice());
            write!(f, "no live {what} has the name {shown}")
        }
    }
}

// Writes a text about these bytes, and the bytes.
fn write_shown<W: fmt::Write>(f: &mut fmt::Formatter<W>, says: &str, bytes: &[u8]) -> fmt::Result {
    let shown = Shown(bytes);
    write!(f, "{says} {shown}")
}

// Writes what the map of this id is, or has.
fn write_map<W: fmt::Write>(f: &mut fmt::Formatter<W>, map: u32, is: &str) -> fmt::Result {
    write!(f, "map {map} {is}")
}

// Writes of which type the map of this id is, and what that means.
fn write_type<W: fmt::Write>(
    f: &mut fmt::Formatter<W>,
    map: u32,
    kind: MapType,
    means: &str,
) -> fmt::Result {
    let name = type_name(kind);
    write!(f, "map {map} is of type {name}{means}")
}

// Writes that the map of this id has no keys, and for what.
fn write_keyless<W: fmt::Write>(
    f: &mut fmt::Formatter<W>,
    map: u32,
    kind: MapType,
    purpose: &str,
) -> fmt::Result {
    let name = type_name(kind);
    write!(f, "map {map} is a {name}, which has no keys{purpose}")
}

// Writes how many bytes the keys or the values of the map of this id have, and how many are given.
fn write_size<W: fmt::Write>(
    f: &mut fmt::Formatter<W>,
    map: u32,
    what: &str,
    has: u32,
    given: usize,
) -> fmt::Result {
    write!(f, "map {map} has {what} of {has} bytes, {given} given")
}

impl Display for Absent<'_> {
    fn fmt<W: fmt::Write>(&self, f: &mut fmt::Formatter<W>) -> fmt::Result {
        match self {
            Absent::Map(reference) => write_reference(f, "map", reference),
            Absent::Prog(reference) => write_reference(f, "program", reference),
            Absent::Device(name) => write_shown(f, "there is no device", name),
            Absent::Attached(name) => write_shown(f, "no program is attached to", name),
            Absent::Pin(path) => write_shown(f, "nothing is pinned at", path),
            Absent::Entry { map } => write_map(f, *map, "has no such entry"),
            Absent::Item { map } => write_map(f, *map, "is empty"),
        }
    }
}

// Writes why the map of this id and type has no such operation.
fn write_misfit<W: fmt::Write>(
    f: &mut fmt::Formatter<W>,
    misfit: Misfit,
    map: u32,
    kind: MapType,
) -> fmt::Result {
    match misfit {
        Misfit::NoKeys => write_keyless(f, map, kind, ""),
        Misfit::NoItems => { write_type(f, map, kind, ", and only a queue or a stack has items") }
        Misfit::KeyMissing => write_type(f, map, kind, ": give a key"),
        Misfit::KeySize { has, given } => write_size(f, map, "keys", has, given),
        Misfit::ValueSize { has, given } => write_size(f, map, "values", has, given),
        Misfit::NoIds => write_map(f, map, "holds bytes, and an object is given"),
        Misfit::OnlyIds => write_type(
            f,
            map,
            kind,
            " and holds ids: give its value as `id NUM`, `pinned FILE` or `name NAME`",
        ),
        Misfit::Undeletable => write_type(f, map, kind, ", of which no entry can be deleted"),
        Misfit::Prefix { bits, given } => write!(
            f,
            "map {map} has addresses of {bits} bits, and the first four bytes of the key say a prefix of {given}"
        ),
    }
}

// Writes why the map of this id and type has no such flag.
fn write_flag<W: fmt::Write>(
    f: &mut fmt::Formatter<W>,
    fault: FlagFault,
    map: u32,
    kind: MapType,
) -> fmt::Result {
    match fault {
        FlagFault::NoExist => write_keyless(f, map, kind, " for `noexist` to look for"),
        FlagFault::NotAny => write_type(
            f,
            map,
            kind,
            ", whose indices are all there: leave `exist` and `noexist` out",
        ),
    }
}

// Writes why the map of this id, which has so many entries, has no place.
fn write_no_room<W: fmt::Write>(
    f: &mut fmt::Formatter<W>,
    why: NoRoom,
    map: u32,
    entries: u32,
) -> fmt::Result {
    match why {
        NoRoom::Full => write!(
            f,
            "map {map} is full: it has {entries} of {entries} entries"
        ),
        NoRoom::Past(index) => {
            let last = entries.saturating_sub(1);
            write!(
                f,
                "index {index} is past the end of map {map}, whose last one is {last}"
            )
        }
    }
}

impl Hint<'_> {
    // Writes what is wrong with an update or a push.
    fn write_update<W: fmt::Write>(&self, f: &mut fmt::Formatter<W>) -> fmt::Result {
        match self {
            Hint::Misfit { map, kind, misfit } => write_misfit(f, *misfit, *map, *kind),
            Hint::Flag { map, kind, fault } => write_flag(f, *fault, *map, *kind),
            Hint::Unlike { outer, difference } => {
                write!(f, "the maps in map {outer} have {difference}")
            }
            Hint::Present { map } => write_map(
                f,
                *map,
                "has an entry of this key already, which `noexist` does not replace",
            ),
            Hint::Frozen { map } => write_map(f, *map, "is frozen: only programs write it"),
            Hint::NoRoom { map, entries, why } => write_no_room(f, *why, *map, *entries),
            _ => f.write_str("the line changed nothing"),
        }
    }

    // Writes what is wrong with what is loaded.
    fn write_load<W: fmt::Write>(&self, f: &mut fmt::Formatter<W>) -> fmt::Result {
        match self {
            Hint::File { path, fault } => fault.write_for(f, path),
            Hint::Digits(word) => {
                let shown = Shown(word);
                write!(
                    f,
                    "{shown} is read as a path, and no such file is at hand: write `hex:` before digits"
                )
            }
            Hint::Object(fault) => fault.fmt(f),
            Hint::Code(hint) => hint.fmt(f),
            _ => self.write_update(f),
        }
    }
}

impl Display for Hint<'_> {
    fn fmt<W: fmt::Write>(&self, f: &mut fmt::Formatter<W>) -> fmt::Result {
        match self {
            Hint::Word(hint) => hint.fmt(f),
            Hint::Attr(fault) => fault.fmt(f),
            Hint::Name(fault) => fault.fmt(f),
            Hint::Path(fault) => fault.fmt(f),
            Hint::Absent(absent) => absent.fmt(f),
            Hint::Taken(path) => {
                let shown = Shown(path);
                write!(f, "something is pinned at {shown} already")
            }
            Hint::Budget {
                charge,
                charged,
                budget,
            } => write!(
                f,
                "the map takes {charge} bytes, and {charged} of {budget} are charged"
            ),
            Hint::Aborted(misstep) => misstep.fmt(f),
            Hint::Plain(text) => f.write_str(text),
            _ => self.write_load(f),
        }
    }
}
