//! Books, and changes of them.

use bt_array::ArrayKind;
use bt_insn::decode;
use bt_journal::Book;
use bt_mapkind::{Bytes, MapAttr, MapKind, MapOp, MapReply, MapType, Query};
use bt_verify::{MapList, Verified, verify};
use host_state::{Ask, AskReply, Change, Code, Origin, Refusal, Reply};
use host_words::{NoMemory, Word};
use journal_model::Limits;
use std::alloc::Global;
use std::process::Abort;

/// A box of any map: what all books here hold.
pub(crate) type AnyMap = Box<dyn MapKind>;

pub(crate) const LIMITS: Limits = Limits {
    journal: 65_536,
    budget: 1_000_000,
    last_id: 10_000,
    last_serial: 100_000,
};

/// A value of one byte; an array of it is charged 5.
pub(crate) const ARRAY: MapAttr = MapAttr {
    kind: MapType::Array,
    key_size: 4,
    value_size: 1,
    max_entries: 1,
    flags: 0,
};

pub(crate) fn array(rt: &impl Abort, alloc: Global) -> AnyMap {
    array_of(rt, alloc, ARRAY)
}

pub(crate) fn array_of(rt: &impl Abort, alloc: Global, attr: MapAttr) -> AnyMap {
    let kind = ArrayKind::new(alloc, attr).expect(rt, "an array");
    Box::new(alloc, kind).ok().expect(rt, "a box")
}

pub(crate) fn word(rt: &impl Abort, alloc: Global, bytes: &[u8]) -> Word {
    Word::new(alloc, bytes).expect(rt, "a word")
}

/// A path for each number.
pub(crate) fn path_of(rt: &impl Abort, alloc: Global, number: u32) -> Word {
    let mut path = [b'/'; 5];
    let mut left = number;
    for letter in path[1..].iter_mut().rev() {
        *letter = b'a' + (left % 16) as u8;
        left = left / 16;
    }
    word(rt, alloc, &path)
}

pub(crate) fn key_of(rt: &impl Abort, alloc: Global, index: u32) -> Bytes {
    Bytes::of(alloc, &index.to_le_bytes()).expect(rt, "a key")
}

/// An empty book on a host with the device e.
pub(crate) fn book<K: MapKind>(rt: &impl Abort, alloc: Global) -> Book<K> {
    book_within(rt, alloc, LIMITS)
}

/// An empty book of these limits, on a host with the device e.
pub(crate) fn book_within<K: MapKind>(rt: &impl Abort, alloc: Global, limits: Limits) -> Book<K> {
    let mut devices = Vec::new(alloc);
    assert!(rt; devices.push(word(rt, alloc, b"e")).is_ok());
    Book::new(alloc, devices, limits).expect(rt, "a book")
}

/// The making of a map of these attributes and this id, pinned at the path of its number. The charge is that of [`ARRAY`]; a
/// book puts its own in that place.
pub(crate) fn making(
    rt: &impl Abort,
    alloc: Global,
    attr: MapAttr,
    id: u32,
    template: Option<u32>,
) -> Change {
    Change::Create {
        id,
        attr,
        charge: 5,
        name: word(rt, alloc, b"m"),
        path: path_of(rt, alloc, id),
        template,
    }
}

/// A write of a byte to the first index of an array.
pub(crate) fn write(rt: &impl Abort, alloc: Global, map: u32, byte: u8) -> Change {
    Change::Operate {
        origin: Origin::Console,
        map,
        op: MapOp::Update {
            key: key_of(rt, alloc, 0),
            value: Bytes::of(alloc, &[byte]).expect(rt, "a value"),
            flag: 0,
        },
    }
}

/// Whether a change is recorded with this serial and this reply.
pub(crate) fn is_recorded<K: MapKind>(
    book: &mut Book<K>,
    change: Change,
    kind: Option<K>,
    serial: u64,
    reply: Reply,
) -> bool {
    let told = book.record(change, kind);
    match &told {
        Ok((given, found)) => *given == serial && *found == reply,
        Err(_) => false,
    }
}

fn is_told(told: &Result<(u64, Reply), Refusal>, refusal: Refusal) -> bool {
    match told {
        Ok(_) => false,
        Err(found) => *found == refusal,
    }
}

/// Whether a change with this box is refused so.
pub(crate) fn is_refused<K: MapKind>(
    book: &mut Book<K>,
    change: Change,
    kind: Option<K>,
    refusal: Refusal,
) -> bool {
    let told = book.record(change, kind);
    is_told(&told, refusal)
}

/// What asks for the value under a key.
pub(crate) fn lookup(map: u32, key: Bytes) -> Ask {
    Ask::Map {
        id: map,
        query: Query::Lookup(key),
    }
}

/// The first byte of the value that was found. A reply is looked at here alone, since each look at one that is owned costs
/// the prover half a minute.
pub(crate) fn first_byte(told: &Result<AskReply, NoMemory>) -> Option<u8> {
    match told {
        Ok(AskReply::Answered(MapReply::Found { key: _, value })) => {
            value.as_slice().first().copied()
        }
        _ => None,
    }
}

/// The byte at the first index of an array that is live.
pub(crate) fn found<K: MapKind>(
    rt: &impl Abort,
    alloc: Global,
    book: &mut Book<K>,
    map: u32,
) -> Option<u8> {
    let told = book.ask(&lookup(map, key_of(rt, alloc, 0)));
    first_byte(&told)
}

// A program that names map 1, and passes.
const PASSES: &[u8] =
    b"\x18\x11\x00\x00\x01\x00\x00\x00\x00\x00\x00\x00\x00\x00\x00\x00\xb7\x00\x00\x00\x02\x00\x00\x00\x95\x00\x00\x00\x00\x00\x00\x00";

// Map 1 with these attributes.
fn first_map(rt: &impl Abort, alloc: Global, attr: MapAttr) -> MapList {
    let mut maps = Vec::new(alloc);
    assert!(rt; maps.push((1, attr)).is_ok());
    MapList::new(maps)
}

fn verified(rt: &impl Abort, alloc: Global, attr: MapAttr) -> Verified {
    let insns = decode(alloc, PASSES).expect(rt, "instructions");
    let maps = first_map(rt, alloc, attr);
    verify(alloc, insns, &maps).expect(rt, "a program")
}

fn code(rt: &impl Abort, alloc: Global, attr: MapAttr) -> Code {
    Code::new(alloc, verified(rt, alloc, attr)).expect(rt, "code")
}

/// A program that names map 1, of these attributes, and passes, with the path of a number.
pub(crate) fn loading(rt: &impl Abort, alloc: Global, attr: MapAttr, number: u32) -> Change {
    Change::Load {
        id: 0,
        code: code(rt, alloc, attr),
        name: word(rt, alloc, b"p"),
        path: path_of(rt, alloc, number),
    }
}
