//! How a host is made, change by change. Each part answers false, or nothing, for lack of memory.

use bt_array::ArrayKind;
use bt_insn::decode;
use bt_journal::Book;
use bt_mapkind::{MapAttr, MapType};
use bt_verify::{MapList, verify};
use host_state::{Change, Code};
use host_words::Word;
use journal_model::Limits;
use std::alloc::Global;

// Adds 1 to the first entry of map 1, and passes the frame.
const COUNTS: &[u8] =
    b"\x62\x0a\xfc\xff\0\0\0\0\xbf\xa2\0\0\0\0\0\0\x07\x02\0\0\xfc\xff\xff\xff\x18\x11\0\0\x01\0\0\0\0\0\0\0\0\0\0\0\x85\0\0\0\x01\0\0\0\x15\0\x02\0\0\0\0\0\xb7\x01\0\0\x01\0\0\0\xdb\x10\0\0\0\0\0\0\xb7\0\0\0\x02\0\0\0\x95\0\0\0\0\0\0\0";

// The words of the other program: XDP_PASS into R0 and 0 into R2, 1 added to R2, and EXIT.
const BEGINS: &[u8] = b"\xb7\0\0\0\x02\0\0\0\xb7\x02\0\0\0\0\0\0";

const ADDS: &[u8] = b"\x07\x02\0\0\x01\0\0\0";

const EXITS: &[u8] = b"\x95\0\0\0\0\0\0\0";

// The device `eth0` alone.
fn devices(alloc: Global) -> Option<Vec<Word>> {
    let mut devices = Vec::new(alloc);
    match Word::new(alloc, b"eth0") {
        Ok(name) => match devices.push(name) {
            Ok(()) => Some(devices),
            Err(_) => None,
        },
        Err(_) => None,
    }
}

/// A new book with the device `eth0` and room for so many moments.
pub(crate) fn new_book(alloc: Global, journal: u64) -> Option<Book<ArrayKind>> {
    let limits = Limits {
        journal,
        budget: 67_108_864,
        last_id: u32::MAX,
        last_serial: u64::MAX,
    };
    match devices(alloc) {
        Some(devices) => match Book::new(alloc, devices, limits) {
            Ok(book) => Some(book),
            Err(_) => None,
        },
        None => None,
    }
}

// Records a change, if there is one.
fn is_recorded(
    book: &mut Book<ArrayKind>,
    change: Option<Change>,
    kind: Option<ArrayKind>,
) -> bool {
    match change {
        Some(change) => book.record(change, kind).is_ok(),
        None => false,
    }
}

// An array of one entry.
fn attr_of(value_size: u32) -> MapAttr {
    MapAttr {
        kind: MapType::Array,
        key_size: 4,
        value_size,
        max_entries: 1,
        flags: 0,
    }
}

fn creating(alloc: Global, attr: MapAttr) -> Option<Change> {
    match (Word::new(alloc, b"m"), Word::new(alloc, b"/m")) {
        (Ok(name), Ok(path)) => Some(Change::Create {
            id: 1,
            attr,
            charge: 0,
            name,
            path,
            template: None,
        }),
        _ => None,
    }
}

/// Makes map 1, an array of one entry of so many bytes.
pub(crate) fn make_array(alloc: Global, book: &mut Book<ArrayKind>, value_size: u32) -> bool {
    let attr = attr_of(value_size);
    match ArrayKind::new(alloc, attr) {
        Ok(kind) => is_recorded(book, creating(alloc, attr), Some(kind)),
        Err(_) => false,
    }
}

// The code of a program over these maps.
fn code_of(alloc: Global, bytes: &[u8], maps: &MapList) -> Option<Code> {
    match decode(alloc, bytes) {
        Ok(insns) => match verify(alloc, insns, maps) {
            Ok(verified) => Code::new(alloc, verified).ok(),
            Err(_) => None,
        },
        Err(_) => None,
    }
}

fn loading(alloc: Global, code: Code) -> Option<Change> {
    match (Word::new(alloc, b"p"), Word::new(alloc, b"/p")) {
        (Ok(name), Ok(path)) => Some(Change::Load {
            id: 1,
            code,
            name,
            path,
        }),
        _ => None,
    }
}

fn attaching(alloc: Global) -> Option<Change> {
    match Word::new(alloc, b"eth0") {
        Ok(device) => Some(Change::Attach {
            prog: 1,
            device,
            overwrite: false,
        }),
        Err(_) => None,
    }
}

// Loads a program, and attaches it to `eth0`.
fn attach(alloc: Global, book: &mut Book<ArrayKind>, bytes: &[u8], maps: &MapList) -> bool {
    match code_of(alloc, bytes, maps) {
        Some(code) => {
            is_recorded(book, loading(alloc, code), None)
                && is_recorded(book, attaching(alloc), None)
        }
        None => false,
    }
}

// Map 1 alone, an array of one entry of 8 bytes.
fn one_map(alloc: Global) -> Option<MapList> {
    let mut maps = Vec::new(alloc);
    match maps.push((1, attr_of(8))) {
        Ok(()) => Some(MapList::new(maps)),
        Err(_) => None,
    }
}

/// Makes an array of one entry of 8 bytes, and attaches the program that counts in it.
pub(crate) fn attach_counter(alloc: Global, book: &mut Book<ArrayKind>) -> bool {
    match one_map(alloc) {
        Some(maps) => make_array(alloc, book, 8) && attach(alloc, book, COUNTS, &maps),
        None => false,
    }
}

// The bytes of the program that adds 4,000 times to a register.
fn thinking(alloc: Global) -> Option<Vec<u8>> {
    let mut bytes = Vec::new(alloc);
    let mut is_written = bytes.extend_from_slice(BEGINS).is_ok();
    for _ in 0..4_000u32 {
        is_written = is_written && bytes.extend_from_slice(ADDS).is_ok();
    }
    if is_written && bytes.extend_from_slice(EXITS).is_ok() {
        Some(bytes)
    } else {
        None
    }
}

/// Attaches the program that adds 4,000 times to a register.
pub(crate) fn attach_thinker(alloc: Global, book: &mut Book<ArrayKind>) -> bool {
    match thinking(alloc) {
        Some(bytes) => attach(alloc, book, &bytes, &MapList::new(Vec::new(alloc))),
        None => false,
    }
}
