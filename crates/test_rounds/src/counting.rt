//! A book of one array, with a program that counts frames in it, and frames.

ghost use Rattle.std.specs.Prelude.{All};
ghost use Rattle.thread_frames.specs.Faults.{IsShort};

use bt_array::ArrayKind;
use bt_insn::{Size, decode};
use bt_journal::Book;
use bt_mapkind::{Bytes, MapAttr, MapKind, MapType};
use bt_verify::{MapList, verify};
use host_state::{Change, Code};
use host_words::Word;
use journal_model::Limits;
use program_access::{Access, AccessReply};
use std::alloc::Global;
use std::process::Abort;
use thread_rounds::FrameIn;

const LIMITS: Limits = Limits {
    journal: 65_536,
    budget: 1_000,
    last_id: 1,
    last_serial: 1_000_000,
};

const COUNTER: MapAttr = MapAttr {
    kind: MapType::Array,
    key_size: 4,
    value_size: 8,
    max_entries: 1,
    flags: 0,
};

// Adds 1 to the first entry of map 1, and passes the frame.
const COUNTS: &[u8] =
    b"\x62\x0a\xfc\xff\0\0\0\0\xbf\xa2\0\0\0\0\0\0\x07\x02\0\0\xfc\xff\xff\xff\x18\x11\0\0\x01\0\0\0\0\0\0\0\0\0\0\0\x85\0\0\0\x01\0\0\0\x15\0\x02\0\0\0\0\0\xb7\x01\0\0\x01\0\0\0\xdb\x10\0\0\0\0\0\0\xb7\0\0\0\x02\0\0\0\x95\0\0\0\0\0\0\0";

fn word(rt: &impl Abort, alloc: Global, bytes: &[u8]) -> Word {
    Word::new(alloc, bytes).expect(rt, "a word")
}

fn code(rt: &impl Abort, alloc: Global) -> Code {
    let insns = decode(alloc, COUNTS).expect(rt, "instructions");
    let mut maps = Vec::new(alloc);
    assert!(rt; maps.push((1, COUNTER)).is_ok());
    let verified = verify(alloc, insns, &MapList::new(maps)).expect(rt, "a program");
    Code::new(alloc, verified).expect(rt, "code")
}

// Makes the array, loads the program and attaches it to the device e.
fn set_up<K: MapKind>(rt: &impl Abort, alloc: Global, book: &mut Book<K>, kind: K) {
    let making = Change::Create {
        id: 1,
        attr: COUNTER,
        charge: 0,
        name: word(rt, alloc, b"c"),
        path: word(rt, alloc, b"/c"),
        template: None,
    };
    assert!(rt; book.record(making, Some(kind)).is_ok());
    let loading = Change::Load {
        id: 1,
        code: code(rt, alloc),
        name: word(rt, alloc, b"p"),
        path: word(rt, alloc, b"/p"),
    };
    assert!(rt; book.record(loading, None).is_ok());
    let attaching = Change::Attach {
        prog: 1,
        device: word(rt, alloc, b"e"),
        overwrite: false,
    };
    assert!(rt; book.record(attaching, None).is_ok());
}

/// A book of three moments, whose program counts the frames of the device e.
pub(crate) fn counting_book(rt: &impl Abort, alloc: Global) -> Book<ArrayKind> {
    let mut devices = Vec::new(alloc);
    assert!(rt; devices.push(word(rt, alloc, b"e")).is_ok());
    let mut book = Book::new(alloc, devices, LIMITS).expect(rt, "a book");
    let kind = ArrayKind::new(alloc, COUNTER).expect(rt, "an array");
    set_up(rt, alloc, &mut book, kind);
    book
}

/// How many frames the program counted.
pub(crate) fn counted<K: MapKind>(
    rt: &impl Abort,
    alloc: Global,
    book: &mut Book<K>,
) -> Option<u64> {
    let load = Access::Load {
        map: 1,
        key: Bytes::of(alloc, &[0; 4]).expect(rt, "a key"),
        offset: 0,
        size: Size::DoubleWord,
    };
    let told = book.serve(1, &load);
    match &told {
        AccessReply::Number(count) => Some(*count),
        _ => None,
    }
}

/// So many frames of one byte on the device e.
pub(crate) fn frames(rt: &impl Abort, alloc: Global, count: u32) -> Vec<FrameIn>
    ensures { All IsShort result.items }
{
    let mut frames = Vec::new(alloc);
    'frames: for _ in 0..count {
        let device = word(rt, alloc, b"e");
        let bytes = Vec::from_slice(alloc, &[0]).expect(rt, "a frame");
        assert!(rt; frames.push(FrameIn { device, bytes }).is_ok());
    }
    frames
}
