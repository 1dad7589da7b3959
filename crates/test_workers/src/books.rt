//! Books that scripts made, what a script then prints of one, events for its first map, and frames.

use bt_desk::Answer;
use bt_journal::Book;
use bt_mapkind::{Bytes, MapOp, MapReply, Query};
use bt_syntax::Script;
use bt_workers::FrameIn;
use console_script::{HostKind, HostSupply, Summary, run_script};
use host_state::{Ask, AskReply, Change, Origin};
use host_words::Word;
use journal_model::Limits;
use std::alloc::Global;
use std::process::Abort;

const LIMITS: Limits = Limits {
    journal: 65_536,
    budget: 67_108_864,
    last_id: u32::MAX,
    last_serial: u64::MAX,
};

/// A script that makes an array of one byte.
pub(crate) const ARRAY: &[u8] = b"map create /m type array key 4 value 1 entries 1 name m\n";

/// An empty hash with a program at eth0 that adds 1 to its entry under key 0; then a mark, and the entry.
pub(crate) const MARKED: &[u8] = b"map create /h type hash key 4 value 8 entries 2 name h
prog load hex:620afcff00000000bfa200000000000007020000fcffffff1811000001000000000000000000000085000000010000001500020000000000b701000001000000db10000000000000b7000000020000009500000000000000 /p
net attach xdp id 1 dev eth0
journal mark m
map update id 1 key 0 0 0 0 value 5 0 0 0 0 0 0 0
";

/// An array of one counter with the same program; the update to 100 has the serial 5.
pub(crate) const COUNTER: &[u8] = b"map create /m type array key 4 value 8 entries 1 name c
map update id 1 key 0 0 0 0 value 5 0 0 0 0 0 0 0
prog load hex:620afcff00000000bfa200000000000007020000fcffffff1811000001000000000000000000000085000000010000001500020000000000b701000001000000db10000000000000b7000000020000009500000000000000 /p
net attach xdp id 1 dev eth0
map update id 1 key 0 0 0 0 value 100 0 0 0 0 0 0 0
";

/// A name or a path.
pub(crate) fn word(rt: &impl Abort, alloc: Global, bytes: &[u8]) -> Word {
    Word::new(alloc, bytes).expect(rt, "a word")
}

/// A script of these lines, which names no file.
pub(crate) fn script(rt: &impl Abort, alloc: Global, text: &[u8]) -> Script {
    Script {
        text: Vec::from_slice(alloc, text).expect(rt, "a script"),
        files: Vec::new(alloc),
    }
}

/// What a script prints on this book, also if lines of it are refused.
pub(crate) fn transcript(
    rt: &impl Abort,
    alloc: Global,
    book: &mut Book<HostKind>,
    text: &[u8],
) -> (Vec<u8>, Summary) {
    let script = script(rt, alloc, text);
    let mut supply = HostSupply::new(alloc);
    let mut out = Vec::new(alloc);
    let summary = run_script(alloc, book, &script, &mut supply, &mut out).expect(
        rt,
        "a transcript",
    );
    (out, summary)
}

/// What a script prints on this book, of which no line is refused.
pub(crate) fn printed(
    rt: &impl Abort,
    alloc: Global,
    book: &mut Book<HostKind>,
    text: &[u8],
) -> Vec<u8> {
    let (out, summary) = transcript(rt, alloc, book, text);
    assert_eq!(rt; summary.refused, 0);
    out
}

/// A new book with the devices `eth0` and `eth1`.
pub(crate) fn new_book(rt: &impl Abort, alloc: Global) -> Book<HostKind> {
    let mut devices = Vec::new(alloc);
    assert!(rt; devices.push(word(rt, alloc, b"eth0")).is_ok());
    assert!(rt; devices.push(word(rt, alloc, b"eth1")).is_ok());
    Book::new(alloc, devices, LIMITS).expect(rt, "a book")
}

/// The book that a script leaves of a new one.
pub(crate) fn made_by(rt: &impl Abort, alloc: Global, text: &[u8]) -> Book<HostKind> {
    let mut book = new_book(rt, alloc);
    let _transcript = printed(rt, alloc, &mut book, text);
    book
}

/// So many frames of one byte on eth0.
pub(crate) fn frames(rt: &impl Abort, alloc: Global, count: usize) -> Vec<FrameIn> {
    let mut frames = Vec::new(alloc);
    for _ in 0..count {
        let frame = FrameIn {
            device: word(rt, alloc, b"eth0"),
            bytes: Vec::from_slice(alloc, &[0]).expect(rt, "a frame"),
        };
        assert!(rt; frames.push(frame).is_ok());
    }
    frames
}

// The key of an array's first entry.
fn first_key(rt: &impl Abort, alloc: Global) -> Bytes {
    Bytes::of(alloc, &[0; 4]).expect(rt, "a key")
}

/// A write of a byte to the first entry of map 1.
pub(crate) fn write(rt: &impl Abort, alloc: Global, byte: u8) -> Change {
    Change::Operate {
        origin: Origin::Console,
        map: 1,
        op: MapOp::Update {
            key: first_key(rt, alloc),
            value: Bytes::of(alloc, &[byte]).expect(rt, "a value"),
            flag: 0,
        },
    }
}

/// A look at that entry.
pub(crate) fn look(rt: &impl Abort, alloc: Global) -> Ask {
    Ask::Map {
        id: 1,
        query: Query::Lookup(first_key(rt, alloc)),
    }
}

/// The first byte that a look found.
pub(crate) fn found(answer: &Answer) -> Option<u8> {
    match answer {
        Answer::Asked(Ok(AskReply::Answered(MapReply::Found { key: _, value }))) => {
            value.as_slice().first().copied()
        }
        _ => None,
    }
}
