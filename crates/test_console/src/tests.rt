//! Scripts on books of one device, with an array for each line that needs a map.

mod boxes;
mod counting;
mod texts;
mod writers;

use bt_array::ArrayKind;
use bt_console::{NoBox, Supply};
use bt_journal::Book;
use bt_mapkind::MapAttr;
use bt_syntax::Script;
use console_script::run_script;
use host_words::Word;
use journal_model::Limits;
use std::alloc::Global;
use std::process::Abort;

/// A map is made and written, marked, written again, and taken back to the mark.
const TO_A_MARK_AND_BACK: &[u8] = b"map create /m type array key 4 value 1 entries 1 name m
map update id 1 key 0 0 0 0 value 7
journal mark a
map update id 1 key 0 0 0 0 value 9
journal undo a
map lookup id 1 key 0 0 0 0
";

const ITS_TRANSCRIPT: &[u8] = b"ok 1 id 1
ok 2
marked a
ok 3
undone 1
key: 00 00 00 00 value: 07
";

const LIMITS: Limits = Limits {
    journal: 65_536,
    budget: 4_096,
    last_id: 8,
    last_serial: 65_536,
};

/// Makes an array each time it is asked, until `left` are made, and then has no memory.
#[derive(Drop)]
struct Making {
    alloc: Global,
    left: u32,
    asked: u32,
}

impl Making {
    fn new(alloc: Global, left: u32) -> Making {
        Making {
            alloc,
            left,
            asked: 0,
        }
    }
}

impl Supply<ArrayKind> for Making {
    ghost gives = { λ from attr told to. Unit {0} };

    fn supply(&mut self, attr: MapAttr, _room: u64) -> Result<ArrayKind, NoBox> {
        self.asked = self.asked.wrapping_add(1);
        if self.left == 0 {
            return Err(NoBox::NoMemory);
        }
        self.left -= 1;
        match ArrayKind::new(self.alloc, attr) {
            Ok(array) => Ok(array),
            Err(_) => Err(NoBox::NoMemory),
        }
    }
}

// A `?` after which a list or a book is held costs the prover up to two minutes, and a `match` a second.

/// The script of this text; `None` for lack of memory.
fn script(alloc: Global, text: &[u8]) -> Option<Script> {
    match Vec::from_slice(alloc, text) {
        Ok(text) => Some(Script {
            text,
            files: Vec::new(alloc),
        }),
        Err(_) => None,
    }
}

fn devices(alloc: Global) -> Option<Vec<Word>> {
    match Word::new(alloc, b"eth0") {
        Ok(device) => Vec::from_array(alloc, [device]).ok(),
        Err(_) => None,
    }
}

/// A book of one device; `None` for lack of memory.
fn book(alloc: Global) -> Option<Book<ArrayKind>> {
    match devices(alloc) {
        Some(devices) => Book::new(alloc, devices, LIMITS).ok(),
        None => None,
    }
}

// Writes the transcript of a script after what was written.
fn written(
    rt: &impl Abort,
    alloc: Global,
    book: &mut Book<ArrayKind>,
    script: &Script,
    out: Vec<u8>,
) -> Vec<u8> {
    let mut out = out;
    let mut supply = Making::new(alloc, u32::MAX);
    let ran = run_script(alloc, book, script, &mut supply, &mut out);
    assert!(rt; ran.is_ok());
    out
}

/// Runs a text against a book: the transcript, in memory that was reserved before; `None` if that or the making of the
/// script met a failed allocation.
fn run(rt: &impl Abort, alloc: Global, book: &mut Book<ArrayKind>, text: &[u8]) -> Option<Vec<u8>> {
    let Some(script) = script(alloc, text) else {
        return None;
    };
    match Vec::with_capacity(alloc, 16_384) {
        Ok(out) => Some(written(rt, alloc, book, &script, out)),
        Err(_) => None,
    }
}
