//! A book of ten events in a database in memory, and what opens it again.

ghost use Rattle.std.specs.Prelude.{◌≡◌, true, IfOk};
ghost use Rattle.bt_mapkind.specs.Attributes.{good};

use bt_array::ArrayKind;
use bt_journal::Book;
use bt_mapkind::{Bytes, MapAttr, MapOp, MapType};
use host_state::{Change, Origin};
use host_words::{NoMemory, Word};
use journal_model::Limits;
use kept_file::{KeptEvent, MakeBox, OpenFault, Terms, keep, keep_first, open_book};
use sqlite::{Connection, MemStore};
use std::alloc::Global;
use std::process::Abort;

/// Arrays for all maps.
#[derive(Clone, Copy, Debug)]
pub(crate) struct Arrays {
    pub alloc: Global,
}

impl MakeBox<ArrayKind> for Arrays {
    fn make_box(&mut self, attr: MapAttr) -> Result<ArrayKind, NoMemory> {
        match ArrayKind::new(self.alloc, attr) {
            Ok(kind) => Ok(kind),
            Err(_) => Err(NoMemory),
        }
    }
}

// An array of one value of one byte.
const ARRAY: MapAttr = MapAttr {
    kind: MapType::Array,
    key_size: 4,
    value_size: 1,
    max_entries: 1,
    flags: 0,
};

const LIMITS: Limits = Limits {
    journal: 65_536,
    budget: 1_000_000,
    last_id: 10_000,
    last_serial: 100_000,
};

pub(crate) fn word(rt: &impl Abort, alloc: Global, bytes: &[u8]) -> Word {
    Word::new(alloc, bytes).expect(rt, "a word")
}

fn terms(rt: &impl Abort, alloc: Global) -> Terms {
    let mut devices = Vec::new(alloc);
    assert!(rt; devices.push(word(rt, alloc, b"eth0")).is_ok());
    assert!(rt; devices.push(word(rt, alloc, b"eth1")).is_ok());
    Terms::new(devices, LIMITS).expect(rt, "terms")
}

fn making(rt: &impl Abort, alloc: Global) -> Change {
    Change::Create {
        id: 1,
        attr: ARRAY,
        charge: 5,
        name: word(rt, alloc, b"m"),
        path: word(rt, alloc, b"/m"),
        template: None,
    }
}

// A write of a byte.
fn writing(rt: &impl Abort, alloc: Global, byte: u8) -> Change {
    Change::Operate {
        origin: Origin::Console,
        map: 1,
        op: MapOp::Update {
            key: Bytes::of(alloc, &[0; 4]).expect(rt, "a key"),
            value: Bytes::of(alloc, &[byte]).expect(rt, "a value"),
            flag: 0,
        },
    }
}

fn written(rt: &impl Abort, alloc: Global, serial: u64, byte: u8) -> KeptEvent {
    KeptEvent::Changed {
        serial,
        change: writing(rt, alloc, byte),
    }
}

// A map with 7 in it, and a mark.
fn first_events(rt: &impl Abort, alloc: Global) -> Vec<KeptEvent> {
    let made = KeptEvent::Changed {
        serial: 1,
        change: making(rt, alloc),
    };
    let mut events = Vec::new(alloc);
    assert!(rt; events.push(made).is_ok());
    assert!(rt; events.push(written(rt, alloc, 2, 7)).is_ok());
    assert!(rt;
        events
            .push(KeptEvent::Marked(word(rt, alloc, b"good")))
            .is_ok()
    );
    events
}

// After the mark 8 and 9 are written, and 9 is undone and redone; 8 is taken out, 10 is written, and there is a second mark.
fn later_events(rt: &impl Abort, alloc: Global) -> Vec<KeptEvent> {
    let mut events = Vec::new(alloc);
    assert!(rt; events.push(written(rt, alloc, 3, 8)).is_ok());
    assert!(rt; events.push(written(rt, alloc, 4, 9)).is_ok());
    assert!(rt; events.push(KeptEvent::UndoneLast).is_ok());
    assert!(rt; events.push(KeptEvent::Redone).is_ok());
    assert!(rt;
        events
            .push(KeptEvent::TakenOut { serial: 3, own: 5 })
            .is_ok()
    );
    assert!(rt; events.push(written(rt, alloc, 6, 10)).is_ok());
    assert!(rt;
        events
            .push(KeptEvent::Marked(word(rt, alloc, b"late")))
            .is_ok()
    );
    events
}

// A database with the first events.
fn begun(rt: &impl Abort, alloc: Global) -> Connection<MemStore> {
    let terms = terms(rt, alloc);
    let events = first_events(rt, alloc);
    let mut conn = Connection::open_in_memory(alloc).expect(rt, "a database");
    assert!(rt; keep_first(alloc, &mut conn, &terms, 1, &events).is_ok());
    conn
}

/// A database with all ten events.
pub(crate) fn kept(rt: &impl Abort, alloc: Global) -> Connection<MemStore> {
    let mut conn = begun(rt, alloc);
    let events = later_events(rt, alloc);
    assert!(rt; keep(alloc, &mut conn, 2, &events).is_ok());
    conn
}

/// The book of a database.
pub(crate) fn opened(
    alloc: Global,
    conn: &mut Connection<MemStore>,
) -> Result<Book<ArrayKind>, OpenFault> {
    open_book(alloc, conn, &mut Arrays { alloc })
}
