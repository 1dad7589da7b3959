//! How much work it is to take a change of a key out: one call of its map's box if no later change has to do with its key
//! or with the entry that it freed, and more if one has.

use self::Step::{Delete, Freeze, Put, Puts, Unpin};
use crate::books::{ARRAY, AnyMap, book, first_byte, key_of, lookup, making, path_of, write};
use bt_array::ArrayKind;
use bt_hash::HashKind;
use bt_journal::Book;
use bt_mapkind::{Bytes, MapAttr, MapKind, MapOp, MapType};
use bt_without::without;
use host_state::{Change, Origin};
use std::alloc::Global;
use std::process::Abort;

// A change of map 1, or a thousand updates of one key. Without its pin the map retires.
#[derive(Clone, Copy)]
enum Step {
    Put(u32, u8),
    Puts(u32, u8),
    Delete(u32),
    Freeze,
    Unpin,
}

const ARRAY_OF_2: MapAttr = MapAttr {
    max_entries: 2,
    ..ARRAY
};

const HASH_OF_2: MapAttr = MapAttr {
    kind: MapType::Hash,
    ..ARRAY_OF_2
};

const HASH_OF_3: MapAttr = MapAttr {
    max_entries: 3,
    ..HASH_OF_2
};

// The attributes of map 1, whose making has serial 1, and what is done to it.
type Changed = (MapAttr, &'static [Step]);

const INDEX: Changed = (ARRAY_OF_2, &[Put(0, 7), Puts(1, 9)]);

const KEY: Changed = (HASH_OF_2, &[Put(1, 1), Put(2, 2), Delete(1), Put(2, 3)]);

const UNPIN: Changed = (ARRAY, &[Put(0, 7), Unpin]);

const FREEZE: Changed = (ARRAY, &[Put(0, 7), Freeze]);

const NEW_KEY: Changed = (HASH_OF_3, &[Put(1, 1), Delete(1), Put(2, 2)]);

// What was done; the serials that are taken out then, and whether by one call each at most; what stands under the keys 0, 1 and
// 2 at last, and whether another write under 0 is refused, to a full map or to a frozen one.
type Row = (Changed, &'static [u64], bool, [Option<u8>; 3], bool);

const ROWS: [Row; 5] = [
    (INDEX, &[2], true, [Some(0), Some(9), None], false),
    (KEY, &[4], true, [None, Some(1), Some(3)], true),
    (UNPIN, &[2, 3], true, [Some(0), None, None], false),
    (FREEZE, &[2], true, [Some(0), None, None], true),
    (NEW_KEY, &[3], false, [None, Some(1), Some(2)], false),
];

fn map_of(rt: &impl Abort, alloc: Global, attr: MapAttr) -> AnyMap {
    if attr.kind == MapType::Array {
        let kind = ArrayKind::new(alloc, attr).expect(rt, "an array");
        Box::new(alloc, kind).ok().expect(rt, "a box")
    } else {
        let kind = HashKind::new(alloc, attr).expect(rt, "a hash");
        Box::new(alloc, kind).ok().expect(rt, "a box")
    }
}

fn operation(op: MapOp) -> Change {
    let (origin, map) = (Origin::Console, 1);
    Change::Operate { origin, map, op }
}

fn put(rt: &impl Abort, alloc: Global, key: u32, byte: u8) -> Change {
    operation(MapOp::Update {
        key: key_of(rt, alloc, key),
        value: Bytes::of(alloc, &[byte]).expect(rt, "a value"),
        flag: 0,
    })
}

fn change_of(rt: &impl Abort, alloc: Global, step: Step) -> Change {
    match step {
        Put(key, byte) | Puts(key, byte) => put(rt, alloc, key, byte),
        Delete(key) => operation(MapOp::Delete {
            key: key_of(rt, alloc, key),
        }),
        Freeze => Change::Freeze { map: 1 },
        Unpin => Change::Unpin {
            path: path_of(rt, alloc, 1),
        },
    }
}

fn is_done<K: MapKind>(rt: &impl Abort, alloc: Global, book: &mut Book<K>, step: Step) {
    let times = if matches!(step, Puts(..)) { 1_000 } else { 1 };
    for _ in 0..times {
        let change = change_of(rt, alloc, step);
        assert!(rt; book.record(change, None).is_ok());
    }
}

fn is_taken_out<K: MapKind>(rt: &impl Abort, book: &mut Book<K>, serial: u64, in_one_call: bool) {
    let before = book.work();
    let taken = without(book, serial).expect(rt, "a taking out");
    let work = taken.work;
    assert!(rt; book.work().checked_sub(before) == Some(work));
    assert!(rt; (work <= 1) == in_one_call, "{serial}: {work}");
}

fn holds<K: MapKind>(rt: &impl Abort, alloc: Global, book: &mut Book<K>, values: [Option<u8>; 3]) {
    for (key, value) in (0..3u32).zip(values) {
        let told = book.ask(&lookup(1, key_of(rt, alloc, key)));
        assert!(rt; first_byte(&told) == value, "key {key}");
    }
}

fn is_changed<K: MapKind>(
    rt: &impl Abort,
    alloc: Global,
    book: &mut Book<K>,
    kind: K,
    changed: Changed,
) {
    let (attr, steps) = changed;
    let making = making(rt, alloc, attr, 1, None);
    assert!(rt; book.record(making, Some(kind)).is_ok());
    for step in steps {
        is_done(rt, alloc, book, *step);
    }
}

fn is_so<K: MapKind>(rt: &impl Abort, alloc: Global, kind: K, row: Row) {
    let (changed, serials, in_one_call, values, is_refused) = row;
    let mut book = book(rt, alloc);
    is_changed(rt, alloc, &mut book, kind, changed);
    for serial in serials {
        is_taken_out(rt, &mut book, *serial, in_one_call);
    }
    holds(rt, alloc, &mut book, values);
    let writing = write(rt, alloc, 1, 8);
    assert!(rt; book.record(writing, None).is_err() == is_refused);
}

#[test]
fn a_change_that_stands_alone_is_taken_out_by_one_call(rt: HostRuntime) {
    for row in ROWS {
        let (changed, ..) = row;
        let kind = map_of(&rt, rt.alloc(), changed.0);
        is_so::<AnyMap>(&rt, rt.alloc(), kind, row);
    }
}
