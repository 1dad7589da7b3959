//! A kind of the tests' own over any other, and a boxed one.

ghost use Rattle.bt_mapkind.specs.Seen.{Seen};

use bt_array::ArrayKind;
use bt_mapkind::{Back, Bytes, MapAttr, MapFault, MapKind, MapOp, MapReply, MapType, Query};
use std::alloc::Global;
use std::process::Abort;

// Counts how often it was changed.
#[derive(Drop)]
struct Counted<K: MapKind> {
    inner: K,
    changes: u64,
}

impl<K: MapKind> MapKind for Counted<K> {
    ghost seen = { λ w. K.seen w.inner };

    fn attr(&self) -> MapAttr {
        self.inner.attr()
    }

    fn charge(&self) -> u64 {
        self.inner.charge()
    }

    fn is_fresh(&self) -> bool {
        self.inner.is_fresh()
    }

    fn read(&self, query: &Query) -> Result<MapReply, MapFault> {
        self.inner.read(query)
    }

    fn change(&mut self, op: &MapOp) -> Result<(MapReply, Back), MapFault> {
        self.changes = self.changes.saturating_add(1);
        self.inner.change(op)
    }

    fn fits(&self, back: &Back) -> bool {
        self.inner.fits(back)
    }

    fn turn(&mut self, back: &mut Back) {
        self.inner.turn(back);
    }
}

const TWO_VALUES: MapAttr = MapAttr {
    kind: MapType::Array,
    key_size: 4,
    value_size: 4,
    max_entries: 2,
    flags: 0,
};

fn array(rt: &impl Abort, alloc: Global) -> ArrayKind {
    ArrayKind::new(alloc, TWO_VALUES).expect(rt, "an array")
}

fn holds<K: MapKind>(alloc: Global, kind: &K, bytes: &[u8]) -> bool {
    let key = Bytes::of(alloc, &[1, 0, 0, 0]).unwrap();
    match kind.read(&Query::Lookup(key)) {
        Ok(MapReply::Found { key: _, value }) => value.as_slice() == bytes,
        _ => false,
    }
}

// A new map of any make: an update is seen, taken back and brought again.
fn is_updated<K: MapKind>(rt: &impl Abort, alloc: Global, kind: &mut K) {
    assert!(rt; kind.is_fresh() && kind.charge() == 16 && kind.attr() == TWO_VALUES);
    let update = MapOp::Update {
        key: Bytes::of(alloc, &[1, 0, 0, 0]).unwrap(),
        value: Bytes::of(alloc, b"nine").unwrap(),
        flag: 0,
    };
    let (_reply, mut back) = kind.change(&update).expect(rt, "a change");
    assert!(rt; !kind.is_fresh());
    for bytes in [b"nine", b"\0\0\0\0", b"nine"] {
        assert!(rt; holds(alloc, kind, bytes));
        assert!(rt; kind.fits(&back));
        kind.turn(&mut back);
    }
}

#[test]
fn a_kind_of_a_callers_own(rt: HostRuntime) {
    let inner = array(&rt, rt.alloc());
    let mut own = Counted { inner, changes: 0 };
    is_updated(&rt, rt.alloc(), &mut own);
    assert!(rt; own.changes == 1);
}

#[test]
fn a_boxed_kind(rt: HostRuntime) {
    let array = array(&rt, rt.alloc());
    let mut boxed: Box<dyn MapKind> = Box::new(rt.alloc(), array).ok().expect(&rt, "a box");
    is_updated::<Box<dyn MapKind>>(&rt, rt.alloc(), &mut boxed);
}
