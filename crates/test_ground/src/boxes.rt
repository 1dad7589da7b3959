//! Boxes by their ids: those of one type, and those of unknown make.

use bt_array::ArrayKind;
use bt_mapkind::{Bytes, Errno, MapAttr, MapFault, MapKind, MapOp, MapReply, MapType, Query};
use bt_objects::{Keep, Objects, PlaceFault, is_among};
use std::alloc::Global;
use std::process::Abort;

fn array(rt: &impl Abort, alloc: Global) -> ArrayKind {
    let attr = MapAttr {
        kind: MapType::Array,
        key_size: 4,
        value_size: 1,
        max_entries: 2,
        flags: 0,
    };
    ArrayKind::new(alloc, attr).expect(rt, "an array")
}

fn write(alloc: Global, byte: u8) -> MapOp {
    MapOp::Update {
        key: Bytes::of(alloc, &[1, 0, 0, 0]).unwrap(),
        value: Bytes::of(alloc, &[byte]).unwrap(),
        flag: 0,
    }
}

// Whether the value that was found is this byte.
fn is_found(told: &Result<MapReply, MapFault>, byte: u8) -> bool {
    match told {
        Ok(MapReply::Found { key: _, value }) => value.as_slice() == [byte].as_slice(),
        _ => false,
    }
}

fn holds<K: MapKind>(objects: &mut Objects<K>, alloc: Global, id: u32, byte: u8) -> bool {
    let key = Bytes::of(alloc, &[1, 0, 0, 0]).unwrap();
    let told = objects.read_at(id, &Query::Lookup(key));
    is_found(&told, byte)
}

fn place<K: MapKind>(
    rt: &impl Abort,
    objects: &mut Objects<K>,
    id: u32,
    kind: K,
) -> Option<PlaceFault> {
    match objects.charged().checked_add(kind.charge()) {
        Some(_) => objects.place(id, kind).err(),
        None => panic!(rt; "too many bytes"),
    }
}

// Both boxes, each charged 10.
fn placed<K: MapKind>(rt: &impl Abort, alloc: Global, first: K, second: K) -> Objects<K> {
    let mut objects = Objects::new(alloc);
    assert!(rt; place(rt, &mut objects, 1, first).is_none());
    assert!(rt; place(rt, &mut objects, 2, second).is_none());
    assert_eq!(rt; objects.charged(), 20);
    objects
}

// The first box is written and turned back, and the other stays as it was.
fn is_turned_back<K: MapKind>(rt: &impl Abort, alloc: Global, objects: &mut Objects<K>) {
    let left = objects
        .operate_at(1, alloc, &write(alloc, 7))
        .expect(rt, "a write");
    let mut back = left.kept.back();
    assert!(rt; holds(objects, alloc, 1, 7));
    assert!(rt; holds(objects, alloc, 2, 0));
    assert!(rt; objects.fits_at(1, &back));
    assert!(rt; objects.turn_at(1, &mut back).is_ok());
    assert!(rt; holds(objects, alloc, 1, 0));
    assert_eq!(rt; objects.work(), 5);
}

// The second box alone is kept.
fn drops_the_first<K: MapKind>(rt: &impl Abort, alloc: Global, objects: &mut Objects<K>) {
    let mut maps = Vec::new(alloc);
    assert!(rt; maps.push(2).is_ok());
    let progs = Vec::new(alloc);
    objects.drop_unreachable(&Keep { maps, progs });
    assert_eq!(rt; objects.charged(), 10);
    assert!(rt; holds(objects, alloc, 2, 0) && !holds(objects, alloc, 1, 0));
}

fn one_of_two<K: MapKind>(rt: &impl Abort, alloc: Global, first: K, second: K) {
    let mut objects = placed(rt, alloc, first, second);
    is_turned_back(rt, alloc, &mut objects);
    drops_the_first(rt, alloc, &mut objects);
}

fn boxed(rt: &impl Abort, alloc: Global) -> Box<dyn MapKind> {
    Box::new(alloc, array(rt, alloc)).ok().expect(rt, "a box")
}

#[test]
fn boxes_of_one_type_and_of_unknown_make(rt: HostRuntime) {
    let alloc = rt.alloc();
    one_of_two(&rt, alloc, array(&rt, alloc), array(&rt, alloc));
    let (first, second) = (boxed(&rt, alloc), boxed(&rt, alloc));
    one_of_two::<Box<dyn MapKind>>(&rt, alloc, first, second);
}

#[test]
fn what_is_not_placed(rt: HostRuntime) {
    let alloc = rt.alloc();
    let mut objects = Objects::new(alloc);
    let mut used = array(&rt, alloc);
    assert!(rt; used.change(&write(alloc, 7)).is_ok());
    assert!(rt; place(&rt, &mut objects, 1, used) == Some(PlaceFault::WrongBlank));
    assert!(rt; place(&rt, &mut objects, 1, array(&rt, alloc)).is_none());
    let again = array(&rt, alloc);
    assert!(rt; place(&rt, &mut objects, 1, again) == Some(PlaceFault::IdTaken));
    let missing = objects.operate_at(9, alloc, &write(alloc, 7)).err();
    assert!(rt; missing == Some(MapFault::Errno(Errno::ENOENT)));
    assert!(rt; is_among(&[2, 5, 9], 5) && !is_among(&[2, 5, 9], 4));
}
