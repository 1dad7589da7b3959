//! Exchanges that fit a map, and others.

use bt_hash::HashKind;
use bt_lpm::LpmKind;
use bt_mapkind::{Back, Bytes, MapAttr, MapKind, MapOp, MapType};
use bt_nested::OuterKind;

// Values of four bytes in two entries.
const fn attr(kind: MapType, key_size: u32, flags: u32) -> MapAttr {
    MapAttr {
        kind,
        key_size,
        value_size: 4,
        max_entries: 2,
        flags,
    }
}

// A full hash takes a new value under a key that it has, and none under another.
#[test]
fn an_exchange_that_does_not_fit_a_hash(rt: HostRuntime) {
    let attr = attr(MapType::Hash, 1, 0);
    let mut hash = HashKind::new(rt.alloc(), attr).expect(&rt, "a hash");
    for key in [1, 2] {
        let update = MapOp::Update {
            key: Bytes::of(rt.alloc(), &[key]).unwrap(),
            value: Bytes::of(rt.alloc(), b"nine").unwrap(),
            flag: 0,
        };
        assert!(rt; hash.change(&update).is_ok());
    }
    for (key, fits) in [(1, true), (2, true), (3, false)] {
        let back = Back::Key {
            key: Bytes::of(rt.alloc(), &[key]).unwrap(),
            value: Bytes::of(rt.alloc(), b"more"),
        };
        assert!(rt; hash.fits(&back) == fits);
    }
}

// Bits past a prefix are zero, and no prefix is longer than its data.
#[test]
fn an_exchange_that_does_not_fit_a_trie(rt: HostRuntime) {
    let attr = attr(MapType::LpmTrie, 8, 1);
    let trie = LpmKind::new(rt.alloc(), attr).expect(&rt, "a trie");
    for (bits, last, fits) in [(8, 0, true), (8, 1, false), (33, 0, false)] {
        let back = Back::Key {
            key: Bytes::of(rt.alloc(), &[bits, 0, 0, 0, 10, 0, 0, last]).unwrap(),
            value: Bytes::of(rt.alloc(), b"more"),
        };
        assert!(rt; trie.fits(&back) == fits);
    }
}

#[test]
fn an_exchange_that_does_not_fit_an_array_of_maps(rt: HostRuntime) {
    let attr = attr(MapType::ArrayOfMaps, 4, 0);
    let outer = OuterKind::new(rt.alloc(), attr).expect(&rt, "an array of maps");
    for (index, fits) in [(1, true), (2, false)] {
        let key = Bytes::of(rt.alloc(), &[index, 0, 0, 0]).unwrap();
        assert!(rt; outer.fits(&Back::Link { key, id: Some(5) }) == fits);
    }
}
